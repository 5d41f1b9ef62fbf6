//! How control leaves a statement, and whether one in it shares variables.
ghost use Rattle.std.specs.Prelude.{◌≡◌};
ghost use Rattle.c_tree.specs.SyntaxOf.{stmt_of, stmts_of};
ghost use Rattle.c_types.specs.Statements as statements;

use crate::kinds::Escapes;
use crate::sharing::{escapes_both, escapes_loop, escapes_sharing, stays};
use c_tree::syntax::Stmt;

/// How control may leave a statement but at its end, and whether one in it shares variables.
#[cycle(escapes)]
pub fn escapes(s: &Stmt) -> Escapes
    ensures { result ≡ statements.escapes (stmt_of s.now) }
{
    match s {
        Stmt::Empty(_) | Stmt::Eval(_, _) | Stmt::Declare(_) => stays(),
        Stmt::Block(_, items, _) => {
            let all = escapes_all(items);
            all
        }
        Stmt::If(_, _, body) => escapes(body),
        Stmt::IfElse(_, _, body, other) => escapes_both(escapes(body), escapes(other)),
        Stmt::While(_, _, body) | Stmt::DoWhile(_, body, _) | Stmt::For(_, _, _, _, body) => {
            escapes_loop(escapes(body))
        }
        Stmt::Return(_, _) => Escapes {
            returns: true,
            jumps: false,
            shares: false,
        },
        Stmt::Break(_) | Stmt::Continue(_) => Escapes {
            returns: false,
            jumps: true,
            shares: false,
        },
        Stmt::Single(_, _, _, body) => escapes_sharing(escapes(body)),
        Stmt::Barrier(_, _) => escapes_sharing(stays()),
    }
}

#[cycle(escapes)]
fn escapes_all(all: &[Stmt]) -> Escapes
    ensures { result ≡ statements.escapes_all (stmts_of all.now) }
{
    let mut found = stays();
    for s in all {
        found = escapes_both(found, escapes(s));
    }
    found
}
