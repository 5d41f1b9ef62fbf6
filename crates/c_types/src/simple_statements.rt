//! Statements that hold no others: what a pass finds of them.
ghost use Rattle.std.specs.Prelude.{◌≡◌, IfOk, OnOk, Ok, [], None, map, length, option_map};
ghost use Rattle.c_tree.specs.ProgramOf as program;
ghost use Rattle.c_tree.specs.Syntax as x;
ghost use Rattle.c_tree.specs.SyntaxOf.{expr_of, maybe_of, declaration_of, head_of, stmt_of};
ghost use Rattle.c_types.specs.Declarations.{declaration_outline};
ghost use Rattle.c_types.specs.Expressions.{outline};
ghost use Rattle.c_types.specs.Nodes as nodes;
ghost use Rattle.c_types.specs.Nodes.{first_of};
ghost use Rattle.c_types.specs.Outcomes.{fault};
ghost use Rattle.c_types.specs.Statements as statements;
ghost use Rattle.c_types.specs.declared.shapes.Shape.TheVariants as shape;
ghost use Rattle.c_types.specs.declared.shapes.StatementShape.TheVariants as statement;

use crate::branches::{block_made, returned};
use crate::declarations::pass_declaration;
use crate::expressions::{Looked, look};
use crate::kinds::Kind;
use crate::names::Names;
use crate::outcomes::blamed;
use crate::refusals::TypeRefusal;
use crate::shapes::{Shape, StatementShape};
use crate::sharing::levels_of;
use c_tree::program::{Construct, HlsKind, Stmt};
use c_tree::syntax::{Declaration, Expr, ForHead, Place};
use c_tree::{Identifiers, program, syntax};
use mpc_values::{Level, Memory};
use std::alloc::Global;

/// What a pass over an expression finds, where there is one.
#[derive(Drop)]
pub struct LookedMaybe {
    pub kind: Option<Option<Kind>>,
    pub made: Result<Option<program::Expr>, TypeRefusal>,
}

pub fn look_maybe(alloc: Global, names: &Names, e: &Option<Expr>) -> Result<LookedMaybe, Memory>
    ensures kind { IfOk result (λ r. r.kind ≡ statements.maybe_kind names.now (maybe_of e.now)) }
    ensures first { IfOk result (λ r. fault r.made ≡ first_of (statements.maybe_outline names.now (maybe_of e.now))) }
    ensures made { IfOk result (λ r. IfOk r.made (λ value. program.maybe_of value ≡ statements.maybe_typed names.now (maybe_of e.now))) }
{
    match e {
        None => Ok(LookedMaybe {
            kind: None,
            made: Ok(None),
        }),
        Some(e) => {
            let Looked { kind, made } = look(alloc, names, None, e)?;
            let made = match made {
                Ok(value) => Ok(Some(value)),
                Err(refusal) => Err(refusal),
            };
            Ok(LookedMaybe {
                kind: Some(kind),
                made,
            })
        }
    }
}

pub fn pass_eval(
    alloc: Global,
    names: &Names,
    at: Place,
    value: &Expr,
) -> Result<Result<Stmt, TypeRefusal>, Memory>
    ensures first { IfOk result (λ r. fault r ≡ first_of (outline names.now None (expr_of value.now))) }
    ensures made { IfOk result (λ r. IfOk r (λ made. program.stmt_of made ≡ statements.stmt_made names.now (x.Eval at (expr_of value.now)))) }
{
    let Looked { made, .. } = look(alloc, names, None, value)?;
    match made {
        Ok(value) => Ok(Ok(Stmt::Eval(at.line, value))),
        Err(refusal) => Ok(Err(refusal)),
    }
}

/// A declaration that is no item of a block.
pub fn pass_declare(
    alloc: Global,
    names: &mut Names,
    declaration: &Declaration,
) -> Result<Result<Stmt, TypeRefusal>, Memory>
    ensures names { OnOk result (names.new ≡ statements.after names.old (x.Declare (declaration_of declaration.now))) }
    ensures first { IfOk result (λ r. fault r ≡ first_of (declaration_outline names.old (declaration_of declaration.now))) }
    ensures made { IfOk result (λ r. IfOk r (λ made. program.stmt_of made ≡ statements.stmt_made names.old (x.Declare (declaration_of declaration.now)))) }
{
    match pass_declaration(alloc, names, declaration)? {
        Ok(items) => Ok(Ok(block_made(items, 0))),
        Err(refusal) => Ok(Err(refusal)),
    }
}

pub fn pass_return(
    alloc: Global,
    names: &Names,
    at: Place,
    value: &Option<Expr>,
) -> Result<Result<Stmt, TypeRefusal>, Memory>
    ensures first { IfOk result (λ r. fault r ≡ first_of (nodes.At at.line (shape.Statement (statement.Returned names.now.returns (statements.maybe_kind names.now (maybe_of value.now)))) (statements.maybe_outline names.now (maybe_of value.now)))) }
    ensures made { IfOk result (λ r. IfOk r (λ made. program.stmt_of made ≡ statements.stmt_made names.now (x.Return at (maybe_of value.now)))) }
{
    let due = names.returns;
    let LookedMaybe { kind, made } = look_maybe(alloc, names, value)?;
    let shape = Shape::Statement(StatementShape::Returned(due, kind));
    match blamed(shape, at.line, made) {
        Ok(value) => Ok(Ok(Stmt::Return(at.line, returned(alloc, due, kind, value)?))),
        Err(refusal) => Ok(Err(refusal)),
    }
}

/// A break or continue.
pub fn jumped(at: Place, in_loop: bool, made: Stmt) -> Result<Stmt, TypeRefusal>
    ensures first { fault result ≡ first_of (nodes.At at.line (shape.Statement (statement.Jumped in_loop)) nodes.Empty) }
    ensures made { IfOk result (λ r. r ≡ made) }
{
    let shape = Shape::Statement(StatementShape::Jumped(in_loop));
    blamed(shape, at.line, Ok(made))
}

/// The head of a for, in the scope of the statement.
pub fn pass_head(
    alloc: Global,
    names: &mut Names,
    line: u32,
    head: &ForHead,
) -> Result<Result<Vec<Stmt>, TypeRefusal>, Memory>
    ensures names { OnOk result (names.new ≡ statements.after_head names.old (head_of head.now)) }
    ensures first { IfOk result (λ r. fault r ≡ first_of (statements.head_outline names.old (head_of head.now))) }
    ensures made { IfOk result (λ r. IfOk r (λ items. map program.stmt_of items.items ≡ statements.head_made names.old line (head_of head.now))) }
{
    match head {
        ForHead::Nothing => Ok(Ok(Vec::new(alloc))),
        ForHead::Declared(declaration) => pass_declaration(alloc, names, declaration),
        ForHead::Evaluated(value) => {
            let Looked { made, .. } = look(alloc, names, None, value)?;
            match made {
                Ok(value) => Ok(Ok(vec![in alloc; Stmt::Eval(line, value)]?)),
                Err(refusal) => Ok(Err(refusal)),
            }
        }
    }
}

/// The next statement that shares variables: its number.
pub fn next_construct(names: &mut Names, kind: HlsKind, found: Option<Level>) -> Result<u32, Memory>
    ensures names { OnOk result (names.new ≡ statements.with_construct kind found names.old) }
    ensures number { IfOk result (λ number. number ≡ length names.old.constructs) }
{
    let number = u32::try_from(names.constructs.len()).map_err(|_| Memory)?;
    let level = found.unwrap_or(Level::Core);
    names.constructs.push(Construct { kind, level })?;
    Ok(number)
}

pub fn pass_barrier(
    names: &mut Names,
    at: Place,
    all: &Identifiers,
) -> Result<Result<Stmt, TypeRefusal>, Memory>
    ensures names { OnOk result (names.new ≡ statements.after names.old (x.Barrier at all.now)) }
    ensures first { IfOk result (λ r. fault r ≡ first_of (nodes.At at.line (statements.barrier_shape names.old all.now) nodes.Empty)) }
    ensures made { IfOk result (λ r. IfOk r (λ made. program.stmt_of made ≡ statements.stmt_made names.old (x.Barrier at all.now))) }
{
    let found = levels_of(true, names, all.as_slice());
    let number = next_construct(names, HlsKind::Barrier, found)?;
    let shape = Shape::Statement(StatementShape::Barrier {
        are_shared: found.is_some(),
        before: number as usize,
    });
    Ok(blamed(shape, at.line, Ok(Stmt::Barrier(at.line, number))))
}

/// The declaration that a statement is.
pub fn declaration_in(s: &syntax::Stmt) -> Option<&Declaration>
    ensures { option_map (λ d. declaration_of d.now) result ≡ statements.declared_in (stmt_of s.now) }
{
    match s {
        syntax::Stmt::Declare(declaration) => Some(declaration),
        _ => None,
    }
}
