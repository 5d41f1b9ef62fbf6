//! The pass over statements: the names behind them, the first refusal, and their typed form.
ghost use Rattle.std.specs.Prelude.{◌≡◌, IfOk, OnOk, [], ◌∷◌, map, true};
ghost use Rattle.c_tree.specs.ProgramOf as program;
ghost use Rattle.c_tree.specs.Programs as p;
ghost use Rattle.c_tree.specs.Syntax as x;
ghost use Rattle.c_tree.specs.SyntaxOf.{expr_of, maybe_of, head_of, stmt_of, stmts_of};
ghost use Rattle.c_types.specs.Nodes.{first_of};
ghost use Rattle.c_types.specs.Outcomes.{fault};
ghost use Rattle.c_types.specs.Statements as statements;

use crate::branches::{
    block_made, do_made, empty_block, for_made, if_else_made, if_made, single_made, while_made,
};
use crate::declarations::pass_declaration;
use crate::escapes::escapes;
use crate::expressions::look;
use crate::names::Names;
use crate::outcomes::appended;
use crate::refusals::TypeRefusal;
use crate::shapes::{Shape, StatementShape};
use crate::sharing::{is_closed, levels_of, single_kind};
use crate::simple_statements::{
    declaration_in, jumped, look_maybe, next_construct, pass_barrier, pass_declare, pass_eval,
    pass_head, pass_return,
};
use c_tree::program::Stmt;
use c_tree::syntax::{Expr, ForHead, Place};
use c_tree::{Identifiers, syntax};
use mpc_values::Memory;
use std::alloc::Global;

#[cycle(pass)]
fn pass_block(
    alloc: Global,
    names: &mut Names,
    in_loop: bool,
    at: Place,
    items: &[syntax::Stmt],
    end_line: u32,
) -> Result<Result<Stmt, TypeRefusal>, Memory>
    ensures names { OnOk result (names.new ≡ statements.after names.old (x.Block at (stmts_of items.now) end_line)) }
    ensures first { IfOk result (λ r. fault r ≡ first_of (statements.stmt_outline names.old in_loop (x.Block at (stmts_of items.now) end_line))) }
    ensures made { IfOk result (λ r. IfOk r (λ made. program.stmt_of made ≡ statements.stmt_made names.old (x.Block at (stmts_of items.now) end_line))) }
{
    names.enter(alloc)?;
    let made = pass_items(alloc, names, in_loop, items)?;
    names.leave();
    match made {
        Ok(items) => Ok(Ok(block_made(items, end_line))),
        Err(refusal) => Ok(Err(refusal)),
    }
}

#[cycle(pass)]
fn pass_if(
    alloc: Global,
    names: &mut Names,
    in_loop: bool,
    at: Place,
    body: &syntax::Stmt,
    test: &Expr,
) -> Result<Result<Stmt, TypeRefusal>, Memory>
    ensures names { OnOk result (names.new ≡ statements.after names.old (x.If at (expr_of test.now) (stmt_of body.now))) }
    ensures first { IfOk result (λ r. fault r ≡ first_of (statements.stmt_outline names.old in_loop (x.If at (expr_of test.now) (stmt_of body.now)))) }
    ensures made { IfOk result (λ r. IfOk r (λ made. program.stmt_of made ≡ statements.stmt_made names.old (x.If at (expr_of test.now) (stmt_of body.now)))) }
{
    let looked = look(alloc, names, None, test)?;
    let body = pass(alloc, names, in_loop, body)?;
    if_made(alloc, at, looked.kind, looked.made, body)
}

#[cycle(pass)]
fn pass_while(
    alloc: Global,
    names: &mut Names,
    in_loop: bool,
    at: Place,
    body: &syntax::Stmt,
    test: &Expr,
) -> Result<Result<Stmt, TypeRefusal>, Memory>
    ensures names { OnOk result (names.new ≡ statements.after names.old (x.While at (expr_of test.now) (stmt_of body.now))) }
    ensures first { IfOk result (λ r. fault r ≡ first_of (statements.stmt_outline names.old in_loop (x.While at (expr_of test.now) (stmt_of body.now)))) }
    ensures made { IfOk result (λ r. IfOk r (λ made. program.stmt_of made ≡ statements.stmt_made names.old (x.While at (expr_of test.now) (stmt_of body.now)))) }
{
    let looked = look(alloc, names, None, test)?;
    let body = pass(alloc, names, true, body)?;
    while_made(alloc, at, looked.kind, looked.made, body)
}

#[cycle(pass)]
fn pass_do(
    alloc: Global,
    names: &mut Names,
    in_loop: bool,
    at: Place,
    body: &syntax::Stmt,
    test: &Expr,
) -> Result<Result<Stmt, TypeRefusal>, Memory>
    ensures names { OnOk result (names.new ≡ statements.after names.old (x.DoWhile at (stmt_of body.now) (expr_of test.now))) }
    ensures first { IfOk result (λ r. fault r ≡ first_of (statements.stmt_outline names.old in_loop (x.DoWhile at (stmt_of body.now) (expr_of test.now)))) }
    ensures made { IfOk result (λ r. IfOk r (λ made. program.stmt_of made ≡ statements.stmt_made names.old (x.DoWhile at (stmt_of body.now) (expr_of test.now)))) }
{
    let body = pass(alloc, names, true, body)?;
    let looked = look(alloc, names, None, test)?;
    do_made(alloc, at, looked.kind, body, looked.made)
}

#[cycle(pass)]
fn pass_for(
    alloc: Global,
    names: &mut Names,
    in_loop: bool,
    at: Place,
    head: &ForHead,
    test: &Option<Expr>,
    step: &Option<Expr>,
    body: &syntax::Stmt,
) -> Result<Result<Stmt, TypeRefusal>, Memory>
    ensures names { OnOk result (names.new ≡ statements.after names.old (x.For at (head_of head.now) (maybe_of test.now) (maybe_of step.now) (stmt_of body.now))) }
    ensures first { IfOk result (λ r. fault r ≡ first_of (statements.stmt_outline names.old in_loop (x.For at (head_of head.now) (maybe_of test.now) (maybe_of step.now) (stmt_of body.now)))) }
    ensures made { IfOk result (λ r. IfOk r (λ made. program.stmt_of made ≡ statements.stmt_made names.old (x.For at (head_of head.now) (maybe_of test.now) (maybe_of step.now) (stmt_of body.now)))) }
{
    names.enter(alloc)?;
    let head = pass_head(alloc, names, at.line, head)?;
    let test = look_maybe(alloc, names, test)?;
    let step = look_maybe(alloc, names, step)?;
    let body = pass(alloc, names, true, body)?;
    names.leave();
    for_made(alloc, at, test.kind, head, test.made, step.made, body)
}

#[cycle(pass)]
fn pass_single(
    alloc: Global,
    names: &mut Names,
    in_loop: bool,
    at: Place,
    all: &Identifiers,
    nowait: bool,
    body: &syntax::Stmt,
) -> Result<Result<Stmt, TypeRefusal>, Memory>
    ensures names { OnOk result (names.new ≡ statements.after names.old (x.Single at all.now nowait (stmt_of body.now))) }
    ensures first { IfOk result (λ r. fault r ≡ first_of (statements.stmt_outline names.old in_loop (x.Single at all.now nowait (stmt_of body.now)))) }
    ensures made { IfOk result (λ r. IfOk r (λ made. program.stmt_of made ≡ statements.stmt_made names.old (x.Single at all.now nowait (stmt_of body.now)))) }
{
    let found = levels_of(false, names, all.as_slice());
    let number = next_construct(names, single_kind(nowait), found)?;
    let may_stand = is_closed(in_loop, escapes(body));
    let made = pass(alloc, names, in_loop, body)?;
    let shape = StatementShape::Single {
        are_shared: found.is_some(),
        may_stand,
        before: number as usize,
    };
    single_made(alloc, at, Shape::Statement(shape), number, nowait, made)
}

// A statement that is a body, or an item that is no declaration.
#[cycle(pass)]
fn pass(
    alloc: Global,
    names: &mut Names,
    in_loop: bool,
    s: &syntax::Stmt,
) -> Result<Result<Stmt, TypeRefusal>, Memory>
    ensures names { OnOk result (names.new ≡ statements.after names.old (stmt_of s.now)) }
    ensures first { IfOk result (λ r. fault r ≡ first_of (statements.stmt_outline names.old in_loop (stmt_of s.now))) }
    ensures made { IfOk result (λ r. IfOk r (λ made. program.stmt_of made ≡ statements.stmt_made names.old (stmt_of s.now))) }
{
    match s {
        syntax::Stmt::Empty(at) => Ok(Ok(empty_block(alloc, at.line))),
        syntax::Stmt::Eval(at, value) => pass_eval(alloc, names, *at, value),
        syntax::Stmt::Declare(declaration) => pass_declare(alloc, names, declaration),
        syntax::Stmt::Block(at, items, end_line) => {
            let made = pass_block(alloc, names, in_loop, *at, items, *end_line)?;
            Ok(made)
        }
        syntax::Stmt::If(at, test, body) => pass_if(alloc, names, in_loop, *at, body, test),
        syntax::Stmt::IfElse(at, test, body, other) => {
            let looked = look(alloc, names, None, test)?;
            let body = pass(alloc, names, in_loop, body)?;
            let other = pass(alloc, names, in_loop, other)?;
            if_else_made(alloc, *at, looked.kind, looked.made, body, other)
        }
        syntax::Stmt::While(at, test, body) => pass_while(alloc, names, in_loop, *at, body, test),
        syntax::Stmt::DoWhile(at, body, test) => pass_do(alloc, names, in_loop, *at, body, test),
        syntax::Stmt::For(at, head, test, step, body) => {
            pass_for(alloc, names, in_loop, *at, head, test, step, body)
        }
        syntax::Stmt::Return(at, value) => pass_return(alloc, names, *at, value),
        syntax::Stmt::Break(at) => Ok(jumped(*at, in_loop, Stmt::Break(at.line))),
        syntax::Stmt::Continue(at) => Ok(jumped(*at, in_loop, Stmt::Continue(at.line))),
        syntax::Stmt::Single(at, all, nowait, body) => {
            pass_single(alloc, names, in_loop, *at, all, *nowait, body)
        }
        syntax::Stmt::Barrier(at, all) => pass_barrier(names, *at, all),
    }
}

fn one_item(
    alloc: Global,
    made: Result<Stmt, TypeRefusal>,
) -> Result<Result<Vec<Stmt>, TypeRefusal>, Memory>
    ensures refused { IfOk result (λ r. fault r ≡ fault made) }
    ensures made { (one : p.Stmt) → IfOk made (λ made. program.stmt_of made ≡ one) → IfOk result (λ r. IfOk r (λ items. map program.stmt_of items.items ≡ one ∷ [])) }
{
    match made {
        Ok(made) => Ok(Ok(vec![in alloc; made]?)),
        Err(refusal) => Ok(Err(refusal)),
    }
}

// A statement among the items of a block: a declaration leaves items, and any other statement one.
#[cycle(pass)]
fn pass_item(
    alloc: Global,
    names: &mut Names,
    in_loop: bool,
    s: &syntax::Stmt,
) -> Result<Result<Vec<Stmt>, TypeRefusal>, Memory>
    ensures names { OnOk result (names.new ≡ statements.after names.old (stmt_of s.now)) }
    ensures first { IfOk result (λ r. fault r ≡ first_of (statements.stmt_outline names.old in_loop (stmt_of s.now))) }
    ensures made { IfOk result (λ r. IfOk r (λ items. map program.stmt_of items.items
        ≡ statements.items_of names.old (stmt_of s.now) (statements.stmt_made names.old (stmt_of s.now)))) }
{
    match declaration_in(s) {
        Some(declaration) => {
            let items = pass_declaration(alloc, names, declaration)?;
            Ok(items)
        }
        None => {
            let made = pass(alloc, names, in_loop, s)?;
            let items = one_item(alloc, made)?;
            Ok(items)
        }
    }
}

/// The items of a block, in its scope.
#[cycle(pass)]
pub fn pass_items(
    alloc: Global,
    names: &mut Names,
    in_loop: bool,
    all: &[syntax::Stmt],
) -> Result<Result<Vec<Stmt>, TypeRefusal>, Memory>
    ensures names { OnOk result (names.new ≡ statements.after_all names.old (stmts_of all.now)) }
    ensures first { IfOk result (λ r. fault r ≡ first_of (statements.stmts_outline names.old in_loop (stmts_of all.now))) }
    ensures made { IfOk result (λ r. IfOk r (λ items. statements.onto (map program.stmt_of items.items) p.Done
        ≡ statements.stmts_made names.old (stmts_of all.now))) }
{
    let mut made = Ok(Vec::new(alloc));
    for s in all {
        let next = pass_item(alloc, names, in_loop, s)?;
        made = appended(made, next)?;
    }
    Ok(made)
}
