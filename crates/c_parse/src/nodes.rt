//! Nodes of the tree, with their parts on the heap.
ghost use Rattle.std.specs.Prelude.{◌≡◌, IfOk, map};
ghost use Rattle.c_tree.specs.Syntax as x;
ghost use Rattle.c_tree.specs.SyntaxOf.{body_of, expr_of, head_of, maybe_of, stmt_of};
ghost use Rattle.c_parse.specs.Signs.{prefixed as prefixed_of};
ghost use Rattle.c_parse.specs.Grammar.{arguments_of};
ghost use Rattle.c_parse.specs.StatementGrammar.{block_of, items_of};

use crate::signs::Prefix;
use c_tree::syntax::{Binary, Body, Change, Expr, ForHead, Place, Stmt, TypeName};
use c_tree::{Identifier, Identifiers};
use mpc_values::Memory;
use std::alloc::Global;

pub fn call(at: Place, name: Identifier, arguments: Vec<Expr>) -> Expr
    ensures { expr_of result ≡ x.Call at name (arguments_of (map expr_of arguments.items)) }
{
    Expr::Call(at, name, arguments)
}

pub fn index(alloc: Global, at: Place, array: Expr, index: Expr) -> Result<Expr, Memory>
    ensures { IfOk result (λ e. expr_of e ≡ x.Index at (expr_of array) (expr_of index)) }
{
    Ok(Expr::Index(at, Box::new(alloc, array)?, Box::new(alloc, index)?))
}

pub fn field(alloc: Global, at: Place, operand: Expr, name: Identifier) -> Result<Expr, Memory>
    ensures { IfOk result (λ e. expr_of e ≡ x.Field at (expr_of operand) name) }
{
    Ok(Expr::Field(at, Box::new(alloc, operand)?, name))
}

pub fn postfix(alloc: Global, at: Place, change: Change, operand: Expr) -> Result<Expr, Memory>
    ensures { IfOk result (λ e. expr_of e ≡ x.Postfix at change (expr_of operand)) }
{
    Ok(Expr::Postfix(at, change, Box::new(alloc, operand)?))
}

pub fn prefixed(alloc: Global, at: Place, sign: Prefix, operand: Expr) -> Result<Expr, Memory>
    ensures { IfOk result (λ e. expr_of e ≡ prefixed_of at sign (expr_of operand)) }
{
    let operand = Box::new(alloc, operand)?;
    match sign {
        Prefix::Sign(sign) => Ok(Expr::Unary(at, sign, operand)),
        Prefix::Step(change) => Ok(Expr::Prefix(at, change, operand)),
    }
}

pub fn cast(alloc: Global, at: Place, to: TypeName, operand: Expr) -> Result<Expr, Memory>
    ensures { IfOk result (λ e. expr_of e ≡ x.Cast at to (expr_of operand)) }
{
    Ok(Expr::Cast(at, to, Box::new(alloc, operand)?))
}

pub fn binary(
    alloc: Global,
    at: Place,
    sign: Binary,
    left: Expr,
    right: Expr,
) -> Result<Expr, Memory>
    ensures { IfOk result (λ e. expr_of e ≡ x.Binary' at sign (expr_of left) (expr_of right)) }
{
    Ok(Expr::Binary(at, sign, Box::new(alloc, left)?, Box::new(alloc, right)?))
}

pub fn choice(alloc: Global, at: Place, test: Expr, yes: Expr, no: Expr) -> Result<Expr, Memory>
    ensures { IfOk result (λ e. expr_of e ≡ x.Choice at (expr_of test) (expr_of yes) (expr_of no)) }
{
    Ok(Expr::Choice(
        at,
        Box::new(alloc, test)?,
        Box::new(alloc, yes)?,
        Box::new(alloc, no)?,
    ))
}

pub fn assign(
    alloc: Global,
    at: Place,
    sign: Option<Binary>,
    left: Expr,
    right: Expr,
) -> Result<Expr, Memory>
    ensures { IfOk result (λ e. expr_of e ≡ x.Assign at sign (expr_of left) (expr_of right)) }
{
    Ok(Expr::Assign(at, sign, Box::new(alloc, left)?, Box::new(alloc, right)?))
}

pub fn body(at: Place, items: Vec<Stmt>, end_line: u32) -> Body
    ensures { body_of result ≡ record { at = at; items = items_of (map stmt_of items.items); end_line = end_line } }
{
    Body {
        at,
        items,
        end_line,
    }
}

pub fn block(body: Body) -> Stmt
    ensures { stmt_of result ≡ block_of (body_of body) }
{
    Stmt::Block(body.at, body.items, body.end_line)
}

pub fn if_alone(alloc: Global, at: Place, test: Expr, body: Stmt) -> Result<Stmt, Memory>
    ensures { IfOk result (λ s. stmt_of s ≡ x.If at (expr_of test) (stmt_of body)) }
{
    Ok(Stmt::If(at, test, Box::new(alloc, body)?))
}

pub fn if_else(
    alloc: Global,
    at: Place,
    test: Expr,
    body: Stmt,
    other: Stmt,
) -> Result<Stmt, Memory>
    ensures { IfOk result (λ s. stmt_of s ≡ x.IfElse at (expr_of test) (stmt_of body) (stmt_of other)) }
{
    Ok(Stmt::IfElse(at, test, Box::new(alloc, body)?, Box::new(alloc, other)?))
}

pub fn while_loop(alloc: Global, at: Place, test: Expr, body: Stmt) -> Result<Stmt, Memory>
    ensures { IfOk result (λ s. stmt_of s ≡ x.While at (expr_of test) (stmt_of body)) }
{
    Ok(Stmt::While(at, test, Box::new(alloc, body)?))
}

pub fn do_while(alloc: Global, at: Place, body: Stmt, test: Expr) -> Result<Stmt, Memory>
    ensures { IfOk result (λ s. stmt_of s ≡ x.DoWhile at (stmt_of body) (expr_of test)) }
{
    Ok(Stmt::DoWhile(at, Box::new(alloc, body)?, test))
}

pub fn for_loop(
    alloc: Global,
    at: Place,
    head: ForHead,
    test: Option<Expr>,
    step: Option<Expr>,
    body: Stmt,
) -> Result<Stmt, Memory>
    ensures { IfOk result (λ s. stmt_of s ≡ x.For at (head_of head) (maybe_of test) (maybe_of step) (stmt_of body)) }
{
    Ok(Stmt::For(at, head, test, step, Box::new(alloc, body)?))
}

pub fn single(
    alloc: Global,
    at: Place,
    names: Identifiers,
    nowait: bool,
    body: Stmt,
) -> Result<Stmt, Memory>
    ensures { IfOk result (λ s. stmt_of s ≡ x.Single at names nowait (stmt_of body)) }
{
    Ok(Stmt::Single(at, names, nowait, Box::new(alloc, body)?))
}
