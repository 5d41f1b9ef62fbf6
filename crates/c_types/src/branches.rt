//! Typed statements, made from what a pass found of their parts, or the first refusal in them.
ghost use Rattle.std.specs.Prelude.{◌≡◌, IfOk, Ok, Option, List, [], ◌∷◌, ◌++◌, map};
ghost use Rattle.c_tree.specs.ProgramOf as program;
ghost use Rattle.c_tree.specs.Programs as p;
ghost use Rattle.c_types.specs.Env.{first_some};
ghost use Rattle.c_types.specs.Nodes.{blame};
ghost use Rattle.c_types.specs.Outcomes.{fault};
ghost use Rattle.c_types.specs.Rules.{rule};
ghost use Rattle.c_types.specs.Statements as statements;
ghost use Rattle.c_types.specs.declared.shapes.Shape.TheVariants as shape;
ghost use Rattle.c_types.specs.declared.shapes.StatementShape.TheVariants as statement;

use crate::kinds::Kind;
use crate::making::converted;
use crate::outcomes::{blamed, both};
use crate::refusals::TypeRefusal;
use crate::shapes::{Shape, StatementShape};
use c_tree::program::{Expr, Stmt};
use c_tree::syntax::Place;
use mpc_values::Memory;
use std::alloc::Global;

/// A block of these items.
pub fn block_made(items: Vec<Stmt>, end_line: u32) -> Stmt
    ensures { program.stmt_of result ≡ p.Block (statements.onto (map program.stmt_of items.items) p.Done) end_line }
{
    Stmt::Block(items, end_line)
}

/// A block without items.
pub fn empty_block(alloc: Global, line: u32) -> Stmt
    ensures { program.stmt_of result ≡ statements.empty_block line }
{
    block_made(Vec::new(alloc), line)
}

fn tested(kind: Option<Kind>) -> Shape
    ensures { result ≡ shape.Statement (statement.Tested kind) }
{
    Shape::Statement(StatementShape::Tested(kind))
}

/// A returned value becomes one of the type that is due.
pub fn returned(
    alloc: Global,
    due: Kind,
    given: Option<Option<Kind>>,
    value: Option<Expr>,
) -> Result<Option<Expr>, Memory>
    ensures { IfOk result (λ r. program.maybe_of r ≡ statements.returned_as due given (program.maybe_of value)) }
{
    match (given, value) {
        (Some(given), Some(value)) => Ok(Some(converted(alloc, Some(due), given, value)?)),
        (_, value) => Ok(value),
    }
}

// A for without a condition is no node.
fn maybe_blamed<A: Drop>(
    line: u32,
    test: Option<Option<Kind>>,
    inside: Result<A, TypeRefusal>,
) -> Result<A, TypeRefusal>
    ensures refused { fault result ≡ statements.maybe_blame line test (fault inside) }
    ensures made { IfOk result (λ made. inside ≡ Ok made) }
{
    match test {
        Some(kind) => blamed(tested(kind), line, inside),
        None => inside,
    }
}

/// An if without an else.
pub fn if_made(
    alloc: Global,
    at: Place,
    kind: Option<Kind>,
    test: Result<Expr, TypeRefusal>,
    body: Result<Stmt, TypeRefusal>,
) -> Result<Result<Stmt, TypeRefusal>, Memory>
    ensures refused { IfOk result (λ r. fault r ≡ blame (rule (shape.Statement (statement.Tested kind))) at.line (first_some (fault test) (fault body))) }
    ensures made { (t : p.Expr) (b : p.Stmt) → IfOk test (λ v. program.expr_of v ≡ t) → IfOk body (λ v. program.stmt_of v ≡ b)
        → IfOk result (λ r. IfOk r (λ made. program.stmt_of made ≡ p.If at.line t b (statements.empty_block 0))) }
{
    match blamed(tested(kind), at.line, both(test, body)) {
        Ok((test, body)) => Ok(Ok(Stmt::If(
            at.line,
            test,
            Box::new(alloc, body)?,
            Box::new(alloc, empty_block(alloc, 0))?,
        ))),
        Err(refusal) => Ok(Err(refusal)),
    }
}

/// An if with an else.
pub fn if_else_made(
    alloc: Global,
    at: Place,
    kind: Option<Kind>,
    test: Result<Expr, TypeRefusal>,
    body: Result<Stmt, TypeRefusal>,
    other: Result<Stmt, TypeRefusal>,
) -> Result<Result<Stmt, TypeRefusal>, Memory>
    ensures refused { IfOk result (λ r. fault r ≡ blame (rule (shape.Statement (statement.Tested kind))) at.line (first_some (fault test) (first_some (fault body) (fault other)))) }
    ensures made { (t : p.Expr) (b o : p.Stmt) → IfOk test (λ v. program.expr_of v ≡ t) → IfOk body (λ v. program.stmt_of v ≡ b) → IfOk other (λ v. program.stmt_of v ≡ o)
        → IfOk result (λ r. IfOk r (λ made. program.stmt_of made ≡ p.If at.line t b o)) }
{
    match blamed(tested(kind), at.line, both(test, both(body, other))) {
        Ok((test, (body, other))) => Ok(Ok(Stmt::If(
            at.line,
            test,
            Box::new(alloc, body)?,
            Box::new(alloc, other)?,
        ))),
        Err(refusal) => Ok(Err(refusal)),
    }
}

pub fn while_made(
    alloc: Global,
    at: Place,
    kind: Option<Kind>,
    test: Result<Expr, TypeRefusal>,
    body: Result<Stmt, TypeRefusal>,
) -> Result<Result<Stmt, TypeRefusal>, Memory>
    ensures refused { IfOk result (λ r. fault r ≡ blame (rule (shape.Statement (statement.Tested kind))) at.line (first_some (fault test) (fault body))) }
    ensures made { (t : p.Expr) (b : p.Stmt) → IfOk test (λ v. program.expr_of v ≡ t) → IfOk body (λ v. program.stmt_of v ≡ b)
        → IfOk result (λ r. IfOk r (λ made. program.stmt_of made ≡ p.While at.line t b)) }
{
    match blamed(tested(kind), at.line, both(test, body)) {
        Ok((test, body)) => Ok(Ok(Stmt::While(at.line, test, Box::new(alloc, body)?))),
        Err(refusal) => Ok(Err(refusal)),
    }
}

pub fn do_made(
    alloc: Global,
    at: Place,
    kind: Option<Kind>,
    body: Result<Stmt, TypeRefusal>,
    test: Result<Expr, TypeRefusal>,
) -> Result<Result<Stmt, TypeRefusal>, Memory>
    ensures refused { IfOk result (λ r. fault r ≡ blame (rule (shape.Statement (statement.Tested kind))) at.line (first_some (fault body) (fault test))) }
    ensures made { (b : p.Stmt) (t : p.Expr) → IfOk body (λ v. program.stmt_of v ≡ b) → IfOk test (λ v. program.expr_of v ≡ t)
        → IfOk result (λ r. IfOk r (λ made. program.stmt_of made ≡ p.DoWhile at.line b t)) }
{
    match blamed(tested(kind), at.line, both(body, test)) {
        Ok((body, test)) => Ok(Ok(Stmt::DoWhile(at.line, Box::new(alloc, body)?, test))),
        Err(refusal) => Ok(Err(refusal)),
    }
}

// A for behind the items of its head.
fn for_behind(
    alloc: Global,
    line: u32,
    head: Vec<Stmt>,
    test: Option<Expr>,
    step: Option<Expr>,
    body: Stmt,
) -> Result<Stmt, Memory>
    ensures { IfOk result (λ r. program.stmt_of r ≡ statements.block_of (map program.stmt_of head.items ++ p.For line (program.maybe_of test) (program.maybe_of step) (program.stmt_of body) ∷ []) line) }
{
    let mut items = head;
    items.push(Stmt::For(line, test, step, Box::new(alloc, body)?))?;
    Ok(block_made(items, line))
}

/// A for: the items of its head, its condition, its step and its body.
pub fn for_made(
    alloc: Global,
    at: Place,
    kind: Option<Option<Kind>>,
    head: Result<Vec<Stmt>, TypeRefusal>,
    test: Result<Option<Expr>, TypeRefusal>,
    step: Result<Option<Expr>, TypeRefusal>,
    body: Result<Stmt, TypeRefusal>,
) -> Result<Result<Stmt, TypeRefusal>, Memory>
    ensures refused { IfOk result (λ r. fault r ≡ statements.maybe_blame at.line kind (first_some (fault head) (first_some (fault test) (first_some (fault step) (fault body))))) }
    ensures made { (h : List p.Stmt) (t s : Option p.Expr) (b : p.Stmt) → IfOk head (λ v. map program.stmt_of v.items ≡ h) → IfOk test (λ v. program.maybe_of v ≡ t)
        → IfOk step (λ v. program.maybe_of v ≡ s) → IfOk body (λ v. program.stmt_of v ≡ b)
        → IfOk result (λ r. IfOk r (λ made. program.stmt_of made ≡ statements.block_of (h ++ p.For at.line t s b ∷ []) at.line)) }
{
    let inside = both(head, both(test, both(step, body)));
    match maybe_blamed(at.line, kind, inside) {
        Ok((head, (test, (step, body)))) => {
            Ok(Ok(for_behind(alloc, at.line, head, test, step, body)?))
        }
        Err(refusal) => Ok(Err(refusal)),
    }
}

/// A single, by what the rules read of it.
pub fn single_made(
    alloc: Global,
    at: Place,
    shape: Shape,
    number: u32,
    nowait: bool,
    body: Result<Stmt, TypeRefusal>,
) -> Result<Result<Stmt, TypeRefusal>, Memory>
    ensures refused { IfOk result (λ r. fault r ≡ blame (rule shape) at.line (fault body)) }
    ensures made { (b : p.Stmt) → IfOk body (λ v. program.stmt_of v ≡ b)
        → IfOk result (λ r. IfOk r (λ made. program.stmt_of made ≡ p.Single at.line number nowait b)) }
{
    match blamed(shape, at.line, body) {
        Ok(body) => Ok(Ok(Stmt::Single(at.line, number, nowait, Box::new(alloc, body)?))),
        Err(refusal) => Ok(Err(refusal)),
    }
}
