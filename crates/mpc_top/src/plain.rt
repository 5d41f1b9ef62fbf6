//! Whether a program uses no MPI function and shares no variable.
ghost use Rattle.std.specs.Prelude.{◌≡◌};
ghost use Rattle.std.specs.List.{list_all};
ghost use Rattle.c_tree.specs.ProgramOf.{expr_of, exprs_of, maybe_of, stmt_of, stmts_of, function_of, program_of};
ghost use Rattle.c_compile.specs.Plain as plain;

use c_tree::program::{Callee, Expr, Function, Program, Stmt};
use mpc_base::StaticVar;

fn is_plain_callee(callee: &Callee) -> bool
    ensures { result ≡ plain.is_plain_callee callee.now }
{
    match callee {
        Callee::Function(_) | Callee::Print(_) => true,
        Callee::Mpi(_) => false,
    }
}

#[cycle(expressions)]
fn is_plain_expr(e: &Expr) -> bool
    ensures { result ≡ plain.is_plain_expr (expr_of e.now) }
{
    match e {
        Expr::Constant(_) | Expr::Local(_) | Expr::Object(_) | Expr::StepLocal(_, _, _) => true,
        Expr::Load(_, part)
        | Expr::SetLocal(_, part)
        | Expr::UpdateLocal(_, _, part)
        | Expr::StepStore(_, _, part)
        | Expr::Negate(_, part)
        | Expr::Complement(part)
        | Expr::Not(part)
        | Expr::Narrow(part)
        | Expr::Malloc(_, part)
        | Expr::Free(part) => is_plain_expr(part),
        Expr::Store(left, right)
        | Expr::UpdateStore(_, left, right)
        | Expr::Arithmetic(_, _, left, right)
        | Expr::Compare(_, left, right)
        | Expr::Same(_, left, right)
        | Expr::And(left, right)
        | Expr::Or(left, right)
        | Expr::Offset(_, _, left, right) => is_plain_expr(left) && is_plain_expr(right),
        Expr::Choice(test, yes, no) => {
            is_plain_expr(test) && (is_plain_expr(yes) && is_plain_expr(no))
        }
        Expr::Apply(callee, arguments) => is_plain_callee(callee) && are_plain_exprs(arguments),
    }
}

#[cycle(expressions)]
fn are_plain_exprs(all: &[Expr]) -> bool
    ensures { result ≡ plain.are_plain_exprs (exprs_of all.now) }
{
    for e in all {
        if !is_plain_expr(e) {
            return false;
        }
    }
    true
}

fn is_plain_option(value: &Option<Expr>) -> bool
    ensures { result ≡ plain.is_plain_option (maybe_of value.now) }
{
    match value {
        None => true,
        Some(value) => is_plain_expr(value),
    }
}

#[cycle(statements)]
fn is_plain_stmt(s: &Stmt) -> bool
    ensures { result ≡ plain.is_plain_stmt (stmt_of s.now) }
{
    match s {
        Stmt::Unset(_) | Stmt::New(_, _, _) | Stmt::Break(_) | Stmt::Continue(_) => true,
        Stmt::Single(_, _, _, _) | Stmt::Barrier(_, _) => false,
        Stmt::Eval(_, value) => is_plain_expr(value),
        Stmt::Return(_, value) => is_plain_option(value),
        Stmt::Block(items, _) => are_plain_stmts(items),
        Stmt::If(_, test, body, other) => {
            is_plain_expr(test) && (is_plain_stmt(body) && is_plain_stmt(other))
        }
        Stmt::While(_, test, body) => is_plain_expr(test) && is_plain_stmt(body),
        Stmt::DoWhile(_, body, test) => is_plain_stmt(body) && is_plain_expr(test),
        Stmt::For(_, test, step, body) => {
            is_plain_option(test) && (is_plain_option(step) && is_plain_stmt(body))
        }
    }
}

#[cycle(statements)]
fn are_plain_stmts(all: &[Stmt]) -> bool
    ensures { result ≡ plain.are_plain_stmts (stmts_of all.now) }
{
    for s in all {
        if !is_plain_stmt(s) {
            return false;
        }
    }
    true
}

fn is_plain_function(function: &Function) -> bool
    ensures { result ≡ plain.is_plain_function (function_of function.now) }
{
    are_plain_stmts(function.body.as_slice())
}

fn are_plain_functions(functions: &[Function]) -> bool
    ensures { result ≡ list_all (λ f. plain.is_plain_function (function_of f)) functions.now }
{
    functions.iter().all(|function| is_plain_function(function))
}

fn are_plain_variables(variables: &[StaticVar]) -> bool
    ensures { result ≡ list_all plain.is_plain_variable variables.now }
{
    variables.iter().all(|variable| variable.level.is_none())
}

/// Whether a program calls no MPI function, has no single and no barrier, and has no variable with a
/// level.
#[tactic(auto, using(crate::proofs::PlainRows::listed_plain))]
pub fn is_plain(program: &Program) -> bool
    ensures { result ≡ plain.is_plain (program_of program.now) }
{
    are_plain_functions(program.functions.as_slice())
        && are_plain_variables(program.variables.as_slice())
}
