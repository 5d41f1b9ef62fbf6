//! Expressions up to a depth, and expressions that no larger one covers.
ghost use Rattle.c_tree.specs.SyntaxOf.{expr_of};
ghost use Rattle.c_parse.specs.Expressions as spec;
ghost use Rattle.c_parse.specs.Reading.{Reads};

use crate::cursor::Cursor;
use crate::grammar::{Grammar, Part};
use crate::stops::Stop;
use c_tree::syntax::Expr;
use mpc_values::limits::MAX_EXPRESSION_TOKENS;
use std::alloc::Global;

/// A part of a marked production, in which so many marked productions may stand in one another.
pub fn expr(alloc: Global, cursor: &mut Cursor<'_>, depth: usize, part: Part) -> Result<Expr, Stop>
    ensures { Reads expr_of (spec.expr depth part cursor.old) result cursor.new }
{
    Grammar { alloc, depth, expr }.part(cursor, part)
}

/// An expression that no larger one covers, of at most 1,024 tokens. It is read in a window, so that
/// no larger tree is made.
#[tactic(auto, unfolding(crate::specs::Expressions::expression, crate::specs::Reading::within))]
pub fn expression(
    alloc: Global,
    cursor: &mut Cursor<'_>,
    depth: usize,
    part: Part,
) -> Result<Expr, Stop>
    ensures { Reads expr_of (spec.expression depth part cursor.old) result cursor.new }
{
    let mut window = cursor.window(MAX_EXPRESSION_TOKENS + 1);
    let before = window.left();
    let read = expr(alloc, &mut window, depth, part);
    let taken = before.saturating_sub(window.left());
    if taken <= MAX_EXPRESSION_TOKENS {
        cursor.skip(taken);
        return read;
    }
    cursor.skip(MAX_EXPRESSION_TOKENS);
    match read {
        Err(Stop::Memory) => Err(Stop::Memory),
        _ => Err(Stop::Refused),
    }
}
