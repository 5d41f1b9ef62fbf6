//! Operations of two operands, choices and assignments (C99, sections 6.5.5 to 6.5.16).
ghost use Rattle.std.specs.Prelude.{◌≡◌, ◌≤◌};
ghost use Rattle.c_tree.specs.SyntaxOf.{expr_of};
ghost use Rattle.c_parse.specs.Expressions as spec;
ghost use Rattle.c_parse.specs.Nests.{Nests};
ghost use Rattle.c_parse.specs.Reading.{Reads};

use crate::cursor::Cursor;
use crate::grammar::{Grammar, Part};
use crate::nodes;
use crate::signs::{assigns, binary_of};
use crate::stops::Stop;
use crate::symbols::Mark;
use c_tree::syntax::{Expr, Place};
use std::alloc::Global;

// How many levels of signs between operands there are.
const LEVELS: u32 = 10;

impl<F: Fn(Global, &mut Cursor<'_>, usize, Part) -> Result<Expr, Stop>> Grammar<F> {
    // Whether no sign of this level comes next.
    #[tactic(auto, unfolding(crate::specs::Expressions::ends))]
    fn ends(&self, cursor: &Cursor<'_>, level: u32) -> bool
        ensures { result ≡ spec.ends (spec.nest self.now.depth) level cursor.now }
    {
        binary_of(level, cursor.class()).is_none()
    }

    // The sign of this level that comes next, its right operand, and what they make of the left.
    #[cycle(climb)]
    #[tactic(auto, unfolding(crate::specs::Expressions::operation))]
    fn operation(
        &self,
        cursor: &mut Cursor<'_>,
        level: u32,
        at: Place,
        left: Expr,
    ) -> Result<Expr, Stop>
        requires { Nests self.now.depth (F.pre self.now.expr) (F.post self.now.expr) }
        ensures { Reads expr_of (spec.operation (spec.nest self.now.depth) level (spec.climb (spec.nest self.now.depth) level) at (expr_of left) cursor.old) result cursor.new }
    {
        let Some(sign) = binary_of(level, cursor.class()) else {
            return Err(Stop::Refused);
        };
        cursor.advance();
        let from = cursor.place();
        let first = self.below(cursor, Part::Unary)?;
        let right = self.climb(cursor, level, from, first)?;
        Ok(nodes::binary(self.alloc, at, sign, left, right)?)
    }

    // The operations of so many levels, from the tightest, behind their first operand.
    #[cycle(climb)]
    #[tactic(auto, unfolding(crate::specs::Reading::repeat_from))]
    fn climb(
        &self,
        cursor: &mut Cursor<'_>,
        levels: u32,
        at: Place,
        first: Expr,
    ) -> Result<Expr, Stop>
        requires { Nests self.now.depth (F.pre self.now.expr) (F.post self.now.expr) }
        ensures { Reads expr_of (spec.climb (spec.nest self.now.depth) levels at (expr_of first) cursor.old) result cursor.new }
    {
        if levels == 0 {
            return Ok(first);
        }
        let mut whole = self.climb(cursor, levels - 1, at, first)?;
        for _turn in 0..cursor.left() {
            if self.ends(cursor, levels - 1) {
                return Ok(whole);
            }
            whole = self.operation(cursor, levels - 1, at, whole)?;
        }
        Ok(whole)
    }

    // What may follow the first operand.
    #[tactic(auto, unfolding(crate::specs::Expressions::choice))]
    fn choice(&self, cursor: &mut Cursor<'_>, at: Place, first: Expr) -> Result<Expr, Stop>
        requires { Nests self.now.depth (F.pre self.now.expr) (F.post self.now.expr) }
        ensures { Reads expr_of (spec.choice (spec.nest self.now.depth) at (expr_of first) cursor.old) result cursor.new }
    {
        let test = self.climb(cursor, LEVELS, at, first)?;
        if !cursor.eat(Mark::Question) {
            return Ok(test);
        }
        let yes = self.below(cursor, Part::Assign)?;
        cursor.expect(Mark::Colon)?;
        let no = self.below(cursor, Part::Cond)?;
        Ok(nodes::choice(self.alloc, at, test, yes, no)?)
    }

    // A conditional expression.
    #[tactic(auto, unfolding(crate::specs::Expressions::cond))]
    fn cond(&self, cursor: &mut Cursor<'_>) -> Result<Expr, Stop>
        requires { Nests self.now.depth (F.pre self.now.expr) (F.post self.now.expr) }
        ensures { Reads expr_of (spec.cond (spec.nest self.now.depth) cursor.old) result cursor.new }
    {
        let at = cursor.place();
        let first = self.below(cursor, Part::Unary)?;
        self.choice(cursor, at, first)
    }

    // An assignment, or a conditional expression.
    #[tactic(auto, unfolding(crate::specs::Expressions::assign))]
    fn assign(&self, cursor: &mut Cursor<'_>) -> Result<Expr, Stop>
        requires { Nests self.now.depth (F.pre self.now.expr) (F.post self.now.expr) }
        ensures { Reads expr_of (spec.assign (spec.nest self.now.depth) cursor.old) result cursor.new }
    {
        let at = cursor.place();
        let first = self.below(cursor, Part::Unary)?;
        let Some(sign) = assigns(cursor.class()) else {
            return self.choice(cursor, at, first);
        };
        cursor.advance();
        let right = self.below(cursor, Part::Assign)?;
        Ok(nodes::assign(self.alloc, at, sign, first, right)?)
    }

    /// This part of a marked production.
    #[tactic(auto, unfolding(crate::specs::Expressions::reading))]
    pub fn part(&self, cursor: &mut Cursor<'_>, part: Part) -> Result<Expr, Stop>
        requires { Nests self.now.depth (F.pre self.now.expr) (F.post self.now.expr) }
        ensures { Reads expr_of (spec.reading (spec.nest self.now.depth) part cursor.old) result cursor.new }
    {
        match part {
            Part::Assign => self.assign(cursor),
            Part::Cond => self.cond(cursor),
            Part::Unary => self.unary(cursor),
        }
    }
}
