//! Primary and postfix expressions (C99, sections 6.5.1 and 6.5.2).
ghost use Rattle.std.specs.Prelude.{◌≡◌, map};
ghost use Rattle.c_tree.specs.SyntaxOf.{expr_of};
ghost use Rattle.c_parse.specs.Expressions as spec;
ghost use Rattle.c_parse.specs.Nests.{Nests};
ghost use Rattle.c_parse.specs.Reading.{Reads, one_more, separated};
ghost use Rattle.c_parse.specs.declared.grammar.Part.TheVariants as part;

use crate::cursor::Cursor;
use crate::grammar::{Grammar, Part};
use crate::nodes;
use crate::signs::is_mark;
use crate::stops::Stop;
use crate::symbols::{Class, Mark};
use c_tree::Identifier;
use c_tree::syntax::{Expr, Place};
use mpc_values::Text;
use std::alloc::Global;

impl<F: Fn(Global, &mut Cursor<'_>, usize, Part) -> Result<Expr, Stop>> Grammar<F> {
    // The argument behind a comma, with those before it.
    fn one_more(&self, cursor: &mut Cursor<'_>, found: Vec<Expr>) -> Result<Vec<Expr>, Stop>
        requires { Nests self.now.depth (F.pre self.now.expr) (F.post self.now.expr) }
        ensures { Reads (λ v. map expr_of v.items) (one_more ((spec.nest self.now.depth).below part.Assign) (map expr_of found.items) cursor.old) result cursor.new }
    {
        cursor.advance();
        let mut longer = found;
        longer.push(self.below(cursor, Part::Assign)?)?;
        Ok(longer)
    }

    // One or more arguments.
    #[tactic(auto, unfolding(crate::specs::Reading::separated, crate::specs::Reading::repeat_from))]
    fn listed(&self, cursor: &mut Cursor<'_>) -> Result<Vec<Expr>, Stop>
        requires { Nests self.now.depth (F.pre self.now.expr) (F.post self.now.expr) }
        ensures { Reads (λ v. map expr_of v.items) (separated ((spec.nest self.now.depth).below part.Assign) cursor.old) result cursor.new }
    {
        let mut found = Vec::new(self.alloc);
        found.push(self.below(cursor, Part::Assign)?)?;
        for _turn in 0..cursor.left() {
            if !cursor.sees(Mark::Comma) {
                return Ok(found);
            }
            found = self.one_more(cursor, found)?;
        }
        Ok(found)
    }

    #[tactic(auto, unfolding(crate::specs::Expressions::arguments))]
    fn arguments(&self, cursor: &mut Cursor<'_>) -> Result<Vec<Expr>, Stop>
        requires { Nests self.now.depth (F.pre self.now.expr) (F.post self.now.expr) }
        ensures { Reads (λ v. map expr_of v.items) (spec.arguments (spec.nest self.now.depth) cursor.old) result cursor.new }
    {
        if cursor.eat(Mark::Close) {
            return Ok(Vec::new(self.alloc));
        }
        let found = self.listed(cursor)?;
        cursor.expect(Mark::Close)?;
        Ok(found)
    }

    // Whether a call's bracket comes next.
    #[tactic(auto, unfolding(crate::specs::Expressions::calls))]
    fn calls(&self, cursor: &Cursor<'_>) -> bool
        ensures { result ≡ spec.calls (spec.nest self.now.depth) cursor.now }
    {
        self.is_deep() && cursor.sees(Mark::Open)
    }

    #[tactic(auto, unfolding(crate::specs::Expressions::named))]
    fn named(&self, cursor: &mut Cursor<'_>, at: Place, name: Identifier) -> Result<Expr, Stop>
        requires { Nests self.now.depth (F.pre self.now.expr) (F.post self.now.expr) }
        ensures { Reads expr_of (spec.named (spec.nest self.now.depth) at name cursor.old) result cursor.new }
    {
        let is_call = self.calls(cursor);
        cursor.advance_if(is_call);
        if !is_call {
            return Ok(Expr::Name(at, name));
        }
        let found = self.arguments(cursor)?;
        Ok(nodes::call(at, name, found))
    }

    #[tactic(auto, unfolding(crate::specs::Expressions::primary))]
    fn primary(&self, cursor: &mut Cursor<'_>, at: Place) -> Result<Expr, Stop>
        requires { Nests self.now.depth (F.pre self.now.expr) (F.post self.now.expr) }
        ensures { Reads expr_of (spec.primary (spec.nest self.now.depth) at cursor.old) result cursor.new }
    {
        match cursor.class() {
            Class::Name => {
                let name = Identifier::of(cursor.bytes(self.alloc)?);
                self.named(cursor, at, name)
            }
            Class::Number(value, long) => {
                cursor.advance();
                Ok(Expr::Number(at, value, long))
            }
            Class::Text => {
                let text = Text::of(cursor.bytes(self.alloc)?);
                Ok(Expr::Text(at, text))
            }
            _ => Err(Stop::Refused),
        }
    }

    #[tactic(auto, unfolding(crate::specs::Expressions::index))]
    fn index(&self, cursor: &mut Cursor<'_>, at: Place, operand: Expr) -> Result<Expr, Stop>
        requires { Nests self.now.depth (F.pre self.now.expr) (F.post self.now.expr) }
        ensures { Reads expr_of (spec.index (spec.nest self.now.depth) at (expr_of operand) cursor.old) result cursor.new }
    {
        let index = self.below(cursor, Part::Assign)?;
        cursor.expect(Mark::CloseSquare)?;
        Ok(nodes::index(self.alloc, at, operand, index)?)
    }

    #[tactic(auto, unfolding(crate::specs::Expressions::field))]
    fn field(&self, cursor: &mut Cursor<'_>, at: Place, operand: Expr) -> Result<Expr, Stop>
        ensures { Reads expr_of (spec.field (spec.nest self.now.depth) at (expr_of operand) cursor.old) result cursor.new }
    {
        let name = cursor.name(self.alloc)?;
        Ok(nodes::field(self.alloc, at, operand, name)?)
    }

    // Whether no index, field or change comes next.
    #[tactic(auto, unfolding(crate::specs::Expressions::stops))]
    fn stops(&self, cursor: &Cursor<'_>) -> bool
        ensures { result ≡ spec.stops (spec.nest self.now.depth) cursor.now }
    {
        match cursor.class() {
            Class::Change(_) => false,
            class => !is_mark(Mark::Dot, class)
                && !(self.is_deep() && is_mark(Mark::OpenSquare, class)),
        }
    }

    #[tactic(auto, unfolding(crate::specs::Expressions::postfix))]
    fn postfix(&self, cursor: &mut Cursor<'_>, at: Place, operand: Expr) -> Result<Expr, Stop>
        requires { Nests self.now.depth (F.pre self.now.expr) (F.post self.now.expr) }
        ensures { Reads expr_of (spec.postfix (spec.nest self.now.depth) at (expr_of operand) cursor.old) result cursor.new }
    {
        let class = cursor.class();
        cursor.advance();
        match class {
            Class::Change(change) => Ok(nodes::postfix(self.alloc, at, change, operand)?),
            class => if is_mark(Mark::Dot, class) {
                self.field(cursor, at, operand)
            } else {
                self.index(cursor, at, operand)
            },
        }
    }

    /// The indices, fields and changes behind an operand.
    #[tactic(auto, unfolding(crate::specs::Expressions::postfixes, crate::specs::Reading::repeat_from))]
    pub fn postfixes(&self, cursor: &mut Cursor<'_>, at: Place, operand: Expr) -> Result<Expr, Stop>
        requires { Nests self.now.depth (F.pre self.now.expr) (F.post self.now.expr) }
        ensures { Reads expr_of (spec.postfixes (spec.nest self.now.depth) at (expr_of operand) cursor.old) result cursor.new }
    {
        let mut whole = operand;
        for _turn in 0..cursor.left() {
            if self.stops(cursor) {
                return Ok(whole);
            }
            whole = self.postfix(cursor, at, whole)?;
        }
        Ok(whole)
    }

    /// A primary expression and what stands behind it.
    #[tactic(auto, unfolding(crate::specs::Expressions::plain))]
    pub fn plain(&self, cursor: &mut Cursor<'_>, at: Place) -> Result<Expr, Stop>
        requires { Nests self.now.depth (F.pre self.now.expr) (F.post self.now.expr) }
        ensures { Reads expr_of (spec.plain (spec.nest self.now.depth) at cursor.old) result cursor.new }
    {
        let first = self.primary(cursor, at)?;
        self.postfixes(cursor, at, first)
    }
}
