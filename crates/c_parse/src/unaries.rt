//! Unary expressions and casts (C99, sections 6.5.3 and 6.5.4).
ghost use Rattle.c_tree.specs.SyntaxOf.{expr_of};
ghost use Rattle.c_parse.specs.Expressions as spec;
ghost use Rattle.c_parse.specs.Nests.{Nests};
ghost use Rattle.c_parse.specs.Reading.{Reads};

use crate::cursor::Cursor;
use crate::grammar::{Grammar, Part};
use crate::nodes;
use crate::signs::{Prefix, base_of, is_key, is_mark, prefix_of};
use crate::stops::Stop;
use crate::symbols::{Key, Mark};
use crate::types::{type_base, type_name};
use c_tree::syntax::{Expr, Place};
use std::alloc::Global;

impl<F: Fn(Global, &mut Cursor<'_>, usize, Part) -> Result<Expr, Stop>> Grammar<F> {
    // Behind the key.
    #[tactic(auto, unfolding(crate::specs::Expressions::size_of))]
    fn size_of(&self, cursor: &mut Cursor<'_>, at: Place) -> Result<Expr, Stop>
        ensures { Reads expr_of (spec.size_of (spec.nest self.now.depth) at cursor.old) result cursor.new }
    {
        cursor.expect(Mark::Open)?;
        let base = type_base(cursor)?;
        cursor.expect(Mark::Close)?;
        Ok(Expr::SizeOf(at, base))
    }

    // Behind the opening bracket.
    #[tactic(auto, unfolding(crate::specs::Expressions::cast))]
    fn cast(&self, cursor: &mut Cursor<'_>, at: Place) -> Result<Expr, Stop>
        requires { Nests self.now.depth (F.pre self.now.expr) (F.post self.now.expr) }
        ensures { Reads expr_of (spec.cast (spec.nest self.now.depth) at cursor.old) result cursor.new }
    {
        let to = type_name(cursor)?;
        cursor.expect(Mark::Close)?;
        let operand = self.below(cursor, Part::Unary)?;
        Ok(nodes::cast(self.alloc, at, to, operand)?)
    }

    // Behind the opening bracket.
    #[tactic(auto, unfolding(crate::specs::Expressions::grouped))]
    fn grouped(&self, cursor: &mut Cursor<'_>, at: Place) -> Result<Expr, Stop>
        requires { Nests self.now.depth (F.pre self.now.expr) (F.post self.now.expr) }
        ensures { Reads expr_of (spec.grouped (spec.nest self.now.depth) at cursor.old) result cursor.new }
    {
        let inner = self.below(cursor, Part::Assign)?;
        cursor.expect(Mark::Close)?;
        self.postfixes(cursor, at, inner)
    }

    // Behind the opening bracket.
    #[tactic(auto, unfolding(crate::specs::Expressions::bracketed))]
    fn bracketed(&self, cursor: &mut Cursor<'_>, at: Place) -> Result<Expr, Stop>
        requires { Nests self.now.depth (F.pre self.now.expr) (F.post self.now.expr) }
        ensures { Reads expr_of (spec.bracketed (spec.nest self.now.depth) at cursor.old) result cursor.new }
    {
        if base_of(cursor.class()).is_some() {
            self.cast(cursor, at)
        } else {
            self.grouped(cursor, at)
        }
    }

    // Behind the sign.
    #[tactic(auto, unfolding(crate::specs::Expressions::signed))]
    fn signed(&self, cursor: &mut Cursor<'_>, at: Place, sign: Prefix) -> Result<Expr, Stop>
        requires { Nests self.now.depth (F.pre self.now.expr) (F.post self.now.expr) }
        ensures { Reads expr_of (spec.signed (spec.nest self.now.depth) at sign cursor.old) result cursor.new }
    {
        let operand = self.below(cursor, Part::Unary)?;
        Ok(nodes::prefixed(self.alloc, at, sign, operand)?)
    }

    /// A unary expression. What is one deeper is refused at its first token where nothing may be.
    #[tactic(auto, unfolding(crate::specs::Expressions::unary))]
    pub fn unary(&self, cursor: &mut Cursor<'_>) -> Result<Expr, Stop>
        requires { Nests self.now.depth (F.pre self.now.expr) (F.post self.now.expr) }
        ensures { Reads expr_of (spec.unary (spec.nest self.now.depth) cursor.old) result cursor.new }
    {
        let at = cursor.place();
        let class = cursor.class();
        let sign = prefix_of(class);
        let marked = sign.is_some() || is_mark(Mark::Open, class);
        if marked && !self.is_deep() {
            return Err(Stop::Refused);
        }
        if let Some(sign) = sign {
            cursor.advance();
            self.signed(cursor, at, sign)
        } else if marked {
            cursor.advance();
            self.bracketed(cursor, at)
        } else if is_key(Key::SizeOf, class) {
            cursor.advance();
            self.size_of(cursor, at)
        } else {
            self.plain(cursor, at)
        }
    }
}
