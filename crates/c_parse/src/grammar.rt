//! The productions of expressions take the reader of what is one deeper as a parameter, so that
//! each is proved by itself.
ghost use Rattle.std.specs.Prelude.{◌≡◌};
ghost use Rattle.c_parse.specs.Expressions as spec;
ghost use Rattle.c_parse.specs.Nests.{Nests};
ghost use Rattle.c_parse.specs.Reading.{Reads};
ghost use Rattle.c_tree.specs.SyntaxOf.{expr_of};

use crate::cursor::Cursor;
use crate::stops::Stop;
use c_tree::syntax::Expr;
use std::alloc::Global;

/// What stands in a marked production.
#[derive(Clone, Copy, Debug, PartialEq, Eq)]
pub enum Part {
    Assign,
    Cond,
    Unary,
}

/// The reader of expressions at a depth.
#[derive(Clone, Copy)]
pub struct Grammar<F> {
    pub alloc: Global,
    /// How many marked productions may still stand in one another.
    pub depth: usize,
    pub expr: F,
}

impl<F: Fn(Global, &mut Cursor<'_>, usize, Part) -> Result<Expr, Stop>> Grammar<F> {
    /// A part of a marked production, which is one deeper.
    pub fn below(&self, cursor: &mut Cursor<'_>, part: Part) -> Result<Expr, Stop>
        requires { Nests self.now.depth (F.pre self.now.expr) (F.post self.now.expr) }
        ensures { Reads expr_of ((spec.nest self.now.depth).below part cursor.old) result cursor.new }
    {
        if self.depth == 0 {
            return Err(Stop::Refused);
        }
        (self.expr)(self.alloc, cursor, self.depth - 1, part)
    }

    /// Whether a marked production may stand here.
    pub fn is_deep(&self) -> bool
        ensures { result ≡ (spec.nest self.now.depth).deep }
    {
        self.depth > 0
    }
}
