//! Blocks (C99, section 6.8.2). What stands in statements is read by a function that is a parameter,
//! so that each production is proved by itself.
ghost use Rattle.std.specs.Prelude.{◌≡◌, map};
ghost use Rattle.c_tree.specs.SyntaxOf.{body_of, stmt_of};
ghost use Rattle.c_parse.specs.Insides.{Insides};
ghost use Rattle.c_parse.specs.Reading.{Reads};
ghost use Rattle.c_parse.specs.Statements as spec;

use crate::cursor::Cursor;
use crate::declarations::{begins_declaration, declaration};
use crate::nodes;
use crate::stops::Stop;
use crate::symbols::Mark;
use c_tree::syntax::{Body, Place, Stmt};
use std::alloc::Global;

/// The reader of statements at a depth.
#[derive(Clone, Copy)]
pub struct Statements<F> {
    pub alloc: Global,
    /// How many marked productions may still stand in one another.
    pub depth: usize,
    pub stmt: F,
}

impl<F: Fn(Global, &mut Cursor<'_>, usize) -> Result<Stmt, Stop>> Statements<F> {
    /// Whether a marked production may stand here.
    pub fn is_deep(&self) -> bool
        ensures { result ≡ (spec.inside self.now.depth).deep }
    {
        self.depth > 0
    }

    /// How many marked productions may stand in one that stands here.
    pub fn inner(&self) -> usize
        ensures { result ≡ (spec.inside self.now.depth).depth }
    {
        self.depth.saturating_sub(1)
    }

    /// A statement that is one deeper.
    pub fn below(&self, cursor: &mut Cursor<'_>) -> Result<Stmt, Stop>
        requires { Insides self.now.depth (F.pre self.now.stmt) (F.post self.now.stmt) }
        ensures { Reads stmt_of ((spec.inside self.now.depth).stmt cursor.old) result cursor.new }
    {
        if self.depth == 0 {
            return Err(Stop::Refused);
        }
        (self.stmt)(self.alloc, cursor, self.depth - 1)
    }

    #[tactic(auto, unfolding(crate::specs::Statements::item))]
    fn item(&self, cursor: &mut Cursor<'_>) -> Result<Stmt, Stop>
        requires { Insides self.now.depth (F.pre self.now.stmt) (F.post self.now.stmt) }
        ensures { Reads stmt_of (spec.item (spec.inside self.now.depth) cursor.old) result cursor.new }
    {
        if begins_declaration(cursor.class()) {
            let found = declaration(self.alloc, cursor, self.inner())?;
            Ok(Stmt::Declare(found))
        } else {
            self.below(cursor)
        }
    }

    // The next item, with those before it.
    fn one_more_item(&self, cursor: &mut Cursor<'_>, found: Vec<Stmt>) -> Result<Vec<Stmt>, Stop>
        requires { Insides self.now.depth (F.pre self.now.stmt) (F.post self.now.stmt) }
        ensures { Reads (λ v. map stmt_of v.items) (spec.one_more_item (spec.inside self.now.depth) (map stmt_of found.items) cursor.old) result cursor.new }
    {
        let mut longer = found;
        longer.push(self.item(cursor)?)?;
        Ok(longer)
    }

    #[tactic(auto, unfolding(crate::specs::Statements::items, crate::specs::Reading::repeat_from))]
    fn items(&self, cursor: &mut Cursor<'_>) -> Result<Vec<Stmt>, Stop>
        requires { Insides self.now.depth (F.pre self.now.stmt) (F.post self.now.stmt) }
        ensures { Reads (λ v. map stmt_of v.items) (spec.items (spec.inside self.now.depth) cursor.old) result cursor.new }
    {
        let mut found = Vec::new(self.alloc);
        for _turn in 0..cursor.left() {
            if cursor.sees(Mark::CloseBrace) {
                return Ok(found);
            }
            found = self.one_more_item(cursor, found)?;
        }
        Ok(found)
    }

    // Behind the opening brace.
    #[tactic(auto, unfolding(crate::specs::Statements::body_at))]
    fn body_at(&self, cursor: &mut Cursor<'_>, at: Place) -> Result<Body, Stop>
        requires { Insides self.now.depth (F.pre self.now.stmt) (F.post self.now.stmt) }
        ensures { Reads body_of (spec.body_at (spec.inside self.now.depth) at cursor.old) result cursor.new }
    {
        let items = self.items(cursor)?;
        let end = cursor.place();
        cursor.expect(Mark::CloseBrace)?;
        Ok(nodes::body(at, items, end.line))
    }

    /// A block, with the line of its closing brace.
    #[tactic(auto, unfolding(crate::specs::Statements::body))]
    pub fn body(&self, cursor: &mut Cursor<'_>) -> Result<Body, Stop>
        requires { Insides self.now.depth (F.pre self.now.stmt) (F.post self.now.stmt) }
        ensures { Reads body_of (spec.body (spec.inside self.now.depth) cursor.old) result cursor.new }
    {
        let at = cursor.place();
        if !self.is_deep() {
            return Err(Stop::Refused);
        }
        cursor.expect(Mark::OpenBrace)?;
        self.body_at(cursor, at)
    }
}
