//! Statements (C99, section 6.8).
ghost use Rattle.std.specs.Prelude.{◌≡◌, if◌then◌else◌};
ghost use Rattle.c_tree.specs.SyntaxOf.{expr_of, head_of, maybe_of, stmt_of};
ghost use Rattle.c_parse.specs.Insides.{Insides};
ghost use Rattle.c_parse.specs.Reading.{Reads, advance, itself, refuse};
ghost use Rattle.c_parse.specs.declared.symbols.Class.TheVariants as class;
ghost use Rattle.c_parse.specs.StatementGrammar as grammar;
ghost use Rattle.c_parse.specs.Statements as spec;

use crate::bodies::Statements;
use crate::cursor::Cursor;
use crate::declarations::{begins_declaration, declaration};
use crate::expressions::expression;
use crate::grammar::Part;
use crate::nodes;
use crate::stops::Stop;
use crate::symbols::{Class, Key, Mark};
use c_tree::syntax::{Expr, ForHead, Place, Stmt};
use std::alloc::Global;

// An expression, if what would end it does not come next.
#[tactic(auto, unfolding(crate::specs::Statements::optional))]
fn optional(
    alloc: Global,
    cursor: &mut Cursor<'_>,
    depth: usize,
    end: Mark,
) -> Result<Option<Expr>, Stop>
    ensures { Reads maybe_of (spec.optional depth end cursor.old) result cursor.new }
{
    if cursor.sees(end) {
        return Ok(None);
    }
    let value = expression(alloc, cursor, depth, Part::Assign)?;
    Ok(Some(value))
}

// What a `for` begins with, where it declares nothing.
fn evaluated(value: Option<Expr>) -> ForHead
    ensures { head_of result ≡ grammar.evaluated (maybe_of value) }
{
    match value {
        None => ForHead::Nothing,
        Some(value) => ForHead::Evaluated(value),
    }
}

impl<F: Fn(Global, &mut Cursor<'_>, usize) -> Result<Stmt, Stop>> Statements<F> {
    // A condition in brackets.
    #[tactic(auto, unfolding(crate::specs::Statements::condition))]
    fn condition(&self, cursor: &mut Cursor<'_>) -> Result<Expr, Stop>
        ensures { Reads expr_of (spec.condition (spec.inside self.now.depth) cursor.old) result cursor.new }
    {
        cursor.expect(Mark::Open)?;
        let test = expression(self.alloc, cursor, self.inner(), Part::Assign)?;
        cursor.expect(Mark::Close)?;
        Ok(test)
    }

    // Behind the key. An `else` belongs to the `if` that was begun last.
    #[tactic(auto, unfolding(crate::specs::Statements::if_from))]
    fn if_from(&self, cursor: &mut Cursor<'_>, at: Place) -> Result<Stmt, Stop>
        requires { Insides self.now.depth (F.pre self.now.stmt) (F.post self.now.stmt) }
        ensures { Reads stmt_of (spec.if_from (spec.inside self.now.depth) at cursor.old) result cursor.new }
    {
        let test = self.condition(cursor)?;
        let body = self.below(cursor)?;
        if !cursor.eat_key(Key::Else) {
            return Ok(nodes::if_alone(self.alloc, at, test, body)?);
        }
        let other = self.below(cursor)?;
        Ok(nodes::if_else(self.alloc, at, test, body, other)?)
    }

    // Behind the key.
    #[tactic(auto, unfolding(crate::specs::Statements::while_from))]
    fn while_from(&self, cursor: &mut Cursor<'_>, at: Place) -> Result<Stmt, Stop>
        requires { Insides self.now.depth (F.pre self.now.stmt) (F.post self.now.stmt) }
        ensures { Reads stmt_of (spec.while_from (spec.inside self.now.depth) at cursor.old) result cursor.new }
    {
        let test = self.condition(cursor)?;
        let body = self.below(cursor)?;
        Ok(nodes::while_loop(self.alloc, at, test, body)?)
    }

    // Behind the key.
    #[tactic(auto, unfolding(crate::specs::Statements::do_from))]
    fn do_from(&self, cursor: &mut Cursor<'_>, at: Place) -> Result<Stmt, Stop>
        requires { Insides self.now.depth (F.pre self.now.stmt) (F.post self.now.stmt) }
        ensures { Reads stmt_of (spec.do_from (spec.inside self.now.depth) at cursor.old) result cursor.new }
    {
        let body = self.below(cursor)?;
        cursor.expect_key(Key::While)?;
        let test = self.condition(cursor)?;
        cursor.expect(Mark::Semicolon)?;
        Ok(nodes::do_while(self.alloc, at, body, test)?)
    }

    // What a `for` begins with, and the `;` behind it.
    #[tactic(auto, unfolding(crate::specs::Statements::for_head))]
    fn for_head(&self, cursor: &mut Cursor<'_>) -> Result<ForHead, Stop>
        ensures { Reads head_of (spec.for_head (spec.inside self.now.depth) cursor.old) result cursor.new }
    {
        if begins_declaration(cursor.class()) {
            let found = declaration(self.alloc, cursor, self.inner())?;
            return Ok(ForHead::Declared(found));
        }
        let value = optional(self.alloc, cursor, self.inner(), Mark::Semicolon)?;
        cursor.expect(Mark::Semicolon)?;
        Ok(evaluated(value))
    }

    // Behind the head.
    #[tactic(auto, unfolding(crate::specs::Statements::for_rest))]
    fn for_rest(&self, cursor: &mut Cursor<'_>, at: Place, head: ForHead) -> Result<Stmt, Stop>
        requires { Insides self.now.depth (F.pre self.now.stmt) (F.post self.now.stmt) }
        ensures { Reads stmt_of (spec.for_rest (spec.inside self.now.depth) at (head_of head) cursor.old) result cursor.new }
    {
        let test = optional(self.alloc, cursor, self.inner(), Mark::Semicolon)?;
        cursor.expect(Mark::Semicolon)?;
        let step = optional(self.alloc, cursor, self.inner(), Mark::Close)?;
        cursor.expect(Mark::Close)?;
        let body = self.below(cursor)?;
        Ok(nodes::for_loop(self.alloc, at, head, test, step, body)?)
    }

    // Behind the key.
    #[tactic(auto, unfolding(crate::specs::Statements::for_from))]
    fn for_from(&self, cursor: &mut Cursor<'_>, at: Place) -> Result<Stmt, Stop>
        requires { Insides self.now.depth (F.pre self.now.stmt) (F.post self.now.stmt) }
        ensures { Reads stmt_of (spec.for_from (spec.inside self.now.depth) at cursor.old) result cursor.new }
    {
        cursor.expect(Mark::Open)?;
        let head = self.for_head(cursor)?;
        self.for_rest(cursor, at, head)
    }

    // Behind the key.
    #[tactic(auto, unfolding(crate::specs::Statements::return_from))]
    fn return_from(&self, cursor: &mut Cursor<'_>, at: Place) -> Result<Stmt, Stop>
        ensures { Reads stmt_of (spec.return_from (spec.inside self.now.depth) self.now.depth at cursor.old) result cursor.new }
    {
        let value = optional(self.alloc, cursor, self.depth, Mark::Semicolon)?;
        cursor.expect(Mark::Semicolon)?;
        Ok(Stmt::Return(at, value))
    }

    // An expression for what it asks.
    #[tactic(auto, unfolding(crate::specs::Statements::eval))]
    fn eval(&self, cursor: &mut Cursor<'_>, at: Place) -> Result<Stmt, Stop>
        ensures { Reads stmt_of (spec.eval (spec.inside self.now.depth) self.now.depth at cursor.old) result cursor.new }
    {
        let value = expression(self.alloc, cursor, self.depth, Part::Assign)?;
        cursor.expect(Mark::Semicolon)?;
        Ok(Stmt::Eval(at, value))
    }

    // A statement before its `;`.
    #[tactic(auto, unfolding(crate::specs::Statements::ended))]
    fn ended(&self, cursor: &mut Cursor<'_>, whole: Stmt) -> Result<Stmt, Stop>
        ensures { Reads stmt_of (spec.ended (spec.inside self.now.depth) self.now.depth (stmt_of whole) cursor.old) result cursor.new }
    {
        cursor.expect(Mark::Semicolon)?;
        Ok(whole)
    }

    #[tactic(auto, unfolding(crate::specs::Statements::block))]
    fn block(&self, cursor: &mut Cursor<'_>) -> Result<Stmt, Stop>
        requires { Insides self.now.depth (F.pre self.now.stmt) (F.post self.now.stmt) }
        ensures { Reads stmt_of (spec.block (spec.inside self.now.depth) self.now.depth cursor.old) result cursor.new }
    {
        let body = self.body(cursor)?;
        Ok(nodes::block(body))
    }

    #[tactic(auto, unfolding(crate::specs::Statements::single))]
    fn single(&self, cursor: &mut Cursor<'_>, at: Place, nowait: bool) -> Result<Stmt, Stop>
        requires { Insides self.now.depth (F.pre self.now.stmt) (F.post self.now.stmt) }
        ensures { Reads stmt_of (spec.single (spec.inside self.now.depth) self.now.depth at nowait cursor.old) result cursor.new }
    {
        let names = cursor.names(self.alloc)?;
        let body = self.body(cursor)?;
        Ok(nodes::single(self.alloc, at, names, nowait, nodes::block(body))?)
    }

    #[tactic(auto, unfolding(crate::specs::Statements::barrier))]
    fn barrier(&self, cursor: &mut Cursor<'_>, at: Place) -> Result<Stmt, Stop>
        ensures { Reads stmt_of (spec.barrier (spec.inside self.now.depth) self.now.depth at cursor.old) result cursor.new }
    {
        let names = cursor.names(self.alloc)?;
        Ok(Stmt::Barrier(at, names))
    }

    // Goes behind the key of a marked production.
    fn enter(&self, cursor: &mut Cursor<'_>) -> Result<(), Stop>
        ensures { Reads itself ((if (spec.inside self.now.depth).deep then advance else refuse) cursor.old) result cursor.new }
    {
        if !self.is_deep() {
            return Err(Stop::Refused);
        }
        cursor.advance();
        Ok(())
    }

    // A statement that begins with a key.
    fn by_key(&self, cursor: &mut Cursor<'_>, at: Place, key: Key) -> Result<Stmt, Stop>
        requires { Insides self.now.depth (F.pre self.now.stmt) (F.post self.now.stmt) }
        ensures { Reads stmt_of (spec.statement_by (spec.inside self.now.depth) self.now.depth at (class.Key key) cursor.old) result cursor.new }
    {
        match key {
            Key::If => {
                self.enter(cursor)?;
                self.if_from(cursor, at)
            }
            Key::While => {
                self.enter(cursor)?;
                self.while_from(cursor, at)
            }
            Key::Do => {
                self.enter(cursor)?;
                self.do_from(cursor, at)
            }
            Key::For => {
                self.enter(cursor)?;
                self.for_from(cursor, at)
            }
            Key::Return => {
                cursor.advance();
                self.return_from(cursor, at)
            }
            Key::Break => {
                cursor.advance();
                self.ended(cursor, Stmt::Break(at))
            }
            Key::Continue => {
                cursor.advance();
                self.ended(cursor, Stmt::Continue(at))
            }
            _ => self.eval(cursor, at),
        }
    }

    /// A statement.
    #[tactic(auto, unfolding(crate::specs::Statements::statement_at))]
    pub fn statement(&self, cursor: &mut Cursor<'_>) -> Result<Stmt, Stop>
        requires { Insides self.now.depth (F.pre self.now.stmt) (F.post self.now.stmt) }
        ensures { Reads stmt_of (spec.statement_at (spec.inside self.now.depth) self.now.depth cursor.old) result cursor.new }
    {
        let at = cursor.place();
        match cursor.class() {
            Class::Mark(Mark::OpenBrace) => self.block(cursor),
            Class::Mark(Mark::Semicolon) => {
                cursor.advance();
                Ok(Stmt::Empty(at))
            }
            Class::Single(nowait) => self.single(cursor, at, nowait),
            Class::Barrier => self.barrier(cursor, at),
            Class::Key(key) => self.by_key(cursor, at, key),
            _ => self.eval(cursor, at),
        }
    }
}
