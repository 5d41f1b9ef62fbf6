//! Declarations (C99, section 6.7). The depth is how many marked productions may stand in one
//! another.
ghost use Rattle.std.specs.Prelude.{◌≡◌, ◌∷◌, [], map};
ghost use Rattle.c_tree.specs.SyntaxOf.{expr_of, maybe_of, initializer_of, declarator_of, declaration_of};
ghost use Rattle.c_parse.specs.declared.grammar.Part.TheVariants as part;
ghost use Rattle.c_parse.specs.Declarations as spec;
ghost use Rattle.c_parse.specs.Expressions.{expression as spec_expression};
ghost use Rattle.c_parse.specs.Reading.{Reads, no_comma, one_more, repeat, separated};

use crate::cursor::Cursor;
use crate::expressions::expression;
use crate::grammar::Part;
use crate::signs::{base_of, is_equals, is_key};
use crate::stops::Stop;
use crate::symbols::{Class, Key, Mark};
use crate::types::{star, type_base};
use c_tree::Identifier;
use c_tree::syntax::{Base, Declaration, Declarator, Expr, Initializer, Place};
use std::alloc::Global;

/// Whether a length's bracket comes next, which it never does behind a `*`.
#[tactic(auto, unfolding(crate::specs::Declarations::begins_length))]
pub fn begins_length(cursor: &Cursor<'_>, pointer: bool) -> bool
    ensures { result ≡ spec.begins_length pointer cursor.now }
{
    !pointer && cursor.sees(Mark::OpenSquare)
}

// Behind the opening bracket.
#[tactic(auto, unfolding(crate::specs::Declarations::len_in))]
fn len_in(alloc: Global, cursor: &mut Cursor<'_>, depth: usize) -> Result<Expr, Stop>
    ensures { Reads expr_of (spec.len_in depth cursor.old) result cursor.new }
{
    let len = expression(alloc, cursor, depth, Part::Cond)?;
    cursor.expect(Mark::CloseSquare)?;
    Ok(len)
}

#[tactic(auto, unfolding(crate::specs::Declarations::len_of))]
fn len_of(
    alloc: Global,
    cursor: &mut Cursor<'_>,
    depth: usize,
    pointer: bool,
) -> Result<Option<Expr>, Stop>
    ensures { Reads maybe_of (spec.len_of depth pointer cursor.old) result cursor.new }
{
    let has_len = begins_length(cursor, pointer);
    cursor.advance_if(has_len);
    if !has_len {
        return Ok(None);
    }
    let len = len_in(alloc, cursor, depth)?;
    Ok(Some(len))
}

// The value behind a comma, with those before it.
fn one_more_value(
    alloc: Global,
    cursor: &mut Cursor<'_>,
    depth: usize,
    found: Vec<Expr>,
) -> Result<Vec<Expr>, Stop>
    ensures { Reads (λ v. map expr_of v.items) (one_more (spec_expression depth part.Assign) (map expr_of found.items) cursor.old) result cursor.new }
{
    cursor.advance();
    let mut longer = found;
    longer.push(expression(alloc, cursor, depth, Part::Assign)?)?;
    Ok(longer)
}

// One or more values.
#[tactic(auto, unfolding(crate::specs::Reading::separated, crate::specs::Reading::repeat_from))]
fn listed(alloc: Global, cursor: &mut Cursor<'_>, depth: usize) -> Result<Vec<Expr>, Stop>
    ensures { Reads (λ v. map expr_of v.items) (separated (spec_expression depth part.Assign) cursor.old) result cursor.new }
{
    let mut found = Vec::new(alloc);
    found.push(expression(alloc, cursor, depth, Part::Assign)?)?;
    for _turn in 0..cursor.left() {
        if !cursor.sees(Mark::Comma) {
            return Ok(found);
        }
        found = one_more_value(alloc, cursor, depth, found)?;
    }
    Ok(found)
}

// Behind the opening brace.
#[tactic(auto, unfolding(crate::specs::Declarations::values))]
fn values(alloc: Global, cursor: &mut Cursor<'_>, depth: usize) -> Result<Initializer, Stop>
    ensures { Reads initializer_of (spec.values depth cursor.old) result cursor.new }
{
    let found = listed(alloc, cursor, depth)?;
    cursor.expect(Mark::CloseBrace)?;
    Ok(Initializer::List(found))
}

// Behind the `=`.
#[tactic(auto, unfolding(crate::specs::Declarations::value))]
fn value(alloc: Global, cursor: &mut Cursor<'_>, depth: usize) -> Result<Initializer, Stop>
    ensures { Reads initializer_of (spec.value depth cursor.old) result cursor.new }
{
    if cursor.eat(Mark::OpenBrace) {
        return values(alloc, cursor, depth);
    }
    let found = expression(alloc, cursor, depth, Part::Assign)?;
    Ok(Initializer::Value(found))
}

#[tactic(auto, unfolding(crate::specs::Declarations::sees_equals))]
fn sees_equals(cursor: &Cursor<'_>) -> bool
    ensures { result ≡ spec.sees_equals cursor.now }
{
    is_equals(cursor.class())
}

#[tactic(auto, unfolding(crate::specs::Declarations::initializer))]
fn initializer(alloc: Global, cursor: &mut Cursor<'_>, depth: usize) -> Result<Initializer, Stop>
    ensures { Reads initializer_of (spec.initializer depth cursor.old) result cursor.new }
{
    let has_value = sees_equals(cursor);
    cursor.advance_if(has_value);
    if has_value {
        value(alloc, cursor, depth)
    } else {
        Ok(Initializer::Nothing)
    }
}

/// A declarator behind its name.
#[tactic(auto, unfolding(crate::specs::Declarations::declared))]
pub fn declared(
    alloc: Global,
    cursor: &mut Cursor<'_>,
    depth: usize,
    at: Place,
    pointer: bool,
    name: Identifier,
) -> Result<Declarator, Stop>
    ensures { Reads declarator_of (spec.declared depth at pointer name cursor.old) result cursor.new }
{
    let len = len_of(alloc, cursor, depth, pointer)?;
    let initializer = initializer(alloc, cursor, depth)?;
    Ok(Declarator {
        at,
        pointer,
        name,
        len,
        initializer,
    })
}

#[tactic(auto, unfolding(crate::specs::Declarations::declarator))]
fn declarator(
    alloc: Global,
    cursor: &mut Cursor<'_>,
    depth: usize,
    base: Base,
) -> Result<Declarator, Stop>
    ensures { Reads declarator_of (spec.declarator depth base cursor.old) result cursor.new }
{
    let at = cursor.place();
    let pointer = star(cursor, base);
    let name = cursor.name(alloc)?;
    declared(alloc, cursor, depth, at, pointer, name)
}

// The declarator behind a comma, with those before it.
fn one_more_declarator(
    alloc: Global,
    cursor: &mut Cursor<'_>,
    depth: usize,
    base: Base,
    found: Vec<Declarator>,
) -> Result<Vec<Declarator>, Stop>
    ensures { Reads (λ v. map declarator_of v.items) (one_more (spec.declarator depth base) (map declarator_of found.items) cursor.old) result cursor.new }
{
    cursor.advance();
    let mut longer = found;
    longer.push(declarator(alloc, cursor, depth, base)?)?;
    Ok(longer)
}

// The declarators behind the first one, with it.
#[tactic(auto, unfolding(crate::specs::Reading::repeat_from))]
fn declarators(
    alloc: Global,
    cursor: &mut Cursor<'_>,
    depth: usize,
    base: Base,
    first: Declarator,
) -> Result<Vec<Declarator>, Stop>
    ensures { Reads (λ v. map declarator_of v.items) (repeat no_comma (one_more (spec.declarator depth base)) (declarator_of first ∷ []) cursor.old) result cursor.new }
{
    let mut found = Vec::new(alloc);
    found.push(first)?;
    for _turn in 0..cursor.left() {
        if !cursor.sees(Mark::Comma) {
            return Ok(found);
        }
        found = one_more_declarator(alloc, cursor, depth, base, found)?;
    }
    Ok(found)
}

/// A declaration behind its first declarator.
#[tactic(auto, unfolding(crate::specs::Declarations::declaration_from))]
pub fn declaration_from(
    alloc: Global,
    cursor: &mut Cursor<'_>,
    depth: usize,
    at: Place,
    is_static: bool,
    base: Base,
    first: Declarator,
) -> Result<Declaration, Stop>
    ensures { Reads declaration_of (spec.declaration_from depth at is_static base (declarator_of first) cursor.old) result cursor.new }
{
    let declarators = declarators(alloc, cursor, depth, base, first)?;
    cursor.expect(Mark::Semicolon)?;
    Ok(Declaration {
        at,
        is_static,
        base,
        declarators,
    })
}

#[tactic(auto, unfolding(crate::specs::Declarations::declaration))]
pub fn declaration(
    alloc: Global,
    cursor: &mut Cursor<'_>,
    depth: usize,
) -> Result<Declaration, Stop>
    ensures { Reads declaration_of (spec.declaration depth cursor.old) result cursor.new }
{
    let at = cursor.place();
    let is_static = cursor.eat_key(Key::Static);
    let base = type_base(cursor)?;
    let first = declarator(alloc, cursor, depth, base)?;
    declaration_from(alloc, cursor, depth, at, is_static, base, first)
}

/// Whether a declaration begins with this.
pub fn begins_declaration(class: Class) -> bool
    ensures { result ≡ spec.begins_declaration class }
{
    is_key(Key::Static, class) || base_of(class).is_some()
}
