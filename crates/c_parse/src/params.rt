//! Parameters of functions (C99, section 6.7.5.3).
ghost use Rattle.std.specs.Prelude.{◌≡◌};
ghost use Rattle.c_parse.specs.DeclarationGrammar as grammar;
ghost use Rattle.c_parse.specs.Declarations as spec;
ghost use Rattle.c_parse.specs.Reading.{Reads, itself, one_more, separated};

use crate::cursor::Cursor;
use crate::declarations::begins_length;
use crate::signs::is_star;
use crate::stops::Stop;
use crate::symbols::{Key, Mark};
use crate::types::{star, type_base};
use c_tree::syntax::{Base, Param, ParamType, Place, TypeName};
use std::alloc::Global;

#[tactic(auto, unfolding(crate::specs::Declarations::sees_any_star))]
fn sees_any_star(cursor: &Cursor<'_>) -> bool
    ensures { result ≡ spec.sees_any_star cursor.now }
{
    is_star(cursor.class())
}

#[tactic(auto, unfolding(crate::specs::Declarations::expect_star))]
fn expect_star(cursor: &mut Cursor<'_>) -> Result<(), Stop>
    ensures { Reads itself (spec.expect_star cursor.old) result cursor.new }
{
    if sees_any_star(cursor) {
        cursor.advance();
        Ok(())
    } else {
        Err(Stop::Refused)
    }
}

// Goes behind `[` and `]`, if they come next, and tells so.
#[tactic(auto, unfolding(crate::specs::Declarations::eat_brackets))]
fn eat_brackets(cursor: &mut Cursor<'_>, pointer: bool) -> Result<bool, Stop>
    ensures { Reads itself (spec.eat_brackets pointer cursor.old) result cursor.new }
{
    let array = begins_length(cursor, pointer);
    cursor.advance_if(array);
    if array {
        cursor.expect(Mark::CloseSquare)?;
    }
    Ok(array)
}

fn param_type(base: Base, pointer: bool, array: bool) -> ParamType
    ensures { result ≡ grammar.param_type base pointer array }
{
    if array {
        ParamType::Array(base)
    } else {
        ParamType::Plain(TypeName { base, pointer })
    }
}

#[tactic(auto, unfolding(crate::specs::Declarations::typed_param))]
fn typed_param(alloc: Global, cursor: &mut Cursor<'_>, at: Place) -> Result<Param, Stop>
    ensures { Reads itself (spec.typed_param at cursor.old) result cursor.new }
{
    let base = type_base(cursor)?;
    let pointer = star(cursor, base);
    let name = cursor.name(alloc)?;
    let array = eat_brackets(cursor, pointer)?;
    Ok(Param {
        at,
        param_type: param_type(base, pointer, array),
        name,
    })
}

// Behind the `char`.
#[tactic(auto, unfolding(crate::specs::Declarations::arguments_param))]
fn arguments_param(alloc: Global, cursor: &mut Cursor<'_>, at: Place) -> Result<Param, Stop>
    ensures { Reads itself (spec.arguments_param at cursor.old) result cursor.new }
{
    expect_star(cursor)?;
    let double = sees_any_star(cursor);
    cursor.advance_if(double);
    let name = cursor.name(alloc)?;
    if !double {
        cursor.expect(Mark::OpenSquare)?;
        cursor.expect(Mark::CloseSquare)?;
    }
    Ok(Param {
        at,
        param_type: ParamType::Arguments,
        name,
    })
}

#[tactic(auto, unfolding(crate::specs::Declarations::param))]
fn param(alloc: Global, cursor: &mut Cursor<'_>) -> Result<Param, Stop>
    ensures { Reads itself (spec.param cursor.old) result cursor.new }
{
    let at = cursor.place();
    if cursor.eat_key(Key::Char) {
        arguments_param(alloc, cursor, at)
    } else {
        typed_param(alloc, cursor, at)
    }
}

// The parameter behind a comma, with those before it.
fn one_more_param(
    alloc: Global,
    cursor: &mut Cursor<'_>,
    found: Vec<Param>,
) -> Result<Vec<Param>, Stop>
    ensures { Reads (λ v. v.items) (one_more spec.param found.items cursor.old) result cursor.new }
{
    cursor.advance();
    let mut longer = found;
    longer.push(param(alloc, cursor)?)?;
    Ok(longer)
}

// One or more parameters.
#[tactic(auto, unfolding(crate::specs::Reading::separated, crate::specs::Reading::repeat_from))]
fn listed(alloc: Global, cursor: &mut Cursor<'_>) -> Result<Vec<Param>, Stop>
    ensures { Reads (λ v. v.items) (separated spec.param cursor.old) result cursor.new }
{
    let mut found = Vec::new(alloc);
    found.push(param(alloc, cursor)?)?;
    for _turn in 0..cursor.left() {
        if !cursor.sees(Mark::Comma) {
            return Ok(found);
        }
        found = one_more_param(alloc, cursor, found)?;
    }
    Ok(found)
}

#[tactic(auto, unfolding(crate::specs::Declarations::listed_params))]
fn listed_params(alloc: Global, cursor: &mut Cursor<'_>) -> Result<Vec<Param>, Stop>
    ensures { Reads (λ v. v.items) (spec.listed_params cursor.old) result cursor.new }
{
    let found = listed(alloc, cursor)?;
    cursor.expect(Mark::Close)?;
    Ok(found)
}

#[tactic(auto, unfolding(crate::specs::Declarations::some_params))]
fn some_params(alloc: Global, cursor: &mut Cursor<'_>) -> Result<Vec<Param>, Stop>
    ensures { Reads (λ v. v.items) (spec.some_params cursor.old) result cursor.new }
{
    if !cursor.eat_key(Key::Void) {
        return listed_params(alloc, cursor);
    }
    cursor.expect(Mark::Close)?;
    Ok(Vec::new(alloc))
}

/// The parameters behind their opening bracket; `void` alone is none.
#[tactic(auto, unfolding(crate::specs::Declarations::params))]
pub fn params(alloc: Global, cursor: &mut Cursor<'_>) -> Result<Vec<Param>, Stop>
    ensures { Reads (λ v. v.items) (spec.params cursor.old) result cursor.new }
{
    if cursor.eat(Mark::Close) {
        return Ok(Vec::new(alloc));
    }
    some_params(alloc, cursor)
}
