//! Sources (C99, section 6.9).
ghost use Rattle.std.specs.Prelude.{◌≡◌, map};
ghost use Rattle.c_tree.specs.SyntaxOf.{item_of, maybe_body_of, stmt_of, tree_of};
ghost use Rattle.c_parse.specs.Reading.{Reads};
ghost use Rattle.c_parse.specs.Sources as spec;
ghost use Rattle.c_parse.specs.Statements.{statement as spec_statement};

use crate::bodies::Statements;
use crate::cursor::Cursor;
use crate::declarations::{declaration_from, declared};
use crate::params::params;
use crate::stops::Stop;
use crate::symbols::{Class, Key, Mark};
use crate::types::{star, type_base};
use c_tree::Identifier;
use c_tree::syntax::{Base, Body, Function, Item, Place, Returns, Stmt, Tree, TypeName};
use mpc_values::limits::MAX_NESTING;
use std::alloc::Global;

/// A statement, in which so many marked productions may stand in one another.
pub fn stmt(alloc: Global, cursor: &mut Cursor<'_>, depth: usize) -> Result<Stmt, Stop>
    ensures { Reads stmt_of (spec_statement depth cursor.old) result cursor.new }
{
    Statements { alloc, depth, stmt }.statement(cursor)
}

// Behind the parameters.
#[tactic(auto, unfolding(crate::specs::Sources::definition))]
fn definition(alloc: Global, cursor: &mut Cursor<'_>) -> Result<Option<Body>, Stop>
    ensures { Reads maybe_body_of (spec.definition cursor.old) result cursor.new }
{
    if cursor.eat(Mark::Semicolon) {
        return Ok(None);
    }
    let statements = Statements {
        alloc,
        depth: MAX_NESTING,
        stmt,
    };
    let body = statements.body(cursor)?;
    Ok(Some(body))
}

// Behind the name.
#[tactic(auto, unfolding(crate::specs::Sources::function))]
fn function(
    alloc: Global,
    cursor: &mut Cursor<'_>,
    at: Place,
    is_static: bool,
    returns: Returns,
    name: Identifier,
) -> Result<Item, Stop>
    ensures { Reads item_of (spec.function at is_static returns name cursor.old) result cursor.new }
{
    cursor.expect(Mark::Open)?;
    let params = params(alloc, cursor)?;
    let body = definition(alloc, cursor)?;
    Ok(Item::Function(Function {
        at,
        is_static,
        returns,
        name,
        params,
        body,
    }))
}

// A declaration behind its first name.
#[tactic(auto, unfolding(crate::specs::Sources::variables))]
fn variables(
    alloc: Global,
    cursor: &mut Cursor<'_>,
    at: Place,
    is_static: bool,
    base: Base,
    from: Place,
    pointer: bool,
    name: Identifier,
) -> Result<Item, Stop>
    ensures { Reads item_of (spec.variables at is_static base from pointer name cursor.old) result cursor.new }
{
    let first = declared(alloc, cursor, MAX_NESTING, from, pointer, name)?;
    let found = declaration_from(alloc, cursor, MAX_NESTING, at, is_static, base, first)?;
    Ok(Item::Declare(found))
}

// A declaration, or a function that answers a value.
#[tactic(auto, unfolding(crate::specs::Sources::typed))]
fn typed(alloc: Global, cursor: &mut Cursor<'_>, at: Place, is_static: bool) -> Result<Item, Stop>
    ensures { Reads item_of (spec.typed at is_static cursor.old) result cursor.new }
{
    let base = type_base(cursor)?;
    let from = cursor.place();
    let pointer = star(cursor, base);
    let name = cursor.name(alloc)?;
    if cursor.sees(Mark::Open) {
        let returns = Returns::Value(TypeName { base, pointer });
        function(alloc, cursor, at, is_static, returns, name)
    } else {
        variables(alloc, cursor, at, is_static, base, from, pointer, name)
    }
}

#[tactic(auto, unfolding(crate::specs::Sources::external))]
fn external(alloc: Global, cursor: &mut Cursor<'_>, at: Place) -> Result<Item, Stop>
    ensures { Reads item_of (spec.external at cursor.old) result cursor.new }
{
    let is_static = cursor.eat_key(Key::Static);
    if !cursor.eat_key(Key::Void) {
        return typed(alloc, cursor, at, is_static);
    }
    let name = cursor.name(alloc)?;
    function(alloc, cursor, at, is_static, Returns::Void, name)
}

#[tactic(auto, unfolding(crate::specs::Sources::item))]
fn item(alloc: Global, cursor: &mut Cursor<'_>) -> Result<Item, Stop>
    ensures { Reads item_of (spec.item cursor.old) result cursor.new }
{
    let at = cursor.place();
    match cursor.class() {
        Class::Scope(level) => {
            let names = cursor.names(alloc)?;
            Ok(Item::Scope(at, level, names))
        }
        _ => external(alloc, cursor, at),
    }
}

// The next item, with those before it.
fn one_more_item(
    alloc: Global,
    cursor: &mut Cursor<'_>,
    found: Vec<Item>,
) -> Result<Vec<Item>, Stop>
    ensures { Reads (λ v. map item_of v.items) (spec.one_more_item (map item_of found.items) cursor.old) result cursor.new }
{
    let mut longer = found;
    longer.push(item(alloc, cursor)?)?;
    Ok(longer)
}

#[tactic(auto, unfolding(crate::specs::Reading::repeat_from))]
fn items(alloc: Global, cursor: &mut Cursor<'_>) -> Result<Vec<Item>, Stop>
    ensures { Reads (λ v. map item_of v.items) (spec.items cursor.old) result cursor.new }
{
    let mut found = Vec::new(alloc);
    for _turn in 0..cursor.left() {
        if cursor.is_over() {
            return Ok(found);
        }
        found = one_more_item(alloc, cursor, found)?;
    }
    Ok(found)
}

/// The items of a source, and the line of its last token that is no foreign pragma.
#[tactic(auto, unfolding(crate::specs::Sources::source))]
pub fn source(alloc: Global, cursor: &mut Cursor<'_>) -> Result<Tree, Stop>
    ensures { Reads tree_of (spec.source cursor.old) result cursor.new }
{
    let last_line = cursor.last_line();
    let items = items(alloc, cursor)?;
    Ok(Tree { items, last_line })
}
