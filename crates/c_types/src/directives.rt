//! The directives that give file-scope variables a level.
ghost use Rattle.std.specs.Prelude.{◌≡◌};
ghost use Rattle.c_types.specs.Nodes as nodes;
ghost use Rattle.c_types.specs.Nodes.{first_of};
ghost use Rattle.c_types.specs.Outcomes.{fault};
ghost use Rattle.c_types.specs.Units as units;

use crate::agreement::{is_number, same_kind};
use crate::kinds::{Decl, Home, Kind, Variable};
use crate::names::Names;
use crate::outcomes::blamed;
use crate::refusals::TypeRefusal;
use crate::shapes::{ItemShape, Shape};
use c_tree::Identifier;
use c_tree::syntax::{Base, Place};
use mpc_values::{Level, StaticVar};

// An int or long variable or array.
fn may_be_shared(variable: Variable) -> bool
    ensures { result ≡ units.may_be_shared variable }
{
    if variable.is_array {
        return same_kind(variable.kind, Kind::Pointer(Base::Int))
            || same_kind(variable.kind, Kind::Pointer(Base::Long));
    }
    is_number(variable.kind)
}

// The number of a file-scope variable without a level.
fn home_target(globals: &[StaticVar], home: Home) -> Option<u32>
    ensures { result ≡ units.home_target globals.now home }
{
    match home {
        Home::Static(number) => match globals.get(number as usize) {
            Some(variable) if variable.level.is_none() => Some(number),
            _ => None,
        },
        Home::Local(_) => None,
    }
}

// The number of the variable that a name stands for, where it may be given a level.
fn target(names: &Names, name: &[u8]) -> Option<u32>
    ensures { result ≡ units.target names.now name.now }
{
    match names.find(name) {
        Some(Decl::Variable(variable)) if may_be_shared(variable) => {
            home_target(&names.globals, variable.home)
        }
        _ => None,
    }
}

// The variable of this number gets the level.
fn levelled(names: &mut Names, level: Level, number: Option<u32>)
    ensures { names.new ≡ units.levelled level names.old number }
{
    if let Some(number) = number {
        if let Some(variable) = names.globals.get_mut(number as usize) {
            variable.level = Some(level);
        }
    }
}

// The level is given to these names, one after the other, and each of them may be given it.
fn with_level(names: &mut Names, level: Level, all: &[Identifier]) -> bool
    ensures names { names.new ≡ units.with_level level names.old all.now }
    ensures value { result ≡ units.may_level level names.old all.now }
{
    let mut may = true;
    for name in all {
        let number = target(names, name.as_slice());
        levelled(names, level, number);
        may = may && number.is_some();
    }
    may
}

/// A directive that gives variables a level.
pub fn pass_scope(
    names: &mut Names,
    at: Place,
    level: Level,
    all: &[Identifier],
) -> Result<(), TypeRefusal>
    ensures names { names.new ≡ units.with_level level names.old all.now }
    ensures first { fault result ≡ first_of (nodes.At at.line (units.scope_shape names.old level all.now) nodes.Empty) }
{
    let is_first = !names.has_definition;
    let may = with_level(names, level, all);
    let shape = Shape::Item(ItemShape::Scope(is_first && may));
    blamed(shape, at.line, Ok(()))
}
