//! Statements that share variables: the levels of their variables, and how control leaves a statement.
ghost use Rattle.std.specs.Prelude.{◌≡◌};
ghost use Rattle.c_types.specs.Constants.{on_both};
ghost use Rattle.c_types.specs.Statements as statements;

use crate::kinds::{Decl, Escapes, Home};
use crate::names::Names;
use c_tree::Identifier;
use c_tree::program::HlsKind;
use mpc_values::Level;

fn rank(level: Level) -> u8
    ensures { result ≡ statements.rank level }
{
    match level {
        Level::Core => 0,
        Level::L1 => 1,
        Level::L2 => 2,
        Level::L3 => 3,
        Level::Numa => 4,
        Level::Node => 5,
    }
}

// The level of the variable that a name stands for.
fn level_of(names: &Names, name: &[u8]) -> Option<Level>
    ensures { result ≡ statements.level_of names.now name.now }
{
    match names.find(name) {
        Some(Decl::Variable(variable)) => home_level(names, variable.home),
        _ => None,
    }
}

// The level of a file-scope variable; a static local has none.
fn home_level(names: &Names, home: Home) -> Option<Level>
    ensures { result ≡ statements.home_level names.now home }
{
    match home {
        Home::Static(number) => match names.globals.get(number as usize) {
            Some(variable) => variable.level,
            None => None,
        },
        Home::Local(_) => None,
    }
}

// The variables of a single all have one level, and those of a barrier the widest.
fn joined_level(is_barrier: bool, a: Level, b: Level) -> Option<Level>
    ensures { result ≡ statements.joined_level is_barrier a b }
{
    if is_barrier {
        return Some(if rank(a) <= rank(b) { b } else { a });
    }
    if rank(a) == rank(b) { Some(a) } else { None }
}

fn joined(is_barrier: bool, found: Option<Level>, next: Option<Level>) -> Option<Level>
    ensures { result ≡ on_both (statements.joined_level is_barrier) found next }
{
    match (found, next) {
        (Some(found), Some(next)) => joined_level(is_barrier, found, next),
        _ => None,
    }
}

fn levels_from(
    is_barrier: bool,
    names: &Names,
    found: Option<Level>,
    others: &[Identifier],
) -> Option<Level>
    ensures { result ≡ statements.levels_from is_barrier names.now found others.now }
{
    let mut found = found;
    for name in others {
        found = joined(is_barrier, found, level_of(names, name.as_slice()));
    }
    found
}

/// The level of the variables of a single or a barrier, where there is a name and each variable has a
/// level.
pub fn levels_of(is_barrier: bool, names: &Names, all: &[Identifier]) -> Option<Level>
    ensures { result ≡ statements.levels_of is_barrier names.now all.now }
{
    match all {
        [] => None,
        [first, others @ ..] => levels_from(
            is_barrier,
            names,
            level_of(names, first.as_slice()),
            others,
        ),
    }
}

pub fn single_kind(nowait: bool) -> HlsKind
    ensures { result ≡ statements.single_kind nowait }
{
    if nowait {
        HlsKind::Nowait
    } else {
        HlsKind::Single
    }
}

/// Control leaves a statement at its end alone.
pub fn stays() -> Escapes
    ensures { result ≡ statements.stays }
{
    Escapes {
        returns: false,
        jumps: false,
        shares: false,
    }
}

pub fn escapes_both(a: Escapes, b: Escapes) -> Escapes
    ensures { result ≡ statements.escapes_both a b }
{
    Escapes {
        returns: a.returns || b.returns,
        jumps: a.jumps || b.jumps,
        shares: a.shares || b.shares,
    }
}

/// A loop takes up the breaks and continues of its body.
pub fn escapes_loop(a: Escapes) -> Escapes
    ensures { result ≡ statements.escapes_loop a }
{
    Escapes {
        returns: a.returns,
        jumps: false,
        shares: a.shares,
    }
}

pub fn escapes_sharing(a: Escapes) -> Escapes
    ensures { result ≡ statements.escapes_sharing a }
{
    Escapes {
        returns: a.returns,
        jumps: a.jumps,
        shares: true,
    }
}

/// Whether a block of a single may stand there, by how control leaves it.
pub fn is_closed(in_loop: bool, a: Escapes) -> bool
    ensures { result ≡ statements.is_closed in_loop a }
{
    !a.returns && !(in_loop && a.jumps) && !a.shares
}
