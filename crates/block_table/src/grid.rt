//! Lines of keys, which are looked up by two numbers.
ghost use Rattle.std.specs.Prelude.{◌≡◌, ℕ, ◌+◌, ◌*◌, ◌^◌, ◌<◌, [], length, slice_index_or, None, OnOk};
ghost use Rattle.mpc_values.specs.declared.owners.Owner.TheVariants.{Inst};
ghost use Rattle.block_table.specs.Places.{key_at, key_in, IsThere, Sets, line_of, owner_kind};

use mpc_values::{Level, Memory, Owner};
use std::alloc::Global;
use std::marker::Model;

/// Lines of keys. A line and a place that were never asked for have none.
#[derive(Debug, Drop)]
pub struct Grid {
    alloc: Global,
    lines: Vec<Vec<Option<usize>>>,
}

impl Model for Grid {
    ghost use Rattle.block_table.specs.Places.{Grid as Lines, lines_seen};

    ghost Value = { Lines };

    ghost view = { λ g. lines_seen g.lines.items };
}

impl Grid {
    /// A grid without keys. It takes no memory.
    pub fn new(alloc: Global) -> Grid
        ensures { result ≡ [] }
    {
        Grid {
            alloc,
            lines: Vec::new(alloc),
        }
    }

    /// The key at a place of a line.
    pub fn get(&self, line: usize, place: usize) -> Option<usize>
        ensures { result ≡ key_at self.now line place }
    {
        match self.lines.get(line) {
            Some(keys) => match keys.get(place) {
                Some(key) => *key,
                None => None,
            },
            None => None,
        }
    }

    /// Makes the place be there. No key changes.
    pub fn reserve(&mut self, line: usize, place: u32) -> Result<(), Memory>
        requires { line < 2 ^ 40 }
        ensures keys { (a b : ℕ) → key_at self.new a b ≡ key_at self.old a b }
        ensures there { OnOk result (IsThere self.new line place) }
    {
        reserve_line(self.alloc, &mut self.lines, line)?;
        let keys = &mut self.lines[line];
        reserve_place(keys, place)?;
        Ok(())
    }

    /// Changes the key at a place that is there.
    pub fn set(&mut self, line: usize, place: usize, key: Option<usize>)
        requires { IsThere self.old line place }
        ensures { Sets self.old self.new line place key }
    {
        let keys = &mut self.lines[line];
        keys[place] = key;
    }
}

/// Makes there be a line of this number. No key changes.
fn reserve_line(
    alloc: Global,
    lines: &mut Vec<Vec<Option<usize>>>,
    line: usize,
) -> Result<(), Memory>
    requires { line < 2 ^ 40 }
    ensures keys { (a b : ℕ) → key_in lines.new.items a b ≡ key_in lines.old.items a b }
    ensures there { OnOk result (line < length lines.new.items) }
{
    for _ in lines.len()..line + 1 {
        lines.push(Vec::new(alloc))?;
    }
    Ok(())
}

/// Makes a line have a place. No key changes.
fn reserve_place(keys: &mut Vec<Option<usize>>, place: u32) -> Result<(), Memory>
    ensures keys { (b : ℕ) → slice_index_or keys.new.items b None ≡ slice_index_or keys.old.items b None }
    ensures there { OnOk result (place < length keys.new.items) }
{
    let place = place as usize;
    if keys.len() <= place {
        keys.resize(place + 1, None)?;
    }
    Ok(())
}

/// The line of an owner.
pub fn line_of(owner: Owner) -> usize
    ensures value { result ≡ line_of owner }
    ensures small { result < 2 ^ 40 }
{
    match owner {
        Owner::Task(task) => 7 * task as usize,
        Owner::Inst { level, id } => 7 * id as usize + level_kind(level),
    }
}

/// The number of a level among the kinds of owners.
fn level_kind(level: Level) -> usize
    ensures value { (id : ℕ) → result ≡ owner_kind (Inst level id) }
    ensures small { result < 7 }
{
    match level {
        Level::Core => 1,
        Level::L1 => 2,
        Level::L2 => 3,
        Level::L3 => 4,
        Level::Numa => 5,
        Level::Node => 6,
    }
}
