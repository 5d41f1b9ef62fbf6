//! Copies of messages inside the heap: a whole one, one into a range of its own, and from there to its receiver.
#![tactic(auto)]

ghost use Rattle.std.specs.Prelude.{◌≡◌, ◌+◌, ◌<◌, ◌≤◌, ◌⊎◌, IfOk, OnOk, OnErr};
ghost use Rattle.word_region.specs.Places.{IsHeld, IsFree, IsFirstFit, Releases, Shifts};
ghost use Rattle.mpi_copy.specs.Copies.{Holds, Lands};

use mpc_values::Memory;
use word_region::Region;

/// A copy of a message in a range of its own, until it is landed or discarded.
#[derive(Clone, Copy, Debug, PartialEq, Eq)]
pub struct Held {
    /// The first place of the range.
    pub base: usize,
    /// How many words it has.
    pub len: usize,
}

/// Copies a message of one word or more from its sender's places to its receiver's, which share none. It takes no
/// memory, whatever the length.
pub fn direct(region: &mut Region, from: usize, to: usize, len: usize)
    requires source { IsHeld region.old.cells from len }
    requires target { IsHeld region.old.cells to len }
    requires apart { (from + len ≤ to) ⊎ (to + len ≤ from) }
    ensures shifts { Shifts region.old.cells region.new.cells from to len }
    ensures ranges { region.new.ranges ≡ region.old.ranges }
{
    region.shift(from, to, len);
}

/// Copies a message of one word or more into a range of its own, which is the first that fits. After want of memory the
/// region is as it was.
pub fn hold(region: &mut Region, from: usize, len: usize) -> Result<Held, Memory>
    requires some { 0 < len }
    requires source { IsHeld region.old.cells from len }
    ensures first { IfOk result (λ held. IsFirstFit region.old.cells len held.base) }
    ensures len { IfOk result (λ held. held.len ≡ len) }
    ensures holds { IfOk result (λ held. Holds region.old.cells region.new.cells from held.base len) }
    ensures ranges { OnOk result (region.new.ranges ≡ region.old.ranges + 1) }
    ensures err { OnErr result (region.new ≡ region.old) }
{
    let base = region.take(len)?;
    region.shift(from, base, len);
    Ok(Held { base, len })
}

/// Copies a held message to its receiver's places and releases its range. It takes no memory.
pub fn land(region: &mut Region, held: Held, to: usize)
    requires some { 0 < held.len }
    requires taken { 0 < region.old.ranges }
    requires source { IsHeld region.old.cells held.base held.len }
    requires target { IsHeld region.old.cells to held.len }
    requires apart { (held.base + held.len ≤ to) ⊎ (to + held.len ≤ held.base) }
    ensures lands { Lands region.old.cells region.new.cells held.base to held.len }
    ensures ranges { region.new.ranges + 1 ≡ region.old.ranges }
{
    region.shift(held.base, to, held.len);
    region.release(held.base, held.len);
}

/// Releases the range of a held message that is not received. It takes no memory.
pub fn discard(region: &mut Region, held: Held)
    requires some { 0 < held.len }
    requires taken { 0 < region.old.ranges }
    requires source { IsHeld region.old.cells held.base held.len }
    ensures releases { Releases region.old.cells region.new.cells held.base held.len }
    ensures ranges { region.new.ranges + 1 ≡ region.old.ranges }
{
    region.release(held.base, held.len);
}
