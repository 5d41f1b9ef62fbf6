//! A region, and slots for the ranges of it that are held.
ghost use Rattle.std.specs.Prelude.{◌≡◌, ◌+◌, ◌<◌, ◌≤◌, ◌⊎◌, true, None, length, IfSome};
ghost use Rattle.heap_runs.specs.Ranges.{slot, AreHeld};

use mpc_values::{Memory, Word};
use mpi_copy::{Held, direct, discard, hold, land};
use std::alloc::Global;
use word_region::Region;

/// A region, and its ranges that are held, each in a slot.
#[derive(Debug, Drop)]
pub struct Ranges {
    region: Region,
    slots: Vec<Option<Held>>,
    ghost held: { AreHeld region slots.items },
}

impl Ranges {
    /// So many empty slots over a new region.
    pub fn new(alloc: Global, count: usize) -> Result<Ranges, Memory> {
        let slots: Vec<Option<Held>> = vec![in alloc; None; count]?;
        Ok(Ranges {
            region: Region::new(alloc),
            slots,
        })
    }

    /// The range in a slot.
    pub fn get(&self, k: usize) -> Option<Held>
        ensures { result ≡ slot self.now.slots.items k }
    {
        match self.slots.get(k) {
            Some(range) => *range,
            None => None,
        }
    }

    /// Whether there is such a slot and no range in it.
    fn is_vacant(&self, k: usize) -> bool
        ensures { result ≡ true → (k < length self.now.slots.items) × (slot self.now.slots.items k ≡ None) }
    {
        match self.slots.get(k) {
            Some(range) => range.is_none(),
            None => false,
        }
    }

    /// Takes a range into an empty slot and gives its base. Gives none where the slot is not empty or no place is asked
    /// for.
    pub fn take(&mut self, k: usize, len: usize) -> Result<Option<usize>, Memory> {
        if len == 0 || !self.is_vacant(k) {
            return Ok(None);
        }
        let base = self.region.take(len)?;
        self.slots[k] = Some(Held { base, len });
        Ok(Some(base))
    }

    /// Releases the range in a slot. Tells whether there was one.
    pub fn release(&mut self, k: usize) -> bool {
        let Some(range) = self.get(k) else {
            return false;
        };
        self.region.release(range.base, range.len);
        self.slots[k] = None;
        true
    }

    /// The word of a place of the range in a slot.
    pub fn read(&self, k: usize, at: usize) -> Option<Word> {
        let range = self.get(k)?;
        let place = place_in(range, at)?;
        Some(self.region.read(place))
    }

    /// Changes the word of a place of the range in a slot. Tells whether there is such a place.
    pub fn write(&mut self, k: usize, at: usize, word: Word) -> bool {
        let Some(range) = self.get(k) else {
            return false;
        };
        let Some(place) = place_in(range, at) else {
            return false;
        };
        self.region.write(place, word);
        true
    }

    /// Copies the range in a slot over the first places of another one. Tells whether it did: the other has to be as
    /// long.
    pub fn direct(&mut self, from: usize, to: usize) -> bool {
        let Some(source) = self.get(from) else {
            return false;
        };
        let Some(target) = self.get(to) else {
            return false;
        };
        if target.len < source.len || !are_apart(source.base, target.base, source.len) {
            return false;
        }
        direct(&mut self.region, source.base, target.base, source.len);
        true
    }

    /// Copies the range in a slot into a range of its own, in an empty slot, and gives it.
    pub fn hold(&mut self, from: usize, k: usize) -> Result<Option<Held>, Memory> {
        let Some(source) = self.get(from) else {
            return Ok(None);
        };
        if !self.is_vacant(k) {
            return Ok(None);
        }
        let held = hold(&mut self.region, source.base, source.len)?;
        self.slots[k] = Some(held);
        Ok(Some(held))
    }

    /// Copies the range in a slot over the first places of another one, and releases it. Tells whether it did: the other
    /// has to be as long.
    pub fn land(&mut self, k: usize, to: usize) -> bool {
        let Some(held) = self.get(k) else {
            return false;
        };
        let Some(target) = self.get(to) else {
            return false;
        };
        if target.len < held.len || !are_apart(held.base, target.base, held.len) {
            return false;
        }
        land(&mut self.region, held, target.base);
        self.slots[k] = None;
        true
    }

    /// Releases the range of a copy in a slot. Tells whether there was one.
    pub fn discard(&mut self, k: usize) -> bool {
        let Some(held) = self.get(k) else {
            return false;
        };
        discard(&mut self.region, held);
        self.slots[k] = None;
        true
    }

    /// How many places are held.
    pub fn held(&self) -> usize {
        self.region.held()
    }

    /// How many places there are.
    pub fn len(&self) -> usize {
        self.region.len()
    }

    /// The words of all places.
    pub fn into_words(self) -> Vec<Word> {
        let Ranges { region, slots: _ } = self;
        region.into_words()
    }
}

/// A place of a range, by its number in the range.
fn place_in(range: Held, at: usize) -> Option<usize>
    ensures { IfSome result (λ p. (range.base ≤ p) × (p < range.base + range.len)) }
{
    if at < range.len {
        range.base.checked_add(at)
    } else {
        None
    }
}

/// Whether two ranges of one length share no place.
fn are_apart(a: usize, b: usize, len: usize) -> bool
    ensures { result ≡ true → (a + len ≤ b) ⊎ (b + len ≤ a) }
{
    if a <= b { len <= b - a } else { len <= a - b }
}
