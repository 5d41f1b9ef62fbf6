//! The region: words, the holes between them, and what is counted.
ghost use Rattle.std.specs.Prelude.{◌≡◌, ◌+◌, ◌<◌, ◌≤◌, [], true, Some, IfOk, OnErr, OnOk, length, slice_set, ◌⊎◌, is_some};
ghost use Rattle.word_region.specs.Places.{cell, held_of, IsHeld, IsFirstFit, Takes, Releases, Shifts, ShowsHeld};

use crate::holes::{Hole, add_hole, take_range};
use crate::words::copy;
use mpc_values::{Memory, Word};
use std::alloc::Global;
use std::marker::Model;

/// Words in one vector, with holes that are handed out again by first fit.
#[derive(Debug, Drop)]
pub struct Region {
    words: Vec<Word>,
    holes: Vec<Hole>,
    held: usize,
    ranges: usize,
}

impl Model for Region {
    ghost use Rattle.word_region.specs.Places.{Places};

    ghost Value = { Places };

    ghost use Rattle.word_region.specs.Kept.{seen_of, IsKept};

    ghost view = { seen_of };

    ghost invariant = { IsKept };
}

impl Region {
    /// A region without places. It takes no memory.
    pub fn new(alloc: Global) -> Region
        ensures { result ≡ record { cells = []; ranges = 0 } }
    {
        Region {
            words: Vec::new(alloc),
            holes: Vec::new(alloc),
            held: 0,
            ranges: 0,
        }
    }

    /// The word of a held place.
    pub fn read(&self, at: usize) -> Word
        requires { is_some (cell self.now.cells at) ≡ true }
        ensures { Some result ≡ cell self.now.cells at }
    {
        self.words[at]
    }

    /// Takes so many places, one or more, and gives the first of them. The range is the first that fits, by rising
    /// base, in a hole or at the end, and its words are unset. Every held word stays as it is, and after want of memory
    /// the region does.
    pub fn take(&mut self, len: usize) -> Result<usize, Memory>
        requires { 0 < len }
        ensures first { IfOk result (λ base. IsFirstFit self.old.cells len base) }
        ensures takes { IfOk result (λ base. Takes self.old.cells self.new.cells base len) }
        ensures ranges { OnOk result (self.new.ranges ≡ self.old.ranges + 1) }
        ensures err { OnErr result (self.new ≡ self.old) }
    {
        let Some(ranges) = self.ranges.checked_add(1) else {
            return Err(Memory);
        };
        // Room for the holes that the releases of all ranges may leave.
        self.holes.reserve(ranges)?;
        let base = take_range(&mut self.words, &mut self.holes, len)?;
        self.ranges = ranges;
        self.held += len;
        Ok(base)
    }

    /// Gives a held range back, as it was taken. It is one with the holes beside it.
    pub fn release(&mut self, base: usize, len: usize)
        requires some { 0 < len }
        requires taken { 0 < self.old.ranges }
        requires held { IsHeld self.old.cells base len }
        ensures releases { Releases self.old.cells self.new.cells base len }
        ensures ranges { self.new.ranges + 1 ≡ self.old.ranges }
    {
        let end = self.words.len();
        add_hole(&mut self.holes, base, len, end);
        self.ranges -= 1;
        self.held -= len;
    }

    /// Changes the word of a held place.
    pub fn write(&mut self, at: usize, word: Word)
        requires { is_some (cell self.old.cells at) ≡ true }
        ensures { self.new ≡ record self.old { cells = slice_set self.old.cells at (Some word) } }
    {
        self.words[at] = word;
    }

    /// Copies the words of a held range over those of another one that shares no place with it.
    pub fn shift(&mut self, from: usize, to: usize, len: usize)
        requires source { IsHeld self.old.cells from len }
        requires target { IsHeld self.old.cells to len }
        requires apart { (from + len ≤ to) ⊎ (to + len ≤ from) }
        ensures shifts { Shifts self.old.cells self.new.cells from to len }
        ensures ranges { self.new.ranges ≡ self.old.ranges }
    {
        if 0 < len {
            copy(&mut self.words, from, to, len);
        }
    }

    /// How many places are held.
    pub fn held(&self) -> usize
        ensures { result ≡ held_of self.now.cells }
    {
        self.held
    }

    /// How many places there are, held or free.
    pub fn len(&self) -> usize
        ensures { result ≡ length self.now.cells }
    {
        self.words.len()
    }

    /// The words of all places, with those of held places as they were. It takes no memory.
    pub fn into_words(self) -> Vec<Word>
        ensures { ShowsHeld self result.items }
    {
        let Region {
            words,
            holes: _,
            held: _,
            ranges: _,
        } = self;
        words
    }
}
