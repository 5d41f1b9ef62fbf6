//! The space of one task.
ghost use Rattle.mem_space.specs.Spaces.{IsTask};

use mem_space::Space;
use mpc_values::{Memory, Word};
use std::alloc::Global;
use topology::flat;

/// The memory of one task on one core, without static variables.
#[derive(Debug, Drop)]
pub struct OneTask {
    space: Space,
    ghost one: { IsTask space 0 },
}

impl OneTask {
    /// No objects, and so many words at most.
    pub fn new(alloc: Global, quota: u32) -> Result<OneTask, Memory> {
        let machine = flat(alloc, 1)?;
        let space = Space::new(alloc, &[], &machine, &[0], quota)?;
        Ok(OneTask { space })
    }

    /// Makes a block of so many words, or gives Null where the quota forbids it.
    pub fn make(&mut self, len: i64) -> Result<Word, Memory> {
        self.space.malloc(0, len)
    }

    /// The word of a place, where it can be loaded.
    pub fn load(&self, at: Word) -> Option<Word> {
        self.space.load(0, at).ok()
    }

    /// Changes the word of a place. Tells whether it did.
    pub fn store(&mut self, at: Word, word: Word) -> bool {
        self.space.store(0, at, word).is_ok()
    }
}
