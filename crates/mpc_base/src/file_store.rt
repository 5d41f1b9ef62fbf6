ghost use Rattle.std.specs.Prelude.{◌≡◌, ℕ, ◌≤◌, ◌↔◌, Option};
ghost use Rattle.mpc_base.specs.Causes.{Rose};
ghost use Rattle.mpc_base.specs.Told.{Store};
ghost use Rattle.mpc_base.specs.FileAnswers.{Reads, Writes};

use std::alloc::Global;

/// What a read of a file answers.
#[derive(Debug, Drop)]
pub enum ReadAnswer {
    /// The file's content.
    Bytes(Vec<u8>),
    /// There is no file of that name.
    Missing,
    /// The content is longer than the limit.
    TooLong,
    /// The outside failed.
    Failed,
    /// Memory was wanted and not found.
    Memory,
}

/// What a write of a file answers.
#[derive(Clone, Copy, Debug, PartialEq, Eq)]
pub enum WriteAnswer {
    /// The file has the bytes.
    Written,
    /// The outside failed, and what the file holds is not known.
    Failed,
    /// Memory was wanted and not found, and nothing was written.
    Memory,
}

/// Files by name: their contents, where the store tells them, and a count of faults that never falls.
pub trait Files {
    /// The contents by name, where the store tells them.
    ghost told: { Self → Option Store };

    /// How often a call has failed.
    ghost faults: { Self → ℕ };

    /// Reads a file of at most `limit` bytes. No file changes.
    fn read(&mut self, alloc: Global, name: &str, limit: usize) -> ReadAnswer
        ensures kept { told self.new ≡ told self.old }
        ensures later { faults self.old ≤ faults self.new }
        ensures failed { (result ≡ ReadAnswer.Failed) ↔ Rose (faults self.old) (faults self.new) }
        ensures content { Reads (told self.old) name.now limit result };

    /// Writes a file, whether or not there was one of that name. No other file changes.
    fn write(&mut self, alloc: Global, name: &str, bytes: &[u8]) -> WriteAnswer
        ensures later { faults self.old ≤ faults self.new }
        ensures failed { (result ≡ WriteAnswer.Failed) ↔ Rose (faults self.old) (faults self.new) }
        ensures content { Writes (told self.old) (told self.new) name.now bytes.now result };
}
