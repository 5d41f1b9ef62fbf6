//! Why nothing was done.
ghost use Rattle.std.specs.Prelude.{◌≡◌};
ghost use Rattle.mpc_top.specs.Refusals.{status_for};

use crate::sources::SourceRefusal;

/// Why nothing was done.
#[derive(Clone, Copy, Debug, PartialEq, Eq)]
pub enum Refusal {
    /// The words are no command.
    Usage,
    /// The read of the source failed.
    ReadFault,
    /// The source is refused.
    Source(SourceRefusal),
    /// Memory was wanted and not found.
    Memory,
}

impl Refusal {
    /// The exit status.
    pub fn status(self) -> u8
        ensures { result ≡ status_for self }
    {
        match self {
            Refusal::Usage => 6,
            Refusal::ReadFault => 7,
            Refusal::Source(_) => 5,
            Refusal::Memory => 10,
        }
    }
}
