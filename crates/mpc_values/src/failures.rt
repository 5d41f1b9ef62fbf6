ghost use Rattle.mpc_values.specs.declared.failures.Memory.{Memory};

use std::alloc::{AllocError, AllocFailed};

/// Memory was wanted and not found.
#[derive(Clone, Copy, Debug, PartialEq, Eq)]
pub struct Memory;

/// The outside failed: a read, a write or a start of a thread.
#[derive(Clone, Copy, Debug, PartialEq, Eq)]
pub struct Failed;

impl From<AllocError> for Memory {
    fn from(_refused: AllocError) -> Memory {
        Memory
    }
}

impl<T: Drop> From<AllocFailed<T>> for Memory {
    fn from(_refused: AllocFailed<T>) -> Memory {
        Memory
    }
}
