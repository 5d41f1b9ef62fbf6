//! What is kept of a collective call.

use mpc_values::{Coll, Words};

/// A member's arrival at a meeting of its communicator (MPI 3.1, chapter 5).
#[derive(Debug, Clone, Drop)]
pub struct Arrival {
    pub comm: u32,
    pub rank: u32,
    /// The number of the meeting among those of the communicator, counted from 0.
    pub meeting: u32,
    pub coll: Coll,
    /// The words that the member contributed.
    pub given: Words,
    /// Whether the member has left since.
    pub left: bool,
}
