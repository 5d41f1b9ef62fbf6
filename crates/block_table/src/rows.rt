//! What a row says of an object, and what marks its places.
pub use memory_model::Kind as RowKind;
use mpc_values::{Obj, Owner};

/// The row of a live object: whose it is, its name and kind, and the range of words that it has.
#[derive(Clone, Copy, Debug, PartialEq, Eq)]
pub struct Row {
    pub owner: Owner,
    pub obj: Obj,
    pub kind: RowKind,
    /// The number of its first word in the region.
    pub base: usize,
    /// How many words it has.
    pub len: u32,
}

/// What messages under way have marked a place (MPI 3.1, sections 3.7.2 and 3.7.3).
#[derive(Clone, Copy, Debug, PartialEq, Eq)]
pub enum Mark {
    /// No message has it.
    Free,
    /// So many sends have it, and no receive.
    Sends(u32),
    /// A receive has it, and nothing else.
    Receive,
}

/// Places of a row, from a number on.
#[derive(Clone, Copy, Debug, PartialEq, Eq)]
pub struct Span {
    /// The key of the row. It lasts as long as the row lives.
    pub key: usize,
    pub at: u32,
    pub len: u32,
}
