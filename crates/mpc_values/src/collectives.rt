//! Collective calls.

use crate::values::{Datatype, Op, Word};

/// Which collective call it is (MPI 3.1, chapters 5 and 6).
#[derive(Clone, Copy, Debug, PartialEq, Eq)]
pub enum CollKind {
    Barrier,
    Bcast,
    Reduce,
    Allreduce,
    Scan,
    Exscan,
    Gather,
    Allgather,
    Scatter,
    Alltoall,
    Dup,
    Split,
    Free,
}

/// What one member asks of a collective call. Fields that a kind has not are 0, Sum, Int and Null.
#[derive(Clone, Copy, Debug, PartialEq, Eq)]
pub struct Coll {
    pub what: CollKind,
    pub comm: Word,
    /// The rank of the root in the communicator.
    pub root: i32,
    pub op: Op,
    pub kind: Datatype,
    /// How many elements the member gives; in a fold how many places are folded.
    pub count: i32,
    /// How many elements the member gets from each, where there is a second count.
    pub other: i32,
    /// The first place of what the member gives.
    pub from: Word,
    /// The first place of what the member gets.
    pub into: Word,
    pub colour: i32,
    pub key: i32,
}
