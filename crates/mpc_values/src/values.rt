/// The name of an object, as a task's pointers hold it.
#[derive(Clone, Copy, Debug, PartialEq, Eq, PartialOrd, Ord)]
pub enum Obj {
    /// The static variable of this number, counted from 0.
    Glob(u32),
    /// The object that the task made as its k-th, counted from 1. A name is never given again.
    Dyn(u32),
}

/// What one place of memory holds.
#[derive(Clone, Copy, Debug, PartialEq, Eq, PartialOrd, Ord)]
pub enum Word {
    /// Nothing was stored there yet.
    Undef,
    /// An int or a long.
    Int(i64),
    /// The null pointer.
    Null,
    /// A pointer to the place of an object, counted from 0.
    Ptr { obj: Obj, at: u32 },
    /// A communicator by its number: 0 is MPI_COMM_NULL and 1 is MPI_COMM_WORLD.
    Comm(u32),
    /// A request by its number: 0 is MPI_REQUEST_NULL.
    Req(u32),
}

/// The datatype of a message's elements (MPI 3.1, section 3.2.2).
#[derive(Clone, Copy, Debug, PartialEq, Eq, PartialOrd, Ord)]
pub enum Datatype {
    /// MPI_INT, of 32 bits.
    Int,
    /// MPI_LONG, of 64 bits.
    Long,
}

/// The operation of a reduction (MPI 3.1, section 5.9.2).
#[derive(Clone, Copy, Debug, PartialEq, Eq, PartialOrd, Ord)]
pub enum Op {
    Max,
    Min,
    Sum,
    Prod,
    Land,
    Band,
    Lor,
    Bor,
    Lxor,
    Bxor,
}
