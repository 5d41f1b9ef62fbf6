//! The functions of MPI that programs may call: one table of data, a row for each function.
ghost use Rattle.std.specs.Prelude.{◌≡◌, ◌≢◌, IfSome, None};
ghost use Rattle.c_tree.specs.declared.mpi.MpiFunction.{MpiFunction};
ghost use Rattle.c_tree.specs.MpiTable as table;

/// A function of MPI 3.1.
#[derive(Clone, Copy, Debug, PartialEq, Eq)]
pub enum MpiFunction {
    Init,
    Finalize,
    Abort,
    CommRank,
    CommSize,
    CommDup,
    CommSplit,
    CommFree,
    Send,
    Ssend,
    Isend,
    Issend,
    Irecv,
    Recv,
    Sendrecv,
    Wait,
    Test,
    Waitall,
    Waitany,
    Probe,
    Iprobe,
    GetCount,
    Barrier,
    Bcast,
    Reduce,
    Allreduce,
    Scan,
    Exscan,
    Gather,
    Allgather,
    Scatter,
    Alltoall,
}

/// What an MPI function takes at one place of its arguments.
#[derive(Clone, Copy, Debug, PartialEq, Eq)]
pub enum Argument {
    /// An int: a count, rank, tag, root, colour, key or error code. A long wraps.
    Number,
    /// A communicator.
    Comm,
    /// A place for an int: a rank, size, count, flag or index.
    NumberPlace,
    /// A place of a communicator.
    CommPlace,
    /// A place of a request, or the first of several.
    RequestPlace,
    /// The words of a message, of the datatype that follows it.
    Buffer,
    /// MPI_INT or MPI_LONG, for the buffers before it, or for what is counted.
    Datatype,
    /// The operation of a fold.
    Operation,
    /// A place for a status, or the first of several, or MPI_STATUS_IGNORE or MPI_STATUSES_IGNORE.
    Status,
    /// A place of a status that is read.
    FilledStatus,
    /// What MPI_Init takes: NULL, or main's own `&argc` or `&argv`.
    Start,
}

/// Every function, in the order of the table.
pub const MPI_FUNCTIONS: [MpiFunction; 32] = [
    MpiFunction::Init,
    MpiFunction::Finalize,
    MpiFunction::Abort,
    MpiFunction::CommRank,
    MpiFunction::CommSize,
    MpiFunction::CommDup,
    MpiFunction::CommSplit,
    MpiFunction::CommFree,
    MpiFunction::Send,
    MpiFunction::Ssend,
    MpiFunction::Isend,
    MpiFunction::Issend,
    MpiFunction::Irecv,
    MpiFunction::Recv,
    MpiFunction::Sendrecv,
    MpiFunction::Wait,
    MpiFunction::Test,
    MpiFunction::Waitall,
    MpiFunction::Waitany,
    MpiFunction::Probe,
    MpiFunction::Iprobe,
    MpiFunction::GetCount,
    MpiFunction::Barrier,
    MpiFunction::Bcast,
    MpiFunction::Reduce,
    MpiFunction::Allreduce,
    MpiFunction::Scan,
    MpiFunction::Exscan,
    MpiFunction::Gather,
    MpiFunction::Allgather,
    MpiFunction::Scatter,
    MpiFunction::Alltoall,
];

pub const INIT_ARGUMENTS: [Argument; 2] = [Argument::Start, Argument::Start];

pub const FINALIZE_ARGUMENTS: [Argument; 0] = [];

pub const ABORT_ARGUMENTS: [Argument; 2] = [Argument::Comm, Argument::Number];

pub const COMM_RANK_ARGUMENTS: [Argument; 2] = [Argument::Comm, Argument::NumberPlace];

pub const COMM_SIZE_ARGUMENTS: [Argument; 2] = [Argument::Comm, Argument::NumberPlace];

pub const COMM_DUP_ARGUMENTS: [Argument; 2] = [Argument::Comm, Argument::CommPlace];

pub const COMM_SPLIT_ARGUMENTS: [Argument; 4] = [
    Argument::Comm,
    Argument::Number,
    Argument::Number,
    Argument::CommPlace,
];

pub const COMM_FREE_ARGUMENTS: [Argument; 1] = [Argument::CommPlace];

pub const SEND_ARGUMENTS: [Argument; 6] = [
    Argument::Buffer,
    Argument::Number,
    Argument::Datatype,
    Argument::Number,
    Argument::Number,
    Argument::Comm,
];

pub const SSEND_ARGUMENTS: [Argument; 6] = [
    Argument::Buffer,
    Argument::Number,
    Argument::Datatype,
    Argument::Number,
    Argument::Number,
    Argument::Comm,
];

pub const ISEND_ARGUMENTS: [Argument; 7] = [
    Argument::Buffer,
    Argument::Number,
    Argument::Datatype,
    Argument::Number,
    Argument::Number,
    Argument::Comm,
    Argument::RequestPlace,
];

pub const ISSEND_ARGUMENTS: [Argument; 7] = [
    Argument::Buffer,
    Argument::Number,
    Argument::Datatype,
    Argument::Number,
    Argument::Number,
    Argument::Comm,
    Argument::RequestPlace,
];

pub const IRECV_ARGUMENTS: [Argument; 7] = [
    Argument::Buffer,
    Argument::Number,
    Argument::Datatype,
    Argument::Number,
    Argument::Number,
    Argument::Comm,
    Argument::RequestPlace,
];

pub const RECV_ARGUMENTS: [Argument; 7] = [
    Argument::Buffer,
    Argument::Number,
    Argument::Datatype,
    Argument::Number,
    Argument::Number,
    Argument::Comm,
    Argument::Status,
];

pub const SENDRECV_ARGUMENTS: [Argument; 12] = [
    Argument::Buffer,
    Argument::Number,
    Argument::Datatype,
    Argument::Number,
    Argument::Number,
    Argument::Buffer,
    Argument::Number,
    Argument::Datatype,
    Argument::Number,
    Argument::Number,
    Argument::Comm,
    Argument::Status,
];

pub const WAIT_ARGUMENTS: [Argument; 2] = [Argument::RequestPlace, Argument::Status];

pub const TEST_ARGUMENTS: [Argument; 3] = [
    Argument::RequestPlace,
    Argument::NumberPlace,
    Argument::Status,
];

pub const WAITALL_ARGUMENTS: [Argument; 3] = [
    Argument::Number,
    Argument::RequestPlace,
    Argument::Status,
];

pub const WAITANY_ARGUMENTS: [Argument; 4] = [
    Argument::Number,
    Argument::RequestPlace,
    Argument::NumberPlace,
    Argument::Status,
];

pub const PROBE_ARGUMENTS: [Argument; 4] = [
    Argument::Number,
    Argument::Number,
    Argument::Comm,
    Argument::Status,
];

pub const IPROBE_ARGUMENTS: [Argument; 5] = [
    Argument::Number,
    Argument::Number,
    Argument::Comm,
    Argument::NumberPlace,
    Argument::Status,
];

pub const GET_COUNT_ARGUMENTS: [Argument; 3] = [
    Argument::FilledStatus,
    Argument::Datatype,
    Argument::NumberPlace,
];

pub const BARRIER_ARGUMENTS: [Argument; 1] = [Argument::Comm];

pub const BCAST_ARGUMENTS: [Argument; 5] = [
    Argument::Buffer,
    Argument::Number,
    Argument::Datatype,
    Argument::Number,
    Argument::Comm,
];

pub const REDUCE_ARGUMENTS: [Argument; 7] = [
    Argument::Buffer,
    Argument::Buffer,
    Argument::Number,
    Argument::Datatype,
    Argument::Operation,
    Argument::Number,
    Argument::Comm,
];

pub const ALLREDUCE_ARGUMENTS: [Argument; 6] = [
    Argument::Buffer,
    Argument::Buffer,
    Argument::Number,
    Argument::Datatype,
    Argument::Operation,
    Argument::Comm,
];

pub const SCAN_ARGUMENTS: [Argument; 6] = [
    Argument::Buffer,
    Argument::Buffer,
    Argument::Number,
    Argument::Datatype,
    Argument::Operation,
    Argument::Comm,
];

pub const EXSCAN_ARGUMENTS: [Argument; 6] = [
    Argument::Buffer,
    Argument::Buffer,
    Argument::Number,
    Argument::Datatype,
    Argument::Operation,
    Argument::Comm,
];

pub const GATHER_ARGUMENTS: [Argument; 8] = [
    Argument::Buffer,
    Argument::Number,
    Argument::Datatype,
    Argument::Buffer,
    Argument::Number,
    Argument::Datatype,
    Argument::Number,
    Argument::Comm,
];

pub const ALLGATHER_ARGUMENTS: [Argument; 7] = [
    Argument::Buffer,
    Argument::Number,
    Argument::Datatype,
    Argument::Buffer,
    Argument::Number,
    Argument::Datatype,
    Argument::Comm,
];

pub const SCATTER_ARGUMENTS: [Argument; 8] = [
    Argument::Buffer,
    Argument::Number,
    Argument::Datatype,
    Argument::Buffer,
    Argument::Number,
    Argument::Datatype,
    Argument::Number,
    Argument::Comm,
];

pub const ALLTOALL_ARGUMENTS: [Argument; 7] = [
    Argument::Buffer,
    Argument::Number,
    Argument::Datatype,
    Argument::Buffer,
    Argument::Number,
    Argument::Datatype,
    Argument::Comm,
];

// The first of the functions that has the name.
fn first_named(functions: &[MpiFunction], name: &[u8]) -> Option<MpiFunction>
    ensures { result ≡ table.first_named name.now functions.now }
{
    for function in functions {
        if function.name().as_bytes() == name {
            return Some(*function);
        }
    }
    None
}

impl MpiFunction {
    /// The function that programs call by this name, if there is one.
    pub fn named(name: &[u8]) -> Option<MpiFunction>
        ensures value { result ≡ table.mpi_named name.now }
        ensures named { IfSome result (λ f. table.mpi_name f ≡ name.now) }
        ensures others { result ≡ None → (f : MpiFunction) → table.mpi_name f ≢ name.now }
    {
        first_named(&MPI_FUNCTIONS, name)
    }

    /// The function's name in programs.
    pub fn name(self) -> &'static str
        ensures { result.now ≡ table.mpi_name self }
    {
        match self {
            MpiFunction::Init => "MPI_Init",
            MpiFunction::Finalize => "MPI_Finalize",
            MpiFunction::Abort => "MPI_Abort",
            MpiFunction::CommRank => "MPI_Comm_rank",
            MpiFunction::CommSize => "MPI_Comm_size",
            MpiFunction::CommDup => "MPI_Comm_dup",
            MpiFunction::CommSplit => "MPI_Comm_split",
            MpiFunction::CommFree => "MPI_Comm_free",
            MpiFunction::Send => "MPI_Send",
            MpiFunction::Ssend => "MPI_Ssend",
            MpiFunction::Isend => "MPI_Isend",
            MpiFunction::Issend => "MPI_Issend",
            MpiFunction::Irecv => "MPI_Irecv",
            MpiFunction::Recv => "MPI_Recv",
            MpiFunction::Sendrecv => "MPI_Sendrecv",
            MpiFunction::Wait => "MPI_Wait",
            MpiFunction::Test => "MPI_Test",
            MpiFunction::Waitall => "MPI_Waitall",
            MpiFunction::Waitany => "MPI_Waitany",
            MpiFunction::Probe => "MPI_Probe",
            MpiFunction::Iprobe => "MPI_Iprobe",
            MpiFunction::GetCount => "MPI_Get_count",
            MpiFunction::Barrier => "MPI_Barrier",
            MpiFunction::Bcast => "MPI_Bcast",
            MpiFunction::Reduce => "MPI_Reduce",
            MpiFunction::Allreduce => "MPI_Allreduce",
            MpiFunction::Scan => "MPI_Scan",
            MpiFunction::Exscan => "MPI_Exscan",
            MpiFunction::Gather => "MPI_Gather",
            MpiFunction::Allgather => "MPI_Allgather",
            MpiFunction::Scatter => "MPI_Scatter",
            MpiFunction::Alltoall => "MPI_Alltoall",
        }
    }

    /// What the function takes, in order (MPI 3.1, annex A.3).
    pub fn arguments(self) -> &'static [Argument]
        ensures { result.now ≡ table.arguments_of self }
    {
        match self {
            MpiFunction::Init => &INIT_ARGUMENTS,
            MpiFunction::Finalize => &FINALIZE_ARGUMENTS,
            MpiFunction::Abort => &ABORT_ARGUMENTS,
            MpiFunction::CommRank => &COMM_RANK_ARGUMENTS,
            MpiFunction::CommSize => &COMM_SIZE_ARGUMENTS,
            MpiFunction::CommDup => &COMM_DUP_ARGUMENTS,
            MpiFunction::CommSplit => &COMM_SPLIT_ARGUMENTS,
            MpiFunction::CommFree => &COMM_FREE_ARGUMENTS,
            MpiFunction::Send => &SEND_ARGUMENTS,
            MpiFunction::Ssend => &SSEND_ARGUMENTS,
            MpiFunction::Isend => &ISEND_ARGUMENTS,
            MpiFunction::Issend => &ISSEND_ARGUMENTS,
            MpiFunction::Irecv => &IRECV_ARGUMENTS,
            MpiFunction::Recv => &RECV_ARGUMENTS,
            MpiFunction::Sendrecv => &SENDRECV_ARGUMENTS,
            MpiFunction::Wait => &WAIT_ARGUMENTS,
            MpiFunction::Test => &TEST_ARGUMENTS,
            MpiFunction::Waitall => &WAITALL_ARGUMENTS,
            MpiFunction::Waitany => &WAITANY_ARGUMENTS,
            MpiFunction::Probe => &PROBE_ARGUMENTS,
            MpiFunction::Iprobe => &IPROBE_ARGUMENTS,
            MpiFunction::GetCount => &GET_COUNT_ARGUMENTS,
            MpiFunction::Barrier => &BARRIER_ARGUMENTS,
            MpiFunction::Bcast => &BCAST_ARGUMENTS,
            MpiFunction::Reduce => &REDUCE_ARGUMENTS,
            MpiFunction::Allreduce => &ALLREDUCE_ARGUMENTS,
            MpiFunction::Scan => &SCAN_ARGUMENTS,
            MpiFunction::Exscan => &EXSCAN_ARGUMENTS,
            MpiFunction::Gather => &GATHER_ARGUMENTS,
            MpiFunction::Allgather => &ALLGATHER_ARGUMENTS,
            MpiFunction::Scatter => &SCATTER_ARGUMENTS,
            MpiFunction::Alltoall => &ALLTOALL_ARGUMENTS,
        }
    }
}
