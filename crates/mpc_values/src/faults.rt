//! Why a call cannot be done.
ghost use Rattle.std.specs.Prelude.{◌≡◌};
ghost use Rattle.mpc_values.specs.CallTable as table;

/// Why a call cannot be done. Any fault ends the whole run.
#[derive(Clone, Copy, Debug, PartialEq, Eq)]
pub enum Fault {
    /// A result outside its type.
    Overflow,
    /// A divisor of 0.
    Divide,
    /// A shift count outside the width.
    Shift,
    /// An unset word or local is read, or a missing value returned.
    Uninit,
    /// NULL, or what is no pointer, is used as a place.
    NullAccess,
    /// A place outside its object.
    Bounds,
    /// A dead object is used, or what is no block is freed.
    Dangling,
    /// A place of a message that is under way is touched.
    PendingTouch,
    /// An object with a place of a message that is under way is dropped.
    PendingDrop,
    /// An MPI call before MPI_Init or behind MPI_Finalize.
    NotInit,
    /// A second MPI_Init.
    InitTwice,
    /// main ends behind MPI_Init without MPI_Finalize.
    NoFinalize,
    /// MPI_Finalize with an active request.
    LeakedRequest,
    /// A root outside the group; a peer outside it that is neither MPI_PROC_NULL nor, in a receive or probe,
    /// MPI_ANY_SOURCE.
    BadRank,
    /// A tag outside 0 to 32,767 that is not MPI_ANY_TAG in a receive or probe.
    BadTag,
    /// A negative count, or a negative colour that is not MPI_UNDEFINED.
    BadCount,
    /// No living communicator of the task, or a free of MPI_COMM_WORLD.
    BadComm,
    /// Neither null nor an active request of the task.
    BadRequest,
    /// A message longer than its receive.
    Truncate,
    /// A message of another datatype than its receive.
    Mistyped,
    /// Members of a collective call that differ in what they ask, or one member whose two counts differ.
    CollMismatch,
    /// A function call deeper than 1,024.
    Depth,
    /// More than 10,000,000 turns of loops and function calls.
    Turns,
    /// More calls than a task may make.
    Calls,
    /// The task's output would exceed 1,048,576 bytes.
    OutputFull,
    /// A local in memory would exceed the quota.
    StackFull,
}

impl Fault {
    /// The fault's name, as reports and journals write it.
    pub fn name(self) -> &'static str
        ensures { result.now ≡ table.fault_name self }
    {
        match self {
            Fault::Overflow => "Overflow",
            Fault::Divide => "Divide",
            Fault::Shift => "Shift",
            Fault::Uninit => "Uninit",
            Fault::NullAccess => "NullAccess",
            Fault::Bounds => "Bounds",
            Fault::Dangling => "Dangling",
            Fault::PendingTouch => "PendingTouch",
            Fault::PendingDrop => "PendingDrop",
            Fault::NotInit => "NotInit",
            Fault::InitTwice => "InitTwice",
            Fault::NoFinalize => "NoFinalize",
            Fault::LeakedRequest => "LeakedRequest",
            Fault::BadRank => "BadRank",
            Fault::BadTag => "BadTag",
            Fault::BadCount => "BadCount",
            Fault::BadComm => "BadComm",
            Fault::BadRequest => "BadRequest",
            Fault::Truncate => "Truncate",
            Fault::Mistyped => "Mistyped",
            Fault::CollMismatch => "CollMismatch",
            Fault::Depth => "Depth",
            Fault::Turns => "Turns",
            Fault::Calls => "Calls",
            Fault::OutputFull => "OutputFull",
            Fault::StackFull => "StackFull",
        }
    }
}
