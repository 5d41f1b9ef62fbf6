//! What each MPI function asks, in order: one script a function, as data that the meaning of
//! programs and the machine that runs their code both read.
//!
//! A script has three parts: steps that are taken once, steps that are taken for each request of a
//! list, and steps behind these. A number names an argument of the function, counted from 0 among
//! those that are evaluated.
ghost use Rattle.std.specs.Prelude.{◌≡◌};
ghost use Rattle.c_tree.specs.MpiScripts as scripts;

use crate::mpi::MpiFunction;
use mpc_values::CollKind;

/// A place that an argument names; in the steps for each request, so many words further for each
/// one before it.
#[derive(Clone, Copy, Debug, PartialEq, Eq)]
pub enum Target {
    At(u32),
    Each { argument: u32, words: u32 },
}

/// The arguments of a posting: its buffer, count, peer, tag and communicator.
#[derive(Clone, Copy, Debug, PartialEq, Eq)]
pub struct PostingArguments {
    pub at: u32,
    pub count: u32,
    pub peer: u32,
    pub tag: u32,
    pub comm: u32,
}

/// The arguments of a collective call. What a kind has not is no argument.
#[derive(Clone, Copy, Debug, PartialEq, Eq)]
pub struct CollArguments {
    pub kind: CollKind,
    pub comm: u32,
    pub root: Option<u32>,
    pub count: Option<u32>,
    pub other: Option<u32>,
    pub from: Option<u32>,
    pub into: Option<u32>,
    pub colour: Option<u32>,
    pub key: Option<u32>,
}

/// One step of a script. It asks one call, or none.
#[derive(Clone, Copy, Debug, PartialEq, Eq)]
pub enum ScriptStep {
    Init,
    Finalize,
    /// The end of the run, with a communicator and a code.
    Abort(u32, u32),
    Rank(u32),
    Size(u32),
    /// Loads a communicator.
    LoadComm(u32),
    Arrive(CollArguments),
    Leave(u32),
    /// Arrives at the end of the communicator that was loaded.
    ArriveFree,
    LeaveFree,
    /// Stores the number or communicator that was last given.
    StoreWord(u32),
    StoreNullComm(u32),
    Send(PostingArguments),
    SyncSend(PostingArguments),
    Recv(PostingArguments),
    /// Waits for the request that was last posted or loaded.
    Complete,
    /// Waits for the request that was posted before the last one.
    CompleteEarlier,
    /// Stores the request that was last posted.
    StoreRequest(u32),
    LoadRequest(Target),
    /// Loads a request, and puts it behind those loaded before.
    CollectRequest(Target),
    Test,
    /// Stores MPI_REQUEST_NULL, where a status was given.
    StoreNullRequest(Target),
    /// Waits for one of the requests that were collected.
    AnyOf,
    /// Stores MPI_REQUEST_NULL at the index that was given, where it is not negative.
    StoreNullAtIndex(u32),
    StoreIndex(u32),
    /// Stores 1 where a status was given, and else 0.
    StoreFlag(u32),
    /// Stores one word of the status, 0 to 2, where one was given and statuses are not ignored.
    StoreStatus(Target, u32),
    /// Waits for a message by peer, tag and communicator.
    Probe(u32, u32, u32),
    Iprobe(u32, u32, u32),
    /// Loads the count of a status.
    LoadCount(u32),
}

pub const INIT_STEPS: [ScriptStep; 1] = [ScriptStep::Init];

pub const FINALIZE_STEPS: [ScriptStep; 1] = [ScriptStep::Finalize];

pub const ABORT_STEPS: [ScriptStep; 1] = [ScriptStep::Abort(0, 1)];

pub const COMM_RANK_STEPS: [ScriptStep; 2] = [ScriptStep::Rank(0), ScriptStep::StoreWord(1)];

pub const COMM_SIZE_STEPS: [ScriptStep; 2] = [ScriptStep::Size(0), ScriptStep::StoreWord(1)];

pub const COMM_DUP_STEPS: [ScriptStep; 3] = [
    ScriptStep::Arrive(CollArguments {
        kind: CollKind::Dup,
        comm: 0,
        root: None,
        count: None,
        other: None,
        from: None,
        into: None,
        colour: None,
        key: None,
    }),
    ScriptStep::Leave(0),
    ScriptStep::StoreWord(1),
];

pub const COMM_SPLIT_STEPS: [ScriptStep; 3] = [
    ScriptStep::Arrive(CollArguments {
        kind: CollKind::Split,
        comm: 0,
        root: None,
        count: None,
        other: None,
        from: None,
        into: None,
        colour: Some(1),
        key: Some(2),
    }),
    ScriptStep::Leave(0),
    ScriptStep::StoreWord(3),
];

pub const COMM_FREE_STEPS: [ScriptStep; 4] = [
    ScriptStep::LoadComm(0),
    ScriptStep::ArriveFree,
    ScriptStep::LeaveFree,
    ScriptStep::StoreNullComm(0),
];

pub const SEND_STEPS: [ScriptStep; 2] = [
    ScriptStep::Send(PostingArguments {
        at: 0,
        count: 1,
        peer: 2,
        tag: 3,
        comm: 4,
    }),
    ScriptStep::Complete,
];

pub const SSEND_STEPS: [ScriptStep; 2] = [
    ScriptStep::SyncSend(PostingArguments {
        at: 0,
        count: 1,
        peer: 2,
        tag: 3,
        comm: 4,
    }),
    ScriptStep::Complete,
];

pub const ISEND_STEPS: [ScriptStep; 2] = [
    ScriptStep::Send(PostingArguments {
        at: 0,
        count: 1,
        peer: 2,
        tag: 3,
        comm: 4,
    }),
    ScriptStep::StoreRequest(5),
];

pub const ISSEND_STEPS: [ScriptStep; 2] = [
    ScriptStep::SyncSend(PostingArguments {
        at: 0,
        count: 1,
        peer: 2,
        tag: 3,
        comm: 4,
    }),
    ScriptStep::StoreRequest(5),
];

pub const IRECV_STEPS: [ScriptStep; 2] = [
    ScriptStep::Recv(PostingArguments {
        at: 0,
        count: 1,
        peer: 2,
        tag: 3,
        comm: 4,
    }),
    ScriptStep::StoreRequest(5),
];

pub const RECV_STEPS: [ScriptStep; 5] = [
    ScriptStep::Recv(PostingArguments {
        at: 0,
        count: 1,
        peer: 2,
        tag: 3,
        comm: 4,
    }),
    ScriptStep::Complete,
    ScriptStep::StoreStatus(Target::At(5), 0),
    ScriptStep::StoreStatus(Target::At(5), 1),
    ScriptStep::StoreStatus(Target::At(5), 2),
];

pub const SENDRECV_STEPS: [ScriptStep; 7] = [
    ScriptStep::Recv(PostingArguments {
        at: 4,
        count: 5,
        peer: 6,
        tag: 7,
        comm: 8,
    }),
    ScriptStep::Send(PostingArguments {
        at: 0,
        count: 1,
        peer: 2,
        tag: 3,
        comm: 8,
    }),
    ScriptStep::Complete,
    ScriptStep::CompleteEarlier,
    ScriptStep::StoreStatus(Target::At(9), 0),
    ScriptStep::StoreStatus(Target::At(9), 1),
    ScriptStep::StoreStatus(Target::At(9), 2),
];

pub const WAIT_STEPS: [ScriptStep; 6] = [
    ScriptStep::LoadRequest(Target::At(0)),
    ScriptStep::Complete,
    ScriptStep::StoreNullRequest(Target::At(0)),
    ScriptStep::StoreStatus(Target::At(1), 0),
    ScriptStep::StoreStatus(Target::At(1), 1),
    ScriptStep::StoreStatus(Target::At(1), 2),
];

pub const TEST_STEPS: [ScriptStep; 7] = [
    ScriptStep::LoadRequest(Target::At(0)),
    ScriptStep::Test,
    ScriptStep::StoreNullRequest(Target::At(0)),
    ScriptStep::StoreFlag(1),
    ScriptStep::StoreStatus(Target::At(2), 0),
    ScriptStep::StoreStatus(Target::At(2), 1),
    ScriptStep::StoreStatus(Target::At(2), 2),
];

pub const PROBE_STEPS: [ScriptStep; 4] = [
    ScriptStep::Probe(0, 1, 2),
    ScriptStep::StoreStatus(Target::At(3), 0),
    ScriptStep::StoreStatus(Target::At(3), 1),
    ScriptStep::StoreStatus(Target::At(3), 2),
];

pub const IPROBE_STEPS: [ScriptStep; 5] = [
    ScriptStep::Iprobe(0, 1, 2),
    ScriptStep::StoreFlag(3),
    ScriptStep::StoreStatus(Target::At(4), 0),
    ScriptStep::StoreStatus(Target::At(4), 1),
    ScriptStep::StoreStatus(Target::At(4), 2),
];

pub const GET_COUNT_STEPS: [ScriptStep; 2] = [ScriptStep::LoadCount(0), ScriptStep::StoreWord(1)];

pub const BARRIER_STEPS: [ScriptStep; 2] = [
    ScriptStep::Arrive(CollArguments {
        kind: CollKind::Barrier,
        comm: 0,
        root: None,
        count: None,
        other: None,
        from: None,
        into: None,
        colour: None,
        key: None,
    }),
    ScriptStep::Leave(0),
];

pub const BCAST_STEPS: [ScriptStep; 2] = [
    ScriptStep::Arrive(CollArguments {
        kind: CollKind::Bcast,
        comm: 3,
        root: Some(2),
        count: Some(1),
        other: None,
        from: Some(0),
        into: Some(0),
        colour: None,
        key: None,
    }),
    ScriptStep::Leave(3),
];

pub const REDUCE_STEPS: [ScriptStep; 2] = [
    ScriptStep::Arrive(CollArguments {
        kind: CollKind::Reduce,
        comm: 4,
        root: Some(3),
        count: Some(2),
        other: None,
        from: Some(0),
        into: Some(1),
        colour: None,
        key: None,
    }),
    ScriptStep::Leave(4),
];

pub const ALLREDUCE_STEPS: [ScriptStep; 2] = [
    ScriptStep::Arrive(CollArguments {
        kind: CollKind::Allreduce,
        comm: 3,
        root: None,
        count: Some(2),
        other: None,
        from: Some(0),
        into: Some(1),
        colour: None,
        key: None,
    }),
    ScriptStep::Leave(3),
];

pub const SCAN_STEPS: [ScriptStep; 2] = [
    ScriptStep::Arrive(CollArguments {
        kind: CollKind::Scan,
        comm: 3,
        root: None,
        count: Some(2),
        other: None,
        from: Some(0),
        into: Some(1),
        colour: None,
        key: None,
    }),
    ScriptStep::Leave(3),
];

pub const EXSCAN_STEPS: [ScriptStep; 2] = [
    ScriptStep::Arrive(CollArguments {
        kind: CollKind::Exscan,
        comm: 3,
        root: None,
        count: Some(2),
        other: None,
        from: Some(0),
        into: Some(1),
        colour: None,
        key: None,
    }),
    ScriptStep::Leave(3),
];

pub const GATHER_STEPS: [ScriptStep; 2] = [
    ScriptStep::Arrive(CollArguments {
        kind: CollKind::Gather,
        comm: 5,
        root: Some(4),
        count: Some(1),
        other: Some(3),
        from: Some(0),
        into: Some(2),
        colour: None,
        key: None,
    }),
    ScriptStep::Leave(5),
];

pub const ALLGATHER_STEPS: [ScriptStep; 2] = [
    ScriptStep::Arrive(CollArguments {
        kind: CollKind::Allgather,
        comm: 4,
        root: None,
        count: Some(1),
        other: Some(3),
        from: Some(0),
        into: Some(2),
        colour: None,
        key: None,
    }),
    ScriptStep::Leave(4),
];

pub const SCATTER_STEPS: [ScriptStep; 2] = [
    ScriptStep::Arrive(CollArguments {
        kind: CollKind::Scatter,
        comm: 5,
        root: Some(4),
        count: Some(1),
        other: Some(3),
        from: Some(0),
        into: Some(2),
        colour: None,
        key: None,
    }),
    ScriptStep::Leave(5),
];

pub const ALLTOALL_STEPS: [ScriptStep; 2] = [
    ScriptStep::Arrive(CollArguments {
        kind: CollKind::Alltoall,
        comm: 4,
        root: None,
        count: Some(1),
        other: Some(3),
        from: Some(0),
        into: Some(2),
        colour: None,
        key: None,
    }),
    ScriptStep::Leave(4),
];

pub const WAITALL_EACH: [ScriptStep; 6] = [
    ScriptStep::LoadRequest(Target::Each {
        argument: 1,
        words: 1,
    }),
    ScriptStep::Complete,
    ScriptStep::StoreNullRequest(Target::Each {
        argument: 1,
        words: 1,
    }),
    ScriptStep::StoreStatus(
        Target::Each {
            argument: 2,
            words: 3,
        },
        0,
    ),
    ScriptStep::StoreStatus(
        Target::Each {
            argument: 2,
            words: 3,
        },
        1,
    ),
    ScriptStep::StoreStatus(
        Target::Each {
            argument: 2,
            words: 3,
        },
        2,
    ),
];

pub const WAITANY_EACH: [ScriptStep; 1] = [ScriptStep::CollectRequest(Target::Each {
    argument: 1,
    words: 1,
})];

pub const WAITANY_LAST: [ScriptStep; 6] = [
    ScriptStep::AnyOf,
    ScriptStep::StoreNullAtIndex(1),
    ScriptStep::StoreIndex(2),
    ScriptStep::StoreStatus(Target::At(3), 0),
    ScriptStep::StoreStatus(Target::At(3), 1),
    ScriptStep::StoreStatus(Target::At(3), 2),
];

impl MpiFunction {
    /// What the function asks first.
    pub fn steps(self) -> &'static [ScriptStep]
        ensures { result.now ≡ scripts.steps_of self }
    {
        match self {
            MpiFunction::Init => &INIT_STEPS,
            MpiFunction::Finalize => &FINALIZE_STEPS,
            MpiFunction::Abort => &ABORT_STEPS,
            MpiFunction::CommRank => &COMM_RANK_STEPS,
            MpiFunction::CommSize => &COMM_SIZE_STEPS,
            MpiFunction::CommDup => &COMM_DUP_STEPS,
            MpiFunction::CommSplit => &COMM_SPLIT_STEPS,
            MpiFunction::CommFree => &COMM_FREE_STEPS,
            MpiFunction::Send => &SEND_STEPS,
            MpiFunction::Ssend => &SSEND_STEPS,
            MpiFunction::Isend => &ISEND_STEPS,
            MpiFunction::Issend => &ISSEND_STEPS,
            MpiFunction::Irecv => &IRECV_STEPS,
            MpiFunction::Recv => &RECV_STEPS,
            MpiFunction::Sendrecv => &SENDRECV_STEPS,
            MpiFunction::Wait => &WAIT_STEPS,
            MpiFunction::Test => &TEST_STEPS,
            MpiFunction::Waitall => &[],
            MpiFunction::Waitany => &[],
            MpiFunction::Probe => &PROBE_STEPS,
            MpiFunction::Iprobe => &IPROBE_STEPS,
            MpiFunction::GetCount => &GET_COUNT_STEPS,
            MpiFunction::Barrier => &BARRIER_STEPS,
            MpiFunction::Bcast => &BCAST_STEPS,
            MpiFunction::Reduce => &REDUCE_STEPS,
            MpiFunction::Allreduce => &ALLREDUCE_STEPS,
            MpiFunction::Scan => &SCAN_STEPS,
            MpiFunction::Exscan => &EXSCAN_STEPS,
            MpiFunction::Gather => &GATHER_STEPS,
            MpiFunction::Allgather => &ALLGATHER_STEPS,
            MpiFunction::Scatter => &SCATTER_STEPS,
            MpiFunction::Alltoall => &ALLTOALL_STEPS,
        }
    }

    /// What it asks for each of its requests. The first argument of a function that has such steps is
    /// the number of requests, and a negative one is BadCount.
    pub fn each_steps(self) -> &'static [ScriptStep]
        ensures { result.now ≡ scripts.each_of self }
    {
        match self {
            MpiFunction::Waitall => &WAITALL_EACH,
            MpiFunction::Waitany => &WAITANY_EACH,
            _ => &[],
        }
    }

    /// What it asks last.
    pub fn last_steps(self) -> &'static [ScriptStep]
        ensures { result.now ≡ scripts.last_of self }
    {
        match self {
            MpiFunction::Waitany => &WAITANY_LAST,
            _ => &[],
        }
    }
}
