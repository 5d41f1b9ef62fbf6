//! What a task asks of the run: the table of calls, with their numbers and names.
ghost use Rattle.std.specs.Prelude.{◌≡◌};
ghost use Rattle.mpc_values.specs.CallTable as table;

use crate::collectives::Coll;
use crate::faults::Fault;
use crate::lists::{Text, Words};
use crate::values::{Datatype, Obj, Word};

/// What a task asks of the run. A `peer` is a rank, a wildcard or MPI_PROC_NULL.
#[derive(Debug, Clone, Drop)]
pub enum Call {
    /// The word at a place.
    Load {
        at: Word,
    },
    /// A word for a place.
    Store {
        at: Word,
        word: Word,
    },
    /// A local object of so many words.
    New {
        len: u32,
    },
    /// The end of a local object.
    Drop {
        obj: Obj,
    },
    /// A block of so many words.
    Malloc {
        n: i64,
    },
    /// The end of a block, by its first place; NULL asks for nothing.
    Free {
        at: Word,
    },
    /// Bytes for the task's output.
    Print {
        text: Text,
    },
    /// The task itself has failed.
    Broke {
        fault: Fault,
    },
    /// The end of main, with its exit code.
    Finish {
        code: i32,
    },
    /// MPI_Init (MPI 3.1, section 8.7).
    Init,
    /// MPI_Finalize (MPI 3.1, section 8.7).
    Finalize,
    /// MPI_Abort (MPI 3.1, section 8.7).
    Abort {
        comm: Word,
        code: i32,
    },
    /// The task's rank in a communicator (MPI 3.1, section 6.4.1).
    Rank {
        comm: Word,
    },
    /// The size of a communicator (MPI 3.1, section 6.4.1).
    Size {
        comm: Word,
    },
    /// Posts a send to a rank (MPI 3.1, section 3.2.1); a synchronous one is complete when it is
    /// matched (section 3.4).
    Send {
        at: Word,
        count: i32,
        kind: Datatype,
        peer: i32,
        tag: i32,
        comm: Word,
        sync: bool,
    },
    /// Posts a receive from a rank (MPI 3.1, section 3.2.4).
    Recv {
        at: Word,
        count: i32,
        kind: Datatype,
        peer: i32,
        tag: i32,
        comm: Word,
    },
    /// Waits for a request (MPI 3.1, section 3.7.3).
    Complete {
        req: Word,
    },
    /// Looks whether a request is complete (MPI 3.1, section 3.7.3).
    Test {
        req: Word,
    },
    /// Waits for one of several requests (MPI 3.1, section 3.7.5).
    AnyOf {
        reqs: Words,
    },
    /// Waits for a message that fits (MPI 3.1, section 3.8.1).
    Probe {
        peer: i32,
        tag: i32,
        comm: Word,
    },
    /// Looks for a message that fits (MPI 3.1, section 3.8.1).
    Iprobe {
        peer: i32,
        tag: i32,
        comm: Word,
    },
    /// The task's part of a collective call (MPI 3.1, chapters 5 and 6).
    Arrive {
        coll: Coll,
    },
    /// Waits for the other members of the collective call, and takes its result.
    Leave {
        comm: Word,
    },
    /// Arrives at a `single`.
    HlsEnter {
        construct: u32,
    },
    /// Waits until the task that runs the `single` has left it.
    HlsWait {
        construct: u32,
    },
    /// Leaves the block of a `single`.
    HlsExit {
        construct: u32,
    },
    /// Arrives at a `barrier`.
    HlsBar {
        construct: u32,
    },
    /// Waits until all tasks of the instance have arrived at the `barrier`.
    HlsBarWait {
        construct: u32,
    },
}

impl Call {
    /// The call's number in the table of calls, by which the journal keeps it.
    pub fn number(&self) -> u8
        ensures { result ≡ table.call_number self.now }
    {
        match self {
            Call::Load { .. } => 1,
            Call::Store { .. } => 2,
            Call::New { .. } => 3,
            Call::Drop { .. } => 4,
            Call::Malloc { .. } => 5,
            Call::Free { .. } => 6,
            Call::Print { .. } => 7,
            Call::Broke { .. } => 8,
            Call::Finish { .. } => 9,
            Call::Init => 10,
            Call::Finalize => 11,
            Call::Abort { .. } => 12,
            Call::Rank { .. } => 13,
            Call::Size { .. } => 14,
            Call::Send { .. } => 15,
            Call::Recv { .. } => 16,
            Call::Complete { .. } => 17,
            Call::Test { .. } => 18,
            Call::AnyOf { .. } => 19,
            Call::Probe { .. } => 20,
            Call::Iprobe { .. } => 21,
            Call::Arrive { .. } => 22,
            Call::Leave { .. } => 23,
            Call::HlsEnter { .. } => 24,
            Call::HlsWait { .. } => 25,
            Call::HlsExit { .. } => 26,
            Call::HlsBar { .. } => 27,
            Call::HlsBarWait { .. } => 28,
        }
    }

    /// The call's name, as reports and journals write it.
    pub fn name(&self) -> &'static str
        ensures { result.now ≡ table.call_name self.now }
    {
        match self {
            Call::Load { .. } => "load",
            Call::Store { .. } => "store",
            Call::New { .. } => "new",
            Call::Drop { .. } => "drop",
            Call::Malloc { .. } => "malloc",
            Call::Free { .. } => "free",
            Call::Print { .. } => "print",
            Call::Broke { .. } => "broke",
            Call::Finish { .. } => "finish",
            Call::Init => "init",
            Call::Finalize => "finalize",
            Call::Abort { .. } => "abort",
            Call::Rank { .. } => "rank",
            Call::Size { .. } => "size",
            Call::Send { .. } => "send",
            Call::Recv { .. } => "recv",
            Call::Complete { .. } => "complete",
            Call::Test { .. } => "test",
            Call::AnyOf { .. } => "any",
            Call::Probe { .. } => "probe",
            Call::Iprobe { .. } => "iprobe",
            Call::Arrive { .. } => "arrive",
            Call::Leave { .. } => "leave",
            Call::HlsEnter { .. } => "enter",
            Call::HlsWait { .. } => "await",
            Call::HlsExit { .. } => "exit",
            Call::HlsBar { .. } => "bar",
            Call::HlsBarWait { .. } => "barwait",
        }
    }

    /// The name of the call of this number, as reports and journals write it; empty where there is none.
    pub fn name_of(number: u8) -> &'static str
        ensures { result.now ≡ table.name_of_number number }
    {
        match number {
            1 => "load",
            2 => "store",
            3 => "new",
            4 => "drop",
            5 => "malloc",
            6 => "free",
            7 => "print",
            8 => "broke",
            9 => "finish",
            10 => "init",
            11 => "finalize",
            12 => "abort",
            13 => "rank",
            14 => "size",
            15 => "send",
            16 => "recv",
            17 => "complete",
            18 => "test",
            19 => "any",
            20 => "probe",
            21 => "iprobe",
            22 => "arrive",
            23 => "leave",
            24 => "enter",
            25 => "await",
            26 => "exit",
            27 => "bar",
            28 => "barwait",
            _ => "",
        }
    }
}
