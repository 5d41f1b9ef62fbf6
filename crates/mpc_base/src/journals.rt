//! What a run hands back: its journal, how it ended, and how each rank stood.
ghost use Rattle.std.specs.Prelude.{◌≡◌};

use mpc_values::{Answer, Fault, Obj, Owner, Text};
use std::marker::Model;

/// What became of a call: it waits, or it has its answer, or its fault has ended the run.
#[derive(Clone, Copy, Debug, PartialEq, Eq)]
pub enum Out {
    Waits,
    Did(Answer),
    Broke(Fault),
}

/// One event of a run: which task asked which call at which source line, and what became of it.
#[derive(Clone, Copy, Debug, PartialEq, Eq)]
pub struct Entry {
    pub task: u32,
    pub line: u32,
    /// The call's number in the table of calls.
    pub call: u8,
    pub out: Out,
}

/// The events of a run of so many tasks, in order.
#[derive(Debug, Clone, Drop)]
pub struct Journal {
    pub tasks: u32,
    pub entries: Entries,
}

/// How a run stands.
#[derive(Clone, Copy, Debug, PartialEq, Eq)]
pub enum End {
    /// It has not ended.
    Going,
    /// Every task came to the end of its main.
    Finished,
    /// A task's call at this line had a fault.
    Fault { task: u32, fault: Fault, line: u32 },
    /// A task called MPI_Abort at this line (MPI 3.1, section 8.7).
    Abort { task: u32, code: i32, line: u32 },
    /// No task can go on, and one has not finished.
    Stuck,
    /// A thread could not be started.
    NoThread,
    /// A worker found no memory.
    NoMemory,
}

/// How a rank stands when its run has ended.
#[derive(Clone, Copy, Debug, PartialEq, Eq)]
pub enum RankState {
    /// Its main ended with this exit code.
    Exit(i32),
    /// The run ended before its main did.
    Stopped,
    /// Its call of this number, at this line, waits for ever: the run is stuck.
    Blocked { call: u8, line: u32 },
    /// Its call at this line had the fault that ended the run.
    Fault { fault: Fault, line: u32 },
    /// It ended the run by MPI_Abort with this code, at this line.
    Aborted { code: i32, line: u32 },
}

/// A rank's state and all its output.
#[derive(Debug, Drop)]
pub struct RankEnd {
    pub state: RankState,
    pub output: Text,
}

/// Where a live object lies: whose it is, its name, its first word's index, and how many words it has.
#[derive(Clone, Copy, Debug, PartialEq, Eq)]
pub struct MapRow {
    pub owner: Owner,
    pub obj: Obj,
    pub base: usize,
    pub len: u32,
}

/// Entries of a journal in order.
#[derive(Debug, Clone, Drop)]
pub struct Entries {
    list: Vec<Entry>,
}

impl Model for Entries {
    ghost use Rattle.std.specs.Prelude.{List};
    ghost use Rattle.mpc_base.specs.declared.journals.Entry.{Entry};

    ghost Value = { List Entry };

    ghost view = { λ entries. entries.list.items };
}

impl Entries {
    pub fn of(list: Vec<Entry>) -> Entries
        ensures { result ≡ list.items }
    {
        Entries { list }
    }

    pub fn as_slice(&self) -> &[Entry]
        ensures { result.now ≡ self.now }
    {
        self.list.as_slice()
    }

    pub fn into_vec(self) -> Vec<Entry>
        ensures { result.items ≡ self }
    {
        let Entries { list } = self;
        list
    }
}

/// The ends of all ranks, by rising rank.
#[derive(Debug, Drop)]
pub struct RankEnds {
    list: Vec<RankEnd>,
}

impl Model for RankEnds {
    ghost use Rattle.std.specs.Prelude.{List};
    ghost use Rattle.mpc_base.specs.declared.journals.RankEnd.{RankEnd};

    ghost Value = { List RankEnd };

    ghost view = { λ ends. ends.list.items };
}

impl RankEnds {
    pub fn of(list: Vec<RankEnd>) -> RankEnds
        ensures { result ≡ list.items }
    {
        RankEnds { list }
    }

    pub fn as_slice(&self) -> &[RankEnd]
        ensures { result.now ≡ self.now }
    {
        self.list.as_slice()
    }

    pub fn into_vec(self) -> Vec<RankEnd>
        ensures { result.items ≡ self }
    {
        let RankEnds { list } = self;
        list
    }
}

/// Where every live object lies.
#[derive(Debug, Clone, Drop)]
pub struct MapRows {
    list: Vec<MapRow>,
}

impl Model for MapRows {
    ghost use Rattle.std.specs.Prelude.{List};
    ghost use Rattle.mpc_base.specs.declared.journals.MapRow.{MapRow};

    ghost Value = { List MapRow };

    ghost view = { λ rows. rows.list.items };
}

impl MapRows {
    pub fn of(list: Vec<MapRow>) -> MapRows
        ensures { result ≡ list.items }
    {
        MapRows { list }
    }

    pub fn as_slice(&self) -> &[MapRow]
        ensures { result.now ≡ self.now }
    {
        self.list.as_slice()
    }

    pub fn into_vec(self) -> Vec<MapRow>
        ensures { result.items ≡ self }
    {
        let MapRows { list } = self;
        list
    }
}
