//! How far a task of a run has come, and what ended the run.

use mpc_values::{Call, Fault};

/// How far a task is with MPI (MPI 3.1, section 8.7).
#[derive(Clone, Copy, Debug, PartialEq, Eq)]
pub enum Phase {
    /// It has not called MPI_Init.
    Before,
    /// It has called MPI_Init and not MPI_Finalize.
    Inside,
    /// It has called MPI_Finalize.
    After,
}

/// A call at a line.
#[derive(Debug, Clone, Drop)]
pub struct Ask {
    pub call: Call,
    pub line: u32,
}

/// How far a task has come.
#[derive(Debug, Clone, Drop)]
pub struct Course {
    /// How many entries it has in the journal.
    pub entries: u32,
    /// The waiting call that was noted, where it waits.
    pub noted: Option<Ask>,
    /// The exit code of its main, once that has ended.
    pub exit: Option<i32>,
}

/// What ended a run before its tasks came to their ends.
#[derive(Clone, Copy, Debug, PartialEq, Eq)]
pub enum Last {
    Faulted { task: u32, fault: Fault, line: u32 },
    Aborted { task: u32, code: i32, line: u32 },
}
