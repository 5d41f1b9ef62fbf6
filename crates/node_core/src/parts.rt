//! What stands of a run, by parts: the world of the definitions, without the lists that only grow.

use mem_space::Space;
use mpi_comm::Comms;
use run_model::{Course, Last, Phase};

/// What stands of a task, beside how far it has come.
#[derive(Debug, Drop)]
pub struct OwnPart {
    pub output: Vec<u8>,
    pub phase: Phase,
}

/// What stands of a task.
#[derive(Debug, Drop)]
pub struct TaskPart {
    pub own: OwnPart,
    pub course: Course,
}

/// What tasks share to match messages and to meet.
#[derive(Debug, Drop)]
pub struct Matching {
    pub comms: Comms,
}

/// What all tasks share.
#[derive(Debug, Drop)]
pub struct Shared {
    /// The memories of all tasks, with the marks of messages under way.
    pub space: Space,
    pub matching: Matching,
}

/// What stands of a run, beside its entries.
#[derive(Debug, Drop)]
pub struct State {
    pub shared: Shared,
    /// By rising task number.
    pub tasks: Vec<TaskPart>,
    pub last: Option<Last>,
}
