use mpc_base::Fault;

/// The fault that ended a run: whose it was, and at which line.
#[derive(Clone, Copy, Debug, PartialEq, Eq)]
pub struct Last {
    pub task: u32,
    pub fault: Fault,
    pub line: u32,
}
