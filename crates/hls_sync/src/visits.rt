//! What is kept of constructs.

/// A task's instance for a construct.
#[derive(Clone, Copy, Debug, PartialEq, Eq)]
pub struct HlsRow {
    pub construct: u32,
    pub task: u32,
    pub inst: u32,
}

/// A task's arrival at a construct, or its exit from one.
#[derive(Clone, Copy, Debug, PartialEq, Eq)]
pub struct Visit {
    pub construct: u32,
    pub task: u32,
    /// The number of the meeting among those of the task's instance, counted from 0.
    pub meeting: u32,
}
