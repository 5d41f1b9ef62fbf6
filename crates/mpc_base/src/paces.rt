/// What is called outside the gate before each visit of a task. Nothing rests on it.
pub trait Pace {
    /// Is told the task and the number of the visit, counted from 0.
    fn pass(&self, task: u32, visit: u64);
}

/// Returns at once.
#[derive(Clone, Copy, Debug, Default, PartialEq, Eq)]
pub struct FreePace;

impl Pace for FreePace {
    fn pass(&self, _task: u32, _visit: u64) {}
}
