//! One instance at a construct: how often its tasks have come, and which of them runs the block.
ghost use Rattle.std.specs.Prelude.{◌≡◌, ◌<◌, ◌++◌, ◌∷◌, [], length, slice_index, Some, None, is_some, OnOk, OnErr};
ghost use Rattle.hls_sync.specs.Turnouts.{reached, advanced, without_running, IsFalling};

use mpc_values::Memory;
use std::alloc::Global;
use std::marker::Model;

/// What is kept of an instance.
#[derive(Debug, Drop)]
pub struct Instance {
    // How often each task has come, the most often first.
    counts: Vec<u32>,
    // The task that runs the latest meeting at which all have come.
    running: Option<u32>,
}

impl Model for Instance {
    ghost use Rattle.hls_sync.specs.Turnouts.{Turnout, IsFalling};

    ghost Value = { Turnout };

    ghost view = { λ i. record { counts = i.counts.items; running = i.running } };

    ghost invariant = { λ i. IsFalling i.counts.items };
}

impl Instance {
    /// An instance without tasks.
    pub fn new(alloc: Global) -> Instance
        ensures { result ≡ record { counts = []; running = None } }
    {
        Instance {
            counts: Vec::new(alloc),
            running: None,
        }
    }

    /// Adds a task that has not come yet. After want of memory the instance is as it was.
    pub fn add(&mut self) -> Result<(), Memory>
        ensures added { OnOk result (self.new ≡ record self.old { counts = self.old.counts ++ 0 ∷ [] }) }
        ensures err { OnErr result (self.new ≡ self.old) }
    {
        self.counts.push(0)?;
        Ok(())
    }

    /// How many tasks it has.
    pub fn size(&self) -> usize
        ensures { result ≡ length self.now.counts }
    {
        self.counts.len()
    }

    /// How many tasks have come to the meeting of this number, counted from 0.
    pub fn reached(&self, meeting: u32) -> usize
        ensures value { result ≡ reached self.now.counts meeting }
        ensures falling { IsFalling self.now.counts }
    {
        place_of(self.counts.as_slice(), meeting)
    }

    /// Notes that a task comes that has come so often before.
    pub fn advance(&mut self, came: u32)
        requires there { reached self.old.counts came < length self.old.counts }
        requires one { slice_index self.old.counts (reached self.old.counts came) ≡ came }
        ensures { self.new ≡ record self.old { counts = advanced self.old.counts came } }
    {
        let place = place_of(self.counts.as_slice(), came);
        self.counts[place] = came.saturating_add(1);
    }

    /// Notes that the task runs the block of the latest meeting.
    pub fn run(&mut self, task: u32)
        ensures { self.new ≡ record self.old { running = Some task } }
    {
        self.running = Some(task);
    }

    /// Notes that the task leaves the block, if it runs that of the latest meeting.
    pub fn leave(&mut self, task: u32)
        ensures { self.new ≡ record self.old { running = without_running self.old.running task } }
    {
        if self.running == Some(task) {
            self.running = None;
        }
    }

    /// Whether a task runs the block of the latest meeting.
    pub fn is_running(&self) -> bool
        ensures { result ≡ is_some self.now.running }
    {
        self.running.is_some()
    }
}

/// How many counts are above a number. These stand in front.
fn place_of(counts: &[u32], came: u32) -> usize
    requires { IsFalling counts.now }
    ensures { result ≡ reached counts.now came }
{
    counts.partition_point(|other| came < *other)
}
