//! A task with the call that it has asked.
ghost use Rattle.std.specs.Prelude.{◌≡◌, ◌≢◌, ℕ, true, false, None, IfOk, OnOk};
ghost use Rattle.std.specs.Arc.{arc_value};
ghost use Rattle.run_model.specs.Setup.{setup_of};
ghost use Rattle.run_model.specs.Go.{go};
ghost use Rattle.node_core.specs.Held.{world_in};
ghost use Rattle.node_core.specs.Visits.{made};
ghost use Rattle.task_picks.specs.Picked.{goes};
ghost use Rattle.task_rounds.specs.Rounds.{Plays, IsNew, Keeps, AskedAs, Wants, Asking};
ghost use Rattle.task_rounds.specs.declared.seats.Seat.{Seat as Seats};

use c_code::Code;
use mpc_values::{Call, Memory};
use node_core::{Node, Reply};
use run_model::tasks_never_misfit;
use std::alloc::Global;
use std::sync::Arc;
use task_vm::{Task, Want};

/// A task, and the call that it has asked and that is not answered yet.
#[derive(Drop)]
pub struct Seat {
    task: Task,
    want: Option<Want>,
}

impl Seat {
    /// A task that begins to run the code.
    pub fn new(alloc: Global, code: Arc<Code, Global>) -> Result<Seat, Memory>
        ensures { IfOk result (IsNew (arc_value code)) }
    {
        Ok(Seat {
            task: Task::new(alloc, code)?,
            want: None,
        })
    }

    /// One step of a task that can go: it asks its next call, where it waits for no answer, and visits the node.
    pub(crate) fn turn(&mut self, node: &mut Node, number: u32) -> Result<(), Memory>
        requires plays { Plays node.old }
        requires keeps { Keeps node.old number self.old }
        requires goes { goes node.old number ≡ true }
        ensures plays { OnOk result (Plays node.new) }
        ensures setup { OnOk result (node.new.setup ≡ node.old.setup) }
        ensures entries { OnOk result (node.new.entries ≡ made node.old.entries (go (setup_of node.old.setup) (world_in node.old) number)) }
        ensures keeps { OnOk result (Keeps node.new number self.new) }
        ensures others { OnOk result ((other : ℕ) (seat : Seats) → other ≢ number → Keeps node.old other seat → Keeps node.new other seat) }
    {
        let want = self.wanted()?;
        match want {
            Want::Ask { call, line } => self.visit(node, number, call, line),
        }
    }

    /// The visit of the call that the task asks, and its answer.
    fn visit(&mut self, node: &mut Node, number: u32, call: Call, line: u32) -> Result<(), Memory>
        requires plays { Plays node.old }
        requires asking { Asking node.old number self.old.task call line }
        requires want { self.old.want ≡ None }
        requires goes { goes node.old number ≡ true }
        ensures plays { OnOk result (Plays node.new) }
        ensures setup { OnOk result (node.new.setup ≡ node.old.setup) }
        ensures entries { OnOk result (node.new.entries ≡ made node.old.entries (go (setup_of node.old.setup) (world_in node.old) number)) }
        ensures keeps { OnOk result (Keeps node.new number self.new) }
        ensures others { OnOk result ((other : ℕ) (seat : Seats) → other ≢ number → Keeps node.old other seat → Keeps node.new other seat) }
    {
        tasks_never_misfit();
        match node.visit(number, &call, line)? {
            Reply::Did(answer) => self.task.give(answer),
            Reply::NotYet => self.want = Some(Want::Ask { call, line }),
            Reply::Stop => self.want = Some(Want::Ask { call, line }),
        }
        Ok(())
    }

    /// The call that the task asks.
    fn wanted(&mut self) -> Result<Want, Memory>
        requires goes { self.old.task.over ≡ false }
        requires asks { AskedAs self.old.want self.old.task }
        ensures wants { IfOk result (Wants self.old.task self.new.task) }
        ensures want { OnOk result (self.new.want ≡ None) }
    {
        match self.want.take() {
            Some(want) => Ok(want),
            None => self.task.advance(),
        }
    }
}
