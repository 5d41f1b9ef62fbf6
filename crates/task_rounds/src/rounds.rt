//! Rounds of tasks and a node, up to the end of the run.
ghost use Rattle.std.specs.Prelude.{◌≡◌, [], length, IfOk, OnOk};
ghost use Rattle.mpc_base.specs.declared.picks.Picks.{Picks as ThePicks};
ghost use Rattle.run_model.specs.Setup.{setup_of, tasks_of};
ghost use Rattle.run_model.specs.Choice.{choice};
ghost use Rattle.run_model.specs.Run.{run};
ghost use Rattle.task_rounds.specs.Rounds.{Plays, AllKeep};

use crate::seats::Seat;
use mpc_base::{Memory, Picks};
use node_core::Node;
use std::alloc::Global;
use task_picks::Picker;

/// One step after the other of tasks that run the node's program from its start, in the order of the picks, until no task
/// can go. The node then holds the run in which the tasks step in that order.
pub fn run_to_end(
    alloc: Global,
    seats: &mut Vec<Seat>,
    node: &mut Node,
    picks: &Picks,
) -> Result<(), Memory>
    requires plays { Plays node.old }
    requires begins { node.old.entries ≡ [] }
    requires keeps { AllKeep node.old seats.old.items }
    requires all { length seats.old.items ≡ tasks_of (setup_of node.old.setup) }
    ensures plays { OnOk result (Plays node.new) }
    ensures setup { OnOk result (node.new.setup ≡ node.old.setup) }
    ensures entries { OnOk result (node.new.entries ≡ (run (setup_of node.old.setup) (choice (setup_of node.old.setup) picks.now)).entries) }
{
    let rounds = node.tasks() * node.setup().calls + 1;
    let mut picker = Picker::new(alloc, picks)?;
    for _round in 0..rounds {
        match picker.next(node) {
            None => return Ok(()),
            Some(number) => {
                let seat = &mut seats[number as usize];
                seat.turn(node, number)?;
            }
        }
    }
    Ok(())
}
