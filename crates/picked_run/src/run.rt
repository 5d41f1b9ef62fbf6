//! The run of a setup, from the starts of its tasks to the record.
ghost use Rattle.std.specs.Prelude.{◌≡◌, length, All, IfOk};
ghost use Rattle.std.specs.Arc.{arc_value};
ghost use Rattle.run_model.specs.Setup.{setup_of};
ghost use Rattle.run_model.specs.Valid.{Valid};
ghost use Rattle.run_model.specs.Choice.{choice};
ghost use Rattle.run_model.specs.Run.{run};
ghost use Rattle.run_model.specs.Records.{RecordsRun};
ghost use Rattle.task_rounds.specs.Rounds.{AsksBuilt, IsNew};

use c_code::Code;
use c_compile::compile;
use mpc_base::{Memory, Picks};
use node_core::Node;
use run_model::{RunRecord, Setup, messages_arrive_whole};
use std::alloc::Global;
use std::sync::Arc;
use task_rounds::{Seat, run_to_end};

/// So many tasks that begin to run the code.
fn seats(alloc: Global, code: &Arc<Code, Global>, count: u32) -> Result<Vec<Seat>, Memory>
    ensures count { IfOk result (λ all. length all.items ≡ count) }
    ensures fresh { IfOk result (λ all. All (IsNew (arc_value code.now)) all.items) }
{
    let mut all = Vec::with_capacity(alloc, count as usize)?;
    for _task in 0..count {
        let own = code.clone()?;
        all.push(Seat::new(alloc, own)?)?;
    }
    Ok(all)
}

/// The record of the run of a setup in which the tasks step in the order of the picks, until the run has ended. The
/// program asks only calls that are built.
pub fn run_picked(alloc: Global, setup: Setup, picks: &Picks) -> Result<RunRecord, Memory>
    requires valid { Valid (setup_of setup) }
    requires built { AsksBuilt (setup_of setup) }
    ensures records { IfOk result RecordsRun }
    ensures setup { IfOk result (λ kept. kept.setup ≡ setup) }
    ensures entries { IfOk result (λ kept. kept.journal.entries ≡ (run (setup_of setup) (choice (setup_of setup) picks.now)).entries) }
{
    messages_arrive_whole();
    let code = compile(alloc, &setup.program)?;
    let code = Arc::new(alloc, code)?;
    let mut node = Node::new(alloc, setup)?;
    let mut tasks = seats(alloc, &code, node.tasks())?;
    run_to_end(alloc, &mut tasks, &mut node, picks)?;
    node.into_record()
}
