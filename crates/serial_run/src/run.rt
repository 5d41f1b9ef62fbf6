//! The rounds of a task and a node, up to the end of the run.
ghost use Rattle.std.specs.Prelude.{◌≡◌, ◌==◌, [], IfOk, OnOk, true};
ghost use Rattle.mpc_values.specs.CallTable.{call_number};
ghost use Rattle.c_tree.specs.ProgramOf.{program_of};
ghost use Rattle.c_compile.specs.Correct.{HasMain, Behaves};
ghost use Rattle.c_compile.specs.Plain.{is_plain};
ghost use Rattle.serial_model.specs.Go.{has_ended};
ghost use Rattle.serial_model.specs.Run.{world_of, RecordsRun};
ghost use Rattle.serial_run.specs.Rounds.{Together, Asking, Turned};

use c_code::Code;
use c_compile::compile;
use mpc_base::{Call, Memory};
use serial_model::{RunRecord, Setup};
use serial_node::{Node, Reply};
use std::alloc::Global;
use std::sync::Arc;
use task_vm::{Task, Want};

/// The most rounds of a run: one for each entry that a task may have, and one for the fault behind them.
const ROUNDS: u32 = 250_001;

// Whether the call is the end of main.
fn is_finish(call: &Call) -> bool
    ensures { result ≡ (call_number call.now == 9) }
{
    match call {
        Call::Finish { .. } => true,
        _ => false,
    }
}

// The visit of the call that the task asked, and its answer: whether the run has ended then.
fn answer(task: &mut Task, node: &mut Node, call: &Call, line: u32) -> Result<bool, Memory>
    requires { Asking task.old node.old call.now line }
    ensures setup { OnOk result (node.new.setup ≡ node.old.setup) }
    ensures turned { IfOk result (λ ended. Turned ended task.new node.old node.new) }
{
    match node.visit(0, call, line)? {
        Reply::Did(answer) => {
            task.give(answer);
            Ok(is_finish(call))
        }
        Reply::Stop => Ok(true),
    }
}

// The task's next call, and its answer: whether the run has ended then.
fn turn(task: &mut Task, node: &mut Node) -> Result<bool, Memory>
    requires { Together task.old node.old }
    ensures setup { OnOk result (node.new.setup ≡ node.old.setup) }
    ensures turned { IfOk result (λ ended. Turned ended task.new node.old node.new) }
{
    match task.advance()? {
        Want::Ask { call, line } => answer(task, node, &call, line),
    }
}

// Rounds up to the end of the run.
fn run_to_end(task: &mut Task, node: &mut Node) -> Result<(), Memory>
    requires together { Together task.old node.old }
    requires begins { node.old.entries ≡ [] }
    ensures setup { OnOk result (node.new.setup ≡ node.old.setup) }
    ensures ended { OnOk result (has_ended (world_of node.new.setup node.new.entries) ≡ true) }
{
    for _round in 0..ROUNDS {
        if turn(task, node)? {
            return Ok(());
        }
    }
    node.is_of_a_run();
    unreachable!()
}

// The run of code that behaves as the setup's program.
fn run_code(alloc: Global, setup: Setup, code: Code) -> Result<RunRecord, Memory>
    requires behaves { Behaves code (program_of setup.program) }
    requires plain { is_plain (program_of setup.program) ≡ true }
    ensures records { IfOk result (λ record'. RecordsRun record') }
    ensures setup { IfOk result (λ record'. record'.setup ≡ setup) }
{
    let mut task = Task::new(alloc, Arc::new(alloc, code)?)?;
    let mut node = Node::new(alloc, setup)?;
    run_to_end(&mut task, &mut node)?;
    node.into_record()
}

/// The record of the run of a setup as one task, whose program uses no MPI function and shares no
/// variable: the run goes on until main has ended or a call has a fault.
pub fn run_serial(alloc: Global, setup: Setup) -> Result<RunRecord, Memory>
    requires main { HasMain (program_of setup.program) }
    requires plain { is_plain (program_of setup.program) ≡ true }
    ensures records { IfOk result (λ record'. RecordsRun record') }
    ensures setup { IfOk result (λ record'. record'.setup ≡ setup) }
{
    let code = compile(alloc, &setup.program)?;
    run_code(alloc, setup, code)
}
