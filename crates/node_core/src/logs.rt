//! How far a task comes by a call: what changes alike for every call.
ghost use Rattle.std.specs.Prelude.{◌≡◌, ◌<◌, ◌-◌, ◌^◌, ℕ, IfOk};
ghost use Rattle.mpc_values.specs.declared.calls.Call.{Call as TheCall};
ghost use Rattle.mpc_values.specs.declared.answers.Answer.{Answer as TheAnswer};
ghost use Rattle.mpc_base.specs.declared.journals.Out.TheVariants.{Did};
ghost use Rattle.run_model.specs.Steps.{noted_after, exit_after, course_after, last_after};
ghost use Rattle.node_core.specs.Built.{is_waiting, OnWaits};
ghost use Rattle.node_core.specs.Steps.{note_of};

use mpc_base::{Call, Memory, Out};
use run_model::{Ask, Course, Last};

/// Whether the call is one of those that may wait.
pub fn is_waiting(call: &Call) -> bool
    ensures { result ≡ is_waiting call.now }
{
    match call {
        Call::Complete { .. }
        | Call::AnyOf { .. }
        | Call::Probe { .. }
        | Call::Leave { .. }
        | Call::HlsWait { .. }
        | Call::HlsBarWait { .. } => true,
        _ => false,
    }
}

/// The note of a call that may wait.
pub fn note_of(call: &Call, line: u32) -> Result<Option<Ask>, Memory>
    ensures { IfOk result (λ note. note ≡ note_of call.now line) }
{
    if is_waiting(call) {
        Ok(Some(Ask {
            call: call.clone()?,
            line,
        }))
    } else {
        Ok(None)
    }
}

fn noted_after(note: Option<Ask>, out: Out) -> Option<Ask>
    ensures { (call : TheCall) (line : ℕ) → note ≡ note_of call line → OnWaits call out → result ≡ noted_after call line out }
{
    match out {
        Out::Waits => note,
        _ => None,
    }
}

fn exit_of(exit: Option<i32>, call: &Call) -> Option<i32>
    ensures { (answer : TheAnswer) → result ≡ exit_after exit call.now (Did answer) }
{
    match call {
        Call::Finish { code } => Some(*code),
        _ => exit,
    }
}

fn exit_after(exit: Option<i32>, call: &Call, out: Out) -> Option<i32>
    ensures { result ≡ exit_after exit call.now out }
{
    match out {
        Out::Did(_) => exit_of(exit, call),
        _ => exit,
    }
}

/// Counts an entry of a call, and notes the call or the exit code.
pub fn log(course: &mut Course, call: &Call, out: Out, note: Option<Ask>)
    requires room { course.old.entries < 2 ^ 32 - 1 }
    requires waits { OnWaits call.now out }
    ensures { (line : ℕ) → note ≡ note_of call.now line → course.new ≡ course_after course.old call.now line out }
{
    course.entries += 1;
    course.noted = noted_after(note, out);
    course.exit = exit_after(course.exit, call, out);
}

fn last_of(last: Option<Last>, task: u32, call: &Call, line: u32) -> Option<Last>
    ensures { (answer : TheAnswer) → result ≡ last_after last task call.now line (Did answer) }
{
    match call {
        Call::Abort { code, .. } => Some(Last::Aborted {
            task,
            code: *code,
            line,
        }),
        _ => last,
    }
}

/// What has ended the run, after an entry: a fault, or an abort that was answered.
pub fn last_after(last: Option<Last>, task: u32, call: &Call, line: u32, out: Out) -> Option<Last>
    ensures { result ≡ last_after last task call.now line out }
{
    match out {
        Out::Did(_) => last_of(last, task, call, line),
        Out::Broke(fault) => Some(Last::Faulted { task, fault, line }),
        Out::Waits => last,
    }
}
