ghost use Rattle.std.specs.Prelude.{◌≡◌, ◌<◌, ◌≤◌, ◌-◌, ◌^◌, ℤ, Option, IfOk, OnErr};
ghost use Rattle.mpc_values.specs.CallTable.{call_number};
ghost use Rattle.serial_memory.specs.Access.{Objects};
ghost use Rattle.serial_model.specs.Go.{act, print};
ghost use Rattle.serial_node.specs.Seen.{act_seen, task_seen};

use crate::accesses::{drop, free, load, malloc, new, store};
use crate::places::Places;
use mpc_base::limits::MAX_OUTPUT_BYTES;
use mpc_base::{Answer, Call, Fault, Memory, Word};
use std::alloc::Global;

/// Puts bytes behind the task's output, or is OutputFull.
fn print(output: &mut Vec<u8>, text: &[u8]) -> Result<Result<Answer, Fault>, Memory>
    ensures ok { IfOk result (λ did. (objects : Objects) (exit : Option ℤ) → act_seen objects output.new.items exit did ≡ print objects.memory (task_seen objects.made output.old.items exit) text.now) }
    ensures fault { IfOk result (λ did. OnErr did (output.new.items ≡ output.old.items)) }
    ensures err { OnErr result (output.new.items ≡ output.old.items) }
{
    if text.len() <= MAX_OUTPUT_BYTES && output.len() <= MAX_OUTPUT_BYTES - text.len() {
        output.extend_from_slice(text)?;
        Ok(Ok(Answer::Gives(Word::Int(text.len() as i64))))
    } else {
        Ok(Err(Fault::OutputFull))
    }
}

/// Does one of the calls 1 to 9 of a task: its answer, or its fault. A call that has a fault, or found no
/// memory, has changed nothing.
pub fn act(
    alloc: Global,
    places: &mut Places,
    output: &mut Vec<u8>,
    exit: &mut Option<i32>,
    call: &Call,
) -> Result<Result<Answer, Fault>, Memory>
    requires built { call_number call.now ≤ 9 }
    requires room { places.old.made < 2 ^ 32 - 1 }
    ensures ok { IfOk result (λ did. act_seen places.new output.new.items exit.new did ≡ act 0 places.old.memory (task_seen places.old.made output.old.items exit.old) call.now) }
    ensures fault_places { IfOk result (λ did. OnErr did (places.new ≡ places.old)) }
    ensures fault_output { IfOk result (λ did. OnErr did (output.new.items ≡ output.old.items)) }
    ensures fault_exit { IfOk result (λ did. OnErr did (exit.new ≡ exit.old)) }
    ensures err_places { OnErr result (places.new ≡ places.old) }
    ensures err_output { OnErr result (output.new.items ≡ output.old.items) }
    ensures err_exit { OnErr result (exit.new ≡ exit.old) }
{
    match call {
        Call::Load { at } => Ok(load(places, *at)),
        Call::Store { at, word } => Ok(store(places, *at, *word)),
        Call::New { len } => new(alloc, places, *len),
        Call::Drop { obj } => Ok(drop(places, *obj)),
        Call::Malloc { n } => Ok(Ok(malloc(alloc, places, *n)?)),
        Call::Free { at } => Ok(free(places, *at)),
        Call::Print { text } => print(output, text.as_slice()),
        Call::Broke { fault } => Ok(Err(*fault)),
        Call::Finish { code } => {
            *exit = Some(*code);
            Ok(Ok(Answer::Gives(Word::Int(i64::from(*code)))))
        }
        _ => unreachable!(),
    }
}
