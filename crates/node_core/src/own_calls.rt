//! The calls of a task on its own part: print, finish, init and finalize.
ghost use Rattle.std.specs.Prelude.{◌≡◌, IfOk, OnErr};
ghost use Rattle.run_model.specs.TaskCalls.{printed, begun};
ghost use Rattle.node_core.specs.Seen.{partly_seen, finished, finalized};

use mpc_base::limits::MAX_OUTPUT_BYTES;
use mpc_base::{Answer, Fault, Memory, Word};
use run_model::Phase;

/// Puts bytes after the task's output and gives their number, or is OutputFull.
pub fn print(output: &mut Vec<u8>, text: &[u8]) -> Result<Result<Answer, Fault>, Memory>
    ensures ok { IfOk result (λ did. partly_seen output.new.items did ≡ printed output.old.items text.now) }
    ensures fault { IfOk result (λ did. OnErr did (output.new.items ≡ output.old.items)) }
    ensures err { OnErr result (output.new.items ≡ output.old.items) }
{
    if text.len() <= MAX_OUTPUT_BYTES && output.len() <= MAX_OUTPUT_BYTES - text.len() {
        output.extend_from_slice(text)?;
        Ok(Ok(Answer::Gives(Word::Int(text.len() as i64))))
    } else {
        Ok(Err(Fault::OutputFull))
    }
}

/// The end of main, or NoFinalize, where the task is after MPI_Init and not after MPI_Finalize.
pub fn finish(phase: Phase, code: &i32) -> Result<Answer, Fault>
    ensures { result ≡ finished phase code.now }
{
    if phase == Phase::Inside {
        Err(Fault::NoFinalize)
    } else {
        Ok(Answer::Gives(Word::Int(i64::from(*code))))
    }
}

/// A task's first MPI_Init, or InitTwice (MPI 3.1, section 8.7).
pub fn init(phase: &mut Phase) -> Result<Answer, Fault>
    ensures did { partly_seen phase.new result ≡ begun phase.old }
    ensures fault { OnErr result (phase.new ≡ phase.old) }
{
    if *phase == Phase::Before {
        *phase = Phase::Inside;
        Ok(Answer::Done)
    } else {
        Err(Fault::InitTwice)
    }
}

/// MPI_Finalize (MPI 3.1, section 8.7): NotInit, then LeakedRequest, where the task has an active request.
pub fn finalize(phase: &mut Phase, active: bool) -> Result<Answer, Fault>
    ensures did { partly_seen phase.new result ≡ finalized phase.old active }
    ensures fault { OnErr result (phase.new ≡ phase.old) }
{
    if *phase != Phase::Inside {
        return Err(Fault::NotInit);
    }
    if active {
        return Err(Fault::LeakedRequest);
    }
    *phase = Phase::After;
    Ok(Answer::Done)
}
