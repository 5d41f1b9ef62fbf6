//! The calls of a task on its groups: MPI_Comm_rank, MPI_Comm_size and MPI_Abort.
ghost use Rattle.std.specs.Prelude.{◌≡◌};
ghost use Rattle.mpc_values.specs.declared.answers.Answer.{Answer as TheAnswer};
ghost use Rattle.mpi_comm.specs.declared.communicators.View.{View as TheView};
ghost use Rattle.node_core.specs.Seen.{answered, answer_by, rank_answer, size_answer, code_answer};
ghost use Rattle.node_core.specs.CommsSeen.{view_seen};

use crate::comms::view_of;
use mpc_base::{Answer, Fault, Word};
use mpi_comm::{Comms, View};
use run_model::Phase;

fn member(phase: Phase, comms: &Comms, task: u32, comm: Word) -> Result<View, Fault>
    ensures { (answer : TheView → TheAnswer) → answer_by answer result ≡ answered answer phase (view_seen comms.now task comm) }
{
    if phase != Phase::Inside {
        return Err(Fault::NotInit);
    }
    match view_of(comms, task, comm) {
        None => Err(Fault::BadComm),
        Some(view) => Ok(view),
    }
}

/// The task's rank in a communicator, or NotInit or BadComm (MPI 3.1, section 6.4.1).
pub fn rank(phase: Phase, comms: &Comms, task: u32, comm: Word) -> Result<Answer, Fault>
    ensures { result ≡ answered rank_answer phase (view_seen comms.now task comm) }
{
    let view = member(phase, comms, task, comm)?;
    Ok(Answer::Gives(Word::Int(i64::from(view.rank))))
}

/// The size of a communicator, or NotInit or BadComm (MPI 3.1, section 6.4.1).
pub fn size(phase: Phase, comms: &Comms, task: u32, comm: Word) -> Result<Answer, Fault>
    ensures { result ≡ answered size_answer phase (view_seen comms.now task comm) }
{
    let view = member(phase, comms, task, comm)?;
    Ok(Answer::Gives(Word::Int(i64::from(view.size))))
}

/// The end of the run with a code, or NotInit or BadComm (MPI 3.1, section 8.7).
pub fn abort(
    phase: Phase,
    comms: &Comms,
    task: u32,
    comm: Word,
    code: &i32,
) -> Result<Answer, Fault>
    ensures { result ≡ answered (code_answer code.now) phase (view_seen comms.now task comm) }
{
    member(phase, comms, task, comm)?;
    Ok(Answer::Gives(Word::Int(i64::from(*code))))
}
