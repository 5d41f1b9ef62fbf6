//! What becomes of a call, on the parts that it touches.
ghost use Rattle.std.specs.Prelude.{◌≡◌, ◌<◌, IfOk, OnErr};
ghost use Rattle.mpc_values.specs.declared.calls.Call.{Call as TheCall};
ghost use Rattle.run_model.specs.World.{Core};
ghost use Rattle.run_model.specs.Setup.{setup_of, tasks_of};
ghost use Rattle.run_model.specs.Act.{act};
ghost use Rattle.node_core.specs.Stands.{Serves, Follows, IsSpaceOf};
ghost use Rattle.node_core.specs.Built.{IsBuilt, out_of, OnWaits, SameOwn, SameShared};

use crate::group_calls::{abort, rank, size};
use crate::memory_calls::{end_block, end_local, load, new_block, new_local, store};
use crate::own_calls::{finalize, finish, init, print};
use crate::parts::{OwnPart, Shared};
use mpc_base::{Answer, Call, Fault, Memory, Out};
use run_model::Setup;

fn out_of(did: Result<Answer, Fault>) -> Out
    ensures out { result ≡ out_of did }
    ensures goes_on { (call : TheCall) → OnWaits call result }
{
    match did {
        Ok(answer) => Out::Did(answer),
        Err(fault) => Out::Broke(fault),
    }
}

/// Does a call of a task. A call that has a fault, waits or found no memory has changed nothing.
pub fn act(
    setup: &Setup,
    shared: &mut Shared,
    task: u32,
    own: &mut OwnPart,
    call: &Call,
) -> Result<Out, Memory>
    requires there { task < tasks_of (setup_of setup.now) }
    requires set { IsSpaceOf (setup_of setup.now) shared.old.space }
    requires built { IsBuilt call.now }
    ensures ok { IfOk result (λ out. (core : Core) → Serves core task shared.old own.old → Follows core task shared.new own.new out (act (setup_of setup.now) core task call.now)) }
    ensures set { IsSpaceOf (setup_of setup.now) shared.new.space }
    ensures waits { IfOk result (OnWaits call.now) }
    ensures err { OnErr result (SameOwn own.old own.new) }
    ensures err_shared { OnErr result (SameShared shared.old shared.new) }
{
    match call {
        Call::Load { at } => Ok(out_of(load(&shared.space, task, *at))),
        Call::Store { at, word } => Ok(out_of(store(&mut shared.space, task, *at, *word))),
        Call::New { len } => Ok(out_of(new_local(&mut shared.space, task, *len)?)),
        Call::Drop { obj } => Ok(out_of(end_local(&mut shared.space, task, *obj))),
        Call::Malloc { n } => Ok(out_of(new_block(&mut shared.space, task, n)?)),
        Call::Free { at } => Ok(out_of(end_block(&mut shared.space, task, *at))),
        Call::Broke { fault } => Ok(Out::Broke(*fault)),
        Call::Print { text } => Ok(out_of(print(&mut own.output, text.as_slice())?)),
        Call::Finish { code } => Ok(out_of(finish(own.phase, code))),
        Call::Init => Ok(out_of(init(&mut own.phase))),
        // No call that is built makes a request.
        Call::Finalize => Ok(out_of(finalize(&mut own.phase, false))),
        Call::Abort { comm, code } => Ok(out_of(abort(
            own.phase,
            &shared.matching.comms,
            task,
            *comm,
            code,
        ))),
        Call::Rank { comm } => Ok(out_of(rank(own.phase, &shared.matching.comms, task, *comm))),
        Call::Size { comm } => Ok(out_of(size(own.phase, &shared.matching.comms, task, *comm))),
        _ => unreachable!(),
    }
}
