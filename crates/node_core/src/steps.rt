//! One visit of a task, on the state.
ghost use Rattle.std.specs.Prelude.{◌≡◌, ◌<◌, ◌-◌, ◌^◌, length, slice_get, IfOk, OnOk, OnErr, IfSome};
ghost use Rattle.run_model.specs.World.{World};
ghost use Rattle.run_model.specs.Setup.{setup_of, tasks_of};
ghost use Rattle.run_model.specs.Steps.{course_after};
ghost use Rattle.node_core.specs.Built.{IsBuilt, OnWaits, SameOwn, SameShared};
ghost use Rattle.node_core.specs.Stands.{Stands, IsSpaceOf};
ghost use Rattle.node_core.specs.Steps.{Tried, SamePart, SameState, Stepped, AllFit};

use crate::act::act;
use crate::logs::{last_after, log, note_of};
use crate::parts::{OwnPart, Shared, State, TaskPart};
use mpc_base::{Call, Fault, Memory, Out};
use run_model::Setup;

/// Does a call of a task that has so many entries, or is Calls, where as many are allowed.
fn try_call(
    setup: &Setup,
    shared: &mut Shared,
    task: u32,
    own: &mut OwnPart,
    entries: u32,
    call: &Call,
) -> Result<Out, Memory>
    requires there { task < tasks_of (setup_of setup.now) }
    requires set { IsSpaceOf (setup_of setup.now) shared.old.space }
    requires built { IsBuilt call.now }
    ensures ok { IfOk result (Tried (setup_of setup.now) entries task call.now shared.old own.old shared.new own.new) }
    ensures set { IsSpaceOf (setup_of setup.now) shared.new.space }
    ensures waits { IfOk result (OnWaits call.now) }
    ensures err { OnErr result (SameOwn own.old own.new) }
    ensures err_shared { OnErr result (SameShared shared.old shared.new) }
{
    if setup.calls <= entries {
        return Ok(Out::Broke(Fault::Calls));
    }
    act(setup, shared, task, own, call)
}

/// The same, and logs the entry in the task's course.
fn step_part(
    setup: &Setup,
    shared: &mut Shared,
    task: u32,
    part: &mut TaskPart,
    call: &Call,
    line: u32,
) -> Result<Out, Memory>
    requires there { task < tasks_of (setup_of setup.now) }
    requires set { IsSpaceOf (setup_of setup.now) shared.old.space }
    requires built { IsBuilt call.now }
    requires room { part.old.course.entries < 2 ^ 32 - 1 }
    ensures ok { IfOk result (Tried (setup_of setup.now) part.old.course.entries task call.now shared.old part.old.own shared.new part.new.own) }
    ensures course { IfOk result (λ out. part.new.course ≡ course_after part.old.course call.now line out) }
    ensures set { IsSpaceOf (setup_of setup.now) shared.new.space }
    ensures waits { IfOk result (OnWaits call.now) }
    ensures err { OnErr result (SamePart part.old part.new) }
    ensures err_shared { OnErr result (SameShared shared.old shared.new) }
{
    let note = note_of(call, line)?;
    let entries = part.course.entries;
    let out = try_call(setup, shared, task, &mut part.own, entries, call)?;
    log(&mut part.course, call, out, note);
    Ok(out)
}

impl State {
    /// A visit of a task that can go: does its call, and logs the entry. After want of memory nothing that
    /// contracts see has changed.
    pub fn step(&mut self, setup: &Setup, task: u32, call: &Call, line: u32) -> Result<Out, Memory>
        requires there { task < length self.old.tasks.items }
        requires one { task < tasks_of (setup_of setup.now) }
        requires set { IsSpaceOf (setup_of setup.now) self.old.shared.space }
        requires built { IsBuilt call.now }
        requires room { IfSome (slice_get self.old.tasks.items task) (λ part. part.course.entries < 2 ^ 32 - 1) }
        ensures ok { IfOk result (λ out. (w : World) → Stands w self.old → Stepped (setup_of setup.now) w task call.now line out self.new) }
        ensures set { IsSpaceOf (setup_of setup.now) self.new.shared.space }
        ensures noted { OnOk result (AllFit self.old.tasks.items → AllFit self.new.tasks.items) }
        ensures err { OnErr result (SameState self.old self.new) }
    {
        let part = &mut self.tasks[task as usize];
        let out = step_part(setup, &mut self.shared, task, part, call, line)?;
        self.last = last_after(self.last, task, call, line, out);
        Ok(out)
    }
}
