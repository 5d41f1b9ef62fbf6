//! How a run is, and which tasks can go.
ghost use Rattle.std.specs.Prelude.{◌≡◌, ◌<◌, ℕ, true, is_some, length, slice_get};
ghost use Rattle.std.specs.List.{list_all, enumerate_from};
ghost use Rattle.std.specs.Option.{option_copied};
ghost use Rattle.run_model.specs.Setup.{Setup as TheSetup};
ghost use Rattle.run_model.specs.World.{World};
ghost use Rattle.run_model.specs.Go.{has_finished, is_blocked, may_go};
ghost use Rattle.run_model.specs.Ending.{ending, is_over_or_blocked};
ghost use Rattle.node_core.specs.Stands.{Stands, courses_in};
ghost use Rattle.node_core.specs.Steps.{AllFit, NotedFits};

use crate::parts::{State, TaskPart};
use mpc_base::End;
use run_model::{Course, Last};

/// Whether a task is blocked by a call that it waits for.
fn is_blocked(course: &Course) -> bool
    requires noted { NotedFits course.now.noted }
    ensures { (setup : TheSetup) (w : World) (task : ℕ) → result ≡ is_blocked setup w task course.now }
{
    match &course.noted {
        None => false,
        // No call that waits is built.
        Some(_) => unreachable!(),
    }
}

/// Whether a task has finished, or is blocked.
fn is_over_or_blocked(part: &TaskPart) -> bool
    requires noted { NotedFits part.now.course.noted }
    ensures { (setup : TheSetup) (w : World) (task : ℕ) → result ≡ is_over_or_blocked setup w (task, part.now.course) }
{
    if part.course.exit.is_some() {
        return true;
    }
    is_blocked(&part.course)
}

/// Whether each task has finished, or is blocked.
fn all_over_or_blocked(parts: &[TaskPart]) -> bool
    requires noted { AllFit parts.now }
    ensures { (setup : TheSetup) (w : World) → result ≡ list_all (is_over_or_blocked setup w) (enumerate_from 0 (courses_in parts.now)) }
{
    for part in parts {
        if !is_over_or_blocked(part) {
            return false;
        }
    }
    true
}

fn all_have_exits(parts: &[TaskPart]) -> bool
    ensures { result ≡ list_all (λ part. is_some part.course.exit) parts.now }
{
    parts.iter().all(|part| part.course.exit.is_some())
}

/// Whether each task has finished.
fn all_finished(parts: &[TaskPart]) -> bool
    ensures { result ≡ list_all has_finished (courses_in parts.now) }
{
    all_have_exits(parts)
}

fn part_at(parts: &[TaskPart], task: u32) -> Option<&TaskPart>
    ensures { option_copied result ≡ slice_get parts.now task }
{
    parts.get(task as usize)
}

impl State {
    /// How the run is.
    #[tactic(auto, unfolding(run_model::specs::Ending::ending))]
    pub fn ending(&self) -> End
        requires noted { AllFit self.now.tasks.items }
        ensures { (setup : TheSetup) (w : World) → Stands w self.now → result ≡ ending setup w }
    {
        match self.last {
            Some(Last::Faulted { task, fault, line }) => End::Fault { task, fault, line },
            Some(Last::Aborted { task, code, line }) => End::Abort { task, code, line },
            None => {
                if all_finished(self.tasks.as_slice()) {
                    return End::Finished;
                }
                if all_over_or_blocked(self.tasks.as_slice()) {
                    return End::Stuck;
                }
                End::Going
            }
        }
    }

    /// How the run is after a visit of a task: it goes on where the task does, and else all tasks are
    /// looked at.
    pub fn ending_after(&self, task: u32) -> End
        requires noted { AllFit self.now.tasks.items }
        ensures { (setup : TheSetup) (w : World) → Stands w self.now → result ≡ ending setup w }
    {
        if self.last.is_none() {
            if let Some(part) = part_at(self.tasks.as_slice(), task) {
                if part.course.exit.is_none() && part.course.noted.is_none() {
                    return End::Going;
                }
            }
        }
        self.ending()
    }

    /// Whether a task may go: no fault or abort has ended the run, it has not finished, and it is not
    /// blocked.
    pub fn may_go(&self, task: u32) -> bool
        requires noted { AllFit self.now.tasks.items }
        ensures may { (setup : TheSetup) (w : World) → Stands w self.now → result ≡ may_go setup w task (slice_get w.log.courses task) }
        ensures there { result ≡ true → task < length self.now.tasks.items }
    {
        if self.last.is_some() {
            return false;
        }
        match part_at(self.tasks.as_slice(), task) {
            None => false,
            Some(part) => !is_over_or_blocked(part),
        }
    }
}
