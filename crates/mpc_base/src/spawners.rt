ghost use Rattle.std.specs.Prelude.{◌≡◌, ◌≤◌, ℕ, IfOk, IfSome};
ghost use Rattle.mpc_base.specs.Causes.{HasCause, Rose};
ghost use Rattle.mpc_base.specs.Outlooks.{Outlook, FitsOutlook, GoesOn, Meets, StaysSure};
ghost use Rattle.mpc_base.specs.Starts.{job_of, choice_of, ChoiceCounts, StartCounts, RoseByOne};

use crate::asks::{Asked, Begun, Choice, Chosen, Event, NoThread, Noted, Runs};
use crate::jobs::{Job, Kept, Started, StartedAs};
use mpc_values::Failed;
use std::snapshot::Snapshot;
use std::sync::Wait;
use std::thread;
use std::thread::Threads;

/// Who starts jobs: a count of faults that never falls, and a count of starts. A spawner writes the
/// first four methods, and a caller calls the last two. Each of the four is handed a value that only a start
/// or a join makes, and uses it up.
pub trait Spawner<J: Job> {
    /// How often a start has failed.
    ghost faults: { Self → ℕ };

    /// How many jobs were started.
    ghost starts: { Self → ℕ };

    /// Which of the coming starts, counted from 0, are sure to be refused, and which are sure not to be.
    ghost outlook: { Self → ℕ → Outlook };

    /// Chooses how the next job is started. Only a refusal is a fault.
    fn choose(&mut self, by: Asked<J>) -> Chosen<J>
        ensures faults { ChoiceCounts (choice_of result) (faults self.old) (faults self.new) }
        ensures starts { starts self.new ≡ starts self.old }
        ensures fits { FitsOutlook (outlook self.old 0) (choice_of result) }
        ensures outlook { GoesOn (outlook self.old) (outlook self.new) };

    /// Counts a start.
    fn note_start(&mut self, by: Event<J, Begun>) -> Noted<J, Begun>
        ensures faults { faults self.new ≡ faults self.old }
        ensures starts { RoseByOne (starts self.old) (starts self.new) }
        ensures outlook { StaysSure (outlook self.old) (outlook self.new) };

    /// Counts a thread that could not be made.
    fn note_fault(&mut self, by: Event<J, NoThread>) -> Noted<J, NoThread>
        ensures faults { Rose (faults self.old) (faults self.new) }
        ensures later { faults self.old ≤ faults self.new }
        ensures starts { starts self.new ≡ starts self.old }
        ensures outlook { StaysSure (outlook self.old) (outlook self.new) };

    /// Is told before and after a job runs that was kept to be run when it is joined.
    fn note_run(&mut self, by: Event<J, Runs>, runs: bool) -> Noted<J, Runs>
        ensures faults { faults self.new ≡ faults self.old }
        ensures starts { starts self.new ≡ starts self.old }
        ensures outlook { StaysSure (outlook self.old) (outlook self.new) };

    /// Starts a job. An `Err` drops the job, and comes only where the count of faults rose. The count of
    /// starts rises by one at each `Ok`. What was sure of this start comes, and what was sure of those after
    /// it is sure still.
    final fn start<R: Threads + Wait + Clone + Drop + Send + 'static>(
        &mut self,
        rt: &R,
        job: J,
    ) -> Result<Started<J>, Failed>
    where
        J: Drop + Send + 'static,
        J::Out: Drop + Send + 'static,
        ensures job { IfOk result (λ started. job_of started ≡ job) }
        ensures cause { HasCause (faults self.old) (faults self.new) result }
        ensures faults { IfOk result (λ _. faults self.new ≡ faults self.old) }
        ensures starts { StartCounts result (starts self.old) (starts self.new) }
        ensures sure { Meets (outlook self.old 0) result }
        ensures outlook { GoesOn (outlook self.old) (outlook self.new) }
    {
        match self.choose(Asked::new()).choice() {
            Choice::OnThread => match begin(rt, job) {
                Some(started) => {
                    self.note_start(Event::new()).end();
                    Ok(started)
                }
                None => {
                    self.note_fault(Event::new()).end();
                    Err(Failed)
                }
            },
            Choice::Late => {
                self.note_start(Event::new()).end();
                Ok(Started {
                    way: StartedAs::Late(job),
                })
            }
            Choice::Refuse => Err(Failed),
        }
    }

    /// Waits for a started job, and gives its result.
    final fn join<R: Threads + Wait>(&mut self, rt: &R, started: Started<J>) -> J::Out
        ensures kept { J.promise (job_of started) result }
        ensures faults { faults self.new ≡ faults self.old }
        ensures starts { starts self.new ≡ starts self.old }
        ensures outlook { StaysSure (outlook self.old) (outlook self.new) }
    {
        let Started { way } = started;
        match way {
            StartedAs::OnThread(handle) => handle.join(rt),
            StartedAs::Late(job) => {
                self.note_run(Event::new(), true).end();
                let out = job.run(rt);
                self.note_run(Event::new(), false).end();
                out
            }
        }
    }
}

// Starts a thread for the job, where one can be made.
fn begin<J: Job + Drop + Send + 'static, R: Threads + Wait + Clone + Drop + Send + 'static>(
    rt: &R,
    job: J,
) -> Option<Started<J>>
where
    J::Out: Drop + Send + 'static,
    ensures { IfSome result (λ started. job_of started ≡ job) }
{
    let theirs = rt.clone().ok()?;
    let promise = Kept(Snapshot::of(&job));
    let handle = thread::spawn_with(rt, promise, move || job.run(&theirs)).ok()?;
    Some(Started {
        way: StartedAs::OnThread(handle),
    })
}
