//! Each of the three spawners once, by its bound.
ghost use Rattle.std.specs.Prelude.{◌≡◌, ◌∷◌, [], IfOk};
ghost use Rattle.mpc_base.specs.Starts.{job_of, refusals_of};

use crate::jobs::{Job, Started};
use crate::late_spawner::LateSpawner;
use crate::listed_spawner::ListedSpawner;
use crate::paces::{FreePace, Pace};
use crate::spawners::Spawner;
use crate::thread_spawner::ThreadSpawner;
use std::alloc::Global;
use std::sync::atomic::{AtomicU32, Ordering};
use std::sync::{Arc, Wait};
use std::test::*;
use std::thread::Threads;

// Looks at the mark, and hands its number back.
#[derive(Drop)]
struct LooksAtMark {
    number: u64,
    mark: Arc<AtomicU32, Global>,
}

#[derive(Drop)]
struct Looked {
    number: u64,
    mark: u32,
}

impl Job for LooksAtMark {
    type Out = Looked;

    ghost promise = { λ job out. out.number ≡ job.number };

    fn run<R: Threads + Wait>(self, _rt: &R) -> Looked {
        Looked {
            number: self.number,
            mark: self.mark.load(Ordering::SeqCst),
        }
    }
}

// The number and the mark that the job found, where it was started.
fn started_and_joined<S: Spawner<LooksAtMark>, R: Threads + Wait + Clone + Drop + Send + 'static>(
    rt: &R,
    spawner: &mut S,
    number: u64,
    mark: Arc<AtomicU32, Global>,
) -> Option<(u64, u32)> {
    let Ok(started) = spawner.start(rt, LooksAtMark { number, mark }) else {
        return None;
    };
    let looked = spawner.join(rt, started);
    Some((looked.number, looked.mark))
}

// A late spawner refuses no start, so that its caller needs no arm for one.
fn started_late<R: Threads + Wait + Clone + Drop + Send + 'static>(
    rt: &R,
    late: &mut LateSpawner,
    job: LooksAtMark,
) -> Started<LooksAtMark>
    ensures { job_of result ≡ job }
{
    match late.start(rt, job) {
        Ok(started) => started,
        Err(_) => unreachable!(),
    }
}

// Of two starts the second is refused where 1 alone is listed, and the first is not.
fn second_refused<R: Threads + Wait + Clone + Drop + Send + 'static>(
    rt: &R,
    listed: &mut ListedSpawner<LateSpawner>,
    first: LooksAtMark,
    second: LooksAtMark,
) -> Started<LooksAtMark>
    requires { refusals_of listed.old ≡ record { listed = 1 ∷ []; calls = 0 } }
    ensures { job_of result ≡ first }
{
    let Ok(started) = listed.start(rt, first) else {
        unreachable!()
    };
    match listed.start(rt, second) {
        Ok(_) => unreachable!(),
        Err(_) => started,
    }
}

#[test]
fn each_spawner_starts_its_jobs(rt: HostRuntime) -> Result<(), Fail> {
    let alloc = rt.alloc();
    let mark = Arc::new(alloc, AtomicU32::new(5))?;
    let mut threads = ThreadSpawner::new();
    let on_thread = started_and_joined(&rt, &mut threads, 7, Arc::try_clone(&mark)?);
    assert_eq!(rt; on_thread, Some((7, 5)));

    let mut listed = ListedSpawner::new(threads, vec![in alloc; 1, 3]?);
    for (start, want) in [(0, true), (1, false), (2, true), (3, false), (4, true)] {
        let number = started_and_joined(&rt, &mut listed, start, Arc::try_clone(&mark)?);
        let wanted = if want { Some((start, 5)) } else { None };
        assert_eq!(rt; number, wanted, "start {start}");
    }

    let mut late = LateSpawner::new(Arc::try_clone(&mark)?);
    assert_eq!(rt; mark.load(Ordering::SeqCst), 0);
    for number in 0..3 {
        let found = started_and_joined(&rt, &mut late, number, Arc::try_clone(&mark)?);
        assert_eq!(rt; found, Some((number, 1)));
        assert_eq!(rt; mark.load(Ordering::SeqCst), 0);
    }

    // The inner spawner is told when a job runs.
    let mut listed_late = ListedSpawner::new(late, vec![in alloc; 1]?);
    for (start, want) in [(0, Some((0, 1))), (1, None), (2, Some((2, 1)))] {
        let found = started_and_joined(&rt, &mut listed_late, start, Arc::try_clone(&mark)?);
        assert_eq!(rt; found, want, "late start {start}");
    }
    FreePace.pass(0, 0);
    Ok(())
}
