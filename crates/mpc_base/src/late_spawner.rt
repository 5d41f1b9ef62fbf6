ghost use Rattle.std.specs.Prelude.{◌≡◌, ◌≤◌};
ghost use Rattle.mpc_base.specs.Causes.{Rose};
ghost use Rattle.mpc_base.specs.Outlooks.{Started, FitsOutlook, GoesOn, StaysSure};
ghost use Rattle.mpc_base.specs.Starts.{choice_of, ChoiceCounts, RoseByOne};

use crate::asks::{Asked, Begun, Choice, Chosen, Event, NoThread, Noted, Runs};
use crate::jobs::Job;
use crate::spawners::Spawner;
use std::alloc::Global;
use std::marker::Model;
use std::sync::Arc;
use std::sync::atomic::{AtomicU32, Ordering};

/// Keeps each job at its start, and runs it when it is joined. The mark is 1 while a job runs, and 0
/// otherwise. It never fails.
#[derive(Drop)]
pub struct LateSpawner {
    mark: Arc<AtomicU32, Global>,
    faults: u64,
    starts: u64,
}

impl Model for LateSpawner {
    ghost use Rattle.mpc_base.specs.Starts.{SpawnCounts};

    ghost Value = { SpawnCounts };

    ghost view = { λ spawner. record { faults = spawner.faults; starts = spawner.starts } };
}

impl LateSpawner {
    /// A spawner that has started nothing. It sets the mark to 0.
    pub fn new(mark: Arc<AtomicU32, Global>) -> LateSpawner
        ensures { result ≡ record { faults = 0; starts = 0 } }
    {
        mark.store(0, Ordering::SeqCst);
        LateSpawner {
            mark,
            faults: 0,
            starts: 0,
        }
    }
}

impl<J: Job> Spawner<J> for LateSpawner {
    ghost use Rattle.mpc_base.specs.Outlooks.{Started};

    ghost faults = { λ spawner. spawner.faults };

    ghost starts = { λ spawner. spawner.starts };

    ghost outlook = { λ _ _. Started };

    fn choose(&mut self, by: Asked<J>) -> Chosen<J>
        ensures faults { ChoiceCounts (choice_of result) self.old.faults self.new.faults }
        ensures starts { self.new.starts ≡ self.old.starts }
        ensures fits { FitsOutlook Started (choice_of result) }
        ensures outlook { GoesOn (λ _. Started) (λ _. Started) }
    {
        by.with(Choice::Late)
    }

    fn note_start(&mut self, by: Event<J, Begun>) -> Noted<J, Begun>
        ensures faults { self.new.faults ≡ self.old.faults }
        ensures starts { RoseByOne self.old.starts self.new.starts }
        ensures outlook { StaysSure (λ _. Started) (λ _. Started) }
    {
        self.starts = self.starts.saturating_add(1);
        by.noted()
    }

    fn note_fault(&mut self, by: Event<J, NoThread>) -> Noted<J, NoThread>
        ensures faults { Rose self.old.faults self.new.faults }
        ensures later { self.old.faults ≤ self.new.faults }
        ensures starts { self.new.starts ≡ self.old.starts }
        ensures outlook { StaysSure (λ _. Started) (λ _. Started) }
    {
        self.faults = self.faults.saturating_add(1);
        by.noted()
    }

    fn note_run(&mut self, by: Event<J, Runs>, runs: bool) -> Noted<J, Runs>
        ensures faults { self.new.faults ≡ self.old.faults }
        ensures starts { self.new.starts ≡ self.old.starts }
        ensures outlook { StaysSure (λ _. Started) (λ _. Started) }
    {
        self.mark.store(u32::from(runs), Ordering::SeqCst);
        by.noted()
    }
}
