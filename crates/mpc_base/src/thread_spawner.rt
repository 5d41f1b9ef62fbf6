ghost use Rattle.std.specs.Prelude.{◌≡◌, ◌≤◌};
ghost use Rattle.mpc_base.specs.Causes.{Rose};
ghost use Rattle.mpc_base.specs.Outlooks.{FitsOutlook, GoesOn, StaysSure, thread_outlook};
ghost use Rattle.mpc_base.specs.Starts.{choice_of, ChoiceCounts, RoseByOne};

use crate::asks::{Asked, Begun, Choice, Chosen, Event, NoThread, Noted, Runs};
use crate::jobs::Job;
use crate::spawners::Spawner;
use std::marker::Model;

/// Starts each job on a thread of std's. A start that finds no thread is a fault; where the count of
/// faults stands at its last value, each start is one.
#[derive(Drop)]
pub struct ThreadSpawner {
    faults: u64,
    starts: u64,
}

impl Model for ThreadSpawner {
    ghost use Rattle.mpc_base.specs.Starts.{SpawnCounts};

    ghost Value = { SpawnCounts };

    ghost view = { λ spawner. record { faults = spawner.faults; starts = spawner.starts } };
}

impl ThreadSpawner {
    /// A spawner that has started nothing.
    pub fn new() -> ThreadSpawner
        ensures { result ≡ record { faults = 0; starts = 0 } }
    {
        ThreadSpawner {
            faults: 0,
            starts: 0,
        }
    }
}

impl<J: Job> Spawner<J> for ThreadSpawner {
    ghost use Rattle.mpc_base.specs.Outlooks.{thread_outlook};

    ghost faults = { λ spawner. spawner.faults };

    ghost starts = { λ spawner. spawner.starts };

    ghost outlook = { λ spawner _. thread_outlook spawner.faults };

    fn choose(&mut self, by: Asked<J>) -> Chosen<J>
        ensures faults { ChoiceCounts (choice_of result) self.old.faults self.new.faults }
        ensures starts { self.new.starts ≡ self.old.starts }
        ensures fits { FitsOutlook (thread_outlook self.old.faults) (choice_of result) }
        ensures outlook { GoesOn (λ _. thread_outlook self.old.faults) (λ _. thread_outlook self.new.faults) }
    {
        if self.faults == u64::MAX {
            by.with(Choice::Refuse)
        } else {
            by.with(Choice::OnThread)
        }
    }

    fn note_start(&mut self, by: Event<J, Begun>) -> Noted<J, Begun>
        ensures faults { self.new.faults ≡ self.old.faults }
        ensures starts { RoseByOne self.old.starts self.new.starts }
        ensures outlook { StaysSure (λ _. thread_outlook self.old.faults) (λ _. thread_outlook self.new.faults) }
    {
        self.starts = self.starts.saturating_add(1);
        by.noted()
    }

    fn note_fault(&mut self, by: Event<J, NoThread>) -> Noted<J, NoThread>
        ensures faults { Rose self.old.faults self.new.faults }
        ensures later { self.old.faults ≤ self.new.faults }
        ensures starts { self.new.starts ≡ self.old.starts }
        ensures outlook { StaysSure (λ _. thread_outlook self.old.faults) (λ _. thread_outlook self.new.faults) }
    {
        self.faults = self.faults.saturating_add(1);
        by.noted()
    }

    fn note_run(&mut self, by: Event<J, Runs>, _runs: bool) -> Noted<J, Runs>
        ensures faults { self.new.faults ≡ self.old.faults }
        ensures starts { self.new.starts ≡ self.old.starts }
        ensures outlook { StaysSure (λ _. thread_outlook self.old.faults) (λ _. thread_outlook self.new.faults) }
    {
        by.noted()
    }
}
