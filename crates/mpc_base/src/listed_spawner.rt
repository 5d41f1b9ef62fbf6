ghost use Rattle.std.specs.Prelude.{◌≡◌, ◌≤◌};
ghost use Rattle.mpc_base.specs.Causes.{Rose};
ghost use Rattle.mpc_base.specs.Outlooks.{FitsOutlook, GoesOn, StaysSure, outlook_with};
ghost use Rattle.mpc_base.specs.Starts.{choice_of, faults_with, inner_of, refusals_of, ChoiceCounts, RoseByOne};

use crate::asks::{Asked, Begun, Choice, Chosen, Event, NoThread, Noted, Runs};
use crate::fail_list::FailList;
use crate::jobs::Job;
use crate::spawners::Spawner;

/// Hands starts on to another spawner, and refuses those whose numbers are listed.
#[derive(Drop)]
pub struct ListedSpawner<S> {
    inner: S,
    fails: FailList,
}

impl<S> ListedSpawner<S> {
    /// A spawner that refuses the starts with a number in `fails`, counted from 0.
    pub fn new(inner: S, fails: Vec<u64>) -> ListedSpawner<S>
        ensures inner { inner_of result ≡ inner }
        ensures fails { refusals_of result ≡ record { listed = fails.items; calls = 0 } }
    {
        ListedSpawner {
            inner,
            fails: FailList::new(fails),
        }
    }
}

impl<J: Job, S: Spawner<J>> Spawner<J> for ListedSpawner<S> {
    ghost use Rattle.mpc_base.specs.Outlooks.{outlook_with};
    ghost use Rattle.mpc_base.specs.Starts.{faults_with, inner_of, refusals_of};

    ghost faults = { λ spawner. faults_with (S.faults (inner_of spawner)) (refusals_of spawner) };

    ghost starts = { λ spawner. S.starts (inner_of spawner) };

    ghost outlook = { λ spawner. outlook_with (refusals_of spawner) (S.outlook (inner_of spawner)) };

    fn choose(&mut self, by: Asked<J>) -> Chosen<J>
        ensures faults { ChoiceCounts (choice_of result) (faults_with (S.faults (inner_of self.old)) (refusals_of self.old)) (faults_with (S.faults (inner_of self.new)) (refusals_of self.new)) }
        ensures starts { (S.starts (inner_of self.new)) ≡ (S.starts (inner_of self.old)) }
        ensures fits { FitsOutlook (outlook_with (refusals_of self.old) (S.outlook (inner_of self.old)) 0) (choice_of result) }
        ensures outlook { GoesOn (outlook_with (refusals_of self.old) (S.outlook (inner_of self.old))) (outlook_with (refusals_of self.new) (S.outlook (inner_of self.new))) }
    {
        if self.fails.next() {
            by.with(Choice::Refuse)
        } else {
            self.inner.choose(by)
        }
    }

    fn note_start(&mut self, by: Event<J, Begun>) -> Noted<J, Begun>
        ensures faults { (faults_with (S.faults (inner_of self.new)) (refusals_of self.new)) ≡ (faults_with (S.faults (inner_of self.old)) (refusals_of self.old)) }
        ensures starts { RoseByOne (S.starts (inner_of self.old)) (S.starts (inner_of self.new)) }
        ensures outlook { StaysSure (outlook_with (refusals_of self.old) (S.outlook (inner_of self.old))) (outlook_with (refusals_of self.new) (S.outlook (inner_of self.new))) }
    {
        self.inner.note_start(by)
    }

    fn note_fault(&mut self, by: Event<J, NoThread>) -> Noted<J, NoThread>
        ensures faults { Rose (faults_with (S.faults (inner_of self.old)) (refusals_of self.old)) (faults_with (S.faults (inner_of self.new)) (refusals_of self.new)) }
        ensures later { (faults_with (S.faults (inner_of self.old)) (refusals_of self.old)) ≤ (faults_with (S.faults (inner_of self.new)) (refusals_of self.new)) }
        ensures starts { (S.starts (inner_of self.new)) ≡ (S.starts (inner_of self.old)) }
        ensures outlook { StaysSure (outlook_with (refusals_of self.old) (S.outlook (inner_of self.old))) (outlook_with (refusals_of self.new) (S.outlook (inner_of self.new))) }
    {
        self.inner.note_fault(by)
    }

    fn note_run(&mut self, by: Event<J, Runs>, runs: bool) -> Noted<J, Runs>
        ensures faults { (faults_with (S.faults (inner_of self.new)) (refusals_of self.new)) ≡ (faults_with (S.faults (inner_of self.old)) (refusals_of self.old)) }
        ensures starts { (S.starts (inner_of self.new)) ≡ (S.starts (inner_of self.old)) }
        ensures outlook { StaysSure (outlook_with (refusals_of self.old) (S.outlook (inner_of self.old))) (outlook_with (refusals_of self.new) (S.outlook (inner_of self.new))) }
    {
        self.inner.note_run(by, runs)
    }
}
