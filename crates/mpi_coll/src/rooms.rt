//! The meetings of one communicator.
ghost use Rattle.std.specs.Prelude.{◌≡◌, ◌≢◌, ◌<◌, ◌+◌, ◌≤◌, ◌&&◌, nat_lt, IsSome, IfOk, OnOk, OnErr, length, true, false, Some, slice_get, option_copied, map};
ghost use Rattle.std.specs.List.{range_with_len};
ghost use Rattle.mpc_values.specs.declared.limits.TheConstants.{MAX_GIVEN};
ghost use Rattle.mpc_values.specs.declared.collectives.CollKind.TheVariants as kind;
ghost use Rattle.mpi_comm.specs.Seen.{seen_at, alive, members_at};
ghost use Rattle.mpi_coll.specs.Rooms.{differs_from, opened_at};
ghost use Rattle.mpi_coll.specs.Concluding.{seen_after, outcomes_to, arrived_in, seen_arrived};
ghost use Rattle.mpi_coll.specs.Together.{makes_comms, Remains};

use crate::comparing::agrees;
use crate::concluding::conclude;
use crate::gatherings::Gathering;
use crate::shares::copy;
use mpc_values::{Coll, Memory, Word, Words};
use mpi_comm::Comms;
use std::alloc::Global;
use std::marker::Model;
use std::mem;

/// How far the members of a communicator are: how often each has arrived and left, what each gets of the last meeting
/// that is full, and the meetings that some have not come to. A meeting is dropped once it is full, and at most one
/// result is kept for each member.
#[derive(Debug, Drop)]
pub(crate) struct Room {
    members: u32,
    made: Vec<u32>,
    gone: Vec<u32>,
    full: u32,
    results: Vec<Words>,
    waiting: Vec<Gathering>,
}

impl Model for Room {
    ghost use Rattle.std.specs.Prelude.{◌≡◌, length};
    ghost use Rattle.mpi_coll.specs.Rooms.{Tables, IsWhole};

    ghost Value = { Tables };

    ghost view = { λ r. record { made = r.made.items; gone = r.gone.items; full = r.full; results = r.results.items; waiting = r.waiting.items } };

    ghost invariant = { λ r. (r.members ≡ length r.made.items) × IsWhole (record { made = r.made.items; gone = r.gone.items; full = r.full; results = r.results.items; waiting = r.waiting.items }) };
}

impl Room {
    ghost use Rattle.mpi_coll.specs.Rooms.{Gathered, IsWhole, begun, size_in, made_by, place_of, differs_in, prepared, is_last, entered, filled, is_due, departed};

    /// A communicator of so many members before its first meeting.
    pub(crate) fn new(alloc: Global, members: u32) -> Result<Room, Memory>
        ensures { IfOk result (λ r. r ≡ begun members) }
    {
        Ok(Room {
            members,
            made: zeros(alloc, members)?,
            gone: zeros(alloc, members)?,
            full: 0,
            results: Vec::new(alloc),
            waiting: Vec::new(alloc),
        })
    }

    /// How many members there are.
    pub(crate) fn size(&self) -> u32
        ensures { result ≡ size_in self.now }
    {
        self.members
    }

    /// Whether the rank is a member's, and its call differs from an earlier one of its next meeting.
    pub(crate) fn differs(&self, rank: u32, coll: &Coll) -> bool
        ensures differs { result ≡ (nat_lt rank (size_in self.now) && differs_in self.now rank coll.now) }
        ensures whole { IsWhole self.now }
    {
        rank < self.members && self.differs_next(rank, coll)
    }

    /// Whether a call of the member differs from an earlier one of its next meeting.
    fn differs_next(&self, rank: u32, coll: &Coll) -> bool
        requires { rank < size_in self.now }
        ensures { result ≡ differs_in self.now rank coll.now }
    {
        let place = (self.made[rank as usize] - self.full) as usize;
        match at_place(self.waiting.as_slice(), place) {
            Some(gathering) => is_other(gathering, coll),
            None => false,
        }
    }

    /// Writes down what the member asks and gives at its next meeting, and does not count it yet. After want of memory
    /// all is as before.
    fn prepare(
        &mut self,
        alloc: Global,
        rank: u32,
        coll: &Coll,
        given: &[Word],
    ) -> Result<(), Memory>
        requires { rank < size_in self.old }
        ensures done { OnOk result (self.new ≡ prepared self.old rank coll.now given.now) }
        ensures whole { OnOk result (IsWhole self.old) }
        ensures err { OnErr result (self.new ≡ self.old) }
    {
        let words = copy(alloc, given)?;
        let place = (self.made[rank as usize] - self.full) as usize;
        open_place(&mut self.waiting, alloc, place, self.members, coll)?;
        let gathering = &mut self.waiting[place];
        gathering.put(rank, coll, words);
        Ok(())
    }

    /// One member's arrival. Where it is the last of its meeting, what all members get is kept, and a dup, a split or a
    /// free changes the communicators. After want of memory these are as before, and the tables stand for what they
    /// stood for.
    pub(crate) fn arrive(
        &mut self,
        alloc: Global,
        comms: &mut Comms,
        comm: u32,
        rank: u32,
        coll: &Coll,
        given: &[Word],
    ) -> Result<(), Memory>
        requires member { rank < size_in self.old }
        requires few { made_by self.old rank < MAX_GIVEN }
        requires living { IsSome (alive (seen_at comms.old comm)) }
        requires size { size_in self.old ≡ length (members_at comms.old comm) }
        requires numbers { makes_comms coll.now.what ≡ true → length comms.old < MAX_GIVEN }
        requires not_world { coll.now.what ≡ kind.Free → comm ≢ 1 }
        ensures done { OnOk result (self.new ≡ arrived_in (prepared self.old rank coll.now given.now) rank coll.now comms.old comm) }
        ensures changes { OnOk result (comms.new ≡ seen_arrived (prepared self.old rank coll.now given.now) rank coll.now comms.old comm) }
        ensures whole { OnOk result (IsWhole self.old) }
        ensures err { OnErr result (Remains self.old self.new) }
        ensures err_comms { OnErr result (comms.new ≡ comms.old) }
    {
        self.prepare(alloc, rank, coll, given)?;
        if self.is_last(rank) {
            let results = self.conclude(alloc, comms, comm, coll)?;
            self.fill(rank, results);
        } else {
            self.enter(rank);
        }
        Ok(())
    }

    /// What all members get of the first meeting, and the change of the communicators.
    fn conclude(
        &self,
        alloc: Global,
        comms: &mut Comms,
        comm: u32,
        coll: &Coll,
    ) -> Result<Vec<Words>, Memory>
        requires waits { 0 < length self.now.waiting }
        requires living { IsSome (alive (seen_at comms.old comm)) }
        requires size { size_in self.now ≡ length (members_at comms.old comm) }
        requires numbers { makes_comms coll.now.what ≡ true → length comms.old < MAX_GIVEN }
        requires not_world { coll.now.what ≡ kind.Free → comm ≢ 1 }
        ensures gets { (g : Gathered) → slice_get self.now.waiting 0 ≡ Some g → IfOk result (λ all. all.items ≡ outcomes_to coll.now comms.old comm g.asked g.given (size_in self.now)) }
        ensures changes { (g : Gathered) → slice_get self.now.waiting 0 ≡ Some g → OnOk result (comms.new ≡ seen_after coll.now.what comms.old comm g.asked) }
        ensures err { OnErr result (comms.new ≡ comms.old) }
    {
        let gathering = &self.waiting[0];
        conclude(alloc, comms, comm, coll, gathering, self.members)
    }

    /// Whether the member's arrival fills its meeting.
    fn is_last(&self, rank: u32) -> bool
        requires { rank < size_in self.now }
        ensures { result ≡ is_last self.now rank }
    {
        match self.waiting.get(0) {
            Some(gathering) => {
                self.made[rank as usize] == self.full && gathering.arrived() == self.members - 1
            }
            None => false,
        }
    }

    /// Counts an arrival that does not fill its meeting. An earlier result that the member has not got is given up.
    fn enter(&mut self, rank: u32)
        requires member { rank < size_in self.old }
        requires few { made_by self.old rank < MAX_GIVEN }
        requires waits { place_of self.old rank < length self.old.waiting }
        requires not_last { is_last self.old rank ≡ false }
        ensures { self.new ≡ entered self.old rank }
    {
        let place = (self.made[rank as usize] - self.full) as usize;
        let gathering = &mut self.waiting[place];
        gathering.come();
        self.made[rank as usize] += 1;
    }

    /// Counts the arrival that fills the first meeting, and keeps what each member gets of it, by rank.
    fn fill(&mut self, rank: u32, results: Vec<Words>)
        requires member { rank < size_in self.old }
        requires few { made_by self.old rank < MAX_GIVEN }
        requires last { is_last self.old rank ≡ true }
        requires each { length results.items ≡ size_in self.old }
        ensures { self.new ≡ filled self.old rank results.items }
    {
        self.made[rank as usize] += 1;
        self.full += 1;
        self.results = results;
        let _ = self.waiting.remove(0);
    }

    /// Whether the member's latest meeting is full, and it has not left since.
    pub(crate) fn ready(&self, rank: u32) -> bool
        ensures due { result ≡ is_due self.now rank }
        ensures whole { IsWhole self.now }
    {
        let rank = rank as usize;
        if rank < self.made.len() {
            self.gone[rank] < self.made[rank] && self.made[rank] <= self.full
        } else {
            false
        }
    }

    /// What the member gets. It has left then.
    pub(crate) fn leave(&mut self, alloc: Global, rank: u32) -> Words
        requires { is_due self.old rank ≡ true }
        ensures gets { slice_get self.old.results rank ≡ Some result }
        ensures after { self.new ≡ departed self.old rank }
        ensures whole { IsWhole self.old }
    {
        self.gone[rank as usize] = self.made[rank as usize];
        mem::replace(&mut self.results[rank as usize], Words::of(Vec::new(alloc)))
    }
}

#[cfg(test)]
impl Room {
    ghost use Rattle.mpi_coll.specs.Rooms.{made_by};

    /// How often a member has arrived.
    pub(crate) fn made(&self, rank: u32) -> u32
        ensures { result ≡ made_by self.now rank }
    {
        match self.made.get(rank as usize) {
            Some(made) => *made,
            None => 0,
        }
    }
}

/// The meeting of a place among those that wait.
fn at_place(waiting: &[Gathering], place: usize) -> Option<&Gathering>
    ensures { option_copied result ≡ slice_get waiting.now place }
{
    waiting.get(place)
}

/// Whether a call differs from that of the member that came first, where one came.
fn is_other(gathering: &Gathering, coll: &Coll) -> bool
    ensures { result ≡ differs_from (Some gathering.now) coll.now }
{
    gathering.arrived() != 0 && !agrees(gathering.coll(), coll)
}

/// Makes the meeting of a place, where it is the next one after those that wait. After want of memory all is as before.
fn open_place(
    waiting: &mut Vec<Gathering>,
    alloc: Global,
    place: usize,
    members: u32,
    coll: &Coll,
) -> Result<(), Memory>
    ensures opened { OnOk result (waiting.new.items ≡ opened_at waiting.old.items place members coll.now) }
    ensures there { OnOk result (place ≤ length waiting.old.items → place < length waiting.new.items) }
    ensures err { OnErr result (waiting.new.items ≡ waiting.old.items) }
{
    if place == waiting.len() {
        let next = Gathering::new(alloc, members, coll)?;
        waiting.push(next)?;
    }
    Ok(())
}

/// As many zeros.
fn zeros(alloc: Global, members: u32) -> Result<Vec<u32>, Memory>
    ensures { IfOk result (λ all. all.items ≡ map (λ rank. 0) (range_with_len 0 members)) }
{
    let all = (0..members).map(|_rank| 0).collect(alloc)?;
    Ok(all)
}
