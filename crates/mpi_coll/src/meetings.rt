//! The meetings of all communicators.
ghost use Rattle.std.specs.Prelude.{◌≡◌, ◌≢◌, ◌<◌, ℕ, List, ◌∷◌, [], IfOk, OnOk, OnErr, IsSome, true, false, Some, length, slice_get, option_copied};
ghost use Rattle.mpc_values.specs.declared.limits.TheConstants.{MAX_GIVEN};
ghost use Rattle.mpc_values.specs.declared.collectives.CollKind.TheVariants as kind;
ghost use Rattle.mpi_comm.specs.declared.communicators.Communicator.{Communicator};
ghost use Rattle.mpi_comm.specs.Communicators.{comm_world};
ghost use Rattle.mpi_comm.specs.Making.{new_comm};
ghost use Rattle.mpi_comm.specs.Seen.{seen_all, seen_at, alive, members_at};
ghost use Rattle.mpi_coll.specs.declared.arrivals.Arrival.{Arrival};
ghost use Rattle.mpi_coll.specs.Meetings.{next_meeting, latest_arrival, meeting_of, differs};
ghost use Rattle.mpi_coll.specs.Rooms.{begun, size_in, made_by, IsWhole};
ghost use Rattle.mpi_coll.specs.Shown.{is_ready, gotten};
ghost use Rattle.mpi_coll.specs.Kept.{room_at, opened_as, differs_at, is_due_at, answer_of};
ghost use Rattle.mpi_coll.specs.Together.{makes_comms, members_of, ShowsAll, FitsSize, Arrives, Leaves, Stays};

use crate::rooms::Room;
use mpc_values::{Coll, Fault, Memory, Word, Words};
use mpi_comm::Comms;
use std::alloc::Global;
use std::marker::Model;

/// The collective calls that are under way (MPI 3.1, chapter 5): the k-th arrivals of all members of a communicator
/// are its k-th meeting.
#[derive(Debug, Drop)]
pub struct Meetings {
    alloc: Global,
    // By the communicator's number. One that nobody has come to may have none yet, or one without members.
    rooms: Vec<Room>,
}

impl Model for Meetings {
    ghost use Rattle.std.specs.Prelude.{List};
    ghost use Rattle.mpi_coll.specs.Rooms.{Tables};

    ghost Value = { List Tables };

    ghost view = { λ meetings. meetings.rooms.items };
}

impl Meetings {
    /// Before the first arrival, with so many tasks in MPI_COMM_WORLD.
    pub fn new(alloc: Global, tasks: u32) -> Result<Meetings, Memory>
        ensures value { IfOk result (λ meetings. meetings ≡ begun 0 ∷ begun tasks ∷ []) }
        ensures shows { IfOk result (λ meetings. ShowsAll meetings (comm_world tasks ∷ []) []) }
    {
        let none = Room::new(alloc, 0)?;
        let world = Room::new(alloc, tasks)?;
        let mut rooms = Vec::with_capacity(alloc, 2)?;
        rooms.push(none)?;
        rooms.push(world)?;
        Ok(Meetings { alloc, rooms })
    }

    /// A member's arrival at its next meeting. It answers CollMismatch where an earlier arrival at that meeting differs
    /// in kind, root, operation, datatype or count, and then nothing changes. The last arrival computes what all members
    /// get, and makes or ends communicators in a dup, a split or a free (MPI 3.1, section 6.4). After want of memory
    /// both objects stand for what they stood for. It takes time in proportion to the members and the words of the
    /// meeting, spread over its arrivals.
    pub fn arrive(
        &mut self,
        comms: &mut Comms,
        comm: u32,
        rank: u32,
        coll: &Coll,
        given: &[Word],
    ) -> Result<Result<(), Fault>, Memory>
        requires living { IsSome (alive (seen_at comms.old comm)) }
        requires member { rank < length (members_at comms.old comm) }
        requires same_members { FitsSize (room_at self.old comm) (length (members_at comms.old comm)) }
        requires few { made_by (room_at self.old comm) rank < MAX_GIVEN }
        requires few_comms { makes_comms coll.now.what ≡ true → length comms.old < MAX_GIVEN }
        requires not_world { coll.now.what ≡ kind.Free → comm ≢ 1 }
        ensures answer { (all : List Communicator) (arrivals : List Arrival) → ShowsAll self.old all arrivals → seen_all all ≡ comms.old → IfOk result (λ r. r ≡ answer_of (differs arrivals comm (next_meeting arrivals comm rank) coll.now)) }
        ensures after { IfOk result (λ r. OnOk r (Arrives self.old self.new comms.old comms.new comm rank coll.now given.now)) }
        ensures fault { IfOk result (λ r. OnErr r (self.new ≡ self.old)) }
        ensures fault_comms { IfOk result (λ r. OnErr r (comms.new ≡ comms.old)) }
        ensures err { OnErr result (Stays self.old self.new comms.old) }
        ensures err_comms { OnErr result (comms.new ≡ comms.old) }
    {
        if self.differs(comm, rank, coll) {
            return Ok(Err(Fault::CollMismatch));
        }
        self.come(comms, comm, rank, coll, given)?;
        Ok(Ok(()))
    }

    /// Whether the member's arrival with this call would give CollMismatch now: an earlier arrival at its next meeting
    /// differs in kind, root, operation, datatype or count. It changes nothing.
    pub fn differs(&self, comm: u32, rank: u32, coll: &Coll) -> bool
        ensures value { result ≡ differs_at self.now comm rank coll.now }
        ensures differs { (comms : List Communicator) (arrivals : List Arrival) → ShowsAll self.now comms arrivals → rank < length (members_of comms comm) → result ≡ differs arrivals comm (next_meeting arrivals comm rank) coll.now }
    {
        self.differs_at(comm, rank, coll)
    }

    /// Whether the member has arrived and has not left since, and all members have arrived at the meeting of its
    /// latest arrival.
    pub fn ready(&self, comm: u32, rank: u32) -> bool
        ensures value { result ≡ is_due_at self.now comm rank }
        ensures ready { (comms : List Communicator) (arrivals : List Arrival) → ShowsAll self.now comms arrivals → result ≡ is_ready arrivals comm (length (members_of comms comm)) rank }
    {
        self.is_due(comm, rank)
    }

    /// What a member that is ready gets: the words of its result, its new communicator in a dup and a split, and an empty
    /// list where there is nothing. It has left then.
    pub fn leave(&mut self, comm: u32, rank: u32) -> Words
        requires { is_due_at self.old comm rank ≡ true }
        ensures gets { (comms : List Communicator) (arrivals : List Arrival) (task : ℕ) (a : Arrival) → ShowsAll self.old comms arrivals → slice_get (members_of comms comm) rank ≡ Some task → latest_arrival arrivals comm rank ≡ Some a
            → result ≡ gotten arrivals comm (length (members_of comms comm)) rank (new_comm comms task comm a.meeting) a }
        ensures after { Leaves self.old self.new comm rank }
    {
        let room = &mut self.rooms[comm as usize];
        room.leave(self.alloc, rank)
    }

    /// Whether a member's call differs, by the tables of the communicator.
    fn differs_at(&self, comm: u32, rank: u32, coll: &Coll) -> bool
        ensures value { result ≡ differs_at self.now comm rank coll.now }
        ensures whole { IsWhole (room_at self.now comm) }
    {
        match at(self.rooms.as_slice(), comm as usize) {
            Some(room) => room.differs(rank, coll),
            None => false,
        }
    }

    /// Whether a member can leave, by the tables of the communicator.
    fn is_due(&self, comm: u32, rank: u32) -> bool
        ensures value { result ≡ is_due_at self.now comm rank }
        ensures whole { IsWhole (room_at self.now comm) }
    {
        match at(self.rooms.as_slice(), comm as usize) {
            Some(room) => room.ready(rank),
            None => false,
        }
    }

    /// An arrival that differs from none.
    fn come(
        &mut self,
        comms: &mut Comms,
        comm: u32,
        rank: u32,
        coll: &Coll,
        given: &[Word],
    ) -> Result<(), Memory>
        requires living { IsSome (alive (seen_at comms.old comm)) }
        requires member { rank < length (members_at comms.old comm) }
        requires same_members { FitsSize (room_at self.old comm) (length (members_at comms.old comm)) }
        requires few { made_by (room_at self.old comm) rank < MAX_GIVEN }
        requires few_comms { makes_comms coll.now.what ≡ true → length comms.old < MAX_GIVEN }
        requires not_world { coll.now.what ≡ kind.Free → comm ≢ 1 }
        requires agrees { differs_at self.old comm rank coll.now ≡ false }
        ensures after { OnOk result (Arrives self.old self.new comms.old comms.new comm rank coll.now given.now) }
        ensures err { OnErr result (Stays self.old self.new comms.old) }
        ensures err_comms { OnErr result (comms.new ≡ comms.old) }
    {
        let members = size_of(comms, comm);
        self.open(comm, members)?;
        let room = &mut self.rooms[comm as usize];
        room.arrive(self.alloc, comms, comm, rank, coll, given)?;
        Ok(())
    }

    /// Makes the tables of a communicator of so many members, where it has none yet.
    fn open(&mut self, comm: u32, members: u32) -> Result<(), Memory>
        ensures there { OnOk result (comm < length self.new) }
        ensures here { OnOk result (room_at self.new comm ≡ opened_as (room_at self.old comm) members) }
        ensures others { (other : ℕ) → other ≢ comm → room_at self.new other ≡ room_at self.old other }
        ensures err { OnErr result (room_at self.new comm ≡ room_at self.old comm) }
    {
        reach(self.alloc, &mut self.rooms, comm)?;
        let place = comm as usize;
        if self.rooms[place].size() == 0 {
            self.rooms[place] = Room::new(self.alloc, members)?;
        }
        Ok(())
    }
}

#[cfg(test)]
impl Meetings {
    /// How many members the tables of a communicator have, 0 where there are none yet.
    #[tactic(auto, using(crate::proofs::Absent::absent_members))]
    pub fn members(&self, comm: u32) -> u32
        ensures { result ≡ size_in (room_at self.now comm) }
    {
        match at(self.rooms.as_slice(), comm as usize) {
            Some(room) => room.size(),
            None => 0,
        }
    }

    /// How often a member has arrived.
    #[tactic(auto, using(crate::proofs::Absent::absent_made))]
    pub fn made(&self, comm: u32, rank: u32) -> u32
        ensures { result ≡ made_by (room_at self.now comm) rank }
    {
        match at(self.rooms.as_slice(), comm as usize) {
            Some(room) => room.made(rank),
            None => 0,
        }
    }
}

/// How many members a living communicator has.
fn size_of(comms: &Comms, comm: u32) -> u32
    requires living { IsSome (alive (seen_at comms.now comm)) }
    ensures { result ≡ length (members_at comms.now comm) }
{
    match comms.size(comm) {
        Some(size) => size,
        None => 0,
    }
}

/// The tables of a communicator.
fn at(rooms: &[Room], comm: usize) -> Option<&Room>
    ensures { option_copied result ≡ slice_get rooms.now comm }
{
    rooms.get(comm)
}

/// Makes tables without members for the communicators up to this one that have none.
fn reach(alloc: Global, rooms: &mut Vec<Room>, comm: u32) -> Result<(), Memory>
    ensures there { OnOk result (comm < length rooms.new.items) }
    ensures same { (other : ℕ) → room_at rooms.new.items other ≡ room_at rooms.old.items other }
{
    for _ in rooms.len()..comm as usize + 1 {
        rooms.push(Room::new(alloc, 0)?)?;
    }
    Ok(())
}
