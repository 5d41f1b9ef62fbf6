//! What a caller of the meetings knows of them, as the contract of a function that does nothing.
ghost use Rattle.std.specs.Prelude.{◌≡◌, ◌<◌, ◌≤◌, ℕ, List, length, true, Some};
ghost use Rattle.mpc_values.specs.declared.values.Word.{Word};
ghost use Rattle.mpc_values.specs.declared.collectives.Coll.{Coll};
ghost use Rattle.mpi_comm.specs.declared.communicators.Communicator.{Communicator};
ghost use Rattle.mpi_comm.specs.Making.{new_comm};
ghost use Rattle.mpi_comm.specs.Seen.{seen_all, members_at};
ghost use Rattle.mpi_coll.specs.declared.arrivals.Arrival.{Arrival};
ghost use Rattle.mpi_coll.specs.Meetings.{latest_arrival, is_full};
ghost use Rattle.mpi_coll.specs.Rooms.{Tables, made_by};
ghost use Rattle.mpi_coll.specs.Kept.{room_at};
ghost use Rattle.mpi_coll.specs.Together.{members_of, comms_next, ShowsAll, FitsSize};

/// States of tables that stand for communicators and arrivals: that the conditions of an arrival hold, whose a member's
/// latest arrival is, and that no arrival changes which communicator a member has from a meeting that is full (MPI 3.1,
/// section 6.4.2).
pub fn standing_tables_meet_the_conditions()
    ensures members { (comms : List Communicator) (comm : ℕ) → members_at (seen_all comms) comm ≡ members_of comms comm }
    ensures same_members { (rooms : List Tables) (comms : List Communicator) (arrivals : List Arrival) (comm : ℕ) →
        ShowsAll rooms comms arrivals → FitsSize (room_at rooms comm) (length (members_of comms comm)) }
    ensures few { (rooms : List Tables) (comms : List Communicator) (arrivals : List Arrival) (comm rank : ℕ) →
        ShowsAll rooms comms arrivals → made_by (room_at rooms comm) rank ≤ length arrivals }
    ensures latest { (rooms : List Tables) (comms : List Communicator) (arrivals : List Arrival) (comm rank : ℕ) (a : Arrival) →
        ShowsAll rooms comms arrivals → latest_arrival arrivals comm rank ≡ Some a → (a.comm ≡ comm) × (a.rank ≡ rank) }
    ensures numbers_stay { (rooms : List Tables) (comms : List Communicator) (arrivals : List Arrival) (comm rank : ℕ) (coll : Coll) (words : List Word) (task parent turn : ℕ) →
        ShowsAll rooms comms arrivals → rank < length (members_of comms comm) → is_full arrivals parent (length (members_of comms parent)) turn ≡ true →
        new_comm (comms_next comms arrivals comm rank coll words) task parent turn ≡ new_comm comms task parent turn }
{}
