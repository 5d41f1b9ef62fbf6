//! How the tables of a communicator's meetings follow its arrivals, as the contract of a function that does nothing.
ghost use Rattle.std.specs.Prelude.{◌≡◌, ◌≢◌, ◌<◌, ℕ, List, [], map, slice_get, true, false, Some};
ghost use Rattle.std.specs.List.{range_with_len};
ghost use Rattle.mpc_values.specs.declared.values.Word.{Word};
ghost use Rattle.mpc_values.specs.declared.collectives.Coll.{Coll};
ghost use Rattle.mpi_coll.specs.declared.arrivals.Arrival.{Arrival};
ghost use Rattle.mpi_coll.specs.Meetings.{differs, next_meeting, latest_arrival};
ghost use Rattle.mpi_coll.specs.Results.{result_of};
ghost use Rattle.mpi_coll.specs.Rooms.{Gathered, Tables, begun, size_in, prepared, differs_in, is_last, entered, filled, is_due, departed, IsWhole};
ghost use Rattle.mpi_coll.specs.Shown.{Shows, with_next, with_leave, outcome_in, outcome, is_ready};

/// States that each step of the tables of a communicator gives the tables of the arrivals after it (MPI 3.1, chapter 5),
/// for all arrivals so far, and that the tables tell of the arrivals whether a call differs, whether a member can leave,
/// and what it gets.
pub fn tables_follow_the_arrivals()
    ensures begins { (numbers : ℕ → ℕ → ℕ) (members comm : ℕ) → Shows numbers (begun members) [] comm }
    ensures prepares { (numbers : ℕ → ℕ → ℕ) (t : Tables) (arrivals : List Arrival) (comm rank : ℕ) (coll : Coll) (words : List Word) →
        IsWhole t → Shows numbers t arrivals comm → rank < size_in t → Shows numbers (prepared t rank coll words) arrivals comm }
    ensures enters { (numbers : ℕ → ℕ → ℕ) (t : Tables) (arrivals : List Arrival) (comm rank : ℕ) (coll : Coll) (words : List Word) →
        IsWhole t → Shows numbers t arrivals comm → rank < size_in t → differs_in t rank coll ≡ false →
        Shows numbers (entered (prepared t rank coll words) rank) (with_next arrivals comm rank coll words) comm }
    ensures fills { (numbers : ℕ → ℕ → ℕ) (t : Tables) (arrivals : List Arrival) (comm rank : ℕ) (coll : Coll) (words : List Word) (g : Gathered) (results : List (List Word)) →
        IsWhole t → Shows numbers t arrivals comm → rank < size_in t → differs_in t rank coll ≡ false →
        is_last (prepared t rank coll words) rank ≡ true → slice_get (prepared t rank coll words).waiting 0 ≡ Some g →
        results ≡ map (λ r. outcome_in coll.what (numbers t.full r) (result_of coll r g.given)) (range_with_len 0 (size_in t)) →
        Shows numbers (filled (prepared t rank coll words) rank results) (with_next arrivals comm rank coll words) comm }
    ensures leaves { (numbers : ℕ → ℕ → ℕ) (t : Tables) (arrivals : List Arrival) (comm rank : ℕ) →
        IsWhole t → Shows numbers t arrivals comm → is_due t rank ≡ true → Shows numbers (departed t rank) (with_leave arrivals comm rank) comm }
    ensures arrivals_elsewhere { (numbers : ℕ → ℕ → ℕ) (t : Tables) (arrivals : List Arrival) (comm at by : ℕ) (coll : Coll) (words : List Word) →
        Shows numbers t arrivals comm → comm ≢ at → Shows numbers t (with_next arrivals at by coll words) comm }
    ensures leaves_elsewhere { (numbers : ℕ → ℕ → ℕ) (t : Tables) (arrivals : List Arrival) (comm at by : ℕ) →
        Shows numbers t arrivals comm → comm ≢ at → Shows numbers t (with_leave arrivals at by) comm }
    ensures differs { (numbers : ℕ → ℕ → ℕ) (t : Tables) (arrivals : List Arrival) (comm rank : ℕ) (coll : Coll) →
        IsWhole t → Shows numbers t arrivals comm → rank < size_in t →
        differs_in t rank coll ≡ differs arrivals comm (next_meeting arrivals comm rank) coll }
    ensures ready { (numbers : ℕ → ℕ → ℕ) (t : Tables) (arrivals : List Arrival) (comm rank : ℕ) →
        IsWhole t → Shows numbers t arrivals comm → rank < size_in t → is_due t rank ≡ is_ready arrivals comm (size_in t) rank }
    ensures gets { (numbers : ℕ → ℕ → ℕ) (t : Tables) (arrivals : List Arrival) (comm rank : ℕ) (a : Arrival) →
        IsWhole t → Shows numbers t arrivals comm → is_due t rank ≡ true → latest_arrival arrivals comm rank ≡ Some a →
        slice_get t.results rank ≡ Some (outcome numbers arrivals comm (size_in t) rank a) }
{}
