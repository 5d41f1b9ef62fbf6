//! Laws of collective calls, as contracts of functions that do nothing.
ghost use Rattle.std.specs.Prelude.{◌≡◌, ℕ, pos, negsuc, true, false, List, [], ◌∷◌};
ghost use Rattle.mpc_values.specs.declared.values.Op.TheVariants as op;
ghost use Rattle.mpc_values.specs.declared.values.Datatype.TheVariants as datatype;
ghost use Rattle.mpc_values.specs.declared.collectives.CollKind.TheVariants as what;
ghost use Rattle.mpi_comm.specs.declared.communicators.Communicator.{Communicator};
ghost use Rattle.mpi_comm.specs.Making.{with_dup, with_split, freed};
ghost use Rattle.mpi_coll.specs.declared.arrivals.Arrival.{Arrival};
ghost use Rattle.mpi_coll.specs.Arguments.{root_fits, counts_fit, counts_agree, given_count, taken_count};
ghost use Rattle.mpi_coll.specs.Meetings.{agree, next_meeting, meeting_of, is_full, differs};
ghost use Rattle.mpi_coll.specs.Changes.{chosen_in, comms_after};
ghost use Rattle.mpi_coll.specs.Cases.{int, coll, each, ones, threes, arrival};

/// What each of three ranks gets of a call, by what all gave; the root is rank 1 (MPI 3.1, chapter 5).
pub fn members_get_their_results()
    ensures bcast { each what.Bcast ([] ∷ (int 2 ∷ []) ∷ [] ∷ []) ≡ (int 2 ∷ []) ∷ [] ∷ (int 2 ∷ []) ∷ [] }
    ensures reduce { each what.Reduce ones ≡ [] ∷ (int 6 ∷ []) ∷ [] ∷ [] }
    ensures allreduce { each what.Allreduce ones ≡ (int 6 ∷ []) ∷ (int 6 ∷ []) ∷ (int 6 ∷ []) ∷ [] }
    ensures scan { each what.Scan ones ≡ (int 1 ∷ []) ∷ (int 3 ∷ []) ∷ (int 6 ∷ []) ∷ [] }
    ensures exscan { each what.Exscan ones ≡ [] ∷ (int 1 ∷ []) ∷ (int 3 ∷ []) ∷ [] }
    ensures gather { each what.Gather ones ≡ [] ∷ (int 1 ∷ int 2 ∷ int 3 ∷ []) ∷ [] ∷ [] }
    ensures allgather { each what.Allgather ones ≡ (int 1 ∷ int 2 ∷ int 3 ∷ []) ∷ (int 1 ∷ int 2 ∷ int 3 ∷ []) ∷ (int 1 ∷ int 2 ∷ int 3 ∷ []) ∷ [] }
    ensures scatter { each what.Scatter ([] ∷ (int 4 ∷ int 5 ∷ int 6 ∷ []) ∷ [] ∷ []) ≡ (int 4 ∷ []) ∷ (int 5 ∷ []) ∷ (int 6 ∷ []) ∷ [] }
    ensures alltoall { each what.Alltoall threes ≡ (int 1 ∷ int 4 ∷ int 7 ∷ []) ∷ (int 2 ∷ int 5 ∷ int 8 ∷ []) ∷ (int 3 ∷ int 6 ∷ int 9 ∷ []) ∷ [] }
    ensures barrier { each what.Barrier ([] ∷ [] ∷ [] ∷ []) ≡ [] ∷ [] ∷ [] ∷ [] }
{}

/// The k-th arrivals of all members are one meeting, in rank order, and a call that differs is told
/// (MPI 3.1, section 5.1 and chapter 6).
pub fn members_meet_in_turn()
    ensures next { next_meeting (arrival 0 0 what.Barrier ∷ arrival 1 0 what.Barrier ∷ arrival 0 1 what.Dup ∷ []) 1 0 ≡ 2 }
    ensures in_rank_order { meeting_of (arrival 1 0 what.Dup ∷ arrival 0 0 what.Dup ∷ arrival 0 1 what.Free ∷ []) 1 2 0 ≡ arrival 0 0 what.Dup ∷ arrival 1 0 what.Dup ∷ [] }
    ensures not_full { is_full (arrival 0 0 what.Barrier ∷ arrival 0 1 what.Barrier ∷ []) 1 2 0 ≡ false }
    ensures full { is_full (arrival 1 0 what.Barrier ∷ arrival 0 0 what.Barrier ∷ []) 1 2 0 ≡ true }
    ensures of_another_kind { differs (arrival 0 0 what.Dup ∷ []) 1 0 (coll what.Barrier) ≡ true }
    ensures of_another_meeting { differs (arrival 0 0 what.Dup ∷ []) 1 1 (coll what.Barrier) ≡ false }
    ensures of_another_root { agree (coll what.Bcast) (record (coll what.Bcast) { root = pos 0 }) ≡ false }
    ensures without_root { agree (coll what.Allreduce) (record (coll what.Allreduce) { root = pos 0 }) ≡ true }
    ensures of_another_operation { agree (coll what.Scan) (record (coll what.Scan) { op = op.Max }) ≡ false }
    ensures of_another_type { agree (coll what.Gather) (record (coll what.Gather) { kind = datatype.Long }) ≡ false }
    ensures of_another_count { agree (coll what.Alltoall) (record (coll what.Alltoall) { count = pos 2 }) ≡ false }
    ensures scatter_counts { agree (coll what.Scatter) (record (coll what.Scatter) { count = pos 2 }) ≡ true }
    ensures dup { (comms : List Communicator) (comm meeting : ℕ) (members : List ℕ) (arrivals : List Arrival) → comms_after what.Dup comms comm meeting members arrivals ≡ with_dup comms comm meeting members }
    ensures split { (comms : List Communicator) (comm meeting : ℕ) (members : List ℕ) (arrivals : List Arrival) → comms_after what.Split comms comm meeting members arrivals ≡ with_split comms comm meeting members (chosen_in arrivals) }
    ensures free { (comms : List Communicator) (comm meeting : ℕ) (members : List ℕ) (arrivals : List Arrival) → comms_after what.Free comms comm meeting members arrivals ≡ freed comms comm }
{}

/// Arguments that are significant only at the root are not looked at elsewhere (MPI 3.1, sections 5.4 to 5.11).
pub fn arguments_are_looked_at_where_they_count()
    ensures gather_at_the_root { counts_fit (record (coll what.Gather) { other = negsuc 0 }) 1 ≡ false }
    ensures gather_elsewhere { counts_fit (record (coll what.Gather) { other = negsuc 0 }) 0 ≡ true }
    ensures two_counts { counts_agree (record (coll what.Allgather) { other = pos 2 }) 0 ≡ false }
    ensures undefined_colour { counts_fit (record (coll what.Split) { colour = negsuc 2 }) 0 ≡ true }
    ensures negative_colour { counts_fit (record (coll what.Split) { colour = negsuc 0 }) 0 ≡ false }
    ensures root_outside { root_fits (record (coll what.Reduce) { root = pos 3 }) 3 ≡ false }
    ensures no_root { root_fits (record (coll what.Scan) { root = pos 3 }) 3 ≡ true }
    ensures scatter_gives { given_count (coll what.Scatter) 1 3 ≡ 3 }
    ensures scatter_gives_elsewhere { given_count (coll what.Scatter) 0 3 ≡ 0 }
    ensures first_of_exscan { taken_count (coll what.Exscan) 0 3 ≡ 0 }
    ensures root_of_bcast { taken_count (coll what.Bcast) 1 3 ≡ 0 }
{}
