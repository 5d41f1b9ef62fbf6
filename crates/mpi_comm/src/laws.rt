//! Laws of communicators, as contracts of functions that do nothing.
ghost use Rattle.std.specs.Prelude.{◌≡◌, ◌≢◌, ◌<◌, ℕ, suc, pos, negsuc, false, List, [], ◌∷◌, length, Some};
ghost use Rattle.mpi_comm.specs.declared.communicators.Communicator.{Communicator};
ghost use Rattle.mpi_comm.specs.Communicators.{comm_at, living};
ghost use Rattle.mpi_comm.specs.Splitting.{Chosen, groups_of};
ghost use Rattle.mpi_comm.specs.Making.{made_by, with_dup, with_split, freed};
ghost use Rattle.std.specs.Prelude.{None};

/// A split makes a group for each colour, by rising colour, with its members by key and then by old rank; a member
/// with MPI_UNDEFINED is in none (MPI 3.1, section 6.4.2).
pub fn splits_order_by_colour_and_key()
    ensures two_colours { groups_of (10 ∷ 11 ∷ 12 ∷ 13 ∷ 14 ∷ [])
        (record { colour = pos 0; key = pos 5 } ∷ record { colour = pos 1; key = pos 0 } ∷ record { colour = pos 0; key = pos 0 } ∷ record { colour = negsuc 2; key = pos 0 } ∷ record { colour = pos 0; key = pos 0 } ∷ [])
        ≡ (12 ∷ 14 ∷ 10 ∷ []) ∷ (11 ∷ []) ∷ [] }
    ensures falling_colours { groups_of (0 ∷ 1 ∷ 2 ∷ [])
        (record { colour = pos 7; key = pos 0 } ∷ record { colour = pos 3; key = negsuc 0 } ∷ record { colour = pos 7; key = negsuc 1 } ∷ [])
        ≡ (1 ∷ []) ∷ (2 ∷ 0 ∷ []) ∷ [] }
{}

/// Communicators are numbered in the order of making, and each keeps its number and its members for ever: a freed one is
/// dead, and no other gets its number (MPI 3.1, sections 6.4.2 and 6.4.3).
pub fn numbers_are_never_given_again()
    ensures dup { (comms : List Communicator) (parent meeting : ℕ) (members : List ℕ) → comm_at (with_dup comms parent meeting members) (suc (length comms)) ≡ Some (made_by parent meeting members) }
    ensures dup_others { (comms : List Communicator) (parent meeting index : ℕ) (members : List ℕ) → index < length comms → comm_at (with_dup comms parent meeting members) (suc index) ≡ comm_at comms (suc index) }
    ensures split_others { (comms : List Communicator) (parent meeting index : ℕ) (members : List ℕ) (chosen : List Chosen) → index < length comms → comm_at (with_split comms parent meeting members chosen) (suc index) ≡ comm_at comms (suc index) }
    ensures freed { (comms : List Communicator) (index : ℕ) (comm : Communicator) → comm_at comms (suc index) ≡ Some comm → comm_at (freed comms (suc index)) (suc index) ≡ Some (record comm { lives = false }) }
    ensures freed_others { (comms : List Communicator) (index other : ℕ) → other ≢ index → comm_at (freed comms (suc index)) (suc other) ≡ comm_at comms (suc other) }
    ensures count { (comms : List Communicator) (number : ℕ) → length (freed comms number) ≡ length comms }
    ensures dead { (comm : Communicator) → comm.lives ≡ false → living (Some comm) ≡ None }
{}
