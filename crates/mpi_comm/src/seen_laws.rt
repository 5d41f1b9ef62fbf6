//! What the code keeps of communicators changes as the communicators do, as the contract of a function that does nothing.
ghost use Rattle.std.specs.Prelude.{◌≡◌, ◌+◌, ◌==◌, ℕ, List, length, true, Option};
ghost use Rattle.std.specs.Option.{option_map};
ghost use Rattle.std.specs.List.{list_any};
ghost use Rattle.mpi_comm.specs.declared.communicators.Communicator.{Communicator};
ghost use Rattle.mpi_comm.specs.declared.communicators.Seen.{Seen};
ghost use Rattle.mpi_comm.specs.Communicators.{Group, comm_at, living, group_in, size_of};
ghost use Rattle.mpi_comm.specs.Splitting.{Chosen, groups_of};
ghost use Rattle.mpi_comm.specs.Making.{with_dup, with_split, freed, new_comm};
ghost use Rattle.mpi_comm.specs.Seen.{seen_of, seen_all, seen_at, alive, size_in, rank_in, group_seen, duplicated, split_up, ended};
ghost use Rattle.mpi_comm.specs.Numbers.{number_in, NoneMadeBy};

/// States, for every list of communicators, that what is kept of them is found as they are and changes as they do; which
/// number the new communicator of a member gets; and that no later call changes what a meeting gave. It does nothing
/// itself.
pub fn communicators_step_alike()
    // What is kept is found by the same number.
    ensures count { (comms : List Communicator) → length (seen_all comms) ≡ length comms }
    ensures at { (comms : List Communicator) (number : ℕ) → seen_at (seen_all comms) number ≡ option_map seen_of (comm_at comms number) }
    ensures living { (comm : Option Communicator) → alive (option_map seen_of comm) ≡ option_map seen_of (living comm) }
    ensures group { (task number : ℕ) (comm : Option Communicator) → group_seen task number (option_map seen_of comm) ≡ group_in task number comm }
    ensures rank { (task number : ℕ) (one : Option Seen) → option_map (λ (g : Group). g.rank) (group_seen task number one) ≡ rank_in task one }

    // It changes as the communicators do.
    ensures dup { (comms : List Communicator) (parent meeting : ℕ) (members : List ℕ) → seen_all (with_dup comms parent meeting members) ≡ duplicated (seen_all comms) members }
    ensures split { (comms : List Communicator) (parent meeting : ℕ) (members : List ℕ) (chosen : List Chosen) → seen_all (with_split comms parent meeting members chosen) ≡ split_up (seen_all comms) members chosen }
    ensures free { (comms : List Communicator) (number : ℕ) → seen_all (freed comms number) ≡ ended (seen_all comms) number }

    // The first meeting of this number at a parent gives its members these numbers.
    ensures dup_number { (comms : List Communicator) (task parent meeting : ℕ) (members : List ℕ) →
        NoneMadeBy comms parent meeting → list_any (λ member. member == task) members ≡ true →
        new_comm (with_dup comms parent meeting members) task parent meeting ≡ length comms + 1 }
    ensures split_number { (comms : List Communicator) (task parent meeting : ℕ) (members : List ℕ) (chosen : List Chosen) →
        NoneMadeBy comms parent meeting →
        new_comm (with_split comms parent meeting members chosen) task parent meeting ≡ number_in (length comms + 1) (groups_of members chosen) task }

    // Another meeting changes none of them, and nor does a free.
    ensures dup_keeps { (comms : List Communicator) (task parent meeting other turn : ℕ) (members : List ℕ) → ((other ≡ parent) × (turn ≡ meeting) → ⊥) →
        new_comm (with_dup comms other turn members) task parent meeting ≡ new_comm comms task parent meeting }
    ensures split_keeps { (comms : List Communicator) (task parent meeting other turn : ℕ) (members : List ℕ) (chosen : List Chosen) → ((other ≡ parent) × (turn ≡ meeting) → ⊥) →
        new_comm (with_split comms other turn members chosen) task parent meeting ≡ new_comm comms task parent meeting }
    ensures free_keeps { (comms : List Communicator) (task parent meeting number : ℕ) → new_comm (freed comms number) task parent meeting ≡ new_comm comms task parent meeting }

    // Nor does one of them come before its meeting.
    ensures dup_makes_no_other { (comms : List Communicator) (parent meeting other turn : ℕ) (members : List ℕ) → ((other ≡ parent) × (turn ≡ meeting) → ⊥) →
        NoneMadeBy comms parent meeting → NoneMadeBy (with_dup comms other turn members) parent meeting }
    ensures split_makes_no_other { (comms : List Communicator) (parent meeting other turn : ℕ) (members : List ℕ) (chosen : List Chosen) → ((other ≡ parent) × (turn ≡ meeting) → ⊥) →
        NoneMadeBy comms parent meeting → NoneMadeBy (with_split comms other turn members chosen) parent meeting }
    ensures free_makes_none { (comms : List Communicator) (parent meeting number : ℕ) → NoneMadeBy comms parent meeting → NoneMadeBy (freed comms number) parent meeting }
{}
