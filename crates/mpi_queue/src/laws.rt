//! What holds of the matching of all lists of postings.
ghost use Rattle.std.specs.Prelude.{◌≡◌, ◌≢◌, ◌↔◌, ℕ, ◌+◌, ◌-◌, length, List, [], IsTrue, None, Some, slice_get, false};
ghost use Rattle.mpi_queue.specs.declared.postings.Posting.{Posting};
ghost use Rattle.mpi_queue.specs.Fits.{Fits, is_fit};
ghost use Rattle.mpi_queue.specs.Matching.{partner, posted};
ghost use Rattle.mpi_queue.specs.History.{Made, matching_of, partner_of, with_posting, is_open_to, IsPartner, IsSettled};

/// States, for every list of all postings made, what a queue does with the next one, and does nothing itself.
/// The queue finds the partner over all postings, which is the first that may be (MPI 3.1, section 3.5), and no
/// two postings that could meet are left.
pub fn matching_laws()
    ensures fits { (recv send : Posting) → IsTrue (is_fit recv send) ↔ Fits recv send }

    // The queue, seen as the list of all postings.
    ensures begins { matching_of [] ≡ record { made = 0; waiting = [] } }
    ensures met { (all : List Made) (p : Posting) → partner (matching_of all).waiting p ≡ partner_of all p }
    ensures after { (all : List Made) (p : Posting) → posted (matching_of all) p ≡ matching_of (with_posting all p) }

    // The partner, over the list of all postings.
    ensures first { (all : List Made) (p : Posting) (n : ℕ) → partner_of all p ≡ Some n → IsPartner all p n }
    ensures none { (all : List Made) (p : Posting) (k : ℕ) (m : Made) →
        partner_of all p ≡ None → slice_get all k ≡ Some m → is_open_to p m ≡ false }

    // A posting is made behind all others. Its partner has it as its partner, and no other posting changes.
    ensures made { (all : List Made) (p : Posting) →
        slice_get (with_posting all p) (length all) ≡ Some (record { posting = p; met = partner_of all p }) }
    ensures joined { (all : List Made) (p : Posting) (n : ℕ) (m : Made) →
        partner_of all p ≡ Some n → slice_get all (n - 1) ≡ Some m →
        slice_get (with_posting all p) (n - 1) ≡ Some (record m { met = Some (length all + 1) }) }
    ensures others { (all : List Made) (p : Posting) (k : ℕ) (m : Made) →
        slice_get all k ≡ Some m → partner_of all p ≢ Some (k + 1) → slice_get (with_posting all p) k ≡ Some m }

    // Nothing that could be matched is left unmatched.
    ensures settled_first { IsSettled [] }
    ensures settled { (all : List Made) (p : Posting) → IsSettled all → IsSettled (with_posting all p) }
{}
