//! Laws of requests and messages, as contracts of functions that do nothing.
ghost use Rattle.std.specs.Prelude.{◌≡◌, ◌≤◌, ◌<◌, ℕ, suc, pos, Bool, true, false, List, slice_get, length, Option, None, Some, Ok, Err};
ghost use Rattle.mpc_values.specs.declared.values.Word.TheVariants.{Req};
ghost use Rattle.mpc_values.specs.declared.faults.Fault.TheVariants.{Mistyped, Truncate, BadRequest};
ghost use Rattle.memory_model.specs.Memory.{Memory};
ghost use Rattle.mpi_args.specs.Datatypes.{is_same_datatype};
ghost use Rattle.mpi_queue.specs.History.{Made};
ghost use Rattle.mpi_request.specs.declared.requests.Awaited.TheVariants.{Nothing, Posting};
ghost use Rattle.mpi_request.specs.declared.requests.Request.{Request};
ghost use Rattle.mpi_request.specs.declared.requests.Carried.{Carried};
ghost use Rattle.mpi_request.specs.Messages.{posting_of, carried_of, empty_status, is_taken, moved_words, delivered, status_of, told};
ghost use Rattle.mpi_request.specs.Requests.{NotActive, named, told_of, without_request};
ghost use Rattle.mpi_request.specs.Completing.{Ends, Breaks, completion};
ghost use Rattle.mpi_request.specs.Pending.{pending_places};

/// A receive is told the status of its message; or else Mistyped, where the datatypes differ, and Truncate, where the
/// message is longer (MPI 3.1, sections 3.2.4 and 3.3.1). A message that is refused moves no word.
pub fn messages_are_whole_or_refused()
    ensures mistyped { (send : Made) (sent recv : Carried) → is_same_datatype sent.kind recv.kind ≡ false → told send sent recv ≡ Err Mistyped }
    ensures truncated { (send : Made) (sent recv : Carried) → is_same_datatype sent.kind recv.kind ≡ true → recv.count < sent.count → told send sent recv ≡ Err Truncate }
    ensures taken { (send : Made) (sent recv : Carried) → is_same_datatype sent.kind recv.kind ≡ true → sent.count ≤ recv.count → told send sent recv ≡ Ok (status_of send sent) }
    ensures status { (send : Made) (sent : Carried) → status_of send sent ≡ record { source = pos send.posting.rank; tag = send.posting.tag; count = sent.count } }
    ensures refused { (m : Memory) (sent recv : Carried) → is_taken sent recv ≡ false → delivered m sent recv ≡ m }
    ensures moved { (sent recv : Carried) → is_taken sent recv ≡ false → moved_words sent recv ≡ 0 }
{}

/// A send is ready when it is eager or matched, and a receive when it is matched (MPI 3.1, sections 3.4 and 3.7.3).
pub fn requests_are_ready_by_their_postings()
    ensures eager { (postings : List Made) (carried : List Carried) (number : ℕ) (made : Made) (mine : Carried) →
        posting_of postings number ≡ Some made → carried_of carried number ≡ Some mine → made.posting.send ≡ true → mine.eager ≡ true →
        told_of postings carried (Posting number) ≡ Some (Ok empty_status) }
    ensures waiting { (postings : List Made) (carried : List Carried) (number : ℕ) (made : Made) (mine : Carried) →
        posting_of postings number ≡ Some made → carried_of carried number ≡ Some mine → made.posting.send ≡ true → mine.eager ≡ false → made.met ≡ None →
        told_of postings carried (Posting number) ≡ None }
    ensures matched { (postings : List Made) (carried : List Carried) (number met : ℕ) (made : Made) (mine : Carried) →
        posting_of postings number ≡ Some made → carried_of carried number ≡ Some mine → made.posting.send ≡ true → made.met ≡ Some met →
        told_of postings carried (Posting number) ≡ Some (Ok empty_status) }
    ensures receive { (postings : List Made) (carried : List Carried) (number : ℕ) (made : Made) →
        posting_of postings number ≡ Some made → made.posting.send ≡ false → made.met ≡ None → told_of postings carried (Posting number) ≡ None }
{}

/// A completed request names nothing any more and marks no place; a null request ends at once with the empty status.
pub fn completed_requests_are_active_no_more()
    ensures null { (postings : List Made) (carried : List Carried) (requests : List Request) → completion postings carried requests (Req 0) ≡ Ends (pos 0) empty_status requests }
    ensures inactive { (postings : List Made) (carried : List Carried) (requests : List Request) (index : ℕ) (request : Request) →
        slice_get requests index ≡ Some request → request.active ≡ false → completion postings carried requests (Req (suc index)) ≡ Breaks BadRequest }
    ensures completed { (requests : List Request) (index : ℕ) (request : Request) → index < length requests → named (without_request requests (suc index) request) (Req (suc index)) ≡ NotActive }
    ensures unmarked { (send : Bool) (request : Request) → request.active ≡ false → pending_places send request ≡ None }
    ensures marked { (request : Request) → request.active ≡ true → pending_places request.send request ≡ request.places }
{}
