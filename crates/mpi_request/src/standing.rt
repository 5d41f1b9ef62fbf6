//! How the requests that are kept stand for those of the definitions.
ghost use Rattle.std.specs.Prelude.{◌≡◌, ℕ, ◌≤◌, ◌<◌, ◌++◌, ◌∷◌, [], true, false, Bool, List, length, filter, position, replicate, slice_get, slice_set, Option, None, Some, Result};
ghost use Rattle.std.specs.Option.{option_map};
ghost use Rattle.mpc_values.specs.declared.values.Word.{Word};
ghost use Rattle.mpc_values.specs.declared.answers.Status.{Status};
ghost use Rattle.mpc_values.specs.declared.faults.Fault.{Fault};
ghost use Rattle.block_table.specs.declared.rows.Span.{Span};
ghost use Rattle.mpi_queue.specs.History.{Made};
ghost use Rattle.mpi_request.specs.declared.requests.Awaited.TheVariants.{Posting};
ghost use Rattle.mpi_request.specs.declared.requests.Request.{Request};
ghost use Rattle.mpi_request.specs.declared.requests.Carried.{Carried};
ghost use Rattle.mpi_request.specs.declared.started.Started.{Started};
ghost use Rattle.mpi_request.specs.declared.started.Open.{Open};
ghost use Rattle.mpi_request.specs.Requests.{Active, named, named_at, told_of, without_request};
ghost use Rattle.mpi_request.specs.Completing.{is_ready};
ghost use Rattle.mpi_request.specs.Pending.{all_pending};
ghost use Rattle.mpi_request.specs.Started.{post_of, span_of, told_by, told, opened};
ghost use Rattle.mpi_request.specs.Active.{Table, own_at, open_in, told_in, span_in, ready_in, is_ready_in};
ghost use Rattle.mpi_request.specs.Steps.{no_requests, started, taken_back, matched, finished};
ghost use Rattle.mpi_request.specs.Shown.{Names, Tells, Shows, TellsMore, TellsOf, seen_request, seen_started, places_of, ready_by, kept_places};

/// States, for all requests of the definitions and all that are kept and stand for them, what each call of `Requests`
/// comes to, and does nothing itself. `tells` is what a posting tells its request, which is `told_of` of the definitions
/// but between a posting and its match; a row's key names an object of an owner, as `names` has it.
pub fn kept_requests_stand_for_requests()
    // From no requests on, each change keeps that they stand for those of the definitions.
    ensures begins { (names : Names) (tells : Tells) (tasks : ℕ) → Shows names tells 0 (replicate tasks []) (no_requests tasks) }
    ensures starts { (names : Names) (before after : Tells) (posts more : ℕ) (requests : List (List Request)) (t : Table) (task : ℕ) (list : List Request) (what : Started) (r : Request) →
        Shows names before posts requests t → slice_get requests task ≡ Some list → r.active ≡ true → seen_started names what ≡ seen_request r →
        TellsMore before after posts → told (opened what) ≡ after r.awaited → posts ≤ more → ((post : ℕ) → post_of what ≡ Some post → (posts < post) × (post ≤ more)) →
        Shows names after more (slice_set requests task (list ++ r ∷ [])) (started t task what) }
    ensures number { (names : Names) (tells : Tells) (posts : ℕ) (requests : List (List Request)) (t : Table) (task : ℕ) (list : List Request) →
        Shows names tells posts requests t → slice_get requests task ≡ Some list → (own_at t task).made ≡ length list }
    ensures starts_back { (names : Names) (tells : Tells) (posts : ℕ) (requests : List (List Request)) (t : Table) (task : ℕ) (list : List Request) (what : Started) →
        Shows names tells posts requests t → slice_get requests task ≡ Some list → ((post : ℕ) → post_of what ≡ Some post → posts < post) →
        taken_back (started t task what) task ≡ t }
    ensures matches { (names : Names) (before after : Tells) (posts : ℕ) (requests : List (List Request)) (t : Table) (post : ℕ) (outcome : Result Status Fault) →
        Shows names before posts requests t → TellsOf before after post →
        ((task number : ℕ) (o : Open) → open_in (own_at t task) number ≡ Some o → post_of o.what ≡ Some post → told_by o.what (Some outcome) ≡ after (Posting post)) →
        Shows names after posts requests (matched t post outcome) }
    ensures ends { (names : Names) (tells : Tells) (posts : ℕ) (requests : List (List Request)) (t : Table) (task n number : ℕ) (list : List Request) (r : Request) →
        Shows names tells posts requests t → slice_get requests task ≡ Some list → named_at list n ≡ Active number r →
        Shows names tells posts (slice_set requests task (without_request list n r)) (finished t task n) }
    ensures renames { (before after : Names) (tells : Tells) (posts : ℕ) (requests : List (List Request)) (t : Table) →
        Shows before tells posts requests t →
        ((task number : ℕ) (o : Open) (s : Span) → open_in (own_at t task) number ≡ Some o → span_of o.what ≡ Some s → after s.key ≡ before s.key) →
        Shows after tells posts requests t }

    // What the requests that are kept tell is what the definitions say.
    ensures readiness { (names : Names) (tells : Tells) (posts : ℕ) (requests : List (List Request)) (t : Table) (task number : ℕ) (list : List Request) →
        Shows names tells posts requests t → slice_get requests task ≡ Some list → ready_in (own_at t task) number ≡ ready_by tells (named_at list number) }
    ensures any { (names : Names) (posts : ℕ) (postings : List Made) (carried : List Carried) (requests : List (List Request)) (t : Table) (task : ℕ) (list : List Request) (words : List Word) →
        Shows names (told_of postings carried) posts requests t → slice_get requests task ≡ Some list →
        position (is_ready_in (own_at t task)) words ≡ position (λ w. is_ready postings carried (named list w)) words }
    ensures outcome { (names : Names) (tells : Tells) (posts : ℕ) (requests : List (List Request)) (t : Table) (task n number : ℕ) (list : List Request) (r : Request) →
        Shows names tells posts requests t → slice_get requests task ≡ Some list → named_at list n ≡ Active number r → told_in (own_at t task) n ≡ tells r.awaited }
    ensures places { (names : Names) (tells : Tells) (posts : ℕ) (requests : List (List Request)) (t : Table) (task n number : ℕ) (list : List Request) (r : Request) →
        Shows names tells posts requests t → slice_get requests task ≡ Some list → named_at list n ≡ Active number r → option_map (places_of names) (span_in (own_at t task) n) ≡ r.places }
    ensures count { (names : Names) (tells : Tells) (posts : ℕ) (requests : List (List Request)) (t : Table) (task : ℕ) (list : List Request) →
        Shows names tells posts requests t → slice_get requests task ≡ Some list → length (own_at t task).active ≡ length (filter (λ (r : Request). r.active) list) }
    ensures pending { (names : Names) (tells : Tells) (posts : ℕ) (requests : List (List Request)) (t : Table) (send : Bool) →
        Shows names tells posts requests t → all_pending requests send ≡ kept_places names send t }
{}
