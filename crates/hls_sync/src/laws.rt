//! Laws of constructs, as contracts of functions that do nothing. Four tasks are in two instances: 0 and 2, and 1 and 3.
ghost use Rattle.std.specs.Prelude.{◌≡◌, true, false, List, [], ◌∷◌, Some, None};
ghost use Rattle.mpc_values.specs.declared.answers.Way.TheVariants.{Run, Skip, Hold};
ghost use Rattle.c_tree.specs.declared.program.HlsKind.TheVariants.{Single, Nowait, Barrier};
ghost use Rattle.hls_sync.specs.declared.visits.Visit.{Visit};
ghost use Rattle.hls_sync.specs.Meetings.{instance_size};
ghost use Rattle.hls_sync.specs.Ways.{way_of, with_visit, may_go, running_visit, may_leave_bar};
ghost use Rattle.c_tree.specs.declared.program.HlsKind.{HlsKind};
ghost use Rattle.hls_sync.specs.Shown.{IsSiteOf};
ghost use Rattle.hls_sync.specs.Cases.{site, visit, rows};

/// Of each instance, a single runs its block on the last task to come and holds the others, and a single nowait runs it
/// on the first to come, meeting by meeting.
pub fn blocks_run_once_in_each_instance()
    ensures size { instance_size (site Single) 3 ≡ 2 }
    ensures first { way_of (site Single) (visit 1 0 ∷ []) 0 ≡ Hold }
    ensures last { way_of (site Single) (visit 1 0 ∷ visit 0 0 ∷ []) 2 ≡ Run }
    ensures nowait_first { way_of (site Nowait) (visit 1 0 ∷ []) 0 ≡ Run }
    ensures nowait_last { way_of (site Nowait) (visit 0 0 ∷ []) 2 ≡ Skip }
    ensures next_meeting { way_of (site Nowait) (visit 0 0 ∷ []) 0 ≡ Run }
    ensures counted { with_visit (visit 0 0 ∷ []) 7 0 ≡ visit 0 0 ∷ visit 0 1 ∷ [] }
{}

/// A held task goes on once the task that runs the block has left it; where several are open, the latest ends first. A
/// task goes on after a barrier once all tasks of its instance have come.
pub fn tasks_wait_for_their_instance()
    ensures held { may_go (site Single) (visit 0 0 ∷ visit 2 0 ∷ []) [] 0 ≡ false }
    ensures freed { may_go (site Single) (visit 0 0 ∷ visit 2 0 ∷ []) (visit 2 0 ∷ []) 0 ≡ true }
    ensures of_another_instance { may_go (site Single) (visit 0 0 ∷ visit 1 0 ∷ visit 3 0 ∷ []) (visit 3 0 ∷ []) 0 ≡ false }
    ensures not_arrived { may_go (site Single) [] [] 0 ≡ true }
    ensures inner_first { running_visit (site Single) (visit 0 0 ∷ visit 2 0 ∷ visit 0 1 ∷ visit 2 1 ∷ []) [] 2 ≡ Some (visit 2 1) }
    ensures then_outer { running_visit (site Single) (visit 0 0 ∷ visit 2 0 ∷ visit 0 1 ∷ visit 2 1 ∷ []) (visit 2 1 ∷ []) 2 ≡ Some (visit 2 0) }
    ensures none_runs { running_visit (site Single) (visit 0 0 ∷ []) [] 0 ≡ None }
    ensures barrier_waits { may_leave_bar (site Barrier) (visit 0 0 ∷ visit 1 0 ∷ visit 3 0 ∷ []) 0 ≡ false }
    ensures barrier_goes { may_leave_bar (site Barrier) (visit 0 0 ∷ visit 2 0 ∷ []) 0 ≡ true }
    ensures barrier_not_arrived { may_leave_bar (site Barrier) [] 0 ≡ true }
{}

/// The rows of four tasks in two instances stand for the construct at which they meet, of whatever kind.
pub fn rows_make_a_site()
    ensures { (kind : HlsKind) → IsSiteOf rows (site kind) }
{}
