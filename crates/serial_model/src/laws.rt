ghost use Rattle.std.specs.Prelude.{◌≡◌, ℕ, List, [], ◌∷◌, ◌++◌};
ghost use Rattle.mpc_base.specs.declared.journals.Entry.{Entry};
ghost use Rattle.serial_model.specs.declared.records.Setup.{Setup};
ghost use Rattle.serial_model.specs.World.{World};
ghost use Rattle.serial_model.specs.Go.{go, Makes};
ghost use Rattle.serial_model.specs.Run.{run, ran_step, at_start, order_of, world_of};
ghost use Rattle.serial_model.specs.Bounds.{Bounded};

/// A run begins at the start of its setup, and with one task more it goes on by one step of that task.
pub fn runs_go_on_by_one_step()
    ensures begins { (setup : Setup) → run setup [] ≡ at_start setup }
    ensures goes_on { (setup : Setup) (order : List ℕ) (task : ℕ) → run setup (order ++ task ∷ []) ≡ ran_step (run setup order) (go setup (run setup order).world task) }
{}

/// Entries that are a run of a setup are one with the entry of a step behind them, and the world is then that of the step.
pub fn legal_runs_go_on()
    ensures legal { (setup : Setup) (entries : List Entry) (entry : Entry) (world : World) → (run setup (order_of entries)).entries ≡ entries → go setup (world_of setup entries) entry.task ≡ Makes entry world
        → (run setup (order_of (entries ++ entry ∷ []))).entries ≡ entries ++ entry ∷ [] }
    ensures world { (setup : Setup) (entries : List Entry) (entry : Entry) (world : World) → go setup (world_of setup entries) entry.task ≡ Makes entry world → world_of setup (entries ++ entry ∷ []) ≡ world }
{}

/// A run of one task has made no more objects than entries, nothing lives under a name that it has not given yet,
/// and while it has not ended by a fault it has no more entries than are allowed.
pub fn runs_are_bounded()
    ensures { (setup : Setup) (order : List ℕ) → Bounded (run setup order) }
{}
