//! Laws of runs, as contracts of functions that do nothing.
ghost use Rattle.std.specs.Prelude.{◌≡◌, ◌≢◌, ◌≤◌, ◌+◌, ◌*◌, ℕ, true, List, [], ◌∷◌, ◌++◌, length, slice_get, Some};
ghost use Rattle.mpc_values.specs.declared.values.Obj.{Obj};
ghost use Rattle.mpc_values.specs.declared.owners.Owner.TheVariants.{Task};
ghost use Rattle.mpc_values.specs.declared.answers.Answer.{Answer};
ghost use Rattle.mpc_values.specs.declared.answers.Answer.TheVariants.{Posted};
ghost use Rattle.mpc_base.specs.declared.journals.Out.TheVariants.{Did};
ghost use Rattle.mpc_base.specs.declared.journals.Entry.{Entry};
ghost use Rattle.mpc_base.specs.declared.journals.Journal.{Journal};
ghost use Rattle.mpc_base.specs.declared.journals.End.TheVariants as end;
ghost use Rattle.c_tree.specs.Asking.{Misfit, fits};
ghost use Rattle.c_tree.specs.Next.{next_of};
ghost use Rattle.run_model.specs.declared.progress.Course.{Course};
ghost use Rattle.memory_model.specs.Memory.{IsOrdered};
ghost use Rattle.memory_model.specs.Names.{NamesAreLeft};
ghost use Rattle.run_model.specs.Setup.{Setup, tasks_of};
ghost use Rattle.run_model.specs.Owners.{owner_of};
ghost use Rattle.run_model.specs.Outcomes.{state_of};
ghost use Rattle.run_model.specs.World.{World};
ghost use Rattle.run_model.specs.Steps.{Stays, Makes, answers_of};
ghost use Rattle.run_model.specs.Go.{go, is_blocked};
ghost use Rattle.run_model.specs.Ending.{ending};
ghost use Rattle.run_model.specs.Run.{run, ran_step, at_start, order_of, world_of, LegalRun};
ghost use Rattle.run_model.specs.Orderly.{Once, Whole, Unovertaken, Orderly};
ghost use Rattle.run_model.specs.Cases.{TellingRuns};
ghost use Rattle.run_model.specs.Fitting.{IsKnown, AsksKnown};
ghost use Rattle.run_model.specs.Separate.{OwnPlaces, Keeps, LeavesOthers, NextNumbers, Numbered};
ghost use Rattle.run_model.specs.Stepping.{IsStep, Bounded, answers_told};

/// A run begins at the start of its setup, and with one task more it goes on by one step of that task.
pub fn runs_go_on_by_one_step()
    ensures begins { (setup : Setup) → run setup [] ≡ at_start setup }
    ensures goes_on { (setup : Setup) (order : List ℕ) (task : ℕ) → run setup (order ++ task ∷ []) ≡ ran_step (run setup order) (go setup (run setup order).world task) }
{}

/// Entries that are a run of a setup are one with the entry of a step after them, and the world is then that of the step.
pub fn legal_runs_go_on()
    ensures legal { (setup : Setup) (entries : List Entry) (entry : Entry) (world : World) → (run setup (order_of entries)).entries ≡ entries → go setup (world_of setup entries) entry.task ≡ Makes entry world
        → (run setup (order_of (entries ++ entry ∷ []))).entries ≡ entries ++ entry ∷ [] }
    ensures world { (setup : Setup) (entries : List Entry) (entry : Entry) (world : World) → go setup (world_of setup entries) entry.task ≡ Makes entry world → world_of setup (entries ++ entry ∷ []) ≡ world }
{}

/// The first entries of a run of a setup are one.
pub fn beginnings_of_legal_runs_are_legal()
    ensures { (setup : Setup) (entries more : List Entry) → (run setup (order_of (entries ++ more))).entries ≡ entries ++ more → (run setup (order_of entries)).entries ≡ entries }
{}

/// A step is what the call comes to that the program of the task asks after the task's own answers, and its entry names
/// the task that stepped.
pub fn steps_are_of_their_tasks()
    ensures step { (setup : Setup) (w : World) (task : ℕ) (entry : Entry) (after : World) → go setup w task ≡ Makes entry after → IsStep setup w task entry after }
    ensures task { (setup : Setup) (w : World) (task : ℕ) (entry : Entry) (after : World) → go setup w task ≡ Makes entry after → entry.task ≡ task }
{}

/// The answers that a task has had in a run are those that its own entries tell, in order.
pub fn answers_are_those_of_own_entries()
    ensures { (setup : Setup) (order : List ℕ) (task : ℕ) → answers_of (run setup order).world task ≡ answers_told task (run setup order).entries }
{}

/// A run has at most one entry more than are allowed to all its tasks together.
pub fn runs_are_bounded()
    ensures { (setup : Setup) (order : List ℕ) → Bounded setup (run setup order) }
{}

/// Where a run has ended no task makes an entry, and a blocked task makes none until another one's step.
pub fn ended_runs_and_blocked_tasks_stay()
    ensures ended { (setup : Setup) (w : World) (task : ℕ) → ending setup w ≢ end.Going → go setup w task ≡ Stays }
    ensures blocked { (setup : Setup) (w : World) (task : ℕ) (course : Course) → slice_get w.log.courses task ≡ Some course → is_blocked setup w task course ≡ true → go setup w task ≡ Stays }
{}

/// Each answer of a run is of its call's kind, so that a program which enters only singles that it has never gets one that
/// it cannot read.
pub fn tasks_never_misfit()
    ensures fits { (setup : Setup) (w : World) (task : ℕ) (entry : Entry) (after : World) (step : IsStep setup w task entry after) (answer : Answer) → IsKnown setup step.call → entry.out ≡ Did answer → fits step.call answer ≡ true }
    ensures never { (setup : Setup) → AsksKnown setup → (order : List ℕ) (task : ℕ) → next_of setup.program (answers_of (run setup order).world task) ≢ Misfit }
{}

/// A step of one task leaves another task's objects as they are, unless the step posted a send whose partner is a receive
/// of that other task. So processes share only the copies of declared variables.
pub fn processes_are_separate()
    ensures others { (setup : Setup) (order : List ℕ) (task : ℕ) (entry : Entry) (after : World) → go setup (run setup order).world task ≡ Makes entry after → LeavesOthers (run setup order).world.core after.core task }
    ensures places { (setup : Setup) (order : List ℕ) → OwnPlaces setup (run setup order).world.core }
    ensures touched { (setup : Setup) (task other : ℕ) (obj : Obj) → other ≢ task → owner_of setup task obj ≢ Task other }
{}

/// In every run each message arrives once, and among the sends of one sender that fit a receive, and the receives of one
/// receiver that fit a send, the earlier ones are matched first (MPI 3.1, section 3.5).
pub fn messages_arrive_once_and_in_order()
    ensures once { (setup : Setup) (order : List ℕ) → Once (run setup order).entries }
    ensures in_order { (setup : Setup) (order : List ℕ) → Unovertaken setup (run setup order).entries }
{}

/// In every run each message arrives whole (MPI 3.1, sections 3.2.2 and 3.5): just after a match the receive's first places hold
/// the words that the send's places held when it was posted, or no word is moved, where the datatypes differ or the message
/// is longer. So each legal run is orderly.
pub fn messages_arrive_whole()
    ensures whole { (setup : Setup) (order : List ℕ) → Whole setup (run setup order).entries }
    ensures orderly { (setup : Setup) (journal : Journal) → LegalRun setup journal → Orderly setup journal }
{}

/// The numbers of requests, postings, communicators and objects are never given again: nothing that has one is taken out,
/// a posting gets the next ones, and no object lives under a name that its task has not given yet.
pub fn numbers_are_never_given_again()
    ensures kept { (setup : Setup) (order : List ℕ) (task : ℕ) (entry : Entry) (after : World) → go setup (run setup order).world task ≡ Makes entry after → Keeps (run setup order).world.core after.core }
    ensures posted { (setup : Setup) (order : List ℕ) (task : ℕ) (entry : Entry) (after : World) (req post met words : ℕ) → go setup (run setup order).world task ≡ Makes entry after → entry.out ≡ Did (Posted req post met words) → NextNumbers (run setup order).world.core after.core task req post }
    ensures names { (setup : Setup) (order : List ℕ) (task : ℕ) → NamesAreLeft task (state_of (run setup order).world.core task).made (run setup order).world.core.memory }
{}

/// A run has given at most as many numbers of each kind as it has entries, of communicators at most that times the number
/// of tasks and one; and its memories are in the order of their keys,
/// so that two which read alike are equal.
pub fn numbers_are_bounded_by_entries()
    ensures numbered { (setup : Setup) (order : List ℕ) → Numbered (run setup order).world.core (length (run setup order).entries) }
    ensures communicators { (setup : Setup) → 1 ≤ tasks_of setup → (order : List ℕ) → length (run setup order).world.core.comms ≤ length (run setup order).entries * tasks_of setup + 1 }
    ensures ordered { (setup : Setup) (order : List ℕ) → IsOrdered (run setup order).world.core.memory }
{}

/// A few runs, computed: the order of a posting's faults, the marks of an eager send, a run that is stuck and not before,
/// the limit of calls, an abort, and a collective call.
pub fn telling_runs()
    ensures { TellingRuns }
{}
