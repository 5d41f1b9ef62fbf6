ghost use Rattle.std.specs.Prelude.{ℕ, List};
ghost use Rattle.mpc_values.specs.declared.calls.Call.{Call};
ghost use Rattle.mpc_base.specs.declared.journals.Entry.{Entry};
ghost use Rattle.serial_model.specs.declared.records.Setup.{Setup};
ghost use Rattle.serial_node.specs.VisitLaws.{AsksNext, VisitLaws, RunLaws};

/// A run begins without entries and answers and goes on; while it goes on, it has no more entries than are
/// allowed; and it has ended exactly where its end is not Going.
pub fn runs_begin_and_end()
    ensures { RunLaws }
{}

/// A visit of the call that the task asks leaves a run. Where the call is answered, it is one entry and one
/// answer more, and the run has then ended exactly where the call was finish; where the answer is Stop, the
/// run has ended.
pub fn visits_leave_runs()
    ensures { (setup : Setup) (entries : List Entry) (call : Call) (line : ℕ) → AsksNext setup entries call line → VisitLaws setup entries call }
{}
