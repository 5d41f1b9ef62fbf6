//! Laws of the definitions, as the contract of a function that does nothing.
ghost use Rattle.task_gate.specs.Laws.{HistoryLaws, ClaimLaws, PassLaws};

/// How histories begin with one another and whose items they have, which claims a history keeps, and what the
/// passes of a new gate are.
pub fn gate_laws()
    ensures histories { HistoryLaws }
    ensures claims { ClaimLaws }
    ensures passes { PassLaws }
{}
