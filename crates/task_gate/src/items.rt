use std::marker::Model;

/// Stands for the code of any value, in proofs alone. No value of it is made.
pub struct Item {}

impl Model for Item {
    ghost use base.Stored.{Gv, gnil};
    ghost use Rattle.task_gate.specs.History.{coded_itself};

    ghost Value = { Gv };

    ghost coded = { coded_itself };

    ghost view = { λ _. gnil };
}
