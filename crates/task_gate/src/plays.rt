//! The rule of the gate's table, and what each step tells the pass that makes it.
use crate::views::View;
use atomic_table::{Join, Play, Split, TableRule};
use mpc_base::Traced;
use std::snapshot::Snapshot;

/// The rule that holds of the words, the slot and what all passes know, between any two steps.
pub struct InTurn;

impl<S: Traced> TableRule<Option<S>, View, Snapshot<S>> for InTurn {
    ghost use Rattle.task_gate.specs.Rule.{Ruled, maker};

    ghost holds = { λ _ s. Ruled S.base S.history s };

    ghost first = { λ key. maker (S.base key.value) 0 };
}

// draw: adds 1 to the tickets drawn
pub struct Draw;

impl<S> Play<Option<S>, View> for Draw {
    ghost use Rattle.task_gate.specs.Rule.{drew};

    ghost then = { drew };
}

// look: loads the tickets served, and takes the slot where its turn has come
pub struct Look;

impl<S: Traced> Play<Option<S>, View> for Look {
    ghost use Rattle.task_gate.specs.Rule.{looked};

    ghost then = { looked S.base S.history };
}

// look: loads the tickets served, and lays the emptied slot down
pub struct SetDown;

impl<S> Play<Option<S>, View> for SetDown {
    ghost use Rattle.task_gate.specs.Rule.{set_down};

    ghost then = { set_down };
}

// look: loads the tickets served, and takes the empty slot up again
pub struct PickUp;

impl<S> Play<Option<S>, View> for PickUp {
    ghost use Rattle.task_gate.specs.Rule.{picked_up};

    ghost then = { picked_up };
}

// count: adds 0 or 1 to the items. This is the event
pub struct Count;

impl<S: Traced> Play<Option<S>, View> for Count {
    ghost use Rattle.task_gate.specs.Rule.{counted};

    ghost then = { counted S.base S.history };
}

// serve: adds 1 to the tickets served
pub struct Serve;

impl<S> Play<Option<S>, View> for Serve {
    ghost use Rattle.task_gate.specs.Rule.{put_out};

    ghost then = { put_out };
}

// split and join: each loads word 0
pub struct Numbers;

impl Split<View> for Numbers {
    ghost use Rattle.task_gate.specs.Rule.{one_less, next_pass};

    ghost left = { one_less };

    ghost right = { next_pass };
}

impl Join<View> for Numbers {
    ghost use Rattle.task_gate.specs.Rule.{joined, spent};

    ghost both = { joined };

    ghost spent = { spent };
}
