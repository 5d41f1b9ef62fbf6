//! The steps of a visit, each over the pass's seat at the gate's table.
ghost use Rattle.std.specs.Prelude.{◌≡◌, ℕ, ◌%◌, ◌^◌, ◌<◌, [], ◌∷◌, length, Some, false, true};
ghost use Rattle.task_gate.specs.History.{Adds, KeepsAll};
ghost use Rattle.task_gate.specs.Rule.{at_stage, ticket_of, history_of};
ghost use Rattle.task_gate.specs.Passes.{IsSized, IsVisitor, IsIn, in_as, gone, number_of};
ghost use Rattle.task_gate.specs.declared.views.Stage.TheVariants.{Outside, Waits, Inside};

use crate::plays::{Count, Draw, InTurn, Look, PickUp, Serve, SetDown};
use crate::views::View;
use atomic_table::{Seat, Shared};
use crossbeam_utils::Backoff;
use mpc_base::Traced;
use std::snapshot::Snapshot;
use std::sync::Wait;
use std::thread;

pub(crate) type GateTable<S> = Shared<Option<S>, View, Snapshot<S>, InTurn>;

pub(crate) type GateSeat<S> = Seat<Option<S>, View>;

// The words of the table, which count tickets drawn, tickets served and items; its one slot has the value.
const DRAWN: usize = 0;

const SERVED: usize = 1;

const ITEMS: usize = 2;

const VALUE: usize = 0;

// Draws a ticket.
pub(crate) fn draw<S: Traced>(table: &GateTable<S>, seat: &mut GateSeat<S>) -> u64
    requires fits { (seat.old.table_id ≡ table.now.table_id) × IsSized table.now.table_id }
    requires ready { (seat.old.me.1 ≡ []) × (seat.old.me.0.stage ≡ Outside) × (0 < seat.old.me.0.parts) }
    ensures same { (seat.new.table_id ≡ seat.old.table_id) × (seat.new.id ≡ seat.old.id) }
    ensures drew { (t : ℕ) × (seat.new.me ≡ (at_stage seat.old.me.0 (Waits t), [])) × (t % 2 ^ 64 ≡ result) }
{
    table.fetch_add::<Draw>(seat, DRAWN, 1)
}

// Looks until the ticket is served, and then has the slot with the value in hand. The pass whose ticket is
// served next spins between two looks, since its turn is near. Each other yields at once: its turn comes
// only after another pass has run. The number of tickets ahead wraps as the tickets do.
pub(crate) fn wait_turn<S: Traced, R: Wait>(
    rt: &R,
    table: &GateTable<S>,
    seat: &mut GateSeat<S>,
    ticket: u64,
)
    requires fits { (seat.old.table_id ≡ table.now.table_id) × IsSized table.now.table_id }
    requires ready { (seat.old.me.1 ≡ []) × (seat.old.me.0.stage ≡ Waits (ticket_of seat.old.me.0.stage)) × (ticket_of seat.old.me.0.stage % 2 ^ 64 ≡ ticket) }
    ensures same { (seat.new.table_id ≡ seat.old.table_id) × (seat.new.id ≡ seat.old.id) }
    ensures came { (x : S) × (seat.new.me ≡ (at_stage seat.old.me.0 (Inside (ticket_of seat.old.me.0.stage) (S.history x) true), (0, Some x) ∷ [])) × (S.base x ≡ seat.old.me.0.base) × KeepsAll (S.history x) seat.old.me.0.claims }
{
    let backoff = Backoff::new();
    for _ in rt.forever() {
        let served = table.load::<Look>(seat, SERVED);
        if served == ticket {
            return;
        }
        if ticket.wrapping_sub(served) == 1 {
            backoff.snooze();
        } else {
            thread::yield_now();
        }
    }
    unreachable!()
}

// Takes the value out of the slot, and lays the slot down, so that the pass holds none while it is inside.
pub(crate) fn take_out<S: Traced>(table: &GateTable<S>, seat: &mut GateSeat<S>) -> S
    requires fits { (seat.old.table_id ≡ table.now.table_id) × IsSized table.now.table_id }
    requires inside { IsIn true seat.old.me.0 × ((x : S) × (seat.old.me.1 ≡ (0, Some x) ∷ [])) }
    ensures same { (seat.new.table_id ≡ seat.old.table_id) × (seat.new.id ≡ seat.old.id) }
    ensures value { seat.old.me.1 ≡ (0, Some result) ∷ [] }
    ensures seat { seat.new.me ≡ (in_as false seat.old.me.0, []) }
{
    let Some(state) = table.exchange(seat, VALUE, None) else {
        unreachable!()
    };
    table.load::<SetDown>(seat, SERVED);
    state
}

// Puts the value into the slot, counts its new item, and serves the next ticket.
pub(crate) fn give_back<S: Traced + Drop>(
    table: &GateTable<S>,
    seat: &mut GateSeat<S>,
    state: S,
    more: u64,
)
    requires fits { (seat.old.table_id ≡ table.now.table_id) × IsSized table.now.table_id }
    requires inside { IsIn false seat.old.me.0 × (seat.old.me.1 ≡ []) × IsVisitor seat.old.me.0 }
    requires based { S.base state ≡ seat.old.me.0.base }
    requires adds { Adds (history_of seat.old.me.0.stage) (S.history state) (number_of seat.old.me.0.claims) more }
    ensures same { (seat.new.table_id ≡ seat.old.table_id) × (seat.new.id ≡ seat.old.id) }
    ensures seat { seat.new.me ≡ (gone (S.history state) seat.old.me.0, []) }
{
    table.load::<PickUp>(seat, SERVED);
    drop(table.exchange(seat, VALUE, Some(state)));
    table.fetch_add::<Count>(seat, ITEMS, more);
    table.fetch_add::<Serve>(seat, SERVED, 1);
}
