//! What is done at a gate.
ghost use Rattle.std.specs.Prelude.{◌≡◌, ◌⊎◌, ℕ, ◌<◌, ◌++◌, ◌∷◌, [], length, vec_len, IfOk};
ghost use base.Stored.{Gv};
ghost use Rattle.task_gate.specs.History.{KeepsAll};
ghost use Rattle.task_gate.specs.Names.{gate_id};
ghost use Rattle.task_gate.specs.Passes.{IsOutside, IsInside, IsSame, AllNew, gate_of, base_of, claims, number, got, leaving_with};
ghost use Rattle.task_gate.specs.Rule.{maker};

use crate::gates::Gate;
use crate::passes::Pass;
use crate::plays::Numbers;
use crate::steps::{GateSeat, draw, give_back, take_out, wait_turn};
use atomic_table::{Badge, Table};
use mpc_base::{Memory, Traced};
use std::alloc::Global;
use std::snapshot::Snapshot;
use std::sync::Wait;

impl<S: Traced + Drop> Gate<S> {
    /// A gate with its first value, which has no history, and its passes, which are numbered from 0.
    pub fn new(alloc: Global, first: S, passes: u32) -> Result<(Gate<S>, Vec<Pass>), Memory>
        requires some_pass { 0 < passes }
        requires empty { S.history first ≡ [] }
        ensures count { IfOk result (λ r. vec_len r.1 ≡ passes) }
        ensures passes { IfOk result (λ r. AllNew (gate_id r.0) (S.base first) r.1.items) }
    {
        let key = Snapshot::of(&first);
        let (gate, mut seat) = Gate::of(alloc, first, &key)?;
        let mut made = Vec::with_capacity(alloc, passes as usize)?;
        for _ in 0..passes {
            let badge = gate
                .table
                .shared
                .split_seat::<Numbers>(&mut seat)
                .into_badge();
            made.push(Pass { badge, got: 0 })?;
        }
        Ok((gate, made))
    }

    // The gate with the seat that makes its passes.
    fn of(alloc: Global, first: S, key: &Snapshot<S>) -> Result<(Gate<S>, GateSeat<S>), Memory>
        requires empty { S.history first ≡ [] }
        requires key { key.now.value ≡ first }
        ensures { IfOk result (λ r. (r.1.table_id ≡ gate_id r.0) × (r.1.me ≡ (maker (S.base first) 0, []))) }
    {
        let mut slots = Vec::with_capacity(alloc, 1)?;
        slots.push(Some(first))?;
        match Table::new(alloc, &[0, 0, 0], slots, key) {
            Ok((table, seat)) => Ok((Gate { table }, seat)),
            Err(_) => Err(Memory),
        }
    }

    /// Waits for the pass's turn, and gives it the value. The value has the base of the gate's first one.
    /// It begins with the history that this pass last left, and has of it just the items that it made.
    pub fn enter<R: Wait>(&self, rt: &R, pass: &mut Pass) -> S
        requires gate { gate_of pass.old ≡ gate_id self.now }
        requires outside { IsOutside pass.old }
        ensures same { IsSame pass.old pass.new }
        ensures claims { claims pass.new ≡ claims pass.old }
        ensures inside { IsInside pass.new }
        ensures got { got pass.new ≡ S.history result }
        ensures base { S.base result ≡ base_of pass.old }
        ensures keeps { KeepsAll (S.history result) (claims pass.old) }
    {
        let table = &self.table.shared;
        let mut seat = pass.take_seat::<S>();
        let ticket = draw(table, &mut seat);
        wait_turn(rt, table, &mut seat, ticket);
        let state = take_out(table, &mut seat);
        pass.badge = seat.into_badge();
        pass.got = state.item_count();
        state
    }

    /// Gives the value back, with at most one item of this pass behind the history that it got, and serves
    /// the next ticket.
    pub fn leave(&self, pass: &mut Pass, state: S)
        requires gate { gate_of pass.old ≡ gate_id self.now }
        requires inside { IsInside pass.old }
        requires base { S.base state ≡ base_of pass.old }
        requires adds { (S.history state ≡ got pass.old) ⊎ ((x : Gv) × (S.history state ≡ got pass.old ++ (number pass.old, x) ∷ [])) }
        ensures same { IsSame pass.old pass.new }
        ensures outside { IsOutside pass.new }
        ensures left { claims pass.new ≡ leaving_with (S.history state) (claims pass.old) }
    {
        let table = &self.table.shared;
        let mut seat = pass.take_seat::<S>();
        let more = state.item_count() - pass.got;
        give_back(table, &mut seat, state, more);
        pass.badge = seat.into_badge();
    }

    /// Hands what the spent pass knows to this one. What this one then gets begins with what each of the
    /// two last left, and has of each number of the two just the items that were made under it.
    pub fn join(&self, pass: &mut Pass, spent: Pass)
        requires gate { gate_of pass.old ≡ gate_id self.now }
        requires spent_gate { gate_of spent ≡ gate_id self.now }
        requires outside { IsOutside pass.old }
        requires spent_outside { IsOutside spent }
        ensures same { IsSame pass.old pass.new }
        ensures outside { IsOutside pass.new }
        ensures claims { claims pass.new ≡ claims pass.old ++ claims spent }
    {
        pass.absorb(&self.table.shared, spent);
    }
}
