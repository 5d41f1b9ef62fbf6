ghost use Rattle.std.specs.Prelude.{◌≡◌, ◌++◌, []};
ghost use Rattle.task_gate.specs.Passes.{HasView, IsOutside, IsSame, IsSized, claims, gate_of, pass_view};

use crate::plays::Numbers;
use crate::steps::{GateSeat, GateTable};
use crate::views::View;
use atomic_table::Badge;
use mpc_base::Traced;
use std::mem;

/// The leave to visit one gate, under one number. Outside it holds no slot and is but a count, so that it
/// can be sent to a thread, and can lie in the value of another gate.
#[derive(Drop)]
pub struct Pass {
    pub(crate) badge: Badge<View>,
    // the number of items that the value had when this pass last got it
    pub(crate) got: u64,
}

impl Pass {
    // The pass's seat at the gate's table. A blank badge stands in its place until it is given back.
    pub(crate) fn take_seat<S>(&mut self) -> GateSeat<S>
        requires { HasView self.old }
        ensures { (result.table_id ≡ gate_of self.old) × (result.me ≡ (pass_view self.old, [])) × (self.new.got ≡ self.old.got) }
    {
        mem::replace(&mut self.badge, Badge::blank()).into_seat()
    }

    // Takes over what the spent pass knows.
    pub(crate) fn absorb<S: Traced>(&mut self, table: &GateTable<S>, mut spent: Pass)
        requires fits { (gate_of self.old ≡ table.now.table_id) × (gate_of spent ≡ table.now.table_id) × IsSized table.now.table_id }
        requires outside { IsOutside self.old × IsOutside spent }
        ensures same { IsSame self.old self.new }
        ensures outside { IsOutside self.new }
        ensures claims { claims self.new ≡ claims self.old ++ claims spent }
    {
        let mut seat = self.take_seat::<S>();
        let other = spent.take_seat::<S>();
        table.join_seat::<Numbers>(&mut seat, other);
        self.badge = seat.into_badge();
    }
}
