ghost use Rattle.std.specs.Prelude.{◌≡◌};

use crate::plays::InTurn;
use crate::views::View;
use atomic_table::Table;
use mpc_base::Traced;
use std::alloc::Global;
use std::snapshot::Snapshot;

/// Hands one value to one pass at a time, in the order of their tickets.
///
/// Its three words count the tickets drawn, the tickets served and the items of the value's history, each
/// modulo 2 to the 64. Its one slot has the value while no pass is inside.
#[derive(Drop)]
pub struct Gate<S: Traced + Drop> {
    pub(crate) table: Table<Option<S>, View, Snapshot<S>, InTurn, Global>,
    pub(crate) ghost three_words: { table.shared.table_id.words ≡ 3 },
    pub(crate) ghost one_slot: { table.shared.table_id.slots ≡ 1 },
}
