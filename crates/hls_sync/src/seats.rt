//! A task's place at a construct.
ghost use Rattle.std.specs.Prelude.{IfOk};
ghost use Rattle.hls_sync.specs.Numbers.{Numbers};

use crate::instances::Instance;
use crate::visits::HlsRow;
use mpc_values::Memory;
use std::alloc::Global;
use std::collections::BTreeMap;

/// A row, how often its task has come to the construct, and the number of its instance among all instances.
#[derive(Clone, Copy, Debug, PartialEq, Eq)]
pub struct Seat {
    pub row: HlsRow,
    pub came: u32,
    pub place: usize,
}

/// The number of the row's instance, which is made where there is none yet.
pub(crate) fn number_of(
    alloc: Global,
    numbers: &mut BTreeMap<(u32, u32), usize>,
    instances: &mut Vec<Instance>,
    row: &HlsRow,
) -> Result<usize, Memory>
    ensures { IfOk result (λ place. Numbers numbers.old numbers.new instances.old.items instances.new.items row.now place) }
{
    if let Some(place) = numbers.get(&(row.construct, row.inst)) {
        return Ok(*place);
    }
    let place = instances.len();
    instances.push(Instance::new(alloc))?;
    numbers.insert((row.construct, row.inst), place)?;
    Ok(place)
}
