ghost use Rattle.std.specs.Prelude.{◌≡◌, ◌<◌, ◌≤◌, ◌++◌, length, All, IfOk, OnOk};
ghost use Rattle.std.specs.List.{flat_map};
ghost use Rattle.mpc_values.specs.declared.limits.TheConstants.{MAX_CORES};
ghost use Rattle.tls_levels.specs.Owners.{holds_core, instances_at, tasks_of, owners_of};

use mpc_values::{Level, Memory, Owner};
use std::alloc::Global;
use topology::{INSTANCE_NUMBERS, Machine};

/// The levels, from the narrowest to the widest.
const LEVELS: [Level; 6] = [
    Level::Core,
    Level::L1,
    Level::L2,
    Level::L3,
    Level::Numa,
    Level::Node,
];

/// All owners of images: the tasks by number, then the instances that hold a task's core, by level
/// and number.
pub(crate) fn owners_of(
    alloc: Global,
    machine: &Machine,
    cores: &[u32],
) -> Result<Vec<Owner>, Memory>
    requires few { length cores.now ≤ MAX_CORES }
    requires there { All (λ core. core < length machine.now) cores.now }
    ensures { IfOk result (λ list. list.items ≡ owners_of machine.now cores.now) }
{
    let mut owners = tasks_of(alloc, cores.len() as u32)?;
    push_levels(&mut owners, machine, cores, &LEVELS)?;
    Ok(owners)
}

fn tasks_of(alloc: Global, count: u32) -> Result<Vec<Owner>, Memory>
    ensures { IfOk result (λ list. list.items ≡ tasks_of count) }
{
    let mut owners = Vec::new(alloc);
    for task in 0..count {
        owners.push(Owner::Task(task))?;
    }
    Ok(owners)
}

fn push_levels(
    owners: &mut Vec<Owner>,
    machine: &Machine,
    cores: &[u32],
    levels: &[Level],
) -> Result<(), Memory>
    requires { All (λ core. core < length machine.now) cores.now }
    ensures { OnOk result (owners.new.items ≡ owners.old.items ++ flat_map (instances_at machine.now cores.now) levels.now) }
{
    for level in levels {
        push_instances(owners, machine, cores, *level)?;
    }
    Ok(())
}

fn push_instances(
    owners: &mut Vec<Owner>,
    machine: &Machine,
    cores: &[u32],
    level: Level,
) -> Result<(), Memory>
    requires { All (λ core. core < length machine.now) cores.now }
    ensures { OnOk result (owners.new.items ≡ owners.old.items ++ instances_at machine.now cores.now level) }
{
    for id in 0..INSTANCE_NUMBERS {
        if holds_core(machine, cores, level, id) {
            owners.push(Owner::Inst { level, id })?;
        }
    }
    Ok(())
}

/// The core of some task is in the instance.
fn holds_core(machine: &Machine, cores: &[u32], level: Level, id: u32) -> bool
    requires { All (λ core. core < length machine.now) cores.now }
    ensures { result ≡ holds_core machine.now cores.now level id }
{
    cores
        .iter()
        .any(|core| machine.instance(level, *core) == id)
}
