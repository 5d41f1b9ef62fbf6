ghost use Rattle.std.specs.Prelude.{◌≡◌, ◌%◌, All, IfOk, map, nat_lt, length, ◌<◌, IsTrue};
ghost use Rattle.std.specs.List.{range_with_len, list_all};
ghost use Rattle.topology.specs.Places.{placed, listed_cores, scatter_core, turn_in, has_item, numa_instances, cores_in};

use crate::core_numbers::INSTANCE_NUMBERS;
use crate::machines::Machine;
use crate::refusals::BadPlace;
use mpc_values::{Cores, Level, Memory};
use std::alloc::Global;

/// The rule by which tasks are put on cores.
#[derive(Debug, Drop)]
pub enum Placement {
    /// Task after task on core after core, and from the first core again.
    Compact,
    /// Task after task on NUMA instance after NUMA instance, and there on core after core.
    Scatter,
    /// The cores of the tasks themselves, by rising task number.
    Listed(Cores),
}

/// The cores of tasks 0 to `tasks` - 1 by a rule. `BadPlace` comes exactly where a list's length is
/// not the number of tasks, or it names a core that is not there.
pub fn place(
    alloc: Global,
    rule: &Placement,
    tasks: u32,
    machine: &Machine,
) -> Result<Result<Cores, BadPlace>, Memory>
    ensures value { IfOk result (λ answer. answer ≡ placed rule.now tasks machine.now) }
    ensures count { IfOk result (λ answer. IfOk answer (λ cores. length cores ≡ tasks)) }
    ensures there { IfOk result (λ answer. IfOk answer (All (λ core. core < length machine.now))) }
{
    let count = machine.cores();
    match rule {
        Placement::Compact => Ok(Ok(Cores::of(compact(alloc, tasks, count)?))),
        Placement::Scatter => Ok(Ok(Cores::of(scatter(alloc, tasks, machine)?))),
        Placement::Listed(cores) => listed(alloc, cores.as_slice(), tasks, count),
    }
}

fn compact(alloc: Global, tasks: u32, count: u32) -> Result<Vec<u32>, Memory>
    requires { 0 < count }
    ensures { IfOk result (λ list. list.items ≡ map (λ task. task % count) (range_with_len 0 tasks)) }
{
    let mut list = Vec::new(alloc);
    for task in 0..tasks {
        list.push(task % count)?;
    }
    Ok(list)
}

fn listed(
    alloc: Global,
    cores: &[u32],
    tasks: u32,
    count: u32,
) -> Result<Result<Cores, BadPlace>, Memory>
    ensures { IfOk result (λ answer. answer ≡ listed_cores cores.now tasks count) }
{
    if cores.len() == tasks as usize && all_below(cores, count) {
        Ok(Ok(Cores::of(Vec::from_slice(alloc, cores)?)))
    } else {
        Ok(Err(BadPlace))
    }
}

fn all_below(cores: &[u32], count: u32) -> bool
    ensures { result ≡ list_all (λ core. nat_lt core count) cores.now }
{
    cores.iter().all(|core| *core < count)
}

/// The cores of a NUMA instance, by rising number.
fn members(alloc: Global, machine: &Machine, id: u32) -> Result<Vec<u32>, Memory>
    ensures { IfOk result (λ list. list.items ≡ cores_in machine.now id) }
{
    let mut list = Vec::new(alloc);
    for core in 0..machine.cores() {
        if machine.instance(Level::Numa, core) == id {
            list.push(core)?;
        }
    }
    Ok(list)
}

/// The cores of each NUMA instance that has one, by rising number of the instances.
fn groups(alloc: Global, machine: &Machine) -> Result<Vec<Cores>, Memory>
    ensures items { IfOk result (λ list. list.items ≡ map (cores_in machine.now) (numa_instances machine.now)) }
    ensures some { IfOk result (λ list. 0 < length list.items) }
    ensures each { IfOk result (λ list. IsTrue (list_all has_item list.items)) }
{
    let mut list = Vec::with_capacity(alloc, machine.cores() as usize)?;
    for id in 0..INSTANCE_NUMBERS {
        let cores = members(alloc, machine, id)?;
        if !cores.is_empty() {
            list.push(Cores::of(cores))?;
        }
    }
    Ok(list)
}

fn scatter(alloc: Global, tasks: u32, machine: &Machine) -> Result<Vec<u32>, Memory>
    ensures { IfOk result (λ list. list.items ≡ map (scatter_core machine.now) (range_with_len 0 tasks)) }
{
    let groups = groups(alloc, machine)?;
    let mut list = Vec::new(alloc);
    for task in 0..tasks {
        list.push(turn_of(groups.as_slice(), task as usize))?;
    }
    Ok(list)
}

/// The core of a task that goes to one group after another, and in each to the next of its cores.
fn turn_of(groups: &[Cores], task: usize) -> u32
    requires some { 0 < length groups.now }
    requires each { IsTrue (list_all has_item groups.now) }
    ensures { result ≡ turn_in groups.now task }
{
    let cores = groups[task % groups.len()].as_slice();
    cores[(task / groups.len()) % cores.len()]
}
