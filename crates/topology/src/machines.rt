ghost use Rattle.std.specs.Prelude.{◌≡◌, ◌<◌, ◌≤◌, length, IfOk, IsTrue};
ghost use Rattle.std.specs.List.{list_all};
ghost use Rattle.mpc_values.specs.declared.limits.TheConstants.{MAX_CORES};
ghost use Rattle.topology.specs.Instances.{instance_of, numbers_fit, flat_machine};
ghost use Rattle.topology.specs.declared.core_numbers.TheConstants.{INSTANCE_NUMBERS};

use crate::core_numbers::CoreNumbers;
use mpc_values::{Level, Memory};
use std::alloc::Global;
use std::marker::Model;

/// The cores of a machine, numbered from 0: at least one and at most 256. Contracts see the list of
/// their numbers, each of 0 to 255.
#[derive(Debug, Drop)]
pub struct Machine {
    cores: Vec<CoreNumbers>,
}

impl Model for Machine {
    ghost use Rattle.std.specs.Prelude.{List, length, ◌<◌, ◌≤◌, IsTrue};
    ghost use Rattle.std.specs.List.{list_all};
    ghost use Rattle.topology.specs.declared.core_numbers.CoreNumbers.{CoreNumbers};
    ghost use Rattle.mpc_values.specs.declared.limits.TheConstants.{MAX_CORES};
    ghost use Rattle.topology.specs.Instances.{numbers_fit};

    ghost Value = { List CoreNumbers };

    ghost view = { λ machine. machine.cores.items };

    ghost invariant = { λ machine. (0 < length machine.cores.items) × (length machine.cores.items ≤ MAX_CORES) × IsTrue (list_all numbers_fit machine.cores.items) };
}

impl Machine {
    pub(crate) fn of(cores: Vec<CoreNumbers>) -> Machine
        requires some { 0 < length cores.items }
        requires most { length cores.items ≤ MAX_CORES }
        requires fits { IsTrue (list_all numbers_fit cores.items) }
        ensures { result ≡ cores.items }
    {
        Machine { cores }
    }

    /// How many cores there are: 1 to 256.
    pub fn cores(&self) -> u32
        ensures count { result ≡ length self.now }
        ensures some { 0 < result }
        ensures most { result ≤ MAX_CORES }
        ensures fits { IsTrue (list_all numbers_fit self.now) }
    {
        self.cores.len() as u32
    }

    /// The numbers of all cores, by rising core number.
    pub fn numbers(&self) -> &[CoreNumbers]
        ensures { result.now ≡ self.now }
    {
        self.cores.as_slice()
    }

    /// A machine of the same cores.
    pub fn copied(&self, alloc: Global) -> Result<Machine, Memory>
        ensures { IfOk result (λ copy. copy ≡ self.now) }
    {
        Ok(Machine {
            cores: Vec::from_slice(alloc, self.cores.as_slice())?,
        })
    }

    /// The instance of a level that a core is in: the core's number for that level, the core itself
    /// for `Core`, and 0 for `Node`.
    pub fn instance(&self, level: Level, core: u32) -> u32
        requires { core < length self.now }
        ensures value { result ≡ instance_of self.now level core }
        ensures small { result < INSTANCE_NUMBERS }
    {
        let numbers = self.cores[core as usize];
        match level {
            Level::Core => core,
            Level::L1 => u32::from(numbers.l1),
            Level::L2 => u32::from(numbers.l2),
            Level::L3 => u32::from(numbers.l3),
            Level::Numa => u32::from(numbers.numa),
            Level::Node => 0,
        }
    }
}

/// The machine of 1 to 256 like cores: one memory and one third cache for all of them, and a second
/// and a first cache for each.
pub fn flat(alloc: Global, cores: u32) -> Result<Machine, Memory>
    requires some { 0 < cores }
    requires most { cores ≤ MAX_CORES }
    ensures { IfOk result (λ machine. machine ≡ flat_machine cores) }
{
    let mut list = Vec::new(alloc);
    for core in 0..cores {
        let own = core as u8;
        list.push(CoreNumbers {
            numa: 0,
            l3: 0,
            l2: own,
            l1: own,
        })?;
    }
    Ok(Machine::of(list))
}
