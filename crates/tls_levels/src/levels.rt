ghost use Rattle.std.specs.Prelude.{◌≡◌, ℕ, ◌+◌, ◌<◌, ◌≤◌, length, All, Contains, IfOk};
ghost use Rattle.std.specs.List.{sum_by};
ghost use Rattle.mpc_values.specs.declared.limits.TheConstants.{MAX_CORES, MAX_STATIC_VARIABLES, MAX_STATIC_WORDS};

use crate::layout::{Layout, lay_out};
use crate::owner_list::owners_of;
use crate::shapes::{VarShape, image_number, shapes_of};
use mpc_values::{Memory, Owner, StaticVar};
use std::alloc::Global;
use std::marker::Model;
use topology::Machine;

/// The owners of static variables, for tasks on the cores of a machine. Each task has an image for
/// its private variables, and each instance that holds a task's core has one for those of its level.
/// Variables stand in an image by rising number, without gaps.
#[derive(Debug, Drop)]
pub struct Levels {
    shapes: Vec<VarShape>,
    machine: Machine,
    cores: Vec<u32>,
    offsets: Vec<u32>,
    totals: Vec<u32>,
    owners: Vec<Owner>,
}

impl Model for Levels {
    ghost use Rattle.tls_levels.specs.Sharing.{Sharing};

    ghost Value = { Sharing };

    ghost use Rattle.tls_levels.specs.Kept.{seen_of, IsKept};

    ghost view = { seen_of };

    ghost invariant = { IsKept };
}

impl Levels {
    ghost use Rattle.tls_levels.specs.Sharing.{sharing_of, owner_in, offset_of, len_of, level_of, owners_in, image_words, SameImage};

    /// The tables for tasks on these cores, one core for each task.
    pub fn new(
        alloc: Global,
        globals: &[StaticVar],
        machine: &Machine,
        cores: &[u32],
    ) -> Result<Levels, Memory>
        requires some_task { 0 < length cores.now }
        requires few_tasks { length cores.now ≤ MAX_CORES }
        requires few_vars { length globals.now ≤ MAX_STATIC_VARIABLES }
        requires there { All (λ core. core < length machine.now) cores.now }
        requires few_words { sum_by (λ var. var.len) globals.now ≤ MAX_STATIC_WORDS }
        requires first_words { All (λ var. length var.first ≡ var.len) globals.now }
        ensures value { IfOk result (λ levels. levels ≡ sharing_of globals.now machine.now cores.now) }
        ensures vars { IfOk result (λ levels. length levels.shapes ≡ length globals.now) }
    {
        let shapes = shapes_of(alloc, globals)?;
        let Layout { offsets, totals } = lay_out(alloc, shapes.as_slice())?;
        Ok(Levels {
            shapes,
            machine: machine.copied(alloc)?,
            cores: Vec::from_slice(alloc, cores)?,
            offsets,
            totals,
            owners: owners_of(alloc, machine, cores)?,
        })
    }

    /// Whose copy of a variable a task touches: its own, or that of the instance of the variable's
    /// level that holds the task's core. It is one of `owners`.
    pub fn resolve(&self, task: u32, var: u32) -> Owner
        requires task { task < length self.now.cores }
        requires var { var < length self.now.shapes }
        ensures value { result ≡ owner_in self.now task var }
        ensures owned { Contains (owners_in self.now) result }
    {
        match self.shapes[var as usize].level {
            None => Owner::Task(task),
            Some(level) => Owner::Inst {
                level,
                id: self.machine.instance(level, self.cores[task as usize]),
            },
        }
    }

    /// Where a variable begins in its image, in words.
    pub fn offset(&self, var: u32) -> u32
        requires { var < length self.now.shapes }
        ensures value { result ≡ offset_of self.now var }
        ensures within { (owner : Owner) → SameImage self.now var owner → result + len_of self.now var ≤ image_words self.now owner }
        ensures apart { (other : ℕ) → other < var → level_of self.now other ≡ level_of self.now var → offset_of self.now other + len_of self.now other ≤ result }
    {
        self.offsets[var as usize]
    }

    /// The owners of images: tasks by number, then instances by level and number, each instance that
    /// holds a task's core and no other.
    pub fn owners(&self) -> &[Owner]
        ensures { result.now ≡ owners_in self.now }
    {
        self.owners.as_slice()
    }

    /// How many words the image of an owner has.
    pub fn image_len(&self, owner: Owner) -> u32
        requires { Contains (owners_in self.now) owner }
        ensures { result ≡ image_words self.now owner }
    {
        let level = match owner {
            Owner::Task(_) => None,
            Owner::Inst { level, .. } => Some(level),
        };
        self.totals[image_number(level)]
    }
}
