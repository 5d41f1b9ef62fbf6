//! The index of the rows' names.
ghost use Rattle.std.specs.Prelude.{◌≡◌, [], OnOk};
ghost use Rattle.mpc_values.specs.declared.values.Obj.{Obj};
ghost use Rattle.mpc_values.specs.declared.owners.Owner.{Owner};
ghost use Rattle.block_table.specs.Index.{indexed, HasPlace, SetsKey};

use crate::grid::{Grid, line_of};
use mpc_values::{Memory, Obj, Owner};
use std::alloc::Global;
use std::marker::Model;

/// The key of each object of each owner, looked up by its number.
#[derive(Debug, Drop)]
pub struct Index {
    globs: Grid,
    dyns: Grid,
}

impl Model for Index {
    ghost use Rattle.block_table.specs.Index.{Lines};

    ghost Value = { Lines };

    ghost view = { λ x. record { globs = x.globs; dyns = x.dyns } };
}

impl Index {
    /// An index without keys. It takes no memory.
    pub fn new(alloc: Global) -> Index
        ensures { result ≡ record { globs = []; dyns = [] } }
    {
        Index {
            globs: Grid::new(alloc),
            dyns: Grid::new(alloc),
        }
    }

    /// The key of an object.
    #[tactic(auto, unfolding(crate::specs::Index::indexed))]
    pub fn get(&self, owner: Owner, obj: Obj) -> Option<usize>
        ensures { result ≡ indexed self.now owner obj }
    {
        let line = line_of(owner);
        match obj {
            Obj::Glob(variable) => self.globs.get(line, variable as usize),
            Obj::Dyn(made) => self.dyns.get(line, made as usize),
        }
    }

    /// Makes place for the key of an object. No key changes.
    #[tactic(auto, unfolding(crate::specs::Index::indexed))]
    pub fn reserve(&mut self, owner: Owner, obj: Obj) -> Result<(), Memory>
        ensures keys { (other : Owner) (another : Obj) → indexed self.new other another ≡ indexed self.old other another }
        ensures there { OnOk result (HasPlace self.new owner obj) }
    {
        let line = line_of(owner);
        match obj {
            Obj::Glob(variable) => self.globs.reserve(line, variable),
            Obj::Dyn(made) => self.dyns.reserve(line, made),
        }
    }

    /// Changes the key of an object that has a place.
    pub fn set(&mut self, owner: Owner, obj: Obj, key: Option<usize>)
        requires { HasPlace self.old owner obj }
        ensures { SetsKey self.old self.new owner obj key }
    {
        let line = line_of(owner);
        match obj {
            Obj::Glob(variable) => self.globs.set(line, variable as usize, key),
            Obj::Dyn(made) => self.dyns.set(line, made as usize, key),
        }
    }
}
