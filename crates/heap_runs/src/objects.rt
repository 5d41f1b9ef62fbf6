//! Objects by their rows, over one region.
ghost use Rattle.block_table.specs.Rows.{IsNoName};
ghost use Rattle.heap_runs.specs.Objects.{Agree};

use block_table::{Mark, Row, RowKind, Table};
use mpc_values::{Memory, Obj, Owner, Word};
use std::alloc::Global;
use word_region::Region;

/// Live objects, each with a row and its places in the region.
#[derive(Debug, Drop)]
pub struct Objects {
    table: Table,
    region: Region,
    ghost agree: { Agree table region },
}

impl Objects {
    /// No objects. It takes no memory.
    pub fn new(alloc: Global) -> Objects {
        Objects {
            table: Table::new(alloc),
            region: Region::new(alloc),
        }
    }

    /// Makes an object of so many places. Tells whether it did: there has to be a place, and no other object of the name.
    pub fn add(&mut self, owner: Owner, obj: Obj, len: u32) -> Result<bool, Memory> {
        match self.table.find(owner, obj) {
            Some(_) => Ok(false),
            None => self.add_new(owner, obj, len),
        }
    }

    fn add_new(&mut self, owner: Owner, obj: Obj, len: u32) -> Result<bool, Memory>
        requires { IsNoName self.old.table owner obj }
    {
        if len == 0 {
            return Ok(false);
        }
        let base = self.region.take(len as usize)?;
        self.table.add_row(Row {
            owner,
            obj,
            kind: RowKind::Block,
            base,
            len,
        })?;
        Ok(true)
    }

    /// The word of a place of an object, where no receive has it.
    pub fn load(&self, owner: Owner, obj: Obj, at: u32) -> Option<Word> {
        let key = self.table.find(owner, obj)?;
        let row = self.table.row(key);
        if row.len <= at || self.table.mark(key, at) == Mark::Receive {
            return None;
        }
        let place = row.base.checked_add(at as usize)?;
        Some(self.region.read(place))
    }

    /// Changes the word of a place of an object, where no message has it. Tells whether it did.
    pub fn store(&mut self, owner: Owner, obj: Obj, at: u32, word: Word) -> bool {
        let Some(key) = self.table.find(owner, obj) else {
            return false;
        };
        let row = self.table.row(key);
        if row.len <= at || self.table.mark(key, at) != Mark::Free {
            return false;
        }
        let Some(place) = row.base.checked_add(at as usize) else {
            return false;
        };
        self.region.write(place, word);
        true
    }
}
