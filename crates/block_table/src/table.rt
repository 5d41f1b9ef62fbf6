//! The table of live rows.
ghost use Rattle.std.specs.Prelude.{◌≡◌, ℕ, ◌+◌, ◌≤◌, ◌↔◌, [], true, replicate, None, Some, is_some, IsTrue, IfOk, OnErr, MatchOption};
ghost use Rattle.block_table.specs.declared.rows.Mark.TheVariants.{Free};
ghost use Rattle.block_table.specs.Rows.{Rows, live, IsLive, IsNamed, IsNoName, IsNamedOnce, Changes, Marks, AreMarked, row_in, rows_of, mark_at, may_send, is_free, is_send, is_receive, with_send, without_send, with_receive, without_receive};

use crate::entries::Entry;
use crate::index::Index;
use crate::rows::{Mark, Row};
use mpc_values::{Memory, Obj, Owner};
use slab::Slab;
use std::alloc::Global;
use std::marker::Model;

/// The live rows, each under a key that it keeps while it lives, and the index of their names.
#[derive(Debug, Drop)]
pub struct Table {
    alloc: Global,
    rows: Slab<Entry>,
    index: Index,
}

impl Model for Table {
    ghost use Rattle.block_table.specs.Rows.{Rows};

    ghost Value = { Rows };

    ghost use Rattle.block_table.specs.Kept.{seen_of, IsKept};

    ghost view = { seen_of };

    ghost invariant = { IsKept };
}

impl Table {
    /// A table without rows. It takes no memory.
    pub fn new(alloc: Global) -> Table
        ensures { result ≡ [] }
    {
        Table {
            alloc,
            rows: Slab::new(alloc),
            index: Index::new(alloc),
        }
    }

    /// Adds the row of an object that has none, with all its places free, and gives its key. The key was of no live
    /// row, and no other row changes. After want of memory the table is as it was.
    pub fn add_row(&mut self, row: Row) -> Result<usize, Memory>
        requires { IsNoName self.old row.owner row.obj }
        ensures vacant { IfOk result (λ key. live self.old key ≡ None) }
        ensures added { IfOk result (λ key. Changes self.old self.new key (Some (record { row = row; marks = replicate row.len Free }))) }
        ensures err { OnErr result (self.new ≡ self.old) }
    {
        let marks = Vec::with_capacity(self.alloc, row.len as usize)?;
        self.rows.reserve(1)?;
        self.index.reserve(row.owner, row.obj)?;
        let key = self.rows.insert_reserved(Entry { row, marks });
        self.index.set(row.owner, row.obj, Some(key));
        Ok(key)
    }

    /// The key of the live row of an object, where it has one; it has one at most.
    pub fn find(&self, owner: Owner, obj: Obj) -> Option<usize>
        ensures found { MatchOption result (IsNoName self.now owner obj) (λ key. IsNamed self.now key owner obj) }
        ensures once { IsNamedOnce self.now }
    {
        self.index.get(owner, obj)
    }

    /// The row of a live key.
    pub fn row(&self, key: usize) -> Row
        requires { is_some (live self.now key) ≡ true }
        ensures { Some result ≡ row_in (live self.now key) }
    {
        self.rows[key].row
    }

    /// The mark of a place of a live key's row.
    pub fn mark(&self, key: usize, at: u32) -> Mark
        requires { is_some (live self.now key) ≡ true }
        ensures { result ≡ mark_at self.now key at }
    {
        self.rows[key].mark(at)
    }

    /// Marks a range as that of one send more. No receive may have a place of it, and 4,294,967,295 sends may not.
    pub fn mark_send(&mut self, key: usize, at: u32, len: u32)
        requires within { IsLive self.old key (λ row. at + len ≤ row.len) }
        requires may { AreMarked self.old key at len may_send }
        ensures { Marks self.old self.new key at len with_send }
    {
        let entry = &mut self.rows[key];
        entry.mark_send(at, len);
    }

    /// Marks a range as that of a receive. No message may have a place of it.
    pub fn mark_recv(&mut self, key: usize, at: u32, len: u32)
        requires within { IsLive self.old key (λ row. at + len ≤ row.len) }
        requires may { AreMarked self.old key at len is_free }
        ensures { Marks self.old self.new key at len with_receive }
    {
        let entry = &mut self.rows[key];
        entry.mark_recv(at, len);
    }

    /// Takes the mark of one send away from a range, each place of which has one.
    pub fn unmark_send(&mut self, key: usize, at: u32, len: u32)
        requires within { IsLive self.old key (λ row. at + len ≤ row.len) }
        requires marked { AreMarked self.old key at len is_send }
        ensures { Marks self.old self.new key at len without_send }
    {
        let entry = &mut self.rows[key];
        entry.unmark_send(at, len);
    }

    /// Takes the mark of a receive away from a range, each place of which has it.
    pub fn unmark_recv(&mut self, key: usize, at: u32, len: u32)
        requires within { IsLive self.old key (λ row. at + len ≤ row.len) }
        requires marked { AreMarked self.old key at len is_receive }
        ensures { Marks self.old self.new key at len without_receive }
    {
        let entry = &mut self.rows[key];
        entry.unmark_recv(at, len);
    }

    /// Whether all places of a live key's row are free.
    pub fn clear(&self, key: usize) -> bool
        requires { is_some (live self.now key) ≡ true }
        ensures { IsTrue result ↔ ((p : ℕ) → is_free (mark_at self.now key p) ≡ true) }
    {
        self.rows[key].is_clear()
    }

    /// Takes a row out whose places are all free. Its key is then of no live row, and no other row changes.
    pub fn close_row(&mut self, key: usize) -> Row
        requires there { is_some (live self.old key) ≡ true }
        requires clear { (p : ℕ) → is_free (mark_at self.old key p) ≡ true }
        ensures row { Some result ≡ row_in (live self.old key) }
        ensures closed { Changes self.old self.new key None }
    {
        let Entry { row, marks: _ } = self.rows.remove(key);
        self.index.set(row.owner, row.obj, None);
        row
    }

    /// The rows, by rising key.
    pub fn rows(&self) -> Result<Vec<Row>, Memory>
        ensures { IfOk result (λ list. list.items ≡ rows_of self.now) }
    {
        let mut list = Vec::new(self.alloc);
        for (_, entry) in self.rows.iter() {
            list.push(entry.row)?;
        }
        Ok(list)
    }
}
