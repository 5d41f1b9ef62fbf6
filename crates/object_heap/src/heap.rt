//! The heap: rows over a region.
ghost use Rattle.std.specs.Prelude.{◌≡◌, ◌≢◌, ℕ, ◌+◌, ◌<◌, ◌≤◌, ◌↔◌, [], true, false, not, IsTrue, length, replicate, slice_get, slice_set, Some, None, is_some, IfOk, OnErr, OnOk, MatchOption, IfSome, IsSomeAnd};
ghost use Rattle.mpc_values.specs.declared.values.Word.TheVariants.{Undef};
ghost use Rattle.mpc_values.specs.declared.values.Obj.{Obj};
ghost use Rattle.mpc_values.specs.declared.owners.Owner.{Owner};
ghost use Rattle.memory_model.specs.Memory.{Object};
ghost use Rattle.memory_model.specs.Marks.{barred_to_loads, barred_to_stores, is_some_place};
ghost use Rattle.memory_model.specs.Access.{with_word};
ghost use Rattle.block_table.specs.declared.rows.Mark.TheVariants.{Free};
ghost use Rattle.block_table.specs.Rows.{live, IsLive, IsNamed, AreMarked, mark_at, rows_of, may_send, is_free, is_send, is_receive, with_send, without_send, with_receive, without_receive};
ghost use Rattle.word_region.specs.Places.{IsFirstFit, Releases, Shifts};
ghost use Rattle.mpi_copy.specs.Copies.{Holds, Lands};
ghost use Rattle.object_heap.specs.Layout.{row_of, IsSound, HasPlaces};
ghost use Rattle.object_heap.specs.Objects.{key_named, object_at, object_in, span_words, with_words};
ghost use Rattle.object_heap.specs.Marks.{mark_of, marks_in, KeepsMarks, Remarks};
ghost use Rattle.object_heap.specs.Copies.{IsOneCopy, KeepsCopies, GainsCopy, LosesCopy, copy_words};
ghost use Rattle.object_heap.specs.Changes.{Puts, Edits, KeepsObjects, KeepsSpans, KeepsOtherSpans, Adds, Closes, IsAsBefore, base_of};
ghost use Rattle.object_heap.specs.Maps.{MapAgrees};

use crate::marks::{some_marked, some_received};
use crate::places::{release_places, take_places};
use block_table::{Row, RowKind, Span, Table};
use mpc_values::{Memory, Obj, Owner, Word};
use mpi_copy::{Held, direct, discard, hold, land};
use std::alloc::Global;
use std::marker::Model;
use word_region::Region;

/// The live objects of all owners, each with a row and the places that its words have in one region, and the copies of
/// messages between them.
#[derive(Debug, Drop)]
pub struct Heap {
    region: Region,
    table: Table,
    copies: usize,
}

impl Model for Heap {
    ghost use Rattle.object_heap.specs.Layout.{Layout};

    ghost Value = { Layout };

    ghost use Rattle.object_heap.specs.Kept.{seen_of, IsKept};

    ghost view = { seen_of };

    ghost invariant = { IsKept };
}

impl Heap {
    /// A heap without objects and copies. It takes no memory.
    pub fn new(alloc: Global) -> Heap
        ensures layout { result ≡ record { rows = []; cells = []; copies = 0 } }
        ensures objects { (owner : Owner) (obj : Obj) → object_in result owner obj ≡ None }
        ensures marks { (owner : Owner) (obj : Obj) (p : ℕ) → mark_of result owner obj p ≡ Free }
    {
        Heap {
            region: Region::new(alloc),
            table: Table::new(alloc),
            copies: 0,
        }
    }

    /// What every heap keeps, for callers: each name has one row, and rows share no place.
    pub fn is_sound(&self)
        ensures { IsSound self.now }
    {
        let _ = &self.table;
    }

    /// Adds an object that its owner has not, with all its words unset and none marked, and gives its key. All other
    /// objects stay, and after want of memory all do.
    pub fn add(&mut self, owner: Owner, obj: Obj, kind: RowKind, len: u32) -> Result<usize, Memory>
        requires { object_in self.old owner obj ≡ None }
        ensures added { IfOk result (λ key. Adds self.old self.new key owner obj kind len) }
        ensures named { IfOk result (λ key. IsNamed self.new.rows key owner obj) }
        ensures object { OnOk result (Puts self.old self.new owner obj (Some (record { kind = kind; words = replicate len Undef }))) }
        ensures marks { KeepsMarks self.old self.new }
        ensures spans { KeepsSpans self.old self.new }
        ensures copies { KeepsCopies self.old self.new }
        ensures err { OnErr result (IsAsBefore self.old self.new) }
        ensures err_objects { OnErr result (KeepsObjects self.old self.new) }
    {
        let base = take_places(&mut self.region, len)?;
        let row = Row {
            owner,
            obj,
            kind,
            base,
            len,
        };
        match self.table.add_row(row) {
            Ok(key) => Ok(key),
            Err(memory) => {
                release_places(&mut self.region, base, len);
                Err(memory)
            }
        }
    }

    /// The key of an object, where it lives.
    pub fn find(&self, owner: Owner, obj: Obj) -> Option<usize>
        ensures found { MatchOption result (object_in self.now owner obj ≡ None) (λ key. IsNamed self.now.rows key owner obj) }
        ensures live { IfSome result (λ key. is_some (live self.now.rows key) ≡ true) }
        ensures key { result ≡ key_named self.now.rows owner obj }
    {
        self.table.find(owner, obj)
    }

    /// The row of a live key: whose it is, its name and kind, and how many words it has.
    pub fn row(&self, key: usize) -> Row
        requires { is_some (live self.now.rows key) ≡ true }
        ensures row { Some result ≡ row_of self.now key }
        ensures named { IsNamed self.now.rows key result.owner result.obj }
        ensures object { (owner : Owner) (obj : Obj) → IsNamed self.now.rows key owner obj →
            IsSomeAnd (object_in self.now owner obj) (λ object. (object.kind ≡ result.kind) × (length object.words ≡ result.len)) }
        ensures place { (at : ℕ) → at < result.len → IsLive self.now.rows key (λ row. at < row.len) }
        ensures places { (at len : ℕ) → at + len ≤ result.len → IsLive self.now.rows key (λ row. at + len ≤ row.len) }
    {
        self.table.row(key)
    }

    /// The word of a place of a live key's object.
    pub fn read(&self, key: usize, at: u32) -> Word
        requires { IsLive self.now.rows key (λ row. at < row.len) }
        ensures { (owner : Owner) (obj : Obj) (object : Object) → IsNamed self.now.rows key owner obj → object_in self.now owner obj ≡ Some object → Some result ≡ slice_get object.words at }
    {
        let place = self.place(key, at);
        self.region.read(place)
    }

    /// Changes the word of a place of a live key's object, and nothing else.
    pub fn write(&mut self, key: usize, at: u32, word: Word)
        requires { IsLive self.old.rows key (λ row. at < row.len) }
        ensures cells { self.new.cells ≡ slice_set self.old.cells (base_of self.old key + at) (Some word) }
        ensures edits { Edits self.old self.new key (λ object. with_word object at word) }
        ensures marks { KeepsMarks self.old self.new }
        ensures spans { KeepsSpans self.old self.new }
        ensures copies { KeepsCopies self.old self.new }
    {
        let place = self.place(key, at);
        self.region.write(place, word);
    }

    /// Whether a receive has one of some places.
    pub fn has_receive(&self, key: usize, at: u32, len: u32) -> bool
        requires { IsLive self.now.rows key (λ row. at + len ≤ row.len) }
        ensures some { (owner : Owner) (obj : Obj) → IsNamed self.now.rows key owner obj → result ≡ is_some_place (barred_to_loads (marks_in self.now)) owner obj at len }
        ensures none { result ≡ false → AreMarked self.now.rows key at len (λ mark. not (is_receive mark)) }
    {
        some_received(&self.table, key, at, len)
    }

    /// Whether a send or a receive has one of some places.
    pub fn is_marked(&self, key: usize, at: u32, len: u32) -> bool
        requires { IsLive self.now.rows key (λ row. at + len ≤ row.len) }
        ensures some { (owner : Owner) (obj : Obj) → IsNamed self.now.rows key owner obj → result ≡ is_some_place (barred_to_stores (marks_in self.now)) owner obj at len }
        ensures none { result ≡ false → AreMarked self.now.rows key at len is_free }
    {
        some_marked(&self.table, key, at, len)
    }

    /// Marks some places as those of one send more. No receive may have one of them, and 4,294,967,295 sends may not.
    pub fn mark_send(&mut self, key: usize, at: u32, len: u32)
        requires within { IsLive self.old.rows key (λ row. at + len ≤ row.len) }
        requires may { AreMarked self.old.rows key at len may_send }
        ensures cells { self.new.cells ≡ self.old.cells }
        ensures marks { Remarks self.old self.new key at len with_send }
        ensures objects { KeepsObjects self.old self.new }
        ensures spans { KeepsSpans self.old self.new }
        ensures copies { KeepsCopies self.old self.new }
    {
        self.table.mark_send(key, at, len);
    }

    /// Marks some places as those of a receive. No message may have one of them.
    pub fn mark_recv(&mut self, key: usize, at: u32, len: u32)
        requires within { IsLive self.old.rows key (λ row. at + len ≤ row.len) }
        requires may { AreMarked self.old.rows key at len is_free }
        ensures cells { self.new.cells ≡ self.old.cells }
        ensures marks { Remarks self.old self.new key at len with_receive }
        ensures objects { KeepsObjects self.old self.new }
        ensures spans { KeepsSpans self.old self.new }
        ensures copies { KeepsCopies self.old self.new }
    {
        self.table.mark_recv(key, at, len);
    }

    /// Takes the mark of one send away from some places, each of which has one.
    pub fn unmark_send(&mut self, key: usize, at: u32, len: u32)
        requires within { IsLive self.old.rows key (λ row. at + len ≤ row.len) }
        requires marked { AreMarked self.old.rows key at len is_send }
        ensures cells { self.new.cells ≡ self.old.cells }
        ensures marks { Remarks self.old self.new key at len without_send }
        ensures objects { KeepsObjects self.old self.new }
        ensures spans { KeepsSpans self.old self.new }
        ensures copies { KeepsCopies self.old self.new }
    {
        self.table.unmark_send(key, at, len);
    }

    /// Takes the mark of a receive away from some places, each of which has it.
    pub fn unmark_recv(&mut self, key: usize, at: u32, len: u32)
        requires within { IsLive self.old.rows key (λ row. at + len ≤ row.len) }
        requires marked { AreMarked self.old.rows key at len is_receive }
        ensures cells { self.new.cells ≡ self.old.cells }
        ensures marks { Remarks self.old self.new key at len without_receive }
        ensures objects { KeepsObjects self.old self.new }
        ensures spans { KeepsSpans self.old self.new }
        ensures copies { KeepsCopies self.old self.new }
    {
        self.table.unmark_recv(key, at, len);
    }

    /// Whether no message has a place of a live key's object.
    pub fn clear(&self, key: usize) -> bool
        requires { is_some (live self.now.rows key) ≡ true }
        ensures free { IsTrue result ↔ ((p : ℕ) → is_free (mark_at self.now.rows key p) ≡ true) }
        ensures places { (owner : Owner) (obj : Obj) (object : Object) → IsNamed self.now.rows key owner obj → object_in self.now owner obj ≡ Some object →
            result ≡ not (is_some_place (barred_to_stores (marks_in self.now)) owner obj 0 (length object.words)) }
    {
        self.table.clear(key)
    }

    /// Ends an object of which no message has a place, and gives its places back. Its key is of no object then.
    pub fn close(&mut self, key: usize)
        requires there { is_some (live self.old.rows key) ≡ true }
        requires clear { (p : ℕ) → is_free (mark_at self.old.rows key p) ≡ true }
        ensures closes { Closes self.old self.new key }
        ensures object { (owner : Owner) (obj : Obj) → IsNamed self.old.rows key owner obj → Puts self.old self.new owner obj None }
        ensures marks { KeepsMarks self.old self.new }
        ensures spans { KeepsOtherSpans self.old self.new key }
        ensures copies { KeepsCopies self.old self.new }
    {
        let row = self.table.close_row(key);
        release_places(&mut self.region, row.base, row.len);
    }

    /// Copies a message from its sender's places, which have its mark, to the first of its receiver's, which have the mark
    /// of the receive. It takes no memory, whatever the length.
    pub fn send_over(&mut self, from: Span, to: Span)
        requires source { HasPlaces self.old from }
        requires target { HasPlaces self.old to }
        requires fits { from.len ≤ to.len }
        requires sent { AreMarked self.old.rows from.key from.at from.len is_send }
        requires received { AreMarked self.old.rows to.key to.at to.len is_receive }
        ensures cells { Shifts self.old.cells self.new.cells (base_of self.old from.key + from.at) (base_of self.old to.key + to.at) from.len }
        ensures edits { Edits self.old self.new to.key (λ object. with_words object to.at (span_words self.old from)) }
        ensures marks { KeepsMarks self.old self.new }
        ensures spans { KeepsSpans self.old self.new }
        ensures copies { KeepsCopies self.old self.new }
    {
        let source = self.place(from.key, from.at);
        let target = self.place(to.key, to.at);
        direct(&mut self.region, source, target, from.len as usize);
    }

    /// Copies a message from its sender's places into a range of its own, the first that fits. After want of memory the
    /// heap is as it was.
    pub fn hold(&mut self, from: Span) -> Result<Held, Memory>
        requires { HasPlaces self.old from }
        ensures first { IfOk result (λ held. IsFirstFit self.old.cells from.len held.base) }
        ensures len { IfOk result (λ held. held.len ≡ from.len) }
        ensures cells { IfOk result (λ held. Holds self.old.cells self.new.cells (base_of self.old from.key + from.at) held.base from.len) }
        ensures words { IfOk result (λ held. copy_words self.new held ≡ span_words self.old from) }
        ensures gains { IfOk result (λ held. GainsCopy self.old self.new held) }
        ensures rows { self.new.rows ≡ self.old.rows }
        ensures objects { KeepsObjects self.old self.new }
        ensures marks { KeepsMarks self.old self.new }
        ensures spans { KeepsSpans self.old self.new }
        ensures err { OnErr result (self.new ≡ self.old) }
    {
        let Some(copies) = self.copies.checked_add(1) else {
            return Err(Memory);
        };
        let source = self.place(from.key, from.at);
        let held = hold(&mut self.region, source, from.len as usize)?;
        self.copies = copies;
        Ok(held)
    }

    /// Copies a held message to the first of its receiver's places, and gives its range back. It takes no memory.
    pub fn land(&mut self, held: Held, to: Span)
        requires copy { IsOneCopy self.old held }
        requires target { HasPlaces self.old to }
        requires fits { held.len ≤ to.len }
        ensures cells { Lands self.old.cells self.new.cells held.base (base_of self.old to.key + to.at) held.len }
        ensures edits { Edits self.old self.new to.key (λ object. with_words object to.at (copy_words self.old held)) }
        ensures loses { LosesCopy self.old self.new held }
        ensures marks { KeepsMarks self.old self.new }
        ensures spans { KeepsSpans self.old self.new }
    {
        let target = self.place(to.key, to.at);
        land(&mut self.region, held, target);
        self.copies -= 1;
    }

    /// Gives the range of a held message back that is not received. It takes no memory.
    pub fn discard(&mut self, held: Held)
        requires { IsOneCopy self.old held }
        ensures cells { Releases self.old.cells self.new.cells held.base held.len }
        ensures loses { LosesCopy self.old self.new held }
        ensures rows { self.new.rows ≡ self.old.rows }
        ensures objects { KeepsObjects self.old self.new }
        ensures marks { KeepsMarks self.old self.new }
        ensures spans { KeepsSpans self.old self.new }
    {
        discard(&mut self.region, held);
        self.copies -= 1;
    }

    /// The rows of all live objects, by rising key.
    pub fn rows(&self) -> Result<Vec<Row>, Memory>
        ensures { IfOk result (λ list. list.items ≡ rows_of self.now.rows) }
    {
        self.table.rows()
    }

    /// The words of the region, of which the rows tell where each object's stand. It takes no memory.
    pub fn into_words(self) -> Vec<Word>
        ensures length { length result.items ≡ length self.cells }
        ensures map { MapAgrees (rows_of self.rows) result.items self }
    {
        let Heap {
            region,
            table: _,
            copies: _,
        } = self;
        region.into_words()
    }

    /// Where a place of a live key's object stands in the region.
    fn place(&self, key: usize, at: u32) -> usize
        requires { IsLive self.now.rows key (λ row. at < row.len) }
        ensures { result ≡ base_of self.now key + at }
    {
        let base = self.table.row(key).base;
        let end = self.region.len();
        prove!(base < end);
        base + at as usize
    }
}
