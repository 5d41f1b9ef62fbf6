//! The accesses of tasks: load, store, and the making and ending of objects.
ghost use Rattle.std.specs.Prelude.{◌≡◌, ◌+◌, ◌<◌, ◌≤◌, IfOk, pos, ◌<ℤ◌, ◌⊎◌, MatchOption, OnErr, Ok, Some};
ghost use Rattle.mpc_values.specs.declared.values.Obj.TheVariants.{Dyn};
ghost use Rattle.mpc_values.specs.declared.answers.Answer.TheVariants.{Gives};
ghost use Rattle.mpc_values.specs.declared.owners.Owner.TheVariants.{Task};
ghost use Rattle.memory_model.specs.Memory.{Memory as Memories};
ghost use Rattle.memory_model.specs.Access.{Objects};
ghost use Rattle.memory_model.specs.Access as access;
ghost use Rattle.object_heap.specs.Objects.{Shows, object_in};
ghost use Rattle.object_heap.specs.Marks.{marks_in};
ghost use Rattle.mem_space.specs.Spaces.{IsTask, owner_for, made_in, objects_in};
ghost use Rattle.mem_space.specs.Words.{is_live_block, live_of};
ghost use Rattle.mem_space.specs.Places.{AccessKeeps, IsAsBefore};
ghost use Rattle.mem_space.specs.Accesses.{Comes, loaded, done, given};

use crate::space::Space;
use block_table::RowKind;
use mpc_values::{Fault, Memory, Obj, Owner, Word};

impl Space {
    /// The word of a place. Its faults are NullAccess, Dangling, Bounds, PendingTouch where a receive has the place, and
    /// Uninit where nothing was stored there, in this order.
    pub fn load(&self, task: u32, at: Word) -> Result<Word, Fault>
        requires { IsTask self.now task }
        ensures { (m : Memories) → Shows self.now.heap m → loaded result (objects_in self.now m task) ≡ access.load (owner_for self.now.sharing task) (marks_in self.now.heap) (objects_in self.now m task) at }
    {
        let span = self.range(task, at, 1, false)?;
        told(self.heap.read(span.key, span.at))
    }

    /// Changes the word of a place. Its faults are NullAccess, Dangling, Bounds, and PendingTouch where a message under
    /// way has the place, in this order.
    pub fn store(&mut self, task: u32, at: Word, word: Word) -> Result<(), Fault>
        requires { IsTask self.old task }
        ensures comes { Comes self.old self.new task (λ o. access.store (owner_for self.old.sharing task) (marks_in self.old.heap) o at word) (done result) }
        ensures keeps { AccessKeeps self.old self.new task }
    {
        let span = self.range(task, at, 1, true)?;
        self.heap.write(span.key, span.at, word);
        Ok(())
    }

    /// Makes a local of so many words and gives a pointer to it. It is StackFull where the task's live words would exceed
    /// the quota.
    pub fn new_obj(&mut self, task: u32, len: u32) -> Result<Result<Word, Fault>, Memory>
        requires { IsTask self.old task }
        ensures comes { IfOk result (λ local. Comes self.old self.new task (λ o. access.new self.old.quota task o len) (given local)) }
        ensures keeps { AccessKeeps self.old self.new task }
        ensures err { OnErr result (IsAsBefore self.old self.new) }
    {
        match self.words_with(task, len) {
            Some(words) => {
                let local = self.make(task, RowKind::Local, len, words)?;
                Ok(Ok(local))
            }
            None => Ok(Err(Fault::StackFull)),
        }
    }

    /// Ends an object that the task made. Its faults are Dangling, where none of that name lives, and PendingDrop, where
    /// a message under way has one of its places.
    pub fn drop_obj(&mut self, task: u32, obj: Obj) -> Result<(), Fault>
        requires { IsTask self.old task }
        ensures comes { Comes self.old self.new task (λ o. access.drop (marks_in self.old.heap) task o obj) (done result) }
        ensures keeps { AccessKeeps self.old self.new task }
    {
        match obj {
            Obj::Glob(_) => Err(Fault::Dangling),
            Obj::Dyn(made) => self.end(task, made),
        }
    }

    /// Makes a block of so many words, of 0 too, and gives a pointer to it. It is Null where the number is negative or the
    /// task's live words would exceed the quota (C99, section 7.20.3.3).
    pub fn malloc(&mut self, task: u32, n: i64) -> Result<Word, Memory>
        requires { IsTask self.old task }
        ensures comes { IfOk result (λ block. Comes self.old self.new task (λ o. access.malloc self.old.quota task o n) (Ok (Gives block))) }
        ensures keeps { AccessKeeps self.old self.new task }
        ensures err { OnErr result (IsAsBefore self.old self.new) }
    {
        let Some(len) = block_len(n, self.quota) else {
            return Ok(Word::Null);
        };
        match self.words_with(task, len) {
            Some(words) => {
                let block = self.make(task, RowKind::Block, len, words)?;
                Ok(block)
            }
            None => Ok(Word::Null),
        }
    }

    /// Ends a block by its first place; NULL asks for nothing (C99, section 7.20.3.2). Its faults are Dangling, for any
    /// other word, and PendingDrop, where a message under way has one of its places.
    pub fn free(&mut self, task: u32, at: Word) -> Result<(), Fault>
        requires { IsTask self.old task }
        ensures comes { Comes self.old self.new task (λ o. access.free (marks_in self.old.heap) task o at) (done result) }
        ensures keeps { AccessKeeps self.old self.new task }
    {
        match at {
            Word::Null => Ok(()),
            Word::Ptr { obj, at: place } => self.free_at(task, obj, place),
            Word::Undef => Err(Fault::Dangling),
            Word::Int(_) => Err(Fault::Dangling),
            Word::Comm(_) => Err(Fault::Dangling),
            Word::Req(_) => Err(Fault::Dangling),
        }
    }
}

impl Space {
    /// How many words a task would have in live locals and blocks with so many more, where the quota allows them.
    fn words_with(&self, task: u32, len: u32) -> Option<u32>
        requires { IsTask self.now task }
        ensures { MatchOption result (self.now.quota < live_of self.now.heap task (made_in self.now task) + len)
            (λ words. (words ≡ live_of self.now.heap task (made_in self.now task) + len) × (words ≤ self.now.quota)) }
    {
        let words = self.used[task as usize] as u64 + len as u64;
        if words <= self.quota as u64 {
            Some(words as u32)
        } else {
            None
        }
    }

    /// Makes an object of a task under its next name, all its words unset. With it the task has so many live words.
    fn make(&mut self, task: u32, kind: RowKind, len: u32, words: u32) -> Result<Word, Memory>
        requires task { IsTask self.old task }
        requires words { words ≡ live_of self.old.heap task (made_in self.old task) + len }
        requires room { words ≤ self.old.quota }
        ensures comes { IfOk result (λ word. Comes self.old self.new task (λ o. access.makes task o kind len) (Ok (Gives word))) }
        ensures keeps { AccessKeeps self.old self.new task }
        ensures err { OnErr result (IsAsBefore self.old self.new) }
    {
        let place = task as usize;
        let Some(made) = self.made[place].checked_add(1) else {
            return Err(Memory);
        };
        let obj = Obj::Dyn(made);
        self.heap.add(Owner::Task(task), obj, kind, len)?;
        self.made[place] = made;
        self.used[place] = words;
        Ok(Word::Ptr { obj, at: 0 })
    }

    /// Ends an object that a task made, by its number, where it lives and no message has one of its places.
    fn end(&mut self, task: u32, made: u32) -> Result<(), Fault>
        requires { IsTask self.old task }
        ensures comes { Comes self.old self.new task (λ o. access.drop (marks_in self.old.heap) task o (Dyn made)) (done result) }
        ensures keeps { AccessKeeps self.old self.new task }
    {
        let Some(key) = self.heap.find(Owner::Task(task), Obj::Dyn(made)) else {
            return Err(Fault::Dangling);
        };
        if !self.heap.clear(key) {
            return Err(Fault::PendingDrop);
        }
        let len = self.heap.row(key).len;
        self.heap.close(key);
        self.used[task as usize] -= len;
        Ok(())
    }

    /// Ends a block of a task, by an object and a place of it.
    fn free_at(&mut self, task: u32, obj: Obj, place: u32) -> Result<(), Fault>
        requires { IsTask self.old task }
        ensures comes { Comes self.old self.new task (λ o. access.free_at (marks_in self.old.heap) task o obj place) (done result) }
        ensures keeps { AccessKeeps self.old self.new task }
    {
        let Obj::Dyn(made) = obj else {
            return Err(Fault::Dangling);
        };
        if place == 0 && self.is_block(task, made) {
            self.end(task, made)
        } else {
            Err(Fault::Dangling)
        }
    }

    /// Whether an object that a task made lives as a block.
    fn is_block(&self, task: u32, made: u32) -> bool
        requires { IsTask self.now task }
        ensures { result ≡ is_live_block (object_in self.now.heap (Task task) (Dyn made)) }
    {
        match self.heap.find(Owner::Task(task), Obj::Dyn(made)) {
            Some(key) => self.heap.row(key).kind == RowKind::Block,
            None => false,
        }
    }
}

/// The word of a place that was loaded, which is Uninit where nothing was stored there.
fn told(word: Word) -> Result<Word, Fault>
    ensures { (o : Objects) → loaded result o ≡ access.given o (Some word) }
{
    match word {
        Word::Undef => Err(Fault::Uninit),
        Word::Int(_) => Ok(word),
        Word::Null => Ok(word),
        Word::Ptr { .. } => Ok(word),
        Word::Comm(_) => Ok(word),
        Word::Req(_) => Ok(word),
    }
}

/// The length of a block of so many words, where it is no negative number and no more than the quota.
fn block_len(n: i64, quota: u32) -> Option<u32>
    ensures { MatchOption result ((n <ℤ pos 0) ⊎ (pos quota <ℤ n)) (λ len. n ≡ pos len) }
{
    if n < 0 || (quota as i64) < n {
        None
    } else {
        Some(n as u32)
    }
}
