//! The space, and what its calls ask of it.
ghost use Rattle.std.specs.Prelude.{◌≡◌, ◌<◌, ◌≤◌, ◌+◌, ℕ, [], length, All, IfOk, IfErr};
ghost use Rattle.std.specs.List.{sum_by};
ghost use Rattle.mpc_values.specs.declared.values.Obj.{Obj};
ghost use Rattle.mpc_values.specs.declared.owners.Owner.{Owner};
ghost use Rattle.mpc_values.specs.declared.limits.TheConstants.{MAX_CORES, MAX_STATIC_VARIABLES, MAX_STATIC_WORDS};
ghost use Rattle.memory_model.specs.Marks.{is_some_place};
ghost use Rattle.block_table.specs.declared.rows.Mark.TheVariants.{Free};
ghost use Rattle.block_table.specs.Rows.{IsLive, IsNamed, rows_of};
ghost use Rattle.tls_levels.specs.Sharing.{sharing_of, owners_in};
ghost use Rattle.object_heap.specs.Marks.{mark_of, marks_in};
ghost use Rattle.object_heap.specs.Copies.{AreCopies};
ghost use Rattle.object_heap.specs.Maps.{MapAgrees};
ghost use Rattle.mem_space.specs.Spaces.{IsTask, owner_for, made_in};
ghost use Rattle.mem_space.specs.First.{HasFirst};
ghost use Rattle.mem_space.specs.Ranges.{IsRange, IsNoRange, barred};

use crate::first::add_images;
use block_table::{Row, Span};
use mpc_values::{Fault, Memory, Obj, Owner, StaticVar, Word};
use object_heap::Heap;
use std::alloc::Global;
use std::marker::Model;
use tls_levels::Levels;
use topology::Machine;

/// The memories of all tasks in one heap, with the marks of messages under way and the copies of messages.
#[derive(Debug, Drop)]
pub struct Space {
    pub(crate) heap: Heap,
    pub(crate) levels: Levels,
    /// How many static variables there are.
    pub(crate) variables: u32,
    /// How many objects each task has made.
    pub(crate) made: Vec<u32>,
    /// How many words each task has in live locals and blocks.
    pub(crate) used: Vec<u32>,
    pub(crate) quota: u32,
}

impl Model for Space {
    ghost use Rattle.mem_space.specs.Spaces.{Space as Spaces};

    ghost Value = { Spaces };

    ghost use Rattle.mem_space.specs.Kept.{seen_of, IsKept};

    ghost view = { seen_of };

    ghost invariant = { IsKept };
}

impl Space {
    /// The space before the first access: each owner of an image has each variable of its image as a static object with
    /// its first words, no other object lives, no message is under way, and no task has made an object.
    pub fn new(
        alloc: Global,
        globals: &[StaticVar],
        machine: &Machine,
        cores: &[u32],
        quota: u32,
    ) -> Result<Space, Memory>
        requires some_task { 0 < length cores.now }
        requires few_tasks { length cores.now ≤ MAX_CORES }
        requires few_vars { length globals.now ≤ MAX_STATIC_VARIABLES }
        requires there { All (λ core. core < length machine.now) cores.now }
        requires few_words { sum_by (λ var. var.len) globals.now ≤ MAX_STATIC_WORDS }
        requires first_words { All (λ var. length var.first ≡ var.len) globals.now }
        ensures sharing { IfOk result (λ s. s.sharing ≡ sharing_of globals.now machine.now cores.now) }
        ensures quota { IfOk result (λ s. s.quota ≡ quota) }
        ensures first { IfOk result (λ s. HasFirst globals.now (owners_in s.sharing) s.heap) }
        ensures made { IfOk result (λ s. (task : ℕ) → made_in s task ≡ 0) }
        ensures marks { IfOk result (λ s. (owner : Owner) (obj : Obj) (p : ℕ) → mark_of s.heap owner obj p ≡ Free) }
        ensures copies { IfOk result (λ s. AreCopies s.heap []) }
    {
        let levels = Levels::new(alloc, globals, machine, cores)?;
        let mut heap = Heap::new(alloc);
        add_images(&mut heap, globals, levels.owners())?;
        let made: Vec<u32> = vec![in alloc; 0; cores.len()]?;
        let used: Vec<u32> = vec![in alloc; 0; cores.len()]?;
        Ok(Space {
            heap,
            levels,
            variables: globals.len() as u32,
            made,
            used,
            quota,
        })
    }

    /// The rows of all live objects, by rising key: one for each, of its owner, with its length. The places of two rows
    /// are apart.
    pub fn rows(&self) -> Result<Vec<Row>, Memory>
        ensures { IfOk result (λ list. list.items ≡ rows_of self.now.heap.rows) }
    {
        self.heap.rows()
    }

    /// The words of the heap, where `rows` says. It takes no memory.
    pub fn words(self) -> Vec<Word>
        ensures { MapAgrees (rows_of self.heap.rows) result.items self.heap }
    {
        let Space {
            heap,
            levels: _,
            variables: _,
            made: _,
            used: _,
            quota: _,
        } = self;
        heap.into_words()
    }

    /// Whose copy of an object a task touches.
    pub(crate) fn owner_for(&self, task: u32, obj: Obj) -> Owner
        requires { IsTask self.now task }
        ensures { result ≡ owner_for self.now.sharing task obj }
    {
        match obj {
            Obj::Glob(variable) => {
                if variable < self.variables {
                    self.levels.resolve(task, variable)
                } else {
                    Owner::Task(task)
                }
            }
            Obj::Dyn(_) => Owner::Task(task),
        }
    }

    /// The places that a word names for a task, one or more, or the fault of naming them. No place of a receive may be
    /// among them, and where they are stored to, none of a send.
    pub(crate) fn range(&self, task: u32, at: Word, count: u32, stored: bool) -> Result<Span, Fault>
        requires task { IsTask self.now task }
        requires some { 0 < count }
        ensures ok { IfOk result (λ span. IsRange self.now task at count stored span) }
        ensures err { IfErr result (λ fault. IsNoRange self.now task at count stored fault) }
    {
        let Word::Ptr { obj, at: place } = at else {
            return Err(Fault::NullAccess);
        };
        let Some(key) = self.heap.find(self.owner_for(task, obj), obj) else {
            return Err(Fault::Dangling);
        };
        if (self.heap.row(key).len as u64) < place as u64 + count as u64 {
            return Err(Fault::Bounds);
        }
        if self.is_barred(key, place, count, stored) {
            return Err(Fault::PendingTouch);
        }
        Ok(Span {
            key,
            at: place,
            len: count,
        })
    }

    /// Whether a message has one of some places: a receive, or where they are stored to, also a send.
    fn is_barred(&self, key: usize, at: u32, count: u32, stored: bool) -> bool
        requires { IsLive self.now.heap.rows key (λ row. at + count ≤ row.len) }
        ensures { (owner : Owner) (obj : Obj) → IsNamed self.now.heap.rows key owner obj → result ≡ is_some_place (barred stored (marks_in self.now.heap)) owner obj at count }
    {
        if stored {
            self.heap.is_marked(key, at, count)
        } else {
            self.heap.has_receive(key, at, count)
        }
    }
}
