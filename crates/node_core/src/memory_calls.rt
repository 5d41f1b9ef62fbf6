//! The calls on memory: load, store, new, drop, malloc and free.
ghost use Rattle.std.specs.Prelude.{◌≡◌, IfOk, OnErr};
ghost use Rattle.memory_model.specs.Access as access;
ghost use Rattle.object_heap.specs.Marks.{marks_in};
ghost use Rattle.mem_space.specs.Spaces.{IsTask, owner_for};
ghost use Rattle.mem_space.specs.Places.{AccessKeeps, IsAsBefore};
ghost use Rattle.mem_space.specs.Accesses.{Comes};

use mem_space::Space;
use mpc_values::{Answer, Fault, Memory, Obj, Word};

/// A load of a place (C99, section 6.3.2.1).
pub fn load(space: &Space, task: u32, at: Word) -> Result<Answer, Fault>
    requires task { IsTask space.now task }
    ensures { Comes space.now space.now task (λ o. access.load (owner_for space.now.sharing task) (marks_in space.now.heap) o at) result }
{
    match space.load(task, at) {
        Ok(word) => Ok(Answer::Gives(word)),
        Err(fault) => Err(fault),
    }
}

/// A store to a place (C99, section 6.5.16).
pub fn store(space: &mut Space, task: u32, at: Word, word: Word) -> Result<Answer, Fault>
    requires task { IsTask space.old task }
    ensures comes { Comes space.old space.new task (λ o. access.store (owner_for space.old.sharing task) (marks_in space.old.heap) o at word) result }
    ensures keeps { AccessKeeps space.old space.new task }
{
    match space.store(task, at, word) {
        Ok(()) => Ok(Answer::Done),
        Err(fault) => Err(fault),
    }
}

/// A local in memory is made (C99, section 6.2.4).
pub fn new_local(space: &mut Space, task: u32, len: u32) -> Result<Result<Answer, Fault>, Memory>
    requires task { IsTask space.old task }
    ensures comes { IfOk result (Comes space.old space.new task (λ o. access.new space.old.quota task o len)) }
    ensures keeps { AccessKeeps space.old space.new task }
    ensures err { OnErr result (IsAsBefore space.old space.new) }
{
    match space.new_obj(task, len)? {
        Ok(word) => Ok(Ok(Answer::Gives(word))),
        Err(fault) => Ok(Err(fault)),
    }
}

/// A local in memory ends (C99, section 6.2.4).
pub fn end_local(space: &mut Space, task: u32, obj: Obj) -> Result<Answer, Fault>
    requires task { IsTask space.old task }
    ensures comes { Comes space.old space.new task (λ o. access.drop (marks_in space.old.heap) task o obj) result }
    ensures keeps { AccessKeeps space.old space.new task }
{
    match space.drop_obj(task, obj) {
        Ok(()) => Ok(Answer::Done),
        Err(fault) => Err(fault),
    }
}

/// A block is made (C99, section 7.20.3.3).
pub fn new_block(space: &mut Space, task: u32, n: &i64) -> Result<Result<Answer, Fault>, Memory>
    requires task { IsTask space.old task }
    ensures comes { IfOk result (Comes space.old space.new task (λ o. access.malloc space.old.quota task o n.now)) }
    ensures keeps { AccessKeeps space.old space.new task }
    ensures err { OnErr result (IsAsBefore space.old space.new) }
{
    let word = space.malloc(task, *n)?;
    Ok(Ok(Answer::Gives(word)))
}

/// A block ends (C99, section 7.20.3.2).
pub fn end_block(space: &mut Space, task: u32, at: Word) -> Result<Answer, Fault>
    requires task { IsTask space.old task }
    ensures comes { Comes space.old space.new task (λ o. access.free (marks_in space.old.heap) task o at) result }
    ensures keeps { AccessKeeps space.old space.new task }
{
    match space.free(task, at) {
        Ok(()) => Ok(Answer::Done),
        Err(fault) => Err(fault),
    }
}
