//! Two tasks in one space: tables of what they ask and what comes of it, and a message between them.
ghost use Rattle.std.specs.Prelude.{◌≡◌, ◌+◌, ◌*◌, ◌<◌, ◌≤◌, ℕ, length, All, IfOk, IfSome};
ghost use Rattle.std.specs.List.{sum_by};
ghost use Rattle.mpc_values.specs.declared.values.Obj.{Obj};
ghost use Rattle.mpc_values.specs.declared.owners.Owner.{Owner};
ghost use Rattle.object_heap.specs.Marks.{mark_of};
ghost use Rattle.mem_space.specs.Places.{sends};

use crate::Space;
use block_table::Span;
use mpc_values::{Fault, Level, Memory, Obj, StaticVar, Word, Words};
use std::alloc::Global;
use std::process::Abort;
use std::test::Fail;
use topology::{Placement, place, read_machine};

/// What a task asks.
#[derive(Clone, Copy)]
enum Ask {
    Load(Word),
    Store(Word, Word),
    New(u32),
    Drop(Obj),
    Malloc(i64),
    Free(Word),
    Send(Word, u32),
    Receive(Word, u32),
}

/// What comes of it.
#[derive(Clone, Copy, Debug, PartialEq)]
enum Got {
    Gives(Word),
    Done,
    Faults(Fault),
}

/// What came of a call that gives a word.
fn given(res: Result<Word, Fault>) -> Got {
    match res {
        Ok(word) => Got::Gives(word),
        Err(fault) => Got::Faults(fault),
    }
}

/// What came of a call that tells nothing else.
fn done(res: Result<(), Fault>) -> Got {
    match res {
        Ok(()) => Got::Done,
        Err(fault) => Got::Faults(fault),
    }
}

/// What came of a call that marks places.
fn marked(res: Result<Span, Fault>) -> Got {
    match res {
        Ok(_) => Got::Done,
        Err(fault) => Got::Faults(fault),
    }
}

/// Does what the first or the second task asks, where few messages are under way.
fn act(space: &mut Space, second: bool, ask: Ask, turns: u32) -> Result<Got, Memory>
    requires two { length space.old.sharing.cores ≡ 2 }
    requires few { (owner : Owner) (obj : Obj) (p : ℕ) → sends (mark_of space.old.heap owner obj p) ≤ turns }
    requires short { turns < 1000 }
    ensures two { length space.new.sharing.cores ≡ 2 }
    ensures few { (owner : Owner) (obj : Obj) (p : ℕ) → sends (mark_of space.new.heap owner obj p) ≤ turns + 1 }
{
    let task = if second { 1 } else { 0 };
    match ask {
        Ask::Load(at) => Ok(given(space.load(task, at))),
        Ask::Store(at, word) => Ok(done(space.store(task, at, word))),
        Ask::New(len) => Ok(given(space.new_obj(task, len)?)),
        Ask::Drop(obj) => Ok(done(space.drop_obj(task, obj))),
        Ask::Malloc(n) => Ok(Got::Gives(space.malloc(task, n)?)),
        Ask::Free(at) => Ok(done(space.free(task, at))),
        Ask::Send(at, count) => Ok(marked(space.pend_send(task, at, count.max(1)))),
        Ask::Receive(at, count) => Ok(marked(space.pend_recv(task, at, count.max(1)))),
    }
}

/// Two memories and two third caches of four cores each, and two caches of its own for each core.
const M8: &str = "core = [\
{numa = 0, l3 = 0, l2 = 0, l1 = 0}, {numa = 0, l3 = 0, l2 = 1, l1 = 1}, \
{numa = 0, l3 = 0, l2 = 2, l1 = 2}, {numa = 0, l3 = 0, l2 = 3, l1 = 3}, \
{numa = 1, l3 = 1, l2 = 4, l1 = 4}, {numa = 1, l3 = 1, l2 = 5, l1 = 5}, \
{numa = 1, l3 = 1, l2 = 6, l1 = 6}, {numa = 1, l3 = 1, l2 = 7, l1 = 7}]";

/// The levels of the variables: a private one, one for each memory, one for the node.
const KINDS: [Option<Level>; 3] = [None, Some(Level::Numa), Some(Level::Node)];

/// Variables of 1, 2 and 3 words, each of which begins with this number.
fn variables(alloc: Global) -> Result<Vec<StaticVar>, Memory>
    ensures count { IfOk result (λ list. length list.items ≡ 3) }
    ensures words { IfOk result (λ list. sum_by (λ var. var.len) list.items ≤ 16) }
    ensures first { IfOk result (λ list. All (λ var. length var.first ≡ var.len) list.items) }
{
    let mut list = Vec::new(alloc);
    let mut len = 0u32;
    for level in &KINDS {
        len += 1;
        let first = vec![in alloc; Word::Int(len as i64); len as usize]?;
        list.push(StaticVar {
            len,
            level: *level,
            first: Words::of(first),
        })?;
    }
    Ok(list)
}

/// The space of two tasks that a rule places on M8.
fn on_m8(alloc: Global, rule: &Placement, quota: u32) -> Result<Option<Space>, Memory>
    ensures two { IfOk result (λ found. IfSome found (λ space. length space.sharing.cores ≡ 2)) }
    ensures none { IfOk result (λ found. IfSome found (λ space. (owner : Owner) (obj : Obj) (p : ℕ) → sends (mark_of space.heap owner obj p) ≤ 0)) }
{
    let Ok(machine) = read_machine(alloc, M8.as_bytes())? else {
        return Ok(None);
    };
    let Ok(cores) = place(alloc, rule, 2, &machine)? else {
        return Ok(None);
    };
    let globals = variables(alloc)?;
    Ok(Some(Space::new(alloc, &globals, &machine, cores.as_slice(), quota)?))
}

/// Does what is asked in turn, and compares what comes of it.
fn steps<R: Abort>(rt: &R, space: &mut Space, steps: &[(bool, Ask, Got)]) -> Result<(), Memory>
    requires two { length space.old.sharing.cores ≡ 2 }
    requires none { (owner : Owner) (obj : Obj) (p : ℕ) → sends (mark_of space.old.heap owner obj p) ≤ 0 }
    requires short { length steps.now < 1000 }
    ensures two { length space.new.sharing.cores ≡ 2 }
{
    let mut turns = 0u32;
    for (second, ask, expected) in steps {
        let got = act(space, *second, *ask, turns)?;
        assert_eq!(rt; got, *expected);
        turns += 1;
    }
    Ok(())
}

/// A pointer to a place of a variable.
fn glob(variable: u32, at: u32) -> Word {
    Word::Ptr {
        obj: Obj::Glob(variable),
        at,
    }
}

/// A pointer to a place of an object that the task made.
fn own(made: u32, at: u32) -> Word {
    Word::Ptr {
        obj: Obj::Dyn(made),
        at,
    }
}

#[test]
fn faults_come_in_their_order(rt: HostRuntime) -> Result<(), Fail> {
    let mut space = on_m8(rt.alloc(), &Placement::Compact, 100)?.ok_or("space")?;
    let table = [
        // No pointer, no object, a place outside it, and a place where nothing was stored.
        (false, Ask::Load(Word::Null), Got::Faults(Fault::NullAccess)),
        (
            false,
            Ask::Load(Word::Int(5)),
            Got::Faults(Fault::NullAccess),
        ),
        (
            false,
            Ask::Store(Word::Undef, Word::Null),
            Got::Faults(Fault::NullAccess),
        ),
        (false, Ask::Load(glob(3, 0)), Got::Faults(Fault::Dangling)),
        (false, Ask::Load(own(1, 0)), Got::Faults(Fault::Dangling)),
        (false, Ask::Load(glob(0, 1)), Got::Faults(Fault::Bounds)),
        (false, Ask::New(2), Got::Gives(own(1, 0))),
        (false, Ask::Load(own(1, 0)), Got::Faults(Fault::Uninit)),
        (false, Ask::Store(own(1, 1), Word::Int(9)), Got::Done),
        (false, Ask::Load(own(1, 1)), Got::Gives(Word::Int(9))),
        (
            false,
            Ask::Store(own(1, 2), Word::Int(9)),
            Got::Faults(Fault::Bounds),
        ),
        (true, Ask::Load(own(1, 1)), Got::Faults(Fault::Dangling)),
        // A receive of the first place: PendingTouch comes behind Bounds and before Uninit.
        (
            false,
            Ask::Receive(Word::Null, 1),
            Got::Faults(Fault::NullAccess),
        ),
        (
            false,
            Ask::Receive(own(7, 0), 1),
            Got::Faults(Fault::Dangling),
        ),
        (false, Ask::Receive(own(1, 0), 1), Got::Done),
        (
            false,
            Ask::Load(own(1, 0)),
            Got::Faults(Fault::PendingTouch),
        ),
        (
            false,
            Ask::Store(own(1, 0), Word::Null),
            Got::Faults(Fault::PendingTouch),
        ),
        (false, Ask::Load(own(1, 1)), Got::Gives(Word::Int(9))),
        (
            false,
            Ask::Receive(own(1, 0), 3),
            Got::Faults(Fault::Bounds),
        ),
        (
            false,
            Ask::Receive(own(1, 0), 2),
            Got::Faults(Fault::PendingTouch),
        ),
        (false, Ask::Send(own(1, 0), 3), Got::Faults(Fault::Bounds)),
        (
            false,
            Ask::Send(own(1, 0), 2),
            Got::Faults(Fault::PendingTouch),
        ),
        (
            false,
            Ask::Drop(Obj::Dyn(1)),
            Got::Faults(Fault::PendingDrop),
        ),
        (false, Ask::Drop(Obj::Dyn(2)), Got::Faults(Fault::Dangling)),
        (false, Ask::Drop(Obj::Glob(0)), Got::Faults(Fault::Dangling)),
        // Only a block is freed, by its first place, and not while a message has one of its places.
        (false, Ask::Free(own(1, 0)), Got::Faults(Fault::Dangling)),
        (false, Ask::Malloc(3), Got::Gives(own(2, 0))),
        (false, Ask::Free(own(2, 1)), Got::Faults(Fault::Dangling)),
        (false, Ask::Free(glob(0, 0)), Got::Faults(Fault::Dangling)),
        (false, Ask::Free(Word::Int(3)), Got::Faults(Fault::Dangling)),
        (false, Ask::Free(Word::Null), Got::Done),
        (false, Ask::Send(own(2, 1), 2), Got::Done),
        (false, Ask::Free(own(2, 0)), Got::Faults(Fault::PendingDrop)),
        (false, Ask::Malloc(0), Got::Gives(own(3, 0))),
        (false, Ask::Load(own(3, 0)), Got::Faults(Fault::Bounds)),
        (false, Ask::Free(own(3, 0)), Got::Done),
        (false, Ask::Free(own(3, 0)), Got::Faults(Fault::Dangling)),
    ];
    steps(&rt, &mut space, table.as_slice())?;
    Ok(())
}

#[test]
fn sends_share_a_place_and_a_receive_does_not(rt: HostRuntime) -> Result<(), Fail> {
    let mut space = on_m8(rt.alloc(), &Placement::Compact, 100)?.ok_or("space")?;
    let table = [
        (true, Ask::Malloc(2), Got::Gives(own(1, 0))),
        (true, Ask::Store(own(1, 1), Word::Int(4)), Got::Done),
        (true, Ask::Send(own(1, 1), 1), Got::Done),
        (true, Ask::Send(own(1, 0), 2), Got::Done),
        (true, Ask::Load(own(1, 1)), Got::Gives(Word::Int(4))),
        (
            true,
            Ask::Store(own(1, 1), Word::Int(5)),
            Got::Faults(Fault::PendingTouch),
        ),
        (
            true,
            Ask::Receive(own(1, 1), 1),
            Got::Faults(Fault::PendingTouch),
        ),
        (true, Ask::Free(own(1, 0)), Got::Faults(Fault::PendingDrop)),
    ];
    steps(&rt, &mut space, table.as_slice())?;
    Ok(())
}

#[test]
fn live_words_stay_within_the_quota(rt: HostRuntime) -> Result<(), Fail> {
    let mut space = on_m8(rt.alloc(), &Placement::Compact, 14)?.ok_or("space")?;
    let table = [
        (false, Ask::New(1), Got::Gives(own(1, 0))),
        (false, Ask::New(3), Got::Gives(own(2, 0))),
        (false, Ask::Malloc(11), Got::Gives(Word::Null)),
        (false, Ask::Malloc(-1), Got::Gives(Word::Null)),
        (false, Ask::Malloc(i64::MAX), Got::Gives(Word::Null)),
        (false, Ask::New(11), Got::Faults(Fault::StackFull)),
        (false, Ask::Malloc(10), Got::Gives(own(3, 0))),
        (false, Ask::New(1), Got::Faults(Fault::StackFull)),
        (false, Ask::New(0), Got::Gives(own(4, 0))),
        (true, Ask::New(14), Got::Gives(own(1, 0))),
        // What ends makes room, and no name is given again.
        (false, Ask::Drop(Obj::Dyn(2)), Got::Done),
        (false, Ask::Malloc(4), Got::Gives(Word::Null)),
        (false, Ask::Malloc(3), Got::Gives(own(5, 0))),
        (false, Ask::Free(own(3, 0)), Got::Done),
        (false, Ask::New(10), Got::Gives(own(6, 0))),
    ];
    steps(&rt, &mut space, table.as_slice())?;
    Ok(())
}

#[test]
fn tasks_share_the_variables_of_their_levels(rt: HostRuntime) -> Result<(), Fail> {
    let mut near = on_m8(rt.alloc(), &Placement::Compact, 0)?.ok_or("space")?;
    let together = [
        (false, Ask::Store(glob(0, 0), Word::Int(8)), Got::Done),
        (true, Ask::Load(glob(0, 0)), Got::Gives(Word::Int(1))),
        (false, Ask::Store(glob(1, 1), Word::Int(50)), Got::Done),
        (true, Ask::Load(glob(1, 1)), Got::Gives(Word::Int(50))),
        (true, Ask::Store(glob(2, 0), Word::Int(60)), Got::Done),
        (false, Ask::Load(glob(2, 0)), Got::Gives(Word::Int(60))),
    ];
    steps(&rt, &mut near, together.as_slice())?;
    let mut far = on_m8(rt.alloc(), &Placement::Scatter, 0)?.ok_or("space")?;
    let apart = [
        (false, Ask::Store(glob(1, 1), Word::Int(50)), Got::Done),
        (true, Ask::Load(glob(1, 1)), Got::Gives(Word::Int(2))),
        (false, Ask::Load(glob(1, 1)), Got::Gives(Word::Int(50))),
        (true, Ask::Store(glob(2, 0), Word::Int(60)), Got::Done),
        (false, Ask::Load(glob(2, 0)), Got::Gives(Word::Int(60))),
    ];
    steps(&rt, &mut far, apart.as_slice())?;
    Ok(())
}

#[test]
fn images_stand_one_behind_the_other(rt: HostRuntime) -> Result<(), Fail> {
    let space = on_m8(rt.alloc(), &Placement::Scatter, 0)?.ok_or("space")?;
    let rows = space.rows()?;
    let lens = [1u32, 1, 2, 2, 3];
    let bases = [0usize, 1, 2, 4, 6];
    assert_eq!(rt; rows.len(), 5);
    for (row, len) in rows.as_slice().iter().zip(lens.iter()) {
        assert_eq!(rt; row.len, *len);
    }
    for (row, base) in rows.as_slice().iter().zip(bases.iter()) {
        assert_eq!(rt; row.base, *base);
    }
    let firsts = [1i64, 1, 2, 2, 2, 2, 3, 3, 3];
    let words = space.words();
    assert_eq!(rt; words.len(), 9);
    for (word, first) in words.as_slice().iter().zip(firsts.iter()) {
        assert_eq!(rt; *word, Word::Int(*first));
    }
    Ok(())
}

/// Sends words of the first task's places to the second task's, directly. Tells whether it did.
fn direct(space: &mut Space, from: Word, count: u32, to: Word, room: u32) -> bool
    requires two { length space.old.sharing.cores ≡ 2 }
    requires none { (owner : Owner) (obj : Obj) (p : ℕ) → sends (mark_of space.old.heap owner obj p) ≤ 0 }
    requires some { 0 < count }
    requires fits { count ≤ room }
    ensures two { length space.new.sharing.cores ≡ 2 }
{
    let Ok(target) = space.pend_recv(1, to, room) else {
        return false;
    };
    let Ok(source) = space.pend_send(0, from, count) else {
        return false;
    };
    space.send_over(source, target);
    space.unpend(source, true);
    space.unpend(target, false);
    true
}

#[test]
fn a_message_moves_to_the_first_places_of_its_receive(rt: HostRuntime) -> Result<(), Fail> {
    let mut space = on_m8(rt.alloc(), &Placement::Scatter, 0)?.ok_or("space")?;
    assert!(rt; direct(&mut space, glob(2, 0), 2, glob(1, 0), 2));
    // Two words of 3 have come into the second memory's variable, whose words were 2.
    assert_eq!(rt; space.load(1, glob(1, 0)), Ok(Word::Int(3)));
    assert_eq!(rt; space.load(1, glob(1, 1)), Ok(Word::Int(3)));
    assert_eq!(rt; space.load(0, glob(1, 1)), Ok(Word::Int(2)));
    assert_eq!(rt; space.store(1, glob(1, 1), Word::Null), Ok(()));
    // A shorter message writes the first places alone.
    let mut short = on_m8(rt.alloc(), &Placement::Scatter, 0)?.ok_or("space")?;
    assert!(rt; direct(&mut short, glob(0, 0), 1, glob(1, 0), 2));
    assert_eq!(rt; short.load(1, glob(1, 0)), Ok(Word::Int(1)));
    assert_eq!(rt; short.load(1, glob(1, 1)), Ok(Word::Int(2)));
    Ok(())
}
