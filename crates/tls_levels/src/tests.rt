ghost use Rattle.std.specs.Prelude.{◌≡◌, ◌≤◌, length, All, IfOk, IfSome};
ghost use Rattle.std.specs.List.{sum_by};

use super::*;
use mpc_values::{Level, Memory, Owner, StaticVar, Word, Words};
use std::alloc::Global;
use std::test::Fail;
use topology::{Placement, place, read_machine};

/// Two memories and two third caches of four cores each, and two caches of its own for each core.
const M8: &str = "core = [\
{numa = 0, l3 = 0, l2 = 0, l1 = 0}, {numa = 0, l3 = 0, l2 = 1, l1 = 1}, \
{numa = 0, l3 = 0, l2 = 2, l1 = 2}, {numa = 0, l3 = 0, l2 = 3, l1 = 3}, \
{numa = 1, l3 = 1, l2 = 4, l1 = 4}, {numa = 1, l3 = 1, l2 = 5, l1 = 5}, \
{numa = 1, l3 = 1, l2 = 6, l1 = 6}, {numa = 1, l3 = 1, l2 = 7, l1 = 7}]";

/// The levels of the variables.
const KINDS: [Option<Level>; 9] = [
    None,
    Some(Level::Core),
    Some(Level::L1),
    Some(Level::L2),
    Some(Level::L3),
    Some(Level::Numa),
    Some(Level::Node),
    None,
    Some(Level::Numa),
];

/// Variables of 1, 2, 3 and so on words, one for each level of the list.
fn variables(alloc: Global, levels: &[Option<Level>]) -> Result<Vec<StaticVar>, Memory>
    requires { length levels.now ≤ 16 }
    ensures count { IfOk result (λ list. length list.items ≡ length levels.now) }
    ensures words { IfOk result (λ list. sum_by (λ var. var.len) list.items ≤ 256) }
    ensures first { IfOk result (λ list. All (λ var. length var.first ≡ var.len) list.items) }
{
    let mut list = Vec::new(alloc);
    let mut len = 0u32;
    for level in levels {
        len += 1;
        let first = vec![in alloc; Word::Undef; len as usize]?;
        list.push(StaticVar {
            len,
            level: *level,
            first: Words::of(first),
        })?;
    }
    Ok(list)
}

/// The tables for four tasks that a rule places on M8.
fn on_m8(alloc: Global, rule: &Placement) -> Result<Option<Levels>, Memory>
    ensures tasks { IfOk result (λ found. IfSome found (λ levels. length levels.cores ≡ 4)) }
    ensures vars { IfOk result (λ found. IfSome found (λ levels. length levels.shapes ≡ 9)) }
{
    let Ok(machine) = read_machine(alloc, M8.as_bytes())? else {
        return Ok(None);
    };
    let Ok(cores) = place(alloc, rule, 4, &machine)? else {
        return Ok(None);
    };
    let globals = variables(alloc, &KINDS)?;
    Ok(Some(Levels::new(alloc, &globals, &machine, cores.as_slice())?))
}

/// An instance of a level.
fn inst(level: Level, id: u32) -> Owner {
    Owner::Inst { level, id }
}

#[test]
fn compact_tasks_share_a_memory(rt: HostRuntime) -> Result<(), Fail> {
    let levels = on_m8(rt.alloc(), &Placement::Compact)?.ok_or("levels")?;
    let expected = [
        Owner::Task(2),
        inst(Level::Core, 2),
        inst(Level::L1, 2),
        inst(Level::L2, 2),
        inst(Level::L3, 0),
        inst(Level::Numa, 0),
        inst(Level::Node, 0),
        Owner::Task(2),
        inst(Level::Numa, 0),
    ];
    for (var, owner) in expected.iter().enumerate() {
        assert_eq!(rt; levels.resolve(2, var as u32), *owner);
    }
    let owners = [
        Owner::Task(0),
        Owner::Task(1),
        Owner::Task(2),
        Owner::Task(3),
        inst(Level::Core, 0),
        inst(Level::Core, 1),
        inst(Level::Core, 2),
        inst(Level::Core, 3),
        inst(Level::L1, 0),
        inst(Level::L1, 1),
        inst(Level::L1, 2),
        inst(Level::L1, 3),
        inst(Level::L2, 0),
        inst(Level::L2, 1),
        inst(Level::L2, 2),
        inst(Level::L2, 3),
        inst(Level::L3, 0),
        inst(Level::Numa, 0),
        inst(Level::Node, 0),
    ];
    assert!(rt; levels.owners() == owners.as_slice());
    Ok(())
}

#[test]
fn scattered_tasks_have_two_memories(rt: HostRuntime) -> Result<(), Fail> {
    let levels = on_m8(rt.alloc(), &Placement::Scatter)?.ok_or("levels")?;
    let expected = [
        (0u32, 5u32, inst(Level::Numa, 0)),
        (1, 5, inst(Level::Numa, 1)),
        (2, 5, inst(Level::Numa, 0)),
        (3, 5, inst(Level::Numa, 1)),
        (3, 0, Owner::Task(3)),
        (3, 1, inst(Level::Core, 5)),
        (3, 2, inst(Level::L1, 5)),
        (3, 3, inst(Level::L2, 5)),
        (3, 4, inst(Level::L3, 1)),
        (3, 6, inst(Level::Node, 0)),
    ];
    for (task, var, owner) in expected {
        assert!(rt; task < 4 && var < 9);
        assert_eq!(rt; levels.resolve(task, var), owner);
    }
    assert_eq!(rt; levels.owners().len(), 21);
    Ok(())
}

#[test]
fn variables_follow_each_other_in_an_image(rt: HostRuntime) -> Result<(), Fail> {
    let levels = on_m8(rt.alloc(), &Placement::Scatter)?.ok_or("levels")?;
    for (var, offset) in [0u32, 0, 0, 0, 0, 0, 0, 1, 6].iter().enumerate() {
        assert_eq!(rt; levels.offset(var as u32), *offset);
    }
    for owner in levels.owners() {
        assert_eq!(rt; levels.image_len(*owner), words_of(*owner));
    }
    for var in 0..9 {
        let owner = levels.resolve(3, var);
        assert_eq!(rt; levels.image_len(owner), words_of(owner));
    }
    Ok(())
}

/// How many words an owner's image has.
fn words_of(owner: Owner) -> u32 {
    match owner {
        Owner::Task(_) => 1 + 8,
        Owner::Inst {
            level: Level::Core,
            ..
        } => 2,
        Owner::Inst {
            level: Level::L1,
            ..
        } => 3,
        Owner::Inst {
            level: Level::L2,
            ..
        } => 4,
        Owner::Inst {
            level: Level::L3,
            ..
        } => 5,
        Owner::Inst {
            level: Level::Numa,
            ..
        } => 6 + 9,
        Owner::Inst {
            level: Level::Node,
            ..
        } => 7,
    }
}
