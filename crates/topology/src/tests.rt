use super::*;
use mpc_values::{Cores, Level};
use std::alloc::{AllocError, Global};
use std::test::Fail;

/// Two memories and two third caches of four cores each, and two caches of its own for each core.
const M8: &str = "[[core]]\nnuma = 0\nl3 = 0\nl2 = 0\nl1 = 0\n\n\
[[core]]\nnuma = 0\nl3 = 0\nl2 = 1\nl1 = 1\n\n\
[[core]]\nnuma = 0\nl3 = 0\nl2 = 2\nl1 = 2\n\n\
[[core]]\nnuma = 0\nl3 = 0\nl2 = 3\nl1 = 3\n\n\
[[core]]\nnuma = 1\nl3 = 1\nl2 = 4\nl1 = 4\n\n\
[[core]]\nnuma = 1\nl3 = 1\nl2 = 5\nl1 = 5\n\n\
[[core]]\nnuma = 1\nl3 = 1\nl2 = 6\nl1 = 6\n\n\
[[core]]\nnuma = 1\nl3 = 1\nl2 = 7\nl1 = 7\n\n";

/// What a file's bytes are refused as, or `machine`.
fn outcome(alloc: Global, bytes: &[u8]) -> Result<&'static str, mpc_values::Memory> {
    match read_machine(alloc, bytes)? {
        Ok(_) => Ok("machine"),
        Err(refusal) => Ok(refusal.name()),
    }
}

/// A head, so many like cores, and a tail.
fn many(alloc: Global, head: &str, count: u32, tail: &str) -> Result<String, AllocError> {
    let mut text = String::from_str(alloc, head)?;
    for _ in 0..count {
        text.push_str("[[core]]\nnuma = 0\nl3 = 0\nl2 = 0\nl1 = 0\n")?;
    }
    text.push_str(tail)?;
    Ok(text)
}

#[test]
fn m8_has_two_memories(rt: HostRuntime) -> Result<(), Fail> {
    let machine = read_machine(rt.alloc(), M8.as_bytes())??;
    assert!(rt; machine.cores() == 8);
    let levels = [
        Level::Core,
        Level::L1,
        Level::L2,
        Level::L3,
        Level::Numa,
        Level::Node,
    ];
    for (core, expected) in [(3u32, [3u32, 3, 3, 0, 0, 0]), (4, [4, 4, 4, 1, 1, 0])] {
        assert!(rt; core < 8);
        for (level, id) in levels.iter().zip(expected.iter()) {
            assert_eq!(rt; machine.instance(*level, core), *id);
        }
    }
    Ok(())
}

#[test]
fn first_broken_rule_refuses(rt: HostRuntime) -> Result<(), Fail> {
    let cases = [
        ("", "NoCores"),
        ("# nothing\n", "NoCores"),
        ("core = []", "NoCores"),
        ("core = 3", "BadField"),
        ("]", "NotToml"),
        ("core = [", "NotToml"),
        ("[[core]]\nnuma = 0\nl3 = 0\nl2 = 0\nl1 = 0\n", "machine"),
        (
            "core = [{numa = 255, l3 = 0xff, l2 = 0, l1 = 0}]",
            "machine",
        ),
        ("core = [1]", "BadField"),
        ("core = [{numa = 0, l3 = 0, l2 = 0, l1 = 0}, 1]", "BadField"),
        ("[core]\nnuma = 0\nl3 = 0\nl2 = 0\nl1 = 0\n", "BadField"),
        ("[[core]]\n", "BadField"),
        ("core = [{numa = 0, l3 = 0, l2 = 0}]", "BadField"),
        ("core = [{numa = 256, l3 = 0, l2 = 0, l1 = 0}]", "BadField"),
        ("core = [{numa = -1, l3 = 0, l2 = 0, l1 = 0}]", "BadField"),
        ("core = [{numa = 0, l3 = 1.0, l2 = 0, l1 = 0}]", "BadField"),
        (
            "core = [{numa = 0, l3 = 0, l2 = \"0\", l1 = 0}]",
            "BadField",
        ),
        (
            "core = [{numa = 0, l3 = 0, l2 = 0, l1 = 0, l4 = 0}]",
            "BadField",
        ),
        (
            "core = [{numa = 0, numa = 0, l3 = 0, l2 = 0, l1 = 0}]",
            "NotToml",
        ),
        (
            "core = [{numa = 0, l3 = 0, l2 = 1, l1 = 2}, {numa = 0, l3 = 1, l2 = 1, l1 = 3}]",
            "NotNested",
        ),
        (
            "core = [{numa = 0, l3 = 0, l2 = 1, l1 = 2}, {numa = 0, l3 = 0, l2 = 2, l1 = 2}]",
            "NotNested",
        ),
        (
            "core = [{numa = 0, l3 = 0, l2 = 1, l1 = 2}, {numa = 1, l3 = 0, l2 = 2, l1 = 3}]",
            "NotNested",
        ),
        ("x = 1", "BadField"),
        ("x = 1\ncore = []", "BadField"),
        ("x = 1\n]", "NotToml"),
        ("core = []\n]", "NotToml"),
        (
            "core = [{numa = 0, l3 = 0, l2 = 1, l1 = 2}, {numa = 0, l3 = 1, l2 = 1, l1 = 256}]",
            "BadField",
        ),
        (
            "x = 1\ncore = [{numa = 0, l3 = 0, l2 = 1, l1 = 2}, {numa = 0, l3 = 1, l2 = 1, l1 = 3}]",
            "BadField",
        ),
    ];
    for (text, expected) in cases {
        assert_eq!(rt;
            outcome(rt.alloc(), text.as_bytes())?,
            expected,
            "of {text}"
        );
    }
    assert_eq!(rt; outcome(rt.alloc(), &[0xFF])?, "NotToml");
    Ok(())
}

#[test]
fn too_many_cores_come_before_their_fields(rt: HostRuntime) -> Result<(), Fail> {
    let apart = "[[core]]\nnuma = 1\nl3 = 0\nl2 = 0\nl1 = 0\n";
    let cases = [
        ("", 256u32, "", "machine"),
        ("", 257, "", "TooManyCores"),
        ("", 256, "[[core]]\n", "TooManyCores"),
        ("", 255, "[[core]]\n", "BadField"),
        ("", 256, apart, "TooManyCores"),
        ("", 255, apart, "NotNested"),
        ("x = 1\n", 257, "", "BadField"),
        ("", 257, "]", "NotToml"),
    ];
    for (head, count, tail, expected) in cases {
        let text = many(rt.alloc(), head, count, tail)?;
        assert_eq!(rt;
            outcome(rt.alloc(), text.as_bytes())?,
            expected,
            "of {count} cores"
        );
    }
    Ok(())
}

#[test]
fn m8_places_tasks(rt: HostRuntime) -> Result<(), Fail> {
    let alloc = rt.alloc();
    let machine = read_machine(alloc, M8.as_bytes())??;
    let scattered = place(alloc, &Placement::Scatter, 5, &machine)?.map_err(|_| "scatter")?;
    assert_eq!(rt; scattered.as_slice(), [0, 4, 1, 5, 2].as_slice());
    let compact = place(alloc, &Placement::Compact, 10, &machine)?.map_err(|_| "compact")?;
    assert_eq!(rt;
        compact.as_slice(),
        [0, 1, 2, 3, 4, 5, 6, 7, 0, 1].as_slice()
    );
    let none = place(alloc, &Placement::Compact, 0, &machine)?.map_err(|_| "none")?;
    assert_eq!(rt; none.as_slice().len(), 0);
    let rule = Placement::Listed(Cores::of(vec![in alloc; 7, 0, 7]?));
    let listed = place(alloc, &rule, 3, &machine)?.map_err(|_| "listed")?;
    assert_eq!(rt; listed.as_slice(), [7, 0, 7].as_slice());
    assert!(rt;
        place(alloc, &rule, 2, &machine)?.is_err(),
        "a list that is too long"
    );
    assert!(rt;
        place(alloc, &rule, 4, &machine)?.is_err(),
        "a list that is too short"
    );
    let absent = Placement::Listed(Cores::of(vec![in alloc; 0, 8]?));
    assert!(rt;
        place(alloc, &absent, 2, &machine)?.is_err(),
        "a core that is not there"
    );
    Ok(())
}

#[test]
fn flat_cores_have_caches_of_their_own(rt: HostRuntime) -> Result<(), Fail> {
    let one = flat(rt.alloc(), 1)?;
    assert_eq!(rt; one.cores(), 1);
    let most = flat(rt.alloc(), 256)?;
    assert!(rt; most.cores() == 256);
    assert_eq!(rt; most.numbers().len(), 256);
    assert_eq!(rt; most.instance(Level::L2, 255), 255);
    assert_eq!(rt; most.instance(Level::L1, 255), 255);
    assert_eq!(rt; most.instance(Level::L3, 255), 0);
    assert_eq!(rt; most.instance(Level::Numa, 255), 0);
    Ok(())
}
