//! Words and what they stand for. Expected values are those of the options' table.

use crate::{FileName, Mode, Orders, Usage, read_words};
use std::alloc::Global;
use std::test::*;
use topology::Placement;

// The orders of words between blanks.
fn orders_of(alloc: Global, text: &str) -> Result<Result<Orders, Usage>, Fail> {
    let mut words = Vec::new(alloc);
    for word in text.split_whitespace() {
        words.push(String::from_str(alloc, word)?)?;
    }
    Ok(read_words(alloc, words.as_slice())?)
}

fn is_named(file: &Option<FileName>, name: &str) -> bool {
    match file {
        Some(file) => file.as_str() == name,
        None => false,
    }
}

fn lists(place: &Placement, cores: &[u32]) -> bool {
    match place {
        Placement::Listed(list) => list.as_slice() == cores,
        _ => false,
    }
}

#[test]
fn options_have_their_defaults(rt: HostRuntime) -> Result<(), Fail> {
    let orders = orders_of(rt.alloc(), "serial a.c")?.map_err(|_| "refused")?;
    assert!(rt; orders.mode == Mode::Serial && orders.subject.as_str() == "a.c");
    assert!(rt; orders.tasks == 1 && orders.eager == 1024);
    assert!(rt; orders.quota == 65536 && orders.calls == 250000);
    assert!(rt; orders.machine.is_none() && orders.journal.is_none() && orders.seed.is_none());
    assert!(rt; matches!(orders.place, Placement::Compact));
    assert!(rt; !orders.matches && !orders.emit);
    Ok(())
}

#[test]
fn options_take_their_greatest_values(rt: HostRuntime) -> Result<(), Fail> {
    let text =
        "serial a.c --tasks 64 --machine=m.toml --place 0,8,255 --eager 65536 --quota=1048576 --calls 250000 --seed 18446744073709551615 --journal j --matches";
    let orders = orders_of(rt.alloc(), text)?.map_err(|_| "refused")?;
    assert!(rt; orders.tasks == 64 && orders.eager == 65536);
    assert!(rt; orders.quota == 1048576 && orders.calls == 250000);
    assert!(rt; is_named(&orders.machine, "m.toml") && is_named(&orders.journal, "j"));
    assert!(rt; lists(&orders.place, [0, 8, 255].as_slice()));
    assert!(rt; orders.seed == Some(18446744073709551615) && orders.matches);
    Ok(())
}

static TAKEN: [&str; 9] = [
    "check a.c",
    "check -- -a.c",
    "gen 18446744073709551615 --emit",
    "gen 7 --tasks 64",
    "replay a.c --journal j",
    "run a.c --calls 16000000",
    "run --eager 0 --quota 0 a.c",
    "serial a.c --place scatter --calls 1",
    "serial a.c --seed 0",
];

static REFUSED: [&str; 32] = [
    "",
    "check",
    "check a.c b.c",
    "check -a.c",
    "walk a.c",
    "serial a.c --tasks 0",
    "serial a.c --tasks 65",
    "serial a.c --tasks 01",
    "serial a.c --tasks +1",
    "serial a.c --tasks",
    "serial a.c --tasks 1 --tasks 1",
    "serial a.c --task 1",
    "serial a.c --eager 65537",
    "serial a.c --quota 1048577",
    "serial a.c --calls 0",
    "serial a.c --calls 16000001",
    "serial a.c --tasks 64 --calls 250001",
    "serial a.c --seed 18446744073709551616",
    "serial a.c --place 256",
    "serial a.c --place 0,,1",
    "serial a.c --place 1,",
    "serial a.c --place=",
    "serial a.c --place spread",
    "serial a.c --matches --matches",
    "serial a.c --matches=1",
    "serial a.c --emit",
    "serial a.c --help",
    "run a.c --seed 1",
    "check a.c --tasks 1",
    "replay a.c",
    "gen x",
    "gen 1 --quota 5",
];

#[test]
fn words_that_stand_for_orders_are_taken(rt: HostRuntime) -> Result<(), Fail> {
    for text in TAKEN.iter() {
        assert!(rt; orders_of(rt.alloc(), text)?.is_ok());
    }
    Ok(())
}

#[test]
fn words_that_stand_for_none_are_refused(rt: HostRuntime) -> Result<(), Fail> {
    for text in REFUSED.iter() {
        assert!(rt; orders_of(rt.alloc(), text)?.is_err());
    }
    Ok(())
}
