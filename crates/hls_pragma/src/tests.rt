//! Lines and what they say, worked out by hand.
use crate::{NameSpan, Names, Pragma, read_pragma, reading_laws};
use mpc_values::{Level, Memory};
use std::alloc::Global;
use std::test::Fail;

// What a line says, without its names.
#[derive(Clone, Copy, Debug, PartialEq, Eq)]
enum Meaning {
    Scope(Level),
    Single { nowait: bool },
    Barrier,
    Foreign,
    Refused,
}

fn said(alloc: Global, line: &str) -> Result<Meaning, Memory> {
    match read_pragma(alloc, line.as_bytes())? {
        Ok(Pragma::Scope { level, names: _ }) => Ok(Meaning::Scope(level)),
        Ok(Pragma::Single { names: _, nowait }) => Ok(Meaning::Single { nowait }),
        Ok(Pragma::Barrier { names: _ }) => Ok(Meaning::Barrier),
        Ok(Pragma::Foreign) => Ok(Meaning::Foreign),
        Err(_) => Ok(Meaning::Refused),
    }
}

// The names that a line lists, none where it lists none.
fn listed(alloc: Global, line: &str) -> Result<Vec<NameSpan>, Memory> {
    match read_pragma(alloc, line.as_bytes())? {
        Ok(Pragma::Scope { level: _, names }) => Ok(names.into_vec()),
        Ok(Pragma::Single { names, nowait: _ }) => Ok(names.into_vec()),
        Ok(Pragma::Barrier { names }) => Ok(names.into_vec()),
        _ => Ok(Vec::new(alloc)),
    }
}

#[test]
fn each_line_as_it_says(rt: HostRuntime) -> Result<(), Fail> {
    let cases = [
        (" hls core(a)", Meaning::Scope(Level::Core)),
        (" hls l1(a)", Meaning::Scope(Level::L1)),
        (" hls l2(a)", Meaning::Scope(Level::L2)),
        (" hls l3(a)", Meaning::Scope(Level::L3)),
        (" hls numa(t)", Meaning::Scope(Level::Numa)),
        ("\thls\tnode ( w )\r", Meaning::Scope(Level::Node)),
        (" hls node(int)", Meaning::Scope(Level::Node)),
        (" hls node(a, _b2 ,c)", Meaning::Scope(Level::Node)),
        (" hls single(w)", Meaning::Single { nowait: false }),
        (" hls single(w)nowait", Meaning::Single { nowait: true }),
        (
            " hls single ( v , w ) nowait ",
            Meaning::Single { nowait: true },
        ),
        (" hls barrier(w)", Meaning::Barrier),
        ("hls barrier(v,w)", Meaning::Barrier),
        ("", Meaning::Foreign),
        (" omp parallel", Meaning::Foreign),
        (" hlsx node(a)", Meaning::Foreign),
        (" HLS node(a)", Meaning::Foreign),
        (" (hls node(a))", Meaning::Foreign),
        (" once /* a", Meaning::Foreign),
    ];
    for (line, want) in cases {
        assert_eq!(rt; said(rt.alloc(), line)?, want, "{line}");
    }
    Ok(())
}

#[test]
fn each_refused_line(rt: HostRuntime) -> Result<(), Fail> {
    let cases = [
        " hls",
        " hls socket(a)",
        " hls NODE(a)",
        " hls node",
        " hls node()",
        " hls node(a",
        " hls node(a,)",
        " hls node(,a)",
        " hls node(a b)",
        " hls node(1a)",
        " hls node(a;b)",
        " hls node[a]",
        " hls node((a))",
        " hls (a)",
        " hls node(a) x",
        " hls node(a);",
        " hls node(a) // c",
        " hls node(a) nowait",
        " hls barrier(a) nowait",
        " hls barrier(a) x",
        " hls single(a) wait",
        " hls single(a) nowait nowait",
        " hls single(a) nowait,",
        " hls single nowait(a)",
        " hls single()",
        " hls hls node(a)",
        " hls: node(a)",
        " hls node(a\u{e9})",
    ];
    for line in cases {
        assert_eq!(rt; said(rt.alloc(), line)?, Meaning::Refused, "{line}");
    }
    reading_laws();
    Ok(())
}

#[test]
fn names_are_spans_of_the_line(rt: HostRuntime) -> Result<(), Fail> {
    let names = listed(rt.alloc(), " hls single( count,\t_b2 , a ) nowait")?;
    let want = [
        NameSpan { start: 13, len: 5 },
        NameSpan { start: 20, len: 3 },
        NameSpan { start: 26, len: 1 },
    ];
    assert_eq!(rt; names.as_slice(), want.as_slice());
    let alone = listed(rt.alloc(), "hls l3(t)")?;
    assert_eq!(rt;
        alone.as_slice(),
        [NameSpan { start: 7, len: 1 }].as_slice()
    );
    let kept = Names::of(alone);
    assert_eq!(rt; kept.as_slice(), [NameSpan { start: 7, len: 1 }].as_slice());
    Ok(())
}
