//! Files and sinks in memory, and the list types of the journal.

use crate::byte_sink::Sink;
use crate::file_store::{Files, ReadAnswer, WriteAnswer};
use crate::journals::{Entries, Entry, MapRow, MapRows, Out, RankEnd, RankEnds, RankState};
use crate::mem_files::MemFiles;
use crate::mem_sink::MemSink;
use mpc_values::{Answer, Failed, Obj, Owner, Text};
use std::alloc::Global;
use std::collections::BTreeMap;
use std::test::*;

#[derive(Drop)]
enum Step {
    Read {
        name: &'static str,
        limit: usize,
        want: &'static [u8],
    },
    Write {
        name: &'static str,
        bytes: &'static [u8],
        want: WriteAnswer,
    },
}

fn read(name: &'static str, limit: usize, want: &'static [u8]) -> Step {
    Step::Read { name, limit, want }
}

fn write(name: &'static str, bytes: &'static [u8], want: WriteAnswer) -> Step {
    Step::Write { name, bytes, want }
}

// The content that was read, or the kind of another answer in brackets.
fn told(answer: &ReadAnswer) -> &[u8] {
    match answer {
        ReadAnswer::Bytes(bytes) => bytes.as_slice(),
        ReadAnswer::Missing => b"[missing]",
        ReadAnswer::TooLong => b"[too long]",
        ReadAnswer::Failed => b"[failed]",
        ReadAnswer::Memory => b"[memory]",
    }
}

fn read_from<F: Files>(files: &mut F, alloc: Global, name: &str, limit: usize) -> ReadAnswer {
    files.read(alloc, name, limit)
}

fn write_to<F: Files>(files: &mut F, alloc: Global, name: &str, bytes: &[u8]) -> WriteAnswer {
    files.write(alloc, name, bytes)
}

#[test]
fn files_in_memory_fail_where_listed(rt: HostRuntime) -> Result<(), Fail> {
    let alloc = rt.alloc();
    let mut stored = BTreeMap::new(alloc);
    stored.insert(
        String::from_str(alloc, "a")?,
        Vec::from_slice(alloc, b"abc")?,
    )?;
    stored.insert(String::from_str(alloc, "empty")?, Vec::new(alloc))?;
    let mut files = MemFiles::new(stored, vec![in alloc; 1, 3, 9]?);
    let steps = [
        read("a", 3, b"abc"),
        read("a", 3, b"[failed]"),
        read("a", 2, b"[too long]"),
        read("b", 9, b"[failed]"),
        read("b", 9, b"[missing]"),
        read("empty", 0, b""),
        write("b", b"new", WriteAnswer::Written),
        write("a", b"", WriteAnswer::Written),
        read("a", 0, b""),
        write("b", b"lost", WriteAnswer::Failed),
        read("b", 4, b"new"),
        read("a", 4, b""),
        write("b", b"newer", WriteAnswer::Written),
        read("b", 5, b"newer"),
        read("b", 4, b"[too long]"),
        read("empty", 4, b""),
    ];
    for (call, step) in steps.iter().enumerate() {
        match step {
            Step::Read { name, limit, want } => {
                let answer = read_from(&mut files, alloc, name, *limit);
                assert_eq!(rt; told(&answer), *want, "call {call}");
            }
            Step::Write { name, bytes, want } => {
                let answer = write_to(&mut files, alloc, name, bytes);
                assert_eq!(rt; answer, *want, "call {call}");
            }
        }
    }
    Ok(())
}

fn write_into<S: Sink>(sink: &mut S, bytes: &[u8]) -> Result<usize, Failed> {
    sink.write(bytes)
}

#[test]
fn sink_in_memory_takes_its_step(rt: HostRuntime) -> Result<(), Fail> {
    let alloc = rt.alloc();
    let mut sink = MemSink::new(alloc, 3, 8, vec![in alloc; 1, 4]?)?;
    // Writes 1 and 4 are listed, and the room ends at write 6.
    let writes: [(&[u8], Result<usize, Failed>, &[u8]); 9] = [
        (b"hello", Ok(3), b"hel"),
        (b"lo", Err(Failed), b"hel"),
        (b"lo", Ok(2), b"hello"),
        (b"", Ok(0), b"hello"),
        (b"", Err(Failed), b"hello"),
        (b"wo", Ok(2), b"hellowo"),
        (b"rld", Ok(1), b"hellowor"),
        (b"ld", Err(Failed), b"hellowor"),
        (b"", Ok(0), b"hellowor"),
    ];
    for (number, (piece, want, held)) in writes.iter().enumerate() {
        assert_eq!(rt; write_into(&mut sink, piece), *want, "write {number}");
        assert_eq!(rt; sink.bytes(), *held, "write {number}");
    }
    Ok(())
}

#[test]
fn lists_hold_their_items(rt: HostRuntime) -> Result<(), Fail> {
    let alloc = rt.alloc();
    let entry = Entry {
        task: 0,
        line: 1,
        call: 2,
        out: Out::Did(Answer::Done),
    };
    let entries = Entries::of(vec![in alloc; entry]?);
    assert_eq!(rt; entries.as_slice(), [entry].as_slice());
    assert_eq!(rt; entries.into_vec().len(), 1);
    let row = MapRow {
        owner: Owner::Task(1),
        obj: Obj::Dyn(2),
        base: 3,
        len: 4,
    };
    let rows = MapRows::of(vec![in alloc; row]?);
    assert_eq!(rt; rows.as_slice(), [row].as_slice());
    assert_eq!(rt; rows.into_vec().len(), 1);
    let states = [
        RankState::Exit(3),
        RankState::Stopped,
        RankState::Blocked { call: 17, line: 9 },
    ];
    let mut list = Vec::new(alloc);
    for state in states.iter() {
        list.push(RankEnd {
            state: *state,
            output: Text::of(Vec::from_slice(alloc, b"out")?),
        })?;
    }
    let ends = RankEnds::of(list);
    for (end, state) in ends.as_slice().iter().zip(states.iter()) {
        assert_eq!(rt; end.state, *state);
        assert_eq!(rt; end.output.as_slice(), b"out".as_slice());
    }
    assert_eq!(rt; ends.into_vec().len(), 3);
    Ok(())
}
