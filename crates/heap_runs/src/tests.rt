//! Worked cases of the region, the table and the copies, and a plain list of places beside a region.

use crate::marks::{Act, add, change, close, mark_of, row_of};
use crate::ranges::Ranges;
use crate::tests::Step::{Release, Take};
use block_table::Mark::{Free, Receive, Sends};
use block_table::{Row, RowKind, Table};
use mpc_values::{Level, Memory, Obj, Owner, Word};
use mpi_copy::Held;
use rand_core::{Rng, SeedableRng};
use rand_pcg::Pcg32;
use std::process::Abort;
use std::test::Fail;

/// What is done to a slot: a range of so many places is taken at this base, or its range is released.
#[derive(Clone, Copy)]
enum Step {
    Take(usize, usize, usize),
    Release(usize),
}

/// Does the steps on a new region, and compares each base, and how many places are held and there at the end.
fn steps<R: AllocGlobal + Abort>(
    rt: &R,
    steps: &[Step],
    held: usize,
    len: usize,
) -> Result<(), Memory> {
    let mut ranges = Ranges::new(rt.alloc(), 8)?;
    for step in steps {
        match *step {
            Take(k, len, base) => assert_eq!(rt; ranges.take(k, len)?, Some(base)),
            Release(k) => assert!(rt; ranges.release(k)),
        }
    }
    assert_eq!(rt; ranges.held(), held);
    assert_eq!(rt; ranges.len(), len);
    Ok(())
}

#[test]
fn the_first_hole_that_fits_is_taken(rt: HostRuntime) -> Result<(), Fail> {
    // The front of a hole, the end where none fits, and what is left of the hole.
    let first = [
        Take(0, 4, 0),
        Take(1, 2, 4),
        Release(0),
        Take(2, 3, 0),
        Take(3, 2, 6),
        Take(4, 1, 3),
    ];
    steps(&rt, first.as_slice(), 8, 8)?;
    // The second of two holes, and the end with the hole before it: docs/MEMORY.md has the picture.
    let picture = [
        Take(0, 3, 0),
        Take(1, 2, 3),
        Take(2, 2, 5),
        Take(3, 1, 7),
        Take(4, 3, 8),
        Take(5, 1, 11),
        Take(6, 1, 12),
        Release(1),
        Release(4),
        Release(6),
        Take(7, 3, 8),
        Take(1, 4, 12),
    ];
    steps(&rt, picture.as_slice(), 14, 16)?;
    Ok(())
}

#[test]
fn holes_side_by_side_are_one(rt: HostRuntime) -> Result<(), Fail> {
    // With the hole behind, which is the first of all.
    let behind = [
        Take(0, 3, 0),
        Take(1, 3, 3),
        Take(2, 3, 6),
        Release(1),
        Release(0),
        Take(3, 6, 0),
    ];
    steps(&rt, behind.as_slice(), 9, 9)?;
    // With the one before, and with both.
    let between = [
        Take(0, 2, 0),
        Take(1, 2, 2),
        Take(2, 2, 4),
        Take(3, 2, 6),
        Take(4, 2, 8),
        Release(0),
        Release(1),
        Release(3),
        Release(2),
        Take(5, 8, 0),
        Release(4),
        Take(6, 5, 8),
    ];
    steps(&rt, between.as_slice(), 13, 13)?;
    Ok(())
}

/// The places of a region by rising number, each held or not.
#[derive(Drop)]
struct Places {
    held: Vec<bool>,
}

impl Places {
    /// The first place from which so many are free, as many as there are.
    fn first_fit(&self, len: usize) -> usize {
        let mut base = 0usize;
        for (p, held) in self.held.as_slice().iter().enumerate() {
            if *held {
                base = p.saturating_add(1);
            } else if p.saturating_add(1).saturating_sub(base) == len {
                return base;
            }
        }
        base
    }

    /// Makes the places of a range held or free.
    fn set(&mut self, range: Held, now: bool) -> Result<(), Memory> {
        let end = range.base.saturating_add(range.len);
        if self.held.len() < end {
            self.held.resize(end, false)?;
        }
        for (p, held) in self.held.as_mut_slice().iter_mut().enumerate() {
            if range.base <= p && p < end {
                *held = now;
            }
        }
        Ok(())
    }

    fn count(&self) -> usize {
        self.held.as_slice().iter().filter(|held| **held).count()
    }
}

#[test]
fn random_ranges_are_those_of_a_plain_list(rt: HostRuntime) -> Result<(), Fail> {
    let mut random = Pcg32::seed_from_u64(21);
    let mut ranges = Ranges::new(rt.alloc(), 64)?;
    let mut places = Places {
        held: Vec::new(rt.alloc()),
    };
    for _ in 0..1000 {
        let k = (random.next_u32() % 64) as usize;
        let len = (random.next_u32() % 12 + 1) as usize;
        if let Some(range) = ranges.get(k) {
            assert!(rt; ranges.release(k));
            places.set(range, false)?;
        } else {
            let base = places.first_fit(len);
            assert_eq!(rt; ranges.take(k, len)?, Some(base));
            places.set(Held { base, len }, true)?;
        }
        assert_eq!(rt; ranges.held(), places.count());
        assert_eq!(rt; ranges.len(), places.held.len());
    }
    Ok(())
}

/// Writes rising numbers into the first four places of a slot's range, from this one on.
fn numbers<R: Abort>(rt: &R, ranges: &mut Ranges, k: usize, from: i64) {
    for at in 0..4 {
        assert!(rt; ranges.write(k, at, Word::Int(from.saturating_add(at as i64))));
    }
}

/// Compares the first four places of a slot's range with rising numbers, from this one on.
fn are_numbers<R: Abort>(rt: &R, ranges: &Ranges, k: usize, from: i64) {
    for at in 0..4 {
        assert_eq!(rt;
            ranges.read(k, at),
            Some(Word::Int(from.saturating_add(at as i64)))
        );
    }
}

#[test]
fn copies_keep_the_words_of_a_message(rt: HostRuntime) -> Result<(), Fail> {
    let mut ranges = Ranges::new(rt.alloc(), 8)?;
    assert_eq!(rt; ranges.take(0, 4)?, Some(0));
    numbers(&rt, &mut ranges, 0, 1);
    assert_eq!(rt; ranges.hold(0, 1)?, Some(Held { base: 4, len: 4 }));
    assert_eq!(rt; ranges.take(2, 4)?, Some(8));
    assert_eq!(rt; ranges.read(2, 0), Some(Word::Undef));
    // What is stored at the source after the copy is not in it.
    assert!(rt; ranges.write(0, 0, Word::Int(9)));
    assert!(rt; ranges.land(1, 2));
    are_numbers(&rt, &ranges, 2, 1);
    assert_eq!(rt; ranges.held(), 8);
    assert_eq!(rt; ranges.take(3, 3)?, Some(4));
    // A copy that is not received leaves no word and no place behind.
    assert_eq!(rt; ranges.hold(2, 4)?, Some(Held { base: 12, len: 4 }));
    assert!(rt; ranges.discard(4));
    assert_eq!(rt; ranges.held(), 11);
    assert_eq!(rt; ranges.len(), 16);
    // A message goes from place to place at once.
    assert!(rt; ranges.direct(2, 0));
    are_numbers(&rt, &ranges, 0, 1);
    are_numbers(&rt, &ranges, 2, 1);
    assert_eq!(rt; ranges.held(), 11);
    let words = ranges.into_words();
    let all = words.as_slice();
    assert_eq!(rt; all.get(3), Some(&Word::Int(4)));
    assert_eq!(rt; all.get(11), Some(&Word::Int(4)));
    assert_eq!(rt; words.len(), 16);
    Ok(())
}

/// The object whose marks are changed.
const OWNER: Owner = Owner::Task(2);

const OBJ: Obj = Obj::Dyn(1);

/// A row of so many places.
fn row(owner: Owner, obj: Obj, len: u32) -> Row {
    Row {
        owner,
        obj,
        kind: RowKind::Local,
        base: 3,
        len,
    }
}

#[test]
fn marks_come_and_go_where_they_may(rt: HostRuntime) -> Result<(), Fail> {
    let mut table = Table::new(rt.alloc());
    assert!(rt; add(&mut table, row(OWNER, OBJ, 4))?.is_some());
    let acts = [
        (Act::Send, 0, 3, true, [Sends(1), Sends(1), Sends(1), Free]),
        (
            Act::Send,
            2,
            2,
            true,
            [Sends(1), Sends(1), Sends(2), Sends(1)],
        ),
        // No receive beside a send, and the end of a receive only where there is one.
        (
            Act::Receive,
            2,
            1,
            false,
            [Sends(1), Sends(1), Sends(2), Sends(1)],
        ),
        (
            Act::EndReceive,
            2,
            1,
            false,
            [Sends(1), Sends(1), Sends(2), Sends(1)],
        ),
        // The first send ends; its own places do not end a second time.
        (Act::EndSend, 0, 3, true, [Free, Free, Sends(1), Sends(1)]),
        (Act::EndSend, 0, 3, false, [Free, Free, Sends(1), Sends(1)]),
        (Act::Receive, 1, 2, false, [Free, Free, Sends(1), Sends(1)]),
        (
            Act::Receive,
            0,
            2,
            true,
            [Receive, Receive, Sends(1), Sends(1)],
        ),
        (
            Act::Send,
            1,
            2,
            false,
            [Receive, Receive, Sends(1), Sends(1)],
        ),
        (
            Act::Receive,
            1,
            1,
            false,
            [Receive, Receive, Sends(1), Sends(1)],
        ),
        (Act::EndSend, 2, 2, true, [Receive, Receive, Free, Free]),
        (Act::Receive, 2, 1, true, [Receive, Receive, Receive, Free]),
        (Act::EndReceive, 0, 3, true, [Free, Free, Free, Free]),
        // Places past the row, and none at all.
        (Act::Send, 2, 3, false, [Free, Free, Free, Free]),
        (Act::Send, 4, 0, true, [Free, Free, Free, Free]),
    ];
    for (act, at, len, done, after) in acts {
        assert_eq!(rt; change(&mut table, OWNER, OBJ, act, at, len), done);
        for (p, mark) in after.iter().enumerate() {
            assert_eq!(rt; mark_of(&table, OWNER, OBJ, p as u32), Some(*mark));
        }
    }
    Ok(())
}

#[test]
fn rows_with_marks_stay(rt: HostRuntime) -> Result<(), Fail> {
    let mut table = Table::new(rt.alloc());
    let local = row(OWNER, OBJ, 2);
    assert!(rt; add(&mut table, local)?.is_some());
    for (begins, ends) in [(Act::Send, Act::EndSend), (Act::Receive, Act::EndReceive)] {
        assert!(rt; change(&mut table, OWNER, OBJ, begins, 1, 1));
        assert_eq!(rt; close(&mut table, OWNER, OBJ), None);
        assert_eq!(rt; row_of(&table, OWNER, OBJ), Some(local));
        assert!(rt; change(&mut table, OWNER, OBJ, ends, 1, 1));
    }
    assert_eq!(rt; close(&mut table, OWNER, OBJ), Some(local));
    assert_eq!(rt; row_of(&table, OWNER, OBJ), None);
    Ok(())
}

/// Rows of three tasks' and instances' objects, some of one number, and of no place, one and more.
fn some_rows() -> [Row; 5] {
    let numa = Owner::Inst {
        level: Level::Numa,
        id: 2,
    };
    [
        row(OWNER, OBJ, 0),
        row(Owner::Task(3), OBJ, 5),
        row(OWNER, Obj::Glob(1), 1),
        row(numa, Obj::Glob(1), 7),
        row(OWNER, Obj::Dyn(4), 2),
    ]
}

#[test]
fn rows_are_found_by_their_names(rt: HostRuntime) -> Result<(), Fail> {
    let mut table = Table::new(rt.alloc());
    for row in some_rows() {
        assert_eq!(rt; row_of(&table, row.owner, row.obj), None);
        assert!(rt; add(&mut table, row)?.is_some());
        assert_eq!(rt; add(&mut table, row)?, None);
    }
    for row in some_rows() {
        assert_eq!(rt; row_of(&table, row.owner, row.obj), Some(row));
    }
    let node = Owner::Inst {
        level: Level::Node,
        id: 2,
    };
    for (owner, obj) in [
        (OWNER, Obj::Dyn(2)),
        (OWNER, Obj::Glob(0)),
        (node, Obj::Glob(1)),
    ] {
        assert_eq!(rt; row_of(&table, owner, obj), None);
    }
    // A row of no places is closed, and its name is free for another one.
    assert_eq!(rt; close(&mut table, OWNER, OBJ), Some(row(OWNER, OBJ, 0)));
    assert_eq!(rt; row_of(&table, OWNER, OBJ), None);
    assert_eq!(rt;
        row_of(&table, Owner::Task(3), OBJ),
        Some(row(Owner::Task(3), OBJ, 5))
    );
    assert!(rt; add(&mut table, row(OWNER, OBJ, 6))?.is_some());
    assert_eq!(rt; row_of(&table, OWNER, OBJ), Some(row(OWNER, OBJ, 6)));
    assert_eq!(rt; table.rows()?.len(), 5);
    Ok(())
}
