//! What members get, by hand, and the laws, called once.

use crate::comparing::agrees;
use crate::meeting_tests::arrives;
use crate::{
    Meetings, arguments_are_looked_at_where_they_count, members_get_their_results,
    members_meet_in_turn, standing_tables_meet_the_conditions, tables_follow_the_arrivals,
};
use mpc_values::{Coll, CollKind, Datatype, Op, Word, Words};
use mpi_comm::Comms;
use std::process::Abort;
use std::test::*;

const INT_MIN: i64 = -2147483648;

const INT_MAX: i64 = 2147483647;

/// A call of a kind with MPI_INT, MPI_SUM, the root 1 and a count.
fn call(what: CollKind, count: i32) -> Coll {
    Coll {
        what,
        comm: Word::Comm(1),
        root: 1,
        op: Op::Sum,
        kind: Datatype::Int,
        count,
        other: count,
        from: Word::Null,
        into: Word::Null,
        colour: 0,
        key: 0,
    }
}

/// Compares what the members get with what is wanted: of each member the number of its words, and then these. Each member
/// gives as many of the numbers, in rank order. All arrive in the reverse order, and then leave.
fn gives<R: AllocGlobal + Abort>(
    rt: &R,
    coll: &Coll,
    each: usize,
    given: &[i64],
    want: &[i64],
) -> Result<(), Fail> {
    let mut all = Vec::new(rt.alloc());
    for numbers in given.chunks(each.max(1)) {
        let mut words = Vec::new(rt.alloc());
        for number in numbers {
            words.push(Word::Int(*number))?;
        }
        all.push(Words::of(words))?;
    }
    assert!(rt; all.len() > 0 && all.len() < 100);
    let members = all.len() as u32;
    let mut comms = Comms::new(rt.alloc(), members)?;
    let mut meetings = Meetings::new(rt.alloc(), members)?;
    let mut rank = members;
    for words in all.iter().rev() {
        rank = rank.saturating_sub(1);
        let answer = arrives(
            rt,
            &mut meetings,
            &mut comms,
            (1, rank),
            coll,
            words.as_slice(),
        )?;
        assert_eq!(rt; answer, Ok(()));
    }
    let mut told = Vec::new(rt.alloc());
    for rank in 0..members {
        assert!(rt; meetings.ready(1, rank));
        let words = meetings.leave(1, rank);
        told.push(words.as_slice().len() as i64)?;
        for word in words.as_slice() {
            match word {
                Word::Int(number) => told.push(*number)?,
                _ => told.push(0)?,
            }
        }
    }
    assert_eq!(rt; told.as_slice(), want, "{:?}", coll.what);
    Ok(())
}

#[test]
fn five_members_fold_along_their_ranks(rt: HostRuntime) -> Result<(), Fail> {
    let ones = [1, 2, 3, 4, 5];
    gives(
        &rt,
        &call(CollKind::Scan, 1),
        1,
        &ones,
        &[1, 1, 1, 3, 1, 6, 1, 10, 1, 15],
    )?;
    gives(
        &rt,
        &call(CollKind::Exscan, 1),
        1,
        &ones,
        &[0, 1, 1, 1, 3, 1, 6, 1, 10],
    )?;
    gives(
        &rt,
        &call(CollKind::Reduce, 1),
        1,
        &ones,
        &[0, 1, 15, 0, 0, 0],
    )?;
    gives(
        &rt,
        &call(CollKind::Allreduce, 1),
        1,
        &ones,
        &[1, 15, 1, 15, 1, 15, 1, 15, 1, 15],
    )?;
    gives(&rt, &call(CollKind::Barrier, 0), 1, &ones, &[0, 0, 0, 0, 0])?;
    Ok(())
}

#[test]
fn members_move_two_words(rt: HostRuntime) -> Result<(), Fail> {
    // Two members, two words for each rank: the words of rank 0 are 1 to 4, those of rank 1 are 5 to 8.
    let eight = [1, 2, 3, 4, 5, 6, 7, 8];
    gives(
        &rt,
        &call(CollKind::Alltoall, 2),
        4,
        &eight,
        &[4, 1, 2, 5, 6, 4, 3, 4, 7, 8],
    )?;
    gives(
        &rt,
        &call(CollKind::Scatter, 2),
        4,
        &eight,
        &[2, 5, 6, 2, 7, 8],
    )?;
    // Three members with two words each, and the root 1.
    let six = [1, 2, 3, 4, 5, 6];
    gives(
        &rt,
        &call(CollKind::Gather, 2),
        2,
        &six,
        &[0, 6, 1, 2, 3, 4, 5, 6, 0],
    )?;
    gives(
        &rt,
        &call(CollKind::Bcast, 2),
        2,
        &six,
        &[2, 3, 4, 0, 2, 3, 4],
    )?;
    gives(
        &rt,
        &call(CollKind::Allgather, 2),
        2,
        &[1, 2, 3, 4],
        &[4, 1, 2, 3, 4, 4, 1, 2, 3, 4],
    )?;
    Ok(())
}

#[test]
fn operations_fold_at_the_ends_of_both_types(rt: HostRuntime) -> Result<(), Fail> {
    for (op, int, long) in [
        (Op::Max, INT_MAX, i64::MAX),
        (Op::Min, INT_MIN, i64::MIN),
        (Op::Sum, -1, -1),
        (Op::Prod, INT_MIN, i64::MIN),
        (Op::Land, 1, 1),
        (Op::Band, 0, 0),
        (Op::Lor, 1, 1),
        (Op::Bor, -1, -1),
        (Op::Lxor, 0, 0),
        (Op::Bxor, -1, -1),
    ] {
        let reduce = Coll {
            op,
            ..call(CollKind::Reduce, 1)
        };
        gives(&rt, &reduce, 1, &[INT_MIN, INT_MAX], &[0, 1, int])?;
        let wide = Coll {
            kind: Datatype::Long,
            ..reduce
        };
        gives(&rt, &wide, 1, &[i64::MIN, i64::MAX], &[0, 1, long])?;
    }
    // One contribution alone stays as it is.
    let alone = Coll {
        op: Op::Land,
        ..call(CollKind::Allreduce, 1)
    };
    gives(&rt, &alone, 1, &[5], &[1, 5])
}

#[test]
fn calls_of_a_meeting_agree(rt: HostRuntime) {
    let bcast = call(CollKind::Bcast, 1);
    assert!(rt;
        agrees(
            &bcast,
            &Coll {
                op: Op::Max,
                other: 2,
                ..bcast
            }
        )
    );
    assert!(rt; !agrees(&bcast, &Coll { root: 0, ..bcast }));
    assert!(rt;
        !agrees(
            &bcast,
            &Coll {
                kind: Datatype::Long,
                ..bcast
            }
        )
    );
    assert!(rt; !agrees(&bcast, &call(CollKind::Bcast, 2)));
    assert!(rt; !agrees(&bcast, &call(CollKind::Barrier, 1)));
    let scan = call(CollKind::Scan, 1);
    assert!(rt;
        !agrees(
            &scan,
            &Coll {
                op: Op::Max,
                ..scan
            }
        )
    );
    assert!(rt; agrees(&scan, &Coll { root: 0, ..scan }));
    let scatter = call(CollKind::Scatter, 1);
    assert!(rt;
        agrees(
            &scatter,
            &Coll {
                count: 2,
                ..scatter
            }
        )
    );
    assert!(rt;
        !agrees(
            &scatter,
            &Coll {
                other: 2,
                ..scatter
            }
        )
    );
}

#[test]
fn laws_are_called(_rt: HostRuntime) -> Result<(), Fail> {
    members_get_their_results();
    members_meet_in_turn();
    arguments_are_looked_at_where_they_count();
    tables_follow_the_arrivals();
    standing_tables_meet_the_conditions();
    Ok(())
}
