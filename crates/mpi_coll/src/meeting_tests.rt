//! Members that arrive at meetings and leave them, call by call, with results worked out by hand.

use crate::Meetings;
use mpc_values::{Coll, CollKind, Datatype, Fault, Memory, Op, Word};
use mpi_comm::Comms;
use std::process::Abort;
use std::test::*;

/// MPI_UNDEFINED.
const UNDEFINED: i32 = -3;

/// A call of a kind with MPI_INT, MPI_SUM and the root 0.
fn call(what: CollKind, count: i32) -> Coll {
    Coll {
        what,
        comm: Word::Comm(1),
        root: 0,
        op: Op::Sum,
        kind: Datatype::Int,
        count,
        other: count,
        from: Word::Null,
        into: Word::Null,
        colour: 0,
        key: 0,
    }
}

/// A member's arrival, where the call may be made.
pub fn arrives<R: AllocGlobal + Abort>(
    rt: &R,
    meetings: &mut Meetings,
    comms: &mut Comms,
    at: (u32, u32),
    coll: &Coll,
    given: &[Word],
) -> Result<Result<(), Fault>, Memory> {
    let (comm, rank) = at;
    let size = comms.size(comm).expect(rt, "it lives");
    assert!(rt; rank < size);
    assert!(rt; comms.count() < 1000);
    assert!(rt; meetings.members(comm) == 0 || meetings.members(comm) == size);
    assert!(rt; meetings.made(comm, rank) < 1000);
    if let CollKind::Free = coll.what {
        assert!(rt; comm != 1);
    }
    meetings.arrive(comms, comm, rank, coll, given)
}

/// A member's arrival that differs from none.
fn comes<R: AllocGlobal + Abort>(
    rt: &R,
    meetings: &mut Meetings,
    comms: &mut Comms,
    at: (u32, u32),
    coll: &Coll,
    given: &[Word],
) -> Result<(), Memory> {
    assert!(rt; !meetings.differs(at.0, at.1, coll));
    let answer = arrives(rt, meetings, comms, at, coll, given)?;
    assert_eq!(rt; answer, Ok(()), "rank {}", at.1);
    Ok(())
}

/// A member that is ready leaves with these words, and is not ready any more.
pub fn leaves<R: Abort>(rt: &R, meetings: &mut Meetings, at: (u32, u32), want: &[Word]) {
    assert!(rt; meetings.ready(at.0, at.1));
    let words = meetings.leave(at.0, at.1);
    assert_eq!(rt; words.as_slice(), want, "rank {}", at.1);
    assert!(rt; !meetings.ready(at.0, at.1));
}

/// A split's arguments: a colour and a key for each rank.
fn split(colour: i32, key: i32) -> Coll {
    Coll {
        colour,
        key,
        ..call(CollKind::Split, 0)
    }
}

// Ranks 0 to 4 ask for the colours 0, 1, 0, MPI_UNDEFINED and 0, rank 0 with key 5. They come in another order.
#[test]
fn five_members_split(rt: HostRuntime) -> Result<(), Fail> {
    let mut comms = Comms::new(rt.alloc(), 5)?;
    let mut meetings = Meetings::new(rt.alloc(), 5)?;
    for (rank, colour, key) in [(3, UNDEFINED, 0), (0, 0, 5), (4, 0, 0), (1, 1, 0)] {
        comes(
            &rt,
            &mut meetings,
            &mut comms,
            (1, rank),
            &split(colour, key),
            &[],
        )?;
        assert!(rt; !meetings.ready(1, rank));
    }
    assert_eq!(rt; comms.size(2), None);
    comes(&rt, &mut meetings, &mut comms, (1, 2), &split(0, 0), &[])?;
    for (rank, number) in [(0, 2), (1, 3), (2, 2), (3, 0), (4, 2)] {
        leaves(&rt, &mut meetings, (1, rank), &[Word::Comm(number)]);
    }
    assert_eq!(rt; comms.size(2), Some(3));
    assert_eq!(rt; comms.size(3), Some(1));
    for (task, comm, rank) in [(0, 2, 2), (1, 3, 0), (2, 2, 0), (4, 2, 1)] {
        assert_eq!(rt; comms.rank_of(comm, task), Some(rank));
    }
    Ok(())
}

// Nobody asks for a communicator, and the next one that is made gets the first number.
#[test]
fn all_ask_for_no_communicator(rt: HostRuntime) -> Result<(), Fail> {
    let mut comms = Comms::new(rt.alloc(), 2)?;
    let mut meetings = Meetings::new(rt.alloc(), 2)?;
    for rank in 0..2 {
        comes(
            &rt,
            &mut meetings,
            &mut comms,
            (1, rank),
            &split(UNDEFINED, 7),
            &[],
        )?;
    }
    for rank in 0..2 {
        leaves(&rt, &mut meetings, (1, rank), &[Word::Comm(0)]);
    }
    assert_eq!(rt; comms.size(2), None);
    for rank in 0..2 {
        comes(
            &rt,
            &mut meetings,
            &mut comms,
            (1, rank),
            &call(CollKind::Dup, 0),
            &[],
        )?;
    }
    for rank in 0..2 {
        leaves(&rt, &mut meetings, (1, rank), &[Word::Comm(2)]);
    }
    assert_eq!(rt; comms.size(2), Some(2));
    Ok(())
}

// Ranks 0 to 3 give 1 to 4 to MPI_Scan, MPI_Exscan and MPI_Allreduce, the last with MPI_MAX.
#[test]
fn four_members_fold_three_times(rt: HostRuntime) -> Result<(), Fail> {
    let mut comms = Comms::new(rt.alloc(), 4)?;
    let mut meetings = Meetings::new(rt.alloc(), 4)?;
    let most = Coll {
        op: Op::Max,
        ..call(CollKind::Allreduce, 1)
    };
    for (coll, sums) in [
        (
            call(CollKind::Scan, 1),
            [Some(1), Some(3), Some(6), Some(10)],
        ),
        (call(CollKind::Exscan, 1), [None, Some(1), Some(3), Some(6)]),
        (most, [Some(4), Some(4), Some(4), Some(4)]),
    ] {
        for rank in 0..4 {
            let own = Word::Int(i64::from(rank) + 1);
            comes(&rt, &mut meetings, &mut comms, (1, rank), &coll, &[own])?;
        }
        let mut rank = 0u32;
        for sum in sums {
            match sum {
                Some(sum) => leaves(&rt, &mut meetings, (1, rank), &[Word::Int(sum)]),
                None => leaves(&rt, &mut meetings, (1, rank), &[]),
            }
            rank = rank.saturating_add(1);
        }
    }
    Ok(())
}

// Rank 0 comes to three meetings before rank 1 comes to the second and rank 2 to the first.
#[test]
fn three_meetings_are_under_way(rt: HostRuntime) -> Result<(), Fail> {
    let mut comms = Comms::new(rt.alloc(), 3)?;
    let mut meetings = Meetings::new(rt.alloc(), 3)?;
    let barrier = call(CollKind::Barrier, 0);
    let sum = call(CollKind::Allreduce, 1);
    let dup = call(CollKind::Dup, 0);
    comes(&rt, &mut meetings, &mut comms, (1, 0), &barrier, &[])?;
    comes(
        &rt,
        &mut meetings,
        &mut comms,
        (1, 0),
        &sum,
        &[Word::Int(4)],
    )?;
    comes(&rt, &mut meetings, &mut comms, (1, 0), &dup, &[])?;
    comes(&rt, &mut meetings, &mut comms, (1, 1), &barrier, &[])?;
    comes(
        &rt,
        &mut meetings,
        &mut comms,
        (1, 1),
        &sum,
        &[Word::Int(5)],
    )?;
    assert!(rt; meetings.differs(1, 2, &sum));
    comes(&rt, &mut meetings, &mut comms, (1, 2), &barrier, &[])?;
    // The first is full, which rank 2 alone waits for.
    assert!(rt; !meetings.ready(1, 0));
    assert!(rt; !meetings.ready(1, 1));
    leaves(&rt, &mut meetings, (1, 2), &[]);
    assert!(rt; meetings.differs(1, 2, &dup));
    comes(
        &rt,
        &mut meetings,
        &mut comms,
        (1, 2),
        &sum,
        &[Word::Int(6)],
    )?;
    assert!(rt; !meetings.ready(1, 0));
    leaves(&rt, &mut meetings, (1, 1), &[Word::Int(15)]);
    comes(&rt, &mut meetings, &mut comms, (1, 1), &dup, &[])?;
    leaves(&rt, &mut meetings, (1, 2), &[Word::Int(15)]);
    assert_eq!(rt; comms.size(2), None);
    comes(&rt, &mut meetings, &mut comms, (1, 2), &dup, &[])?;
    for rank in 0..3 {
        leaves(&rt, &mut meetings, (1, rank), &[Word::Comm(2)]);
    }
    assert_eq!(rt; comms.size(2), Some(3));
    Ok(())
}

// A communicator lives until the last member has come to its free. Its number is not given again.
#[test]
fn last_arrival_frees(rt: HostRuntime) -> Result<(), Fail> {
    let mut comms = Comms::new(rt.alloc(), 2)?;
    let mut meetings = Meetings::new(rt.alloc(), 2)?;
    let dup = call(CollKind::Dup, 0);
    let free = call(CollKind::Free, 0);
    for number in 2..4 {
        for rank in 0..2 {
            comes(&rt, &mut meetings, &mut comms, (1, rank), &dup, &[])?;
        }
        for rank in 0..2 {
            leaves(&rt, &mut meetings, (1, rank), &[Word::Comm(number)]);
        }
        comes(&rt, &mut meetings, &mut comms, (number, 1), &free, &[])?;
        assert_eq!(rt; comms.size(number), Some(2));
        assert!(rt; meetings.differs(number, 0, &dup));
        assert!(rt; !meetings.ready(number, 1));
        comes(&rt, &mut meetings, &mut comms, (number, 0), &free, &[])?;
        assert_eq!(rt; comms.size(number), None);
        leaves(&rt, &mut meetings, (number, 0), &[]);
        leaves(&rt, &mut meetings, (number, 1), &[]);
    }
    Ok(())
}

// Two members broadcast, each from itself. What differs changes nothing.
#[test]
fn member_that_differs_is_told(rt: HostRuntime) -> Result<(), Fail> {
    let mut comms = Comms::new(rt.alloc(), 2)?;
    let mut meetings = Meetings::new(rt.alloc(), 2)?;
    let from_first = call(CollKind::Bcast, 1);
    let from_second = Coll {
        root: 1,
        ..from_first
    };
    comes(
        &rt,
        &mut meetings,
        &mut comms,
        (1, 0),
        &from_first,
        &[Word::Int(7)],
    )?;
    assert!(rt; meetings.differs(1, 1, &from_second));
    let answer = arrives(
        &rt,
        &mut meetings,
        &mut comms,
        (1, 1),
        &from_second,
        &[Word::Int(8)],
    )?;
    assert_eq!(rt; answer, Err(Fault::CollMismatch));
    assert!(rt; !meetings.ready(1, 0));
    comes(&rt, &mut meetings, &mut comms, (1, 1), &from_first, &[])?;
    leaves(&rt, &mut meetings, (1, 1), &[Word::Int(7)]);
    leaves(&rt, &mut meetings, (1, 0), &[]);
    // Another communicator has meetings of its own.
    assert!(rt; !meetings.differs(2, 0, &from_second));
    assert!(rt; !meetings.ready(2, 0));
    Ok(())
}
