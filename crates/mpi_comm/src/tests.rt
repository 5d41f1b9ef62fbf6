//! Communicators from the start to the free, with numbers worked out by hand.
ghost use Rattle.std.specs.Prelude.{◌≡◌, ◌<◌, length, IsSome};
ghost use Rattle.mpc_values.specs.declared.limits.TheConstants.{MAX_GIVEN};
ghost use Rattle.mpi_comm.specs.Seen.{seen_at, alive, members_at};

use crate::{
    Comms, Members, communicators_step_alike, numbers_are_never_given_again,
    splits_order_by_colour_and_key,
};
use std::process::Abort;
use std::test::*;

/// MPI_UNDEFINED.
const UNDEFINED: i32 = -3;

/// That the communicator lives and has so many members.
fn expect_living(rt: &impl Abort, comms: &Comms, comm: u32, size: u32)
    ensures living { IsSome (alive (seen_at comms.now comm)) }
    ensures members { length (members_at comms.now comm) ≡ size }
    ensures few { length comms.now < MAX_GIVEN }
{
    let known = comms.size(comm).expect(rt, "it lives");
    assert_eq!(rt; known, size);
    assert!(rt; comms.count() < 1000);
}

/// That the communicator lives and has these members by rank.
fn expect_members(rt: &impl Abort, comms: &Comms, comm: u32, members: &[u32]) {
    let size = u32::try_from(members.len()).expect(rt, "there are few members");
    assert_eq!(rt; comms.size(comm), Some(size));
    for (rank, task) in (0..size).zip(members.iter()) {
        assert_eq!(rt; comms.member(comm, rank), Some(*task));
        assert_eq!(rt; comms.rank_of(comm, *task), Some(rank));
        assert_eq!(rt; comms.old_rank(comm, *task), Some(rank));
    }
    assert_eq!(rt; comms.member(comm, size), None);
}

#[test]
fn members_hold_their_tasks(rt: HostRuntime) -> Result<(), Fail> {
    let members = Members::of(Vec::from_slice(rt.alloc(), &[2, 0, 1])?);
    assert_eq!(rt; members.as_slice(), [2, 0, 1].as_slice());
    splits_order_by_colour_and_key();
    numbers_are_never_given_again();
    communicators_step_alike();
    Ok(())
}

#[test]
fn world_has_all_tasks(rt: HostRuntime) -> Result<(), Fail> {
    let one = Comms::new(rt.alloc(), 1)?;
    expect_members(&rt, &one, 1, &[0]);
    let most = Comms::new(rt.alloc(), 256)?;
    assert_eq!(rt; most.size(1), Some(256));
    assert_eq!(rt; most.rank_of(1, 255), Some(255));
    assert_eq!(rt; most.rank_of(1, 256), None);
    assert_eq!(rt; most.member(1, 256), None);
    assert_eq!(rt; most.size(0), None);
    assert_eq!(rt; most.size(2), None);
    assert_eq!(rt; most.old_rank(2, 0), None);
    Ok(())
}

// Tasks 0 to 4 ask for the colours 0, 1, 0, MPI_UNDEFINED and 0, task 0 with key 5 and the others with 0. Then the
// three of the first group split by colours 0, 0 and 1 with falling keys.
#[test]
fn five_split_and_split_again(rt: HostRuntime) -> Result<(), Fail> {
    let mut comms = Comms::new(rt.alloc(), 5)?;
    expect_living(&rt, &comms, 1, 5);
    let numbers = comms.split(1, &[0, 1, 0, UNDEFINED, 0], &[5, 0, 0, 0, 0])?;
    assert_eq!(rt; numbers.as_slice(), [2, 3, 2, 0, 2].as_slice());
    expect_members(&rt, &comms, 2, &[2, 4, 0]);
    expect_members(&rt, &comms, 3, &[1]);
    assert_eq!(rt; comms.rank_of(2, 1), None);
    expect_living(&rt, &comms, 2, 3);
    let numbers = comms.split(2, &[0, 0, 1], &[9, -1, 0])?;
    assert_eq!(rt; numbers.as_slice(), [4, 4, 5].as_slice());
    expect_members(&rt, &comms, 4, &[4, 2]);
    expect_members(&rt, &comms, 5, &[0]);
    expect_members(&rt, &comms, 1, &[0, 1, 2, 3, 4]);
    Ok(())
}

// The colours 7, 3 and 7 with keys 0, -1 and -2: the group of colour 3 comes first.
#[test]
fn groups_come_by_rising_colour(rt: HostRuntime) -> Result<(), Fail> {
    let mut comms = Comms::new(rt.alloc(), 3)?;
    expect_living(&rt, &comms, 1, 3);
    let numbers = comms.split(1, &[7, 3, 7], &[0, -1, -2])?;
    assert_eq!(rt; numbers.as_slice(), [3, 2, 3].as_slice());
    expect_members(&rt, &comms, 2, &[1]);
    expect_members(&rt, &comms, 3, &[2, 0]);
    Ok(())
}

#[test]
fn nobody_asks_and_none_is_made(rt: HostRuntime) -> Result<(), Fail> {
    let mut comms = Comms::new(rt.alloc(), 2)?;
    expect_living(&rt, &comms, 1, 2);
    let numbers = comms.split(1, &[UNDEFINED, -1], &[0, 0])?;
    assert_eq!(rt; numbers.as_slice(), [0, 0].as_slice());
    expect_living(&rt, &comms, 1, 2);
    assert_eq!(rt; comms.dup(1)?, 2);
    Ok(())
}

// A freed communicator has no size and no ranks, but for those of messages that were posted before; its number is not
// given again.
#[test]
fn freed_one_keeps_its_number(rt: HostRuntime) -> Result<(), Fail> {
    let mut comms = Comms::new(rt.alloc(), 2)?;
    expect_living(&rt, &comms, 1, 2);
    let made = comms.dup(1)?;
    assert_eq!(rt; made, 2);
    expect_members(&rt, &comms, 2, &[0, 1]);
    expect_living(&rt, &comms, 2, 2);
    comms.free(2);
    assert_eq!(rt; comms.size(2), None);
    assert_eq!(rt; comms.rank_of(2, 1), None);
    assert_eq!(rt; comms.member(2, 1), None);
    assert_eq!(rt; comms.old_rank(2, 1), Some(1));
    assert_eq!(rt; comms.old_rank(2, 2), None);
    expect_living(&rt, &comms, 1, 2);
    assert_eq!(rt; comms.dup(1)?, 3);
    expect_members(&rt, &comms, 3, &[0, 1]);
    assert_eq!(rt; comms.size(2), None);
    Ok(())
}
