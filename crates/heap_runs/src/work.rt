//! What is timed.

use crate::objects::Objects;
use crate::ranges::Ranges;
use crate::spaces::OneTask;
use mpc_values::{Memory, Obj, Owner, Word};
use rand_core::{Rng, SeedableRng};
use rand_pcg::Pcg32;
use std::alloc::Global;

/// The kinds of work.
#[derive(Clone, Copy, Debug, PartialEq, Eq)]
pub enum Work {
    /// Ranges that come and go on top of those that stay, the last taken first: three a round.
    Stack,
    /// In each round one range, in no order, is released and another one taken.
    Random,
    /// A load and a store a round, of one object after the other.
    Access,
    /// The same through the space of a task.
    Space,
}

/// What stands at the end: two numbers, which the kind of work tells.
pub type Counts = (usize, usize);

/// Does the work over so many ranges or objects, for so many rounds. Gives how many places are held and how many there
/// are, or how many loads and stores found their places.
pub fn done(alloc: Global, work: Work, count: usize, rounds: usize) -> Result<Counts, Memory> {
    match work {
        Work::Stack => stack(alloc, count, rounds),
        Work::Random => random(alloc, count, rounds),
        Work::Access => access(alloc, count, rounds),
        Work::Space => space(alloc, count, rounds),
    }
}

fn stack(alloc: Global, count: usize, rounds: usize) -> Result<Counts, Memory> {
    let top = count.saturating_add(1);
    let last = count.saturating_add(2);
    let mut ranges = Ranges::new(alloc, count.saturating_add(3))?;
    for k in 0..count {
        ranges.take(k, k % 4 + 1)?;
    }
    for _ in 0..rounds {
        ranges.take(count, 1)?;
        ranges.take(top, 3)?;
        ranges.take(last, 2)?;
        ranges.release(last);
        ranges.release(top);
        ranges.release(count);
    }
    Ok((ranges.held(), ranges.len()))
}

fn random(alloc: Global, count: usize, rounds: usize) -> Result<Counts, Memory> {
    let mut numbers = Pcg32::seed_from_u64(1);
    let mut ranges = Ranges::new(alloc, count)?;
    for k in 0..count {
        ranges.take(k, some_len(&mut numbers))?;
    }
    for _ in 0..rounds {
        let k = (numbers.next_u32() as usize)
            .checked_rem(count)
            .unwrap_or(0);
        ranges.release(k);
        ranges.take(k, some_len(&mut numbers))?;
    }
    Ok((ranges.held(), ranges.len()))
}

/// A length of 1 to 8.
fn some_len(numbers: &mut Pcg32) -> usize {
    (numbers.next_u32() % 8 + 1) as usize
}

fn access(alloc: Global, count: usize, rounds: usize) -> Result<Counts, Memory> {
    let owner = Owner::Task(0);
    let mut objects = Objects::new(alloc);
    let mut obj = 0u32;
    for _ in 0..count {
        obj = obj.saturating_add(1);
        objects.add(owner, Obj::Dyn(obj), 4)?;
    }
    let most = obj;
    let mut loads = 0usize;
    let mut stores = 0usize;
    for _ in 0..rounds {
        obj = if obj < most { obj.saturating_add(1) } else { 1 };
        if objects.load(owner, Obj::Dyn(obj), 1).is_some() {
            loads = loads.saturating_add(1);
        }
        if objects.store(owner, Obj::Dyn(obj), 1, Word::Int(7)) {
            stores = stores.saturating_add(1);
        }
    }
    Ok((loads, stores))
}

fn space(alloc: Global, count: usize, rounds: usize) -> Result<Counts, Memory> {
    let mut task = OneTask::new(alloc, u32::MAX)?;
    for _ in 0..count {
        task.make(4)?;
    }
    let most = u32::try_from(count).unwrap_or(u32::MAX);
    let mut made = 0u32;
    let mut loads = 0usize;
    let mut stores = 0usize;
    for _ in 0..rounds {
        made = if made < most {
            made.saturating_add(1)
        } else {
            1
        };
        let obj = Obj::Dyn(made);
        if task.store(Word::Ptr { obj, at: 1 }, Word::Int(7)) {
            stores = stores.saturating_add(1);
        }
        if task.load(Word::Ptr { obj, at: 1 }).is_some() {
            loads = loads.saturating_add(1);
        }
    }
    Ok((loads, stores))
}
