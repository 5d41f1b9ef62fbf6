//! How a split groups the members of a communicator (MPI 3.1, section 6.4.2).
ghost use Rattle.std.specs.Prelude.{◌≡◌, ◌<◌, ◌+◌, ◌≤◌, ◌^◌, map, zip, filter_map, nat_eq, length, AllPairs, IfOk};
ghost use Rattle.std.specs.List.{dedup};
ghost use Rattle.mpi_comm.specs.declared.splitting.Asked.{Asked};
ghost use Rattle.mpi_comm.specs.Splitting.{colour_in, groups_of};
ghost use Rattle.mpi_comm.specs.Numbers.{chosen_of, numbers_in};
ghost use Rattle.mpi_comm.specs.Seen.{made_of, IsGroup, AreGroups};
ghost use Rattle.mpi_comm.specs.Asked.{asked_by, tasks_at, number_at, AreByColour, IsAskedOf};

use crate::communicators::{Members, Seen};
use mpc_values::Memory;
use std::alloc::Global;

/// A member that asks for a colour.
#[derive(Clone, Copy, Debug, PartialEq, Eq)]
pub struct Asked {
    pub colour: u32,
    pub key: i32,
    pub task: u32,
}

/// The numbers of the members' groups, in rank order, where the first group gets the number `first`, and the
/// communicators of the groups.
pub fn grouped(
    alloc: Global,
    first: u32,
    members: &[u32],
    colours: &[i32],
    keys: &[i32],
) -> Result<(Vec<u32>, Vec<Seen>), Memory>
    requires group { IsGroup members.now }
    requires colours { length colours.now ≡ length members.now }
    requires keys { length keys.now ≡ length members.now }
    requires fits { first + 256 < 2 ^ 32 }
    ensures numbers { IfOk result (λ r. r.0.items ≡ numbers_in first (groups_of members.now (chosen_of colours.now keys.now)) members.now) }
    ensures made { IfOk result (λ r. r.1.items ≡ map made_of (groups_of members.now (chosen_of colours.now keys.now))) }
    ensures groups { IfOk result (λ r. AreGroups r.1.items) }
{
    let asked = in_order(alloc, members, colours, keys)?;
    let groups = colours_of(alloc, asked.as_slice())?;
    let numbers = numbers(alloc, first, groups.as_slice(), colours)?;
    let made = made(alloc, asked.as_slice(), groups.as_slice())?;
    Ok((numbers, made))
}

/// The colour's number; `None` for a negative one, as MPI_UNDEFINED.
fn colour_of(colour: i32) -> Option<u32>
    ensures { result ≡ colour_in colour }
{
    if colour < 0 {
        None
    } else {
        Some(colour.unsigned_abs())
    }
}

/// A member with the colour that it asks for, if it asks for one.
fn asked_of(task: u32, colour: i32, key: i32) -> Option<Asked>
    ensures { result ≡ asked_by ((task, colour), key) }
{
    let colour = colour_of(colour)?;
    Some(Asked { colour, key, task })
}

/// The members that ask for a colour, in rank order.
fn by_rank(
    alloc: Global,
    members: &[u32],
    colours: &[i32],
    keys: &[i32],
) -> Result<Vec<Asked>, Memory>
    ensures { IfOk result (λ list. list.items ≡ filter_map asked_by (zip (zip members.now colours.now) keys.now)) }
{
    let asking = members.iter().zip(colours).zip(keys);
    Ok(
        asking
            .filter_map(|((task, colour), key)| asked_of(*task, *colour, *key))
            .collect(alloc)?,
    )
}

/// The members that ask for a colour, by rising colour, those of one colour by key, and those of one key by old rank.
fn in_order(
    alloc: Global,
    members: &[u32],
    colours: &[i32],
    keys: &[i32],
) -> Result<Vec<Asked>, Memory>
    ensures { IfOk result (λ list. IsAskedOf (zip members.now (chosen_of colours.now keys.now)) list.items) }
{
    let mut list = by_rank(alloc, members, colours, keys)?;
    list.sort_by_key(|a| a.key)?;
    list.sort_by_key(|a| a.colour)?;
    Ok(list)
}

/// The colours of a list by rising colour, each once.
fn colours_of(alloc: Global, asked: &[Asked]) -> Result<Vec<u32>, Memory>
    requires { AreByColour asked.now }
    ensures colours { IfOk result (λ colours. colours.items ≡ dedup nat_eq (map (λ (a : Asked). a.colour) asked.now)) }
    ensures rising { IfOk result (λ colours. AllPairs (λ a b. a < b) colours.items) }
    ensures few { IfOk result (λ colours. length colours.items ≤ length asked.now) }
{
    let mut colours = all_colours(alloc, asked)?;
    colours.dedup();
    Ok(colours)
}

/// The tasks of one colour, of a list by rising colour.
fn tasks_of(alloc: Global, asked: &[Asked], colour: u32) -> Result<Vec<u32>, Memory>
    requires { AreByColour asked.now }
    ensures { IfOk result (λ tasks. tasks.items ≡ tasks_at asked.now colour) }
{
    let from = asked.partition_point(|a| a.colour < colour);
    let rest = &asked[from..];
    let count = rest.partition_point(|a| a.colour <= colour);
    all_tasks(alloc, &rest[..count])
}

/// The colour of each.
fn all_colours(alloc: Global, asked: &[Asked]) -> Result<Vec<u32>, Memory>
    ensures { IfOk result (λ colours. colours.items ≡ map (λ (a : Asked). a.colour) asked.now) }
{
    Ok(asked.iter().map(|a| a.colour).collect(alloc)?)
}

/// The task of each.
fn all_tasks(alloc: Global, asked: &[Asked]) -> Result<Vec<u32>, Memory>
    ensures { IfOk result (λ tasks. tasks.items ≡ map (λ (a : Asked). a.task) asked.now) }
{
    Ok(asked.iter().map(|a| a.task).collect(alloc)?)
}

/// The number of the group that each colour has, in the order of the colours: 0 for a negative one.
fn numbers(alloc: Global, first: u32, groups: &[u32], colours: &[i32]) -> Result<Vec<u32>, Memory>
    requires rising { AllPairs (λ a b. a < b) groups.now }
    requires fits { first + length groups.now < 2 ^ 32 }
    ensures { IfOk result (λ numbers. numbers.items ≡ map (λ colour. number_at first groups.now (colour_in colour)) colours.now) }
{
    Ok(
        colours
            .iter()
            .map(|colour| number_of(first, groups, colour_of(*colour)))
            .collect(alloc)?,
    )
}

/// The number of the group of a colour.
fn number_of(first: u32, groups: &[u32], colour: Option<u32>) -> u32
    requires rising { AllPairs (λ a b. a < b) groups.now }
    requires fits { first + length groups.now < 2 ^ 32 }
    ensures { result ≡ number_at first groups.now colour }
{
    match colour {
        Some(colour) => match groups.binary_search(&colour) {
            Ok(index) => first + index as u32,
            Err(_) => 0,
        },
        None => 0,
    }
}

/// The communicators of these colours, of a list by rising colour.
fn made(alloc: Global, asked: &[Asked], colours: &[u32]) -> Result<Vec<Seen>, Memory>
    requires sorted { AreByColour asked.now }
    requires few { length asked.now ≤ 256 }
    ensures { IfOk result (λ made. made.items ≡ map (λ colour. made_of (tasks_at asked.now colour)) colours.now) }
{
    let mut made = Vec::new(alloc);
    for colour in colours {
        made.push(Seen {
            members: Members::of(tasks_of(alloc, asked, *colour)?),
            lives: true,
        })?;
    }
    Ok(made)
}
