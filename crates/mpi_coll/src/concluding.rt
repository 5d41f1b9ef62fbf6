//! The last arrival of a meeting: what all members get, and how the communicators change (MPI 3.1, section 6.4).
ghost use Rattle.std.specs.Prelude.{◌≡◌, ◌≢◌, true, ◌<◌, ◌+◌, ◌∷◌, [], IfOk, OnOk, OnErr, IsSome, length, map};
ghost use Rattle.std.specs.List.{range_with_len};
ghost use Rattle.mpc_values.specs.declared.limits.TheConstants.{MAX_GIVEN};
ghost use Rattle.mpc_values.specs.declared.collectives.CollKind.TheVariants as kind;
ghost use Rattle.mpi_comm.specs.Seen.{seen_at, alive, members_at, duplicated, split_up, ended};
ghost use Rattle.mpi_coll.specs.Concluding.{chosen_by, seen_after, number_to, number_for, outcomes_to};
ghost use Rattle.mpi_coll.specs.Together.{makes_comms};

use crate::gatherings::Gathering;
use crate::results::results;
use crate::shares::{Takers, hand_out};
use mpc_values::{Coll, CollKind, Memory, Word, Words};
use mpi_comm::Comms;
use std::alloc::Global;
use std::mem;

/// The number of the new communicator of each member.
#[derive(Debug, Drop)]
pub(crate) enum Numbers {
    /// All members get one communicator.
    Same(u32),
    /// By rank, 0 where the member gets none.
    Each(Vec<u32>),
}

/// What each member gets of a meeting to which all have come, by rank. A dup, a split and a free change the
/// communicators. After want of memory they are as before.
pub(crate) fn conclude(
    alloc: Global,
    comms: &mut Comms,
    comm: u32,
    coll: &Coll,
    gathering: &Gathering,
    members: u32,
) -> Result<Vec<Words>, Memory>
    requires living { IsSome (alive (seen_at comms.old comm)) }
    requires size { length (members_at comms.old comm) ≡ members }
    requires asked { length gathering.now.asked ≡ members }
    requires given { length gathering.now.given ≡ members }
    requires few { makes_comms coll.now.what ≡ true → length comms.old < MAX_GIVEN }
    requires not_world { coll.now.what ≡ kind.Free → comm ≢ 1 }
    ensures gets { IfOk result (λ all. all.items ≡ outcomes_to coll.now comms.old comm gathering.now.asked gathering.now.given members) }
    ensures after { OnOk result (comms.new ≡ seen_after coll.now.what comms.old comm gathering.now.asked) }
    ensures err { OnErr result (comms.new ≡ comms.old) }
{
    match coll.what {
        CollKind::Dup => duplicate(alloc, comms, comm, members),
        CollKind::Split => divide(alloc, comms, comm, gathering.asked(), members),
        CollKind::Free => {
            let all = results(alloc, coll, gathering.given(), members)?;
            comms.free(comm);
            Ok(all)
        }
        _ => results(alloc, coll, gathering.given(), members),
    }
}

/// MPI_Comm_dup: one new communicator for all members.
fn duplicate(
    alloc: Global,
    comms: &mut Comms,
    comm: u32,
    members: u32,
) -> Result<Vec<Words>, Memory>
    requires living { IsSome (alive (seen_at comms.old comm)) }
    requires few { length comms.old < MAX_GIVEN }
    ensures gets { IfOk result (λ all. all.items ≡ map (λ rank. Word.Comm (length comms.old + 1) ∷ []) (range_with_len 0 members)) }
    ensures after { OnOk result (comms.new ≡ duplicated comms.old (members_at comms.old comm)) }
    ensures err { OnErr result (comms.new ≡ comms.old) }
{
    let mut all = hand_out(alloc, &[Word::Comm(0)], Takers::All, members)?;
    let number = comms.dup(comm)?;
    number_all(alloc, &mut all, members, &Numbers::Same(number));
    Ok(all)
}

/// MPI_Comm_split: a new communicator for each colour.
fn divide(
    alloc: Global,
    comms: &mut Comms,
    comm: u32,
    asked: &[Coll],
    members: u32,
) -> Result<Vec<Words>, Memory>
    requires living { IsSome (alive (seen_at comms.old comm)) }
    requires few { length comms.old < MAX_GIVEN }
    requires size { length (members_at comms.old comm) ≡ members }
    requires asked { length asked.now ≡ members }
    ensures gets { IfOk result (λ all. all.items ≡ map (λ rank. Word.Comm (number_to kind.Split comms.old comm asked.now rank) ∷ []) (range_with_len 0 members)) }
    ensures after { OnOk result (comms.new ≡ split_up comms.old (members_at comms.old comm) (chosen_by asked.now)) }
    ensures err { OnErr result (comms.new ≡ comms.old) }
{
    let mut all = hand_out(alloc, &[Word::Comm(0)], Takers::All, members)?;
    let colours = colours_of(alloc, asked)?;
    let keys = keys_of(alloc, asked)?;
    let numbers = comms.split(comm, colours.as_slice(), keys.as_slice())?;
    let numbers = Numbers::Each(numbers);
    number_all(alloc, &mut all, members, &numbers);
    Ok(all)
}

/// The colour that each asks for.
fn colours_of(alloc: Global, asked: &[Coll]) -> Result<Vec<i32>, Memory>
    ensures { IfOk result (λ colours. colours.items ≡ map (λ (c : Coll). c.colour) asked.now) }
{
    Ok(asked.iter().map(|call| call.colour).collect(alloc)?)
}

/// The key that each asks for.
fn keys_of(alloc: Global, asked: &[Coll]) -> Result<Vec<i32>, Memory>
    ensures { IfOk result (λ keys. keys.items ≡ map (λ (c : Coll). c.key) asked.now) }
{
    Ok(asked.iter().map(|call| call.key).collect(alloc)?)
}

/// Writes to the one word of each member its new communicator. It takes no memory.
fn number_all(alloc: Global, all: &mut Vec<Words>, members: u32, numbers: &Numbers)
    requires { all.old.items ≡ map (λ rank. Word.Comm 0 ∷ []) (range_with_len 0 members) }
    ensures { all.new.items ≡ map (λ rank. Word.Comm (number_for numbers.now rank) ∷ []) (range_with_len 0 members) }
{
    for rank in 0..members {
        set_number(alloc, &mut all[rank as usize], number(numbers, rank));
    }
}

/// The number for the member of a rank, 0 where there is none.
fn number(numbers: &Numbers, rank: u32) -> u32
    ensures { result ≡ number_for numbers.now rank }
{
    match numbers {
        Numbers::Same(number) => *number,
        Numbers::Each(numbers) => match numbers.get(rank as usize) {
            Some(number) => *number,
            None => 0,
        },
    }
}

/// Writes a communicator to the one word of a list.
fn set_number(alloc: Global, words: &mut Words, number: u32)
    requires { length words.old ≡ 1 }
    ensures { words.new ≡ Word.Comm number ∷ [] }
{
    let mut list = mem::replace(words, Words::of(Vec::new(alloc))).into_vec();
    list[0] = Word::Comm(number);
    *words = Words::of(list);
}
