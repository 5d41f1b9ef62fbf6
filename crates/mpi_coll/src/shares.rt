//! Words that are handed out to the members of a communicator.
ghost use Rattle.std.specs.Prelude.{◌≡◌, pos, IfOk, map, nat_abs};
ghost use Rattle.std.specs.Ordering.{int_eq};
ghost use Rattle.std.specs.List.{range_with_len};
ghost use Rattle.mpi_coll.specs.Results.{given_by, part_of, joined};
ghost use Rattle.mpi_coll.specs.Shares.{share_of, handed};

use mpc_values::{Memory, Word, Words};
use std::alloc::Global;

/// Which members get words.
#[derive(Clone, Copy, Debug)]
pub(crate) enum Takers {
    All,
    /// The member of this rank alone.
    Root(i32),
    /// All but the member of this rank.
    Others(i32),
}

/// The member's rank is that of the root.
fn is_rank(root: i32, rank: u32) -> bool
    ensures { result ≡ int_eq root (pos rank) }
{
    i64::from(root) == i64::from(rank)
}

/// What the member of a rank gets of words that are handed out.
fn share(words: &[Word], takers: Takers, rank: u32) -> &[Word]
    ensures { result.now ≡ share_of words.now takers rank }
{
    match takers {
        Takers::All => words,
        Takers::Root(root) => { if is_rank(root, rank) { words } else { &[] } }
        Takers::Others(root) => { if is_rank(root, rank) { &[] } else { words } }
    }
}

/// A copy of the words.
pub(crate) fn copy(alloc: Global, words: &[Word]) -> Result<Words, Memory>
    ensures { IfOk result (λ copied. copied ≡ words.now) }
{
    let list = Vec::from_slice(alloc, words)?;
    Ok(Words::of(list))
}

/// The words that the member of a rank gave, none where there is no such member.
pub(crate) fn of_member(given: &[Words], rank: i32) -> &[Word]
    ensures { result.now ≡ given_by given.now (nat_abs rank) }
{
    match given.get(rank.unsigned_abs() as usize) {
        Some(words) => words.as_slice(),
        None => &[],
    }
}

/// The contributions, one after the other.
#[tactic(auto, using(crate::proofs::Ranks::joined_more))]
pub(crate) fn join(alloc: Global, given: &[Words]) -> Result<Words, Memory>
    ensures { IfOk result (λ words. words ≡ joined given.now) }
{
    let mut all = Vec::new(alloc);
    for words in given {
        all.extend_from_slice(words.as_slice())?;
    }
    Ok(Words::of(all))
}

/// The part of some words that is meant for the member of a rank, so many words.
#[tactic(auto, using(crate::proofs::Ranks::product_fits, std::proofs::lemmas::List::drop_min, std::proofs::lemmas::List::take_min))]
fn part(words: &[Word], rank: u32, count: u32) -> &[Word]
    ensures { result.now ≡ part_of rank count words.now }
{
    let before = rank as usize * count as usize;
    let rest = &words[before.min(words.len())..];
    &rest[..(count as usize).min(rest.len())]
}

/// What each of so many members gets of words that are handed out to some.
#[tactic(auto, using(crate::proofs::Ranks::handed_more))]
pub(crate) fn hand_out(
    alloc: Global,
    words: &[Word],
    takers: Takers,
    members: u32,
) -> Result<Vec<Words>, Memory>
    ensures { IfOk result (λ all. all.items ≡ handed words.now takers members) }
{
    let mut all = Vec::with_capacity(alloc, members as usize)?;
    for rank in 0..members {
        all.push(copy(alloc, share(words, takers, rank))?)?;
    }
    Ok(all)
}

/// What each of so many members gets of the root's words in MPI_Scatter: its part.
#[tactic(auto, using(crate::proofs::Ranks::scattered_more))]
pub(crate) fn scatter(
    alloc: Global,
    words: &[Word],
    count: u32,
    members: u32,
) -> Result<Vec<Words>, Memory>
    ensures { IfOk result (λ all. all.items ≡ map (λ rank. part_of rank count words.now) (range_with_len 0 members)) }
{
    let mut all = Vec::with_capacity(alloc, members as usize)?;
    for rank in 0..members {
        all.push(copy(alloc, part(words, rank, count))?)?;
    }
    Ok(all)
}

/// The parts of all contributions that are meant for the member of a rank, one after the other.
#[tactic(auto, using(crate::proofs::Ranks::parts_more))]
fn parts(alloc: Global, given: &[Words], rank: u32, count: u32) -> Result<Words, Memory>
    ensures { IfOk result (λ words. words ≡ joined (map (part_of rank count) given.now)) }
{
    let mut all = Vec::new(alloc);
    for words in given {
        all.extend_from_slice(part(words.as_slice(), rank, count))?;
    }
    Ok(Words::of(all))
}

/// What each of so many members gets in MPI_Alltoall: its part of each contribution.
#[tactic(auto, using(crate::proofs::Ranks::exchanged_more))]
pub(crate) fn exchange(
    alloc: Global,
    given: &[Words],
    count: u32,
    members: u32,
) -> Result<Vec<Words>, Memory>
    ensures { IfOk result (λ all. all.items ≡ map (λ rank. joined (map (part_of rank count) given.now)) (range_with_len 0 members)) }
{
    let mut all = Vec::with_capacity(alloc, members as usize)?;
    for rank in 0..members {
        all.push(parts(alloc, given, rank, count)?)?;
    }
    Ok(all)
}
