//! Contributions folded in rank order (MPI 3.1, sections 5.9 and 5.11).
ghost use Rattle.std.specs.Prelude.{◌≡◌, ◌+◌, ◌<◌, IfOk, List, [], ◌∷◌, map, take, length, slice_index_or};
ghost use Rattle.std.specs.List.{range_with_len};
ghost use Rattle.mpi_args.specs.Folds.{fold_of};
ghost use Rattle.mpi_coll.specs.Results.{number_in, folded_two, folded};

use crate::shares::copy;
use mpc_values::{Datatype, Memory, Op, Word, Words};
use mpi_args::fold;
use std::alloc::Global;

/// The number in a word, 0 in one of another kind.
fn number(word: Word) -> i64
    ensures { result ≡ number_in word }
{
    match word {
        Word::Int(number) => number,
        _ => 0,
    }
}

/// The number at a place of some words.
fn number_at(words: &[Word], place: usize) -> i64
    requires { place < length words.now }
    ensures { result ≡ number_in (slice_index_or words.now place Word.Undef) }
{
    number(words[place])
}

/// The numbers at a place of two contributions folded.
fn word_at(op: Op, kind: Datatype, a: &[Word], b: &[Word], place: usize) -> Word
    requires in_a { place < length a.now }
    requires in_b { place < length b.now }
    ensures { result ≡ Word.Int (fold_of op kind (number_in (slice_index_or a.now place Word.Undef)) (number_in (slice_index_or b.now place Word.Undef))) }
{
    Word::Int(fold(op, kind, number_at(a, place), number_at(b, place)))
}

/// Two contributions folded, place by place.
fn fold_two(alloc: Global, op: Op, kind: Datatype, a: &[Word], b: &[Word]) -> Result<Words, Memory>
    ensures { IfOk result (λ words. words ≡ folded_two op kind a.now b.now) }
{
    let places = a.len().min(b.len());
    let mut all = Vec::with_capacity(alloc, places)?;
    for place in 0..places {
        let word = word_at(op, kind, a, b, place);
        all.push(word)?;
    }
    Ok(Words::of(all))
}

/// All contributions folded. One alone stays as it is.
#[tactic(auto, using(std::proofs::lemmas::List::Sums::fold_more))]
pub(crate) fn fold_all(
    alloc: Global,
    op: Op,
    kind: Datatype,
    given: &[Words],
) -> Result<Words, Memory>
    ensures { IfOk result (λ words. words ≡ folded op kind given.now) }
{
    let Some((first, more)) = given.split_first() else {
        return Ok(Words::of(Vec::new(alloc)));
    };
    let mut all = copy(alloc, first.as_slice())?;
    for next in more {
        all = fold_two(alloc, op, kind, all.as_slice(), next.as_slice())?;
    }
    Ok(all)
}

/// For each member the contributions up to its own folded.
#[tactic(auto, using(std::proofs::lemmas::List::Sums::fold_more, crate::proofs::Folding::along_more))]
pub(crate) fn fold_along(
    alloc: Global,
    op: Op,
    kind: Datatype,
    given: &[Words],
) -> Result<Vec<Words>, Memory>
    ensures { IfOk result (λ all. all.items ≡ map (λ rank. folded op kind (take (rank + 1) given.now)) (range_with_len 0 (length given.now))) }
{
    let mut all = Vec::with_capacity(alloc, given.len())?;
    let Some((first, more)) = given.split_first() else {
        return Ok(all);
    };
    let mut so_far = copy(alloc, first.as_slice())?;
    for next in more {
        let longer = fold_two(alloc, op, kind, so_far.as_slice(), next.as_slice())?;
        all.push(so_far)?;
        so_far = longer;
    }
    all.push(so_far)?;
    Ok(all)
}

/// For each member the contributions before its own folded, nothing for the first.
#[tactic(auto, using(crate::proofs::Folding::before_from_along))]
pub(crate) fn fold_before(
    alloc: Global,
    op: Op,
    kind: Datatype,
    given: &[Words],
) -> Result<Vec<Words>, Memory>
    ensures { IfOk result (λ all. all.items ≡ map (λ rank. folded op kind (take rank given.now)) (range_with_len 0 (length given.now))) }
{
    let Some((_, before)) = given.split_last() else {
        return Ok(Vec::new(alloc));
    };
    let mut all = fold_along(alloc, op, kind, before)?;
    all.insert(0, Words::of(Vec::new(alloc)))?;
    Ok(all)
}
