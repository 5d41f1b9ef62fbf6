//! The arguments of an MPI function, read as what is due.
ghost use Rattle.std.specs.Prelude.{◌≡◌};
ghost use Rattle.c_tree.specs.Scripts as due;

use crate::words::{comm_of, int_of, moved, pointer_of};
use c_tree::program::MpiCall;
use c_tree::scripts::{CollArguments, PostingArguments, Target};
use mpc_values::{Call, Coll, CollKind, Datatype, Fault, Op, Word};

/// The argument of a number.
fn argument(arguments: &[Word], number: u32) -> Word
    ensures { result ≡ due.argument arguments.now number }
{
    match arguments.get(number as usize) {
        Some(word) => *word,
        None => Word::Null,
    }
}

/// The argument read as an int.
pub(crate) fn number_at(arguments: &[Word], number: u32) -> i32
    ensures { result ≡ due.number_at arguments.now number }
{
    int_of(argument(arguments, number))
}

/// The argument read as a communicator.
pub(crate) fn comm_at(arguments: &[Word], number: u32) -> Word
    ensures { result ≡ due.comm_at arguments.now number }
{
    comm_of(argument(arguments, number))
}

/// The argument read as a pointer.
pub(crate) fn pointer_at(arguments: &[Word], number: u32) -> Word
    ensures { result ≡ due.pointer_at arguments.now number }
{
    pointer_of(argument(arguments, number))
}

fn number_or(arguments: &[Word], number: Option<u32>) -> i32
    ensures { result ≡ due.number_or arguments.now number }
{
    match number {
        Some(number) => number_at(arguments, number),
        None => 0,
    }
}

fn pointer_or(arguments: &[Word], number: Option<u32>) -> Word
    ensures { result ≡ due.pointer_or arguments.now number }
{
    match number {
        Some(number) => pointer_at(arguments, number),
        None => Word::Null,
    }
}

/// The place that a target names, for the request of an index.
pub(crate) fn place_of(arguments: &[Word], index: u32, target: Target) -> Result<Word, Fault>
    ensures { result ≡ due.place_of arguments.now index target }
{
    match target {
        Target::At(number) => Ok(pointer_at(arguments, number)),
        Target::Each { argument, words } => {
            let further = u64::from(words) * u64::from(index);
            moved(pointer_at(arguments, argument), i128::from(further))
        }
    }
}

/// The place of one word of a status: the first is the status's own place.
pub(crate) fn word_behind(place: Word, word: u32) -> Result<Word, Fault>
    ensures { result ≡ due.word_behind (Ok place) word }
{
    if word == 0 {
        Ok(place)
    } else {
        moved(place, i128::from(word))
    }
}

/// A send with these arguments.
pub(crate) fn send_of(mpi: &MpiCall, arguments: &[Word], p: PostingArguments, sync: bool) -> Call
    ensures { result ≡ due.send_of mpi.now arguments.now p sync }
{
    Call::Send {
        at: pointer_at(arguments, p.at),
        count: number_at(arguments, p.count),
        kind: mpi.kind,
        peer: number_at(arguments, p.peer),
        tag: number_at(arguments, p.tag),
        comm: comm_at(arguments, p.comm),
        sync,
    }
}

/// A receive with these arguments.
pub(crate) fn recv_of(mpi: &MpiCall, arguments: &[Word], p: PostingArguments) -> Call
    ensures { result ≡ due.recv_of mpi.now arguments.now p }
{
    Call::Recv {
        at: pointer_at(arguments, p.at),
        count: number_at(arguments, p.count),
        kind: mpi.received,
        peer: number_at(arguments, p.peer),
        tag: number_at(arguments, p.tag),
        comm: comm_at(arguments, p.comm),
    }
}

/// The part of a collective call with these arguments.
pub(crate) fn coll_of(mpi: &MpiCall, arguments: &[Word], c: &CollArguments) -> Coll
    ensures { result ≡ due.coll_of mpi.now arguments.now c.now }
{
    Coll {
        what: c.kind,
        comm: comm_at(arguments, c.comm),
        root: number_or(arguments, c.root),
        op: mpi.op,
        kind: mpi.kind,
        count: number_or(arguments, c.count),
        other: number_or(arguments, c.other),
        from: pointer_or(arguments, c.from),
        into: pointer_or(arguments, c.into),
        colour: number_or(arguments, c.colour),
        key: number_or(arguments, c.key),
    }
}

/// The end of a communicator.
pub(crate) fn free_of(comm: Word) -> Coll
    ensures { result ≡ due.free_of comm }
{
    Coll {
        what: CollKind::Free,
        comm,
        root: 0,
        op: Op::Sum,
        kind: Datatype::Int,
        count: 0,
        other: 0,
        from: Word::Null,
        into: Word::Null,
        colour: 0,
        key: 0,
    }
}
