//! The instructions.

use crate::printing::Printed;
use c_tree::program::{Comparison, MpiCall, Operation, Scalar, Update, Width};
use mpc_values::Word;

/// One instruction. It works on the stack of words, whose top is meant by "the word", on the slots of
/// the function's locals, and asks at most one call at a time. A jump says how many instructions it
/// passes. `line` is the source line of what it asks.
#[derive(Debug, Drop)]
pub enum Instr {
    /// Puts a word on the stack.
    Push(Word),
    /// Takes the word off.
    Pop,
    /// Puts a second copy of the word on the stack.
    Duplicate,
    /// Puts a copy of the word under the word below it.
    Tuck,
    /// Puts a local's word on the stack; Uninit where it was never set.
    Get {
        slot: u32,
        line: u32,
    },
    /// Puts the first place of a local in memory on the stack.
    Object {
        slot: u32,
    },
    /// Sets a local to the word, which stays.
    Set {
        slot: u32,
    },
    /// A local has no word.
    Unset {
        slot: u32,
    },
    /// Takes a place off, and puts the word at it on the stack.
    Load {
        scalar: Scalar,
        line: u32,
    },
    /// The same, and the place stays below it.
    Peek {
        scalar: Scalar,
        line: u32,
    },
    /// Takes a word and the place below it off, stores the word there, and puts it back.
    Store {
        line: u32,
    },
    /// Takes a number and the old value below it off, and puts the new value on the stack.
    Update {
        update: Update,
        line: u32,
    },
    Negate {
        width: Width,
        line: u32,
    },
    Complement,
    Not,
    Narrow,
    /// Takes two numbers off, the right one above.
    Arithmetic {
        width: Width,
        operation: Operation,
        line: u32,
    },
    Compare {
        comparison: Comparison,
    },
    Same {
        wanted: bool,
    },
    /// 1 for a word that holds as a condition, and else 0.
    Truth,
    /// Takes a word off, and passes so many instructions where it does not hold.
    Unless(u32),
    /// Passes so many instructions.
    Skip(u32),
    /// Takes a word off; where it holds, counts a turn and goes so many instructions back.
    Again {
        back: u32,
        line: u32,
    },
    /// Counts a turn.
    Tick {
        line: u32,
    },
    /// Takes a number of elements and the pointer below it off, and puts the moved pointer on the stack.
    Offset {
        back: bool,
        words: u32,
        line: u32,
    },
    Malloc {
        size: u32,
        line: u32,
    },
    Free {
        line: u32,
    },
    /// Calls a function with so many arguments, which are taken off; counts a turn.
    Call {
        function: u32,
        count: u32,
        line: u32,
    },
    Print {
        printed: Printed,
        line: u32,
    },
    /// What an MPI function asks of so many arguments, which are taken off; puts 0 on the stack.
    Mpi {
        mpi: MpiCall,
        count: u32,
        line: u32,
    },
    /// Makes the object of a local in memory.
    New {
        slot: u32,
        words: u32,
        line: u32,
    },
    /// Drops the object of a local.
    Release {
        slot: u32,
        line: u32,
    },
    /// Puts a parameter's word on the stack, set or not.
    SaveParam {
        slot: u32,
    },
    /// Makes the object of a parameter, at the line of the function's call.
    NewParam {
        slot: u32,
    },
    /// Takes a word off, and stores it in the object of a parameter, at the line of the call.
    StoreParam {
        slot: u32,
    },
    /// Arrives at a single: a task that runs the block goes on at the next instruction, one that waits at
    /// the one behind it, any other at the one behind that.
    HlsEnter {
        construct: u32,
        line: u32,
    },
    HlsWait {
        construct: u32,
        line: u32,
    },
    HlsExit {
        construct: u32,
        line: u32,
    },
    HlsBar {
        construct: u32,
        line: u32,
    },
    HlsBarWait {
        construct: u32,
        line: u32,
    },
    /// A function with a value has come to its end without one.
    Missing {
        line: u32,
    },
    /// Leaves the function with the word as its value; main asks its end.
    Return {
        line: u32,
    },
}
