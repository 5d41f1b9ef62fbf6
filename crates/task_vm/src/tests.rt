//! Words moved, compared and printed, the slots of functions that call each other, and a task that asks,
//! is answered and ends.
ghost use Rattle.std.specs.Prelude.{◌≡◌, true, false, IfOk, IfSome};
ghost use Rattle.task_vm.specs.Sample.{sample_code};
ghost use Rattle.task_vm.specs.Tasks.{IsAsking};

use crate::frames::Frames;
use crate::printing::printed;
use crate::words::{elements, malloc_words, moved, read_as};
use crate::{Task, Want};
use c_code::{Code, Entry, Instr};
use c_tree::formats::{Format, Piece};
use c_tree::program::{Scalar, Width};
use c_tree::words::{holds, same_word};
use mpc_values::{Answer, Call, Fault, Obj, Text, Word};
use std::alloc::{AllocError, Global};
use std::sync::Arc;
use std::test::*;

const LAST: Word = Word::Ptr {
    obj: Obj::Dyn(3),
    at: 4294967295,
};

const PLACE: Word = Word::Ptr {
    obj: Obj::Glob(0),
    at: 0,
};

#[test]
fn pointers_move_within_their_places(rt: HostRuntime) {
    let first = Word::Ptr {
        obj: Obj::Dyn(3),
        at: 0,
    };
    for (word, distance, wanted) in [
        (first, 4294967295, Ok(LAST)),
        (LAST, -4294967295, Ok(first)),
        (LAST, 1, Err(Fault::Bounds)),
        (first, -1, Err(Fault::Bounds)),
        (Word::Null, 0, Err(Fault::NullAccess)),
        (Word::Int(8), 1, Err(Fault::NullAccess)),
    ] {
        assert_eq!(rt; moved(word, distance), wanted);
    }
    assert_eq!(rt; elements(false, 3, -7), -21);
    assert_eq!(rt;
        elements(true, 4294967295, i64::MIN),
        39614081247908796759917199360
    );
}

#[test]
fn words_are_read_as_what_is_due(rt: HostRuntime) {
    for (bytes, words) in [(0, 0), (3, 0), (4, 1), (15, 3), (-1, -1), (i64::MIN, -1)] {
        assert_eq!(rt; malloc_words(4, bytes), words);
    }
    for (word, condition) in [
        (Word::Int(0), false),
        (Word::Int(-1), true),
        (Word::Null, false),
        (LAST, true),
        (Word::Req(1), false),
    ] {
        assert_eq!(rt; holds(word), condition);
    }
    let int = Scalar::Number(Width::Int);
    assert_eq!(rt; read_as(int, Word::Int(4294967295)), Word::Int(-1));
    assert_eq!(rt; read_as(int, LAST), Word::Int(0));
    assert_eq!(rt; read_as(Scalar::Comm, Word::Int(1)), Word::Comm(0));
    assert!(rt; same_word(LAST, LAST));
    assert!(rt;
        !same_word(
            LAST,
            Word::Ptr {
                obj: Obj::Glob(3),
                at: 4294967295
            }
        )
    );
    assert!(rt; !same_word(Word::Comm(1), Word::Req(1)));
}

#[test]
fn numbers_stand_in_their_format(rt: HostRuntime) -> Result<(), Fail> {
    let alloc = rt.alloc();
    let before = Text::of(Vec::from_slice(alloc, b"rank ")?);
    let between = Text::of(Vec::from_slice(alloc, b": ")?);
    let format = Format::of(vec![in alloc;
        Piece::Text(before),
        Piece::Number,
        Piece::Text(between),
        Piece::Number,
    ]?);
    let numbers = [Word::Int(0), Word::Int(i64::MIN)];
    let Ok(text) = printed(alloc, &format, &numbers) else {
        panic!(rt; "short of memory");
    };
    assert_eq!(rt; text.as_slice(), b"rank 0: -9223372036854775808".as_slice());
    Ok(())
}

#[test]
fn slots_are_those_of_the_present_function(rt: HostRuntime) {
    let alloc = rt.alloc();
    let Ok(mut frames) = Frames::new(alloc, 2, &[Word::Int(1)]) else {
        panic!(rt; "short of memory");
    };
    frames.set(1, Word::Int(2));
    let Ok(()) = frames.enter(17, 4, 3, &[Word::Null]) else {
        panic!(rt; "short of memory");
    };
    assert_eq!(rt; frames.depth(), 1);
    frames.set(0, Word::Req(5));
    frames.set(3, Word::Req(6));
    for (slot, word) in [(0, Word::Req(5)), (1, Word::Undef), (3, Word::Undef)] {
        assert_eq!(rt; frames.get(slot), word);
    }
    assert_eq!(rt; frames.leave(), Some((17, 4)));
    for (slot, word) in [(0, Word::Int(1)), (1, Word::Int(2)), (2, Word::Undef)] {
        assert_eq!(rt; frames.get(slot), word);
    }
    assert_eq!(rt; frames.leave(), None);
}

// Code that loads an int at line 4, and ends at line 5 with whether it holds.
fn sample(alloc: Global) -> Result<Code, AllocError>
    ensures { IfOk result (λ code. code ≡ sample_code) }
{
    let load = Instr::Load {
        scalar: Scalar::Number(Width::Int),
        line: 4,
    };
    let instrs = vec![in alloc;
        Instr::Push(PLACE),
        load,
        Instr::Truth,
        Instr::Return { line: 5 },
    ]?;
    let entries = vec![in alloc; Entry { start: 0, slots: 0 }]?;
    Ok(Code::of(instrs, entries, 0, 0))
}

// The call that a task comes to, and its line.
fn next_call(task: &mut Task) -> Option<(Call, u32)>
    requires { task.old.over ≡ false }
    ensures asks { IfSome result (λ p. IsAsking task.new p.0 p.1) }
    ensures asked { IfSome result (λ _. task.new.asked ≡ true) }
    ensures goes { task.new.over ≡ false }
{
    match task.advance() {
        Ok(want) => match want {
            Want::Ask { call, line } => Some((call, line)),
        },
        Err(_) => None,
    }
}

#[test]
fn a_task_asks_is_answered_and_ends(rt: HostRuntime) -> Result<(), Fail> {
    let alloc = rt.alloc();
    let code = Arc::new(alloc, sample(alloc)?)?;
    let Ok(mut task) = Task::new(alloc, code) else {
        panic!(rt; "short of memory");
    };
    let Some((call, line)) = next_call(&mut task) else {
        panic!(rt; "short of memory");
    };
    let Call::Load { at } = call else {
        panic!(rt; "another call");
    };
    assert_eq!(rt; at, PLACE);
    assert_eq!(rt; line, 4);
    task.give(Answer::Gives(Word::Int(-3)));
    let Some((call, line)) = next_call(&mut task) else {
        panic!(rt; "short of memory");
    };
    let Call::Finish { code } = call else {
        panic!(rt; "another call");
    };
    assert_eq!(rt; code, 1);
    assert_eq!(rt; line, 5);
    task.give(Answer::Gives(Word::Int(0)));
    Ok(())
}
