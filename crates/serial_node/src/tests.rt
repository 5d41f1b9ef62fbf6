//! Tables of calls and what becomes of them, worked out by hand, and one whole run.
ghost use Rattle.std.specs.Prelude.{◌≡◌, IfOk, [], pos};
ghost use Rattle.mpc_values.specs.declared.calls.Call.TheVariants.{Finish};
ghost use Rattle.c_tree.specs.Asking.{Asks};
ghost use Rattle.c_tree.specs.Next.{next_of};
ghost use Rattle.c_tree.specs.ProgramOf.{program_of};

use crate::state::State;
use crate::{Node, Reply, runs_begin_and_end, visits_leave_runs};
use c_tree::Globals;
use c_tree::program::{Constructs, Ending, Function, Params, Program};
use mpc_base::{
    Answer, Call, End, Entry, Fault, Memory, Obj, Out, RankState, StaticVar, Text, Word, Words,
};
use serial_model::Setup;
use std::alloc::Global;
use std::test::*;

// A call, with its text as bytes.
#[derive(Clone, Copy)]
enum Ask {
    Load(Word),
    Store(Word, Word),
    New(u32),
    Drop(Obj),
    Malloc(i64),
    Free(Word),
    Print(&'static [u8]),
    Broke(Fault),
    Finish(i32),
}

fn call_of(alloc: Global, ask: Ask) -> Result<Call, Memory> {
    Ok(match ask {
        Ask::Load(at) => Call::Load { at },
        Ask::Store(at, word) => Call::Store { at, word },
        Ask::New(len) => Call::New { len },
        Ask::Drop(obj) => Call::Drop { obj },
        Ask::Malloc(n) => Call::Malloc { n },
        Ask::Free(at) => Call::Free { at },
        Ask::Print(text) => Call::Print {
            text: Text::of(Vec::from_slice(alloc, text)?),
        },
        Ask::Broke(fault) => Call::Broke { fault },
        Ask::Finish(code) => Call::Finish { code },
    })
}

fn step(alloc: Global, state: &mut State, call: &Call) -> Result<Out, Memory> {
    if call.number() > 9 || state.places.made() > 250_000 || state.count > 250_000 {
        return Err(Memory);
    }
    state.step(alloc, call, 1)
}

fn static_var(alloc: Global, len: u32, words: &[Word]) -> Result<StaticVar, Memory> {
    Ok(StaticVar {
        len,
        level: None,
        first: Words::of(Vec::from_slice(alloc, words)?),
    })
}

// A task with a variable of one word, 7, and one of three, 1 to 3.
fn state(alloc: Global) -> Result<State, Memory> {
    let mut variables = Vec::new(alloc);
    variables.push(static_var(alloc, 1, &[Word::Int(7)])?)?;
    variables.push(static_var(alloc, 3, &[Word::Int(1), Word::Int(2), Word::Int(3)])?)?;
    State::new(alloc, variables.as_slice())
}

const fn glob(variable: u32, at: u32) -> Word {
    Word::Ptr {
        obj: Obj::Glob(variable),
        at,
    }
}

const fn dynamic(made: u32, at: u32) -> Word {
    Word::Ptr {
        obj: Obj::Dyn(made),
        at,
    }
}

const fn gives(word: Word) -> Out {
    Out::Did(Answer::Gives(word))
}

const DONE: Out = Out::Did(Answer::Done);

const NULL: Out = Out::Did(Answer::Gives(Word::Null));

const UNINIT: Out = Out::Broke(Fault::Uninit);

const NO_PLACE: Out = Out::Broke(Fault::NullAccess);

const BOUNDS: Out = Out::Broke(Fault::Bounds);

const DANGLING: Out = Out::Broke(Fault::Dangling);

const STACK_FULL: Out = Out::Broke(Fault::StackFull);

#[test]
fn loads_and_stores_find_their_places(rt: HostRuntime) -> Result<(), Fail> {
    let rows = [
        (Ask::Load(glob(0, 0)), gives(Word::Int(7))),
        (Ask::Load(glob(1, 2)), gives(Word::Int(3))),
        (Ask::Load(glob(1, 3)), BOUNDS),
        (Ask::Load(glob(2, 0)), DANGLING),
        (Ask::Load(Word::Null), NO_PLACE),
        (Ask::Load(Word::Undef), NO_PLACE),
        (Ask::Load(Word::Int(5)), NO_PLACE),
        (Ask::Load(Word::Comm(1)), NO_PLACE),
        (Ask::Load(Word::Req(1)), NO_PLACE),
        (Ask::Store(glob(0, 0), Word::Int(9)), DONE),
        (Ask::Load(glob(0, 0)), gives(Word::Int(9))),
        (Ask::Load(glob(1, 0)), gives(Word::Int(1))),
        (Ask::Store(glob(0, 1), Word::Int(9)), BOUNDS),
        (Ask::Store(Word::Null, Word::Int(9)), NO_PLACE),
        (Ask::Store(dynamic(1, 0), Word::Int(9)), DANGLING),
        (Ask::New(2), gives(dynamic(1, 0))),
        (Ask::Load(dynamic(1, 0)), UNINIT),
        (Ask::Load(dynamic(1, 2)), BOUNDS),
        (Ask::Store(dynamic(1, 1), glob(0, 0)), DONE),
        (Ask::Load(dynamic(1, 1)), gives(glob(0, 0))),
        (Ask::Load(dynamic(1, 0)), UNINIT),
        (Ask::Store(dynamic(1, 1), Word::Undef), DONE),
        (Ask::Load(dynamic(1, 1)), UNINIT),
    ];
    let alloc = rt.alloc();
    let mut task = state(alloc)?;
    for (ask, want) in rows.iter() {
        let call = call_of(alloc, *ask)?;
        assert_eq!(rt; step(alloc, &mut task, &call)?, *want);
    }
    Ok(())
}

#[test]
fn objects_live_until_they_are_ended(rt: HostRuntime) -> Result<(), Fail> {
    let rows = [
        (Ask::New(2), gives(dynamic(1, 0))),
        (Ask::New(0), gives(dynamic(2, 0))),
        (Ask::Load(dynamic(2, 0)), BOUNDS),
        (Ask::Malloc(-1), NULL),
        (Ask::Malloc(i64::MIN), NULL),
        (Ask::Malloc(0), gives(dynamic(3, 0))),
        (Ask::Load(dynamic(3, 0)), BOUNDS),
        (Ask::Malloc(3), gives(dynamic(4, 0))),
        (Ask::Load(dynamic(4, 2)), UNINIT),
        (Ask::Free(dynamic(4, 1)), DANGLING),
        (Ask::Free(dynamic(1, 0)), DANGLING),
        (Ask::Free(glob(0, 0)), DANGLING),
        (Ask::Free(Word::Int(0)), DANGLING),
        (Ask::Free(Word::Undef), DANGLING),
        (Ask::Free(Word::Comm(0)), DANGLING),
        (Ask::Free(Word::Req(0)), DANGLING),
        (Ask::Free(dynamic(9, 0)), DANGLING),
        (Ask::Free(Word::Null), DONE),
        (Ask::Store(dynamic(4, 0), Word::Int(1)), DONE),
        (Ask::Free(dynamic(4, 0)), DONE),
        (Ask::Free(dynamic(4, 0)), DANGLING),
        (Ask::Load(dynamic(4, 0)), DANGLING),
        (Ask::Store(dynamic(4, 0), Word::Int(1)), DANGLING),
        (Ask::Drop(Obj::Dyn(4)), DANGLING),
        (Ask::Drop(Obj::Glob(0)), DANGLING),
        (Ask::Drop(Obj::Dyn(0)), DANGLING),
        (Ask::Drop(Obj::Dyn(1)), DONE),
        (Ask::Drop(Obj::Dyn(1)), DANGLING),
        (Ask::Load(dynamic(1, 0)), DANGLING),
        (Ask::Drop(Obj::Dyn(3)), DONE),
        (Ask::Free(dynamic(3, 0)), DANGLING),
        (Ask::New(1), gives(dynamic(5, 0))),
    ];
    let alloc = rt.alloc();
    let mut task = state(alloc)?;
    for (ask, want) in rows.iter() {
        let call = call_of(alloc, *ask)?;
        assert_eq!(rt; step(alloc, &mut task, &call)?, *want);
    }
    Ok(())
}

#[test]
fn live_words_stay_within_the_quota(rt: HostRuntime) -> Result<(), Fail> {
    let rows = [
        (Ask::New(65_537), STACK_FULL),
        (Ask::Malloc(65_537), NULL),
        (Ask::Malloc(4_294_967_296), NULL),
        (Ask::Malloc(i64::MAX), NULL),
        (Ask::New(65_536), gives(dynamic(1, 0))),
        (Ask::New(1), STACK_FULL),
        (Ask::Malloc(1), NULL),
        (Ask::New(0), gives(dynamic(2, 0))),
        (Ask::Malloc(0), gives(dynamic(3, 0))),
        (Ask::Drop(Obj::Dyn(1)), DONE),
        (Ask::New(1), gives(dynamic(4, 0))),
        (Ask::Malloc(65_536), NULL),
        (Ask::Malloc(65_535), gives(dynamic(5, 0))),
        (Ask::New(1), STACK_FULL),
        (Ask::Free(dynamic(5, 0)), DONE),
        (Ask::New(65_535), gives(dynamic(6, 0))),
    ];
    let alloc = rt.alloc();
    let mut task = state(alloc)?;
    for (ask, want) in rows.iter() {
        let call = call_of(alloc, *ask)?;
        assert_eq!(rt; step(alloc, &mut task, &call)?, *want);
    }
    Ok(())
}

#[test]
fn other_calls_answer_what_they_were_given(rt: HostRuntime) -> Result<(), Fail> {
    let rows = [
        (Ask::Print(b"ab"), gives(Word::Int(2))),
        (Ask::Print(b""), gives(Word::Int(0))),
        (Ask::Print(b"\n"), gives(Word::Int(1))),
        (Ask::Broke(Fault::Overflow), Out::Broke(Fault::Overflow)),
        (Ask::Broke(Fault::Divide), Out::Broke(Fault::Divide)),
        (Ask::Broke(Fault::Shift), Out::Broke(Fault::Shift)),
        (Ask::Broke(Fault::Uninit), UNINIT),
        (Ask::Broke(Fault::Depth), Out::Broke(Fault::Depth)),
        (Ask::Broke(Fault::Turns), Out::Broke(Fault::Turns)),
        (Ask::Finish(-3), gives(Word::Int(-3))),
    ];
    let alloc = rt.alloc();
    let mut task = state(alloc)?;
    for (ask, want) in rows.iter() {
        let call = call_of(alloc, *ask)?;
        assert_eq!(rt; step(alloc, &mut task, &call)?, *want);
    }
    assert_eq!(rt; task.output.as_slice(), b"ab\n".as_slice());
    assert_eq!(rt; task.exit, Some(-3));
    assert_eq!(rt; task.count, 10);
    Ok(())
}

fn print_of(alloc: Global, len: usize) -> Result<Call, Memory> {
    Ok(Call::Print {
        text: Text::of(vec![in alloc; b'x'; len]?),
    })
}

#[test]
fn output_has_1048576_bytes_at_most(rt: HostRuntime) -> Result<(), Fail> {
    let alloc = rt.alloc();
    let mut task = state(alloc)?;
    let rows = [
        (1_048_577, Out::Broke(Fault::OutputFull)),
        (1_048_575, gives(Word::Int(1_048_575))),
        (2, Out::Broke(Fault::OutputFull)),
        (1, gives(Word::Int(1))),
        (1, Out::Broke(Fault::OutputFull)),
        (0, gives(Word::Int(0))),
    ];
    for (len, want) in rows.iter() {
        let call = print_of(alloc, *len)?;
        assert_eq!(rt; step(alloc, &mut task, &call)?, *want);
    }
    assert_eq!(rt; task.output.len(), 1_048_576);
    Ok(())
}

#[test]
fn entry_behind_the_last_one_is_calls(rt: HostRuntime) -> Result<(), Fail> {
    let alloc = rt.alloc();
    let mut task = state(alloc)?;
    let call = Call::Load { at: glob(1, 1) };
    for _ in 0..250_000 {
        assert_eq!(rt; step(alloc, &mut task, &call)?, gives(Word::Int(2)));
    }
    let call = Call::Load { at: Word::Null };
    assert_eq!(rt; step(alloc, &mut task, &call)?, Out::Broke(Fault::Calls));
    Ok(())
}

// A program whose main, which ends at line 3, has no statements.
fn empty_program(alloc: Global) -> Result<Program, Memory>
    ensures { IfOk result (λ program. next_of (program_of program) [] ≡ Asks (Finish (pos 0)) 3) }
{
    let mut functions = Vec::new(alloc);
    functions.push(Function {
        params: Params::of(Vec::new(alloc)),
        slots: 0,
        body: Vec::new(alloc),
        ending: Ending::Zero,
        end_line: 3,
    })?;
    Ok(Program {
        variables: Globals::of(Vec::new(alloc)),
        functions,
        main: 0,
        constructs: Constructs::of(Vec::new(alloc)),
        lines: 3,
    })
}

#[test]
fn run_of_an_empty_main_has_one_entry(rt: HostRuntime) -> Result<(), Fail> {
    let alloc = rt.alloc();
    let program = empty_program(alloc)?;
    let mut node = Node::new(alloc, Setup { program })?;
    assert_eq!(rt; node.ended(), End::Going);
    let reply = node.visit(0, &Call::Finish { code: 0 }, 3)?;
    assert_eq!(rt; reply, Reply::Did(Answer::Gives(Word::Int(0))));
    node.is_of_a_run();
    runs_begin_and_end();
    visits_leave_runs();
    let End::Finished = node.ended() else {
        panic!(rt; "the run has not finished");
    };
    let record = node.into_record()?;
    assert_eq!(rt; record.journal.tasks, 1);
    let entry = Entry {
        task: 0,
        line: 3,
        call: 9,
        out: gives(Word::Int(0)),
    };
    assert_eq!(rt; record.journal.entries.as_slice().len(), 1);
    assert_eq!(rt; record.journal.entries.as_slice()[0], entry);
    assert_eq!(rt; record.ranks.as_slice().len(), 1);
    for rank in record.ranks.as_slice() {
        assert_eq!(rt; rank.state, RankState::Exit(0));
        assert_eq!(rt; rank.output.as_slice().len(), 0);
    }
    Ok(())
}
