//! Tables of calls and what becomes of them, worked out by hand, and one node.
ghost use Rattle.std.specs.Prelude.{◌≡◌, ◌<◌, ◌≤◌, ◌-◌, ◌^◌, true, length, slice_get, IfOk, IfSome, List, [], pos};
ghost use Rattle.mpc_values.specs.declared.calls.Call.TheVariants.{Finish};
ghost use Rattle.mpc_values.specs.declared.answers.Answer.{Answer as TheAnswer};
ghost use Rattle.c_tree.specs.Asking.{Asks, asked};
ghost use Rattle.c_tree.specs.Next.{next_of};
ghost use Rattle.c_tree.specs.ProgramOf.{program_of};
ghost use Rattle.c_tree.specs.Scripts.{over};
ghost use Rattle.run_model.specs.Setup.{setup_of};
ghost use Rattle.run_model.specs.Valid.{Valid};
ghost use Rattle.node_core.specs.Built.{IsBuilt};
ghost use Rattle.node_core.specs.Stands.{IsSpaceOf};

use crate::parts::{State, TaskPart};
use crate::{Node, Reply};
use c_tree::Globals;
use c_tree::program::{Constructs, Ending, Function, Params, Program};
use mpc_base::{Answer, Call, Cores, End, Fault, Memory, Obj, Out, Text, Word};
use run_model::{Last, Setup};
use std::alloc::Global;
use std::process::Abort;
use std::test::*;
use topology::flat;

// A call, with its text as bytes.
#[derive(Clone, Copy)]
enum Ask {
    Load(Word),
    Store(Word, Word),
    New(u32),
    Drop(Obj),
    Malloc(i64),
    Free(Word),
    Print(&'static [u8]),
    Broke(Fault),
    Finish(i32),
    Init,
    Finalize,
    Abort(Word, i32),
    Rank(Word),
    Size(Word),
}

fn call_of(alloc: Global, ask: Ask) -> Result<Call, Memory>
    ensures { IfOk result (λ call. IsBuilt call) }
{
    Ok(match ask {
        Ask::Load(at) => Call::Load { at },
        Ask::Store(at, word) => Call::Store { at, word },
        Ask::New(len) => Call::New { len },
        Ask::Drop(obj) => Call::Drop { obj },
        Ask::Malloc(n) => Call::Malloc { n },
        Ask::Free(at) => Call::Free { at },
        Ask::Print(text) => Call::Print {
            text: Text::of(Vec::from_slice(alloc, text)?),
        },
        Ask::Broke(fault) => Call::Broke { fault },
        Ask::Finish(code) => Call::Finish { code },
        Ask::Init => Call::Init,
        Ask::Finalize => Call::Finalize,
        Ask::Abort(comm, code) => Call::Abort { comm, code },
        Ask::Rank(comm) => Call::Rank { comm },
        Ask::Size(comm) => Call::Size { comm },
    })
}

fn has_room(parts: &[TaskPart], task: u32) -> bool
    ensures there { result ≡ true → task < length parts.now }
    ensures room { result ≡ true → IfSome (slice_get parts.now task) (λ part. part.course.entries < 2 ^ 32 - 1) }
{
    match parts.get(task as usize) {
        None => false,
        Some(part) => part.course.entries < 1_000,
    }
}

fn step(setup: &Setup, state: &mut State, task: u32, call: &Call) -> Result<Out, Memory>
    requires built { IsBuilt call.now }
    requires set { IsSpaceOf (setup_of setup.now) state.old.shared.space }
    ensures set { IsSpaceOf (setup_of setup.now) state.new.shared.space }
{
    if !has_room(state.tasks.as_slice(), task) || setup.cores.as_slice().len() <= task as usize {
        return Err(Memory);
    }
    state.step(setup, task, call, 7)
}

// A step for each row: a task, its call, and what has to become of it.
fn steps<R: Abort>(
    rt: &R,
    alloc: Global,
    setup: &Setup,
    state: &mut State,
    rows: &[Row],
) -> Result<(), Memory>
    requires set { IsSpaceOf (setup_of setup.now) state.old.shared.space }
    ensures set { IsSpaceOf (setup_of setup.now) state.new.shared.space }
{
    for (task, ask, want) in rows {
        let call = call_of(alloc, *ask)?;
        assert_eq!(rt; step(setup, state, *task, &call)?, *want);
    }
    Ok(())
}

// A program whose main, which ends at line 3, has no statements.
fn empty_program(alloc: Global) -> Result<Program, Memory>
    ensures asks { IfOk result (λ program. (answers : List TheAnswer) → next_of (program_of program) answers ≡ asked (Finish (pos 0)) 3 (λ answer more. over more) answers) }
    ensures variables { IfOk result (λ program. (program_of program).variables ≡ []) }
    ensures constructs { IfOk result (λ program. (program_of program).constructs ≡ []) }
    ensures main { IfOk result (λ program. (program_of program).main < length (program_of program).functions) }
{
    let mut functions = Vec::new(alloc);
    functions.push(Function {
        params: Params::of(Vec::new(alloc)),
        slots: 0,
        body: Vec::new(alloc),
        ending: Ending::Zero,
        end_line: 3,
    })?;
    Ok(Program {
        variables: Globals::of(Vec::new(alloc)),
        functions,
        main: 0,
        constructs: Constructs::of(Vec::new(alloc)),
        lines: 3,
    })
}

// Two tasks of an empty program on two cores, each of which may have so many entries.
fn valid_setup(alloc: Global, calls: u32) -> Result<Setup, Memory>
    requires some { 1 ≤ calls }
    requires few { calls ≤ 1000 }
    ensures valid { IfOk result (λ setup. Valid (setup_of setup)) }
    ensures asks { IfOk result (λ setup. next_of (setup_of setup).program [] ≡ Asks (Finish (pos 0)) 3) }
{
    let program = empty_program(alloc)?;
    let machine = flat(alloc, 2)?;
    let list = Vec::from_slice(alloc, &[0, 1])?;
    let cores = Cores::of(list);
    Ok(Setup {
        program,
        machine,
        cores,
        eager: 1_024,
        quota: 65_536,
        calls,
    })
}

type Row = (u32, Ask, Out);

const WORLD: Word = Word::Comm(1);

const DONE: Out = Out::Did(Answer::Done);

const fn fault(fault: Fault) -> Out {
    Out::Broke(fault)
}

// Calls of two tasks on themselves and on their group.
const CALLS: [Row; 22] = [
    (0, Ask::Rank(WORLD), Out::Broke(Fault::NotInit)),
    (0, Ask::Finalize, Out::Broke(Fault::NotInit)),
    (0, Ask::Init, DONE),
    (0, Ask::Init, Out::Broke(Fault::InitTwice)),
    (1, Ask::Size(WORLD), Out::Broke(Fault::NotInit)),
    (1, Ask::Init, DONE),
    (0, Ask::Rank(WORLD), Out::Did(Answer::Gives(Word::Int(0)))),
    (1, Ask::Rank(WORLD), Out::Did(Answer::Gives(Word::Int(1)))),
    (1, Ask::Size(WORLD), Out::Did(Answer::Gives(Word::Int(2)))),
    (1, Ask::Size(Word::Comm(0)), Out::Broke(Fault::BadComm)),
    (1, Ask::Rank(Word::Comm(2)), Out::Broke(Fault::BadComm)),
    (1, Ask::Rank(Word::Null), Out::Broke(Fault::BadComm)),
    (0, Ask::Print(b"ab"), Out::Did(Answer::Gives(Word::Int(2)))),
    (1, Ask::Print(b"\n"), Out::Did(Answer::Gives(Word::Int(1)))),
    (0, Ask::Finish(0), Out::Broke(Fault::NoFinalize)),
    (0, Ask::Finalize, DONE),
    (0, Ask::Size(WORLD), Out::Broke(Fault::NotInit)),
    (0, Ask::Init, Out::Broke(Fault::InitTwice)),
    (0, Ask::Broke(Fault::Divide), Out::Broke(Fault::Divide)),
    (0, Ask::Finish(-3), Out::Did(Answer::Gives(Word::Int(-3)))),
    (1, Ask::Abort(Word::Comm(9), 4), Out::Broke(Fault::BadComm)),
    (
        1,
        Ask::Abort(WORLD, 4),
        Out::Did(Answer::Gives(Word::Int(4))),
    ),
];

#[test]
fn calls_of_two_tasks_come_to_what_they_should(rt: HostRuntime) -> Result<(), Fail> {
    let alloc = rt.alloc();
    let setup = valid_setup(alloc, 100)?;
    let mut state = State::new(alloc, &setup)?;
    steps(&rt, alloc, &setup, &mut state, &CALLS)?;
    let aborted = Last::Aborted {
        task: 1,
        code: 4,
        line: 7,
    };
    assert_eq!(rt; state.last, Some(aborted));
    Ok(())
}

// Accesses of two tasks, each to its own memory.
const ACCESSES: [Row; 20] = [
    (
        0,
        Ask::New(2),
        Out::Did(Answer::Gives(Word::Ptr {
            obj: Obj::Dyn(1),
            at: 0,
        })),
    ),
    (
        0,
        Ask::Load(Word::Ptr {
            obj: Obj::Dyn(1),
            at: 0,
        }),
        Out::Broke(Fault::Uninit),
    ),
    (
        0,
        Ask::Store(
            Word::Ptr {
                obj: Obj::Dyn(1),
                at: 1,
            },
            Word::Int(7),
        ),
        DONE,
    ),
    (
        0,
        Ask::Load(Word::Ptr {
            obj: Obj::Dyn(1),
            at: 1,
        }),
        Out::Did(Answer::Gives(Word::Int(7))),
    ),
    (
        1,
        Ask::Load(Word::Ptr {
            obj: Obj::Dyn(1),
            at: 1,
        }),
        Out::Broke(Fault::Dangling),
    ),
    (
        0,
        Ask::Store(
            Word::Ptr {
                obj: Obj::Dyn(1),
                at: 2,
            },
            Word::Int(7),
        ),
        Out::Broke(Fault::Bounds),
    ),
    (0, Ask::Load(Word::Null), Out::Broke(Fault::NullAccess)),
    (1, Ask::Malloc(-1), Out::Did(Answer::Gives(Word::Null))),
    (
        1,
        Ask::Malloc(65_536),
        Out::Did(Answer::Gives(Word::Ptr {
            obj: Obj::Dyn(1),
            at: 0,
        })),
    ),
    (1, Ask::Malloc(1), Out::Did(Answer::Gives(Word::Null))),
    (1, Ask::New(1), Out::Broke(Fault::StackFull)),
    (
        0,
        Ask::New(1),
        Out::Did(Answer::Gives(Word::Ptr {
            obj: Obj::Dyn(2),
            at: 0,
        })),
    ),
    (
        0,
        Ask::Free(Word::Ptr {
            obj: Obj::Dyn(2),
            at: 0,
        }),
        Out::Broke(Fault::Dangling),
    ),
    (
        1,
        Ask::Free(Word::Ptr {
            obj: Obj::Dyn(1),
            at: 1,
        }),
        Out::Broke(Fault::Dangling),
    ),
    (
        1,
        Ask::Free(Word::Ptr {
            obj: Obj::Dyn(1),
            at: 0,
        }),
        DONE,
    ),
    (1, Ask::Free(Word::Null), DONE),
    (
        1,
        Ask::New(1),
        Out::Did(Answer::Gives(Word::Ptr {
            obj: Obj::Dyn(2),
            at: 0,
        })),
    ),
    (0, Ask::Drop(Obj::Dyn(1)), DONE),
    (
        0,
        Ask::Load(Word::Ptr {
            obj: Obj::Dyn(1),
            at: 1,
        }),
        Out::Broke(Fault::Dangling),
    ),
    (0, Ask::Drop(Obj::Dyn(1)), Out::Broke(Fault::Dangling)),
];

#[test]
fn memories_of_two_tasks_are_apart(rt: HostRuntime) -> Result<(), Fail> {
    let alloc = rt.alloc();
    let setup = valid_setup(alloc, 100)?;
    let mut state = State::new(alloc, &setup)?;
    steps(&rt, alloc, &setup, &mut state, &ACCESSES)?;
    Ok(())
}

#[test]
fn entry_after_the_last_one_is_calls(rt: HostRuntime) -> Result<(), Fail> {
    let alloc = rt.alloc();
    let setup = valid_setup(alloc, 2)?;
    let mut state = State::new(alloc, &setup)?;
    assert_eq!(rt; step(&setup, &mut state, 0, &Call::Init)?, DONE);
    assert_eq!(rt; step(&setup, &mut state, 0, &Call::Finalize)?, DONE);
    assert_eq!(rt;
        step(&setup, &mut state, 0, &Call::Finalize)?,
        fault(Fault::Calls)
    );
    assert_eq!(rt; step(&setup, &mut state, 1, &Call::Init)?, DONE);
    let faulted = Last::Faulted {
        task: 0,
        fault: Fault::Calls,
        line: 7,
    };
    assert_eq!(rt; state.last, Some(faulted));
    Ok(())
}

#[test]
fn node_keeps_a_run_of_two_tasks(rt: HostRuntime) -> Result<(), Fail> {
    let alloc = rt.alloc();
    let setup = valid_setup(alloc, 100)?;
    let mut node = Node::new(alloc, setup)?;
    assert_eq!(rt; node.ended(), End::Going);
    assert!(rt; node.can_go(0) && node.can_go(1) && !node.can_go(2));
    let reply = node.visit(1, &Call::Finish { code: 0 }, 3)?;
    assert_eq!(rt; reply, Reply::Did(Answer::Gives(Word::Int(0))));
    assert_eq!(rt; node.setup().calls, 100);
    assert_eq!(rt; node.journal().tasks, 2);
    assert_eq!(rt; node.journal().entries.as_slice().len(), 1);
    assert!(rt; node.can_go(0) && !node.can_go(1));
    assert_eq!(rt; node.tasks(), 2);
    assert_eq!(rt; node.space().rows()?.len(), 0);
    node.stop_with(End::NoThread);
    assert_eq!(rt; node.ended(), End::NoThread);
    assert!(rt; !node.can_go(0));
    let record = node.into_record()?;
    assert_eq!(rt; record.end, End::NoThread);
    assert_eq!(rt; record.ranks.as_slice().len(), 2);
    assert!(rt; record.map.is_none() && record.words.is_none());
    Ok(())
}
