//! A task that runs code.
ghost use Rattle.std.specs.Prelude.{◌≡◌, ℕ, true, false, List, [], ◌∷◌, ◌++◌, Some, IfOk, OnOk, OnErr, IsErr, slice_get};
ghost use Rattle.std.specs.Arc.{arc_value};
ghost use Rattle.mpc_values.specs.declared.calls.Call.{Call};
ghost use Rattle.mpc_values.specs.declared.answers.Answer.{Answer};
ghost use Rattle.c_code.specs.declared.code.Entry.{Entry};
ghost use Rattle.c_code.specs.Demands.{begins, turn_limit};
ghost use Rattle.c_code.specs.Following.{Follows};
ghost use Rattle.task_vm.specs.Tasks.{HasHad, IsAsking, ends_task, Awaits};
ghost use Rattle.task_vm.specs.States.{IsReached, behind_answer};
ghost use Rattle.task_vm.specs.Wanting.{WantsNow, IsWanting, DemandsWant, ends_of};

use crate::frames::Frames;
use crate::machine::{Machine, Step};
use crate::stack::Stack;
use crate::states::{State, Want};
use c_code::Code;
use mpc_values::{Answer, Call, Memory, Word, limits};
use std::alloc::Global;
use std::marker::Model;
use std::sync::Arc;

/// A task that runs the code of a program, from one call to the next.
#[derive(Drop)]
pub struct Task {
    code: Arc<Code, Global>,
    machine: Machine,
    state: State,
}

impl Model for Task {
    ghost use Rattle.std.specs.Arc.{arc_value};
    ghost use Rattle.task_vm.specs.Tasks.{Tasked};
    ghost use Rattle.task_vm.specs.States.{tasked, IsSound};

    ghost Value = { Tasked };

    ghost view = { λ t. tasked (arc_value t.code) t.machine t.state };

    ghost invariant = { λ t. IsSound (arc_value t.code) t.machine t.state };
}

// The machine as main begins.
fn begin(alloc: Global, code: &Code) -> Result<Machine, Memory>
    ensures { IfOk result (λ m. (entry : Entry) × (slice_get code.now.entries code.now.main ≡ Some entry) × (m ≡ begins code.now entry turn_limit)) }
{
    let entry = code.main();
    let frames = if code.arguments() == 0 {
        Frames::new(alloc, entry.slots, &[])?
    } else {
        Frames::new(alloc, entry.slots, &[Word::Int(1), Word::Null])?
    };
    Ok(Machine {
        alloc,
        pc: entry.start as usize,
        stack: Stack::new(alloc),
        frames,
        line: 0,
        turns: limits::MAX_TURNS,
        script: None,
    })
}

// Takes steps up to the next call.
fn run(code: &Code, machine: &mut Machine) -> Result<Want, Memory>
    requires { IsReached code.now machine.old }
    ensures asks { IfOk result (λ want. WantsNow code.now machine.new want) }
    ensures reached { OnOk result (IsReached code.now machine.new) }
    ensures follows { OnOk result ((given : List Answer) → Follows code.now given machine.old → Follows code.now given machine.new) }
{
    code.never_sticks();
    let mut call = Call::Init;
    loop {
        match machine.step(code, &mut call)? {
            Step::Went => {}
            Step::Asked(line) => return Ok(Want::Ask { call, line }),
            Step::Stuck => unreachable!(),
        }
    }
}

// Takes the answer, where there is one, and steps up to the next call.
fn go_on(code: &Code, machine: &mut Machine, answer: Option<Answer>) -> Result<Want, Memory>
    requires { IsReached code.now (behind_answer code.now machine.old answer) }
    ensures asks { IfOk result (λ want. WantsNow code.now machine.new want) }
    ensures reached { OnOk result (IsReached code.now machine.new) }
    ensures follows { OnOk result ((given : List Answer) → Follows code.now given (behind_answer code.now machine.old answer) → Follows code.now given machine.new) }
{
    if let Some(answer) = answer {
        machine.resume(code, answer)?;
    }
    run(code, machine)
}

// Whether nothing is asked behind the answer to a call.
fn is_last(want: &Want) -> bool
    ensures { result ≡ ends_of want.now }
{
    match want {
        Want::Ask { call, .. } => match call {
            Call::Finish { .. } | Call::Abort { .. } => true,
            _ => false,
        },
    }
}

impl Task {
    /// A task that begins to run the code.
    pub fn new(alloc: Global, code: Arc<Code, Global>) -> Result<Task, Memory>
        ensures code { IfOk result (λ task. task.code ≡ arc_value code) }
        ensures begun { IfOk result (λ task. HasHad task []) }
        ensures still { IfOk result (λ task. (task.asked ≡ false) × (task.short ≡ false) × (task.over ≡ false)) }
    {
        let machine = begin(alloc, &code)?;
        Ok(Task {
            code,
            machine,
            state: State::Ready,
        })
    }

    /// Runs to the next call. A task that was short of memory stays so, and answers Memory again.
    pub fn advance(&mut self) -> Result<Want, Memory>
        requires goes { self.old.over ≡ false }
        ensures asks { IfOk result (λ want. IsWanting self.new want) }
        ensures demands { IfOk result (λ want. (given : List Answer) → HasHad self.old given → HasHad self.new given × DemandsWant self.old.code given want) }
        ensures asked { OnOk result ((self.new.asked ≡ true) × (self.new.short ≡ false)) }
        ensures short { OnErr result (self.new.short ≡ true) }
        ensures stays { self.old.short ≡ true → IsErr result }
        ensures goes { self.new.over ≡ false }
        ensures code { self.new.code ≡ self.old.code }
    {
        if let State::Short = self.state {
            return Err(Memory);
        }
        match go_on(&self.code, &mut self.machine, self.state.pending()) {
            Ok(want) => {
                self.state = State::Asked {
                    ends: is_last(&want),
                };
                Ok(want)
            }
            Err(Memory) => {
                self.state = State::Short;
                Err(Memory)
            }
        }
    }

    /// Takes the answer to the call that was asked. Behind the answer to finish or abort nothing is asked.
    pub fn give(&mut self, answer: Answer)
        requires { Awaits self.old answer }
        ensures had { (given : List Answer) → HasHad self.old given → self.new.over ≡ false → HasHad self.new (given ++ answer ∷ []) }
        ensures over { (call : Call) (line : ℕ) → IsAsking self.old call line → self.new.over ≡ ends_task call }
        ensures asked { self.new.asked ≡ false }
        ensures short { self.new.short ≡ self.old.short }
        ensures code { self.new.code ≡ self.old.code }
    {
        let State::Asked { ends } = self.state else {
            unreachable!();
        };
        if ends {
            self.state = State::Over;
            return;
        }
        self.state = State::Answered(answer);
    }
}
