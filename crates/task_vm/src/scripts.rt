//! The script of an MPI function that is being taken.
ghost use Rattle.std.specs.Prelude.{◌≡◌, Some, IfOk, OnOk, drop};
ghost use Rattle.mpc_values.specs.declared.calls.Call.{Call};
ghost use Rattle.c_tree.specs.Scripts.{nothing_found, number_at};
ghost use Rattle.c_tree.specs.MpiScripts.{steps_of, each_of, last_of};
ghost use Rattle.c_code.specs.Machine as machine;
ghost use Rattle.c_code.specs.Machine.{Mach, Moves, arguments_on, behind_first, part_behind, script_step, script_resume};
ghost use Rattle.task_vm.specs.Parts.{part_of};
ghost use Rattle.task_vm.specs.Seen.{Shows, gone_on};
ghost use Rattle.task_vm.specs.Wishes.{Takes};

use crate::arguments::number_at;
use crate::machine::{Machine, Step};
use crate::wishes::{Taken, Wish};
use c_tree::mpi::MpiFunction;
use c_tree::program::MpiCall;
use c_tree::scripts::ScriptStep;
use mpc_values::{Answer, Call, Fault, Memory, Status, Word};
use std::alloc::Global;
use std::marker::Model;

/// The part of a script that is being taken; of the requests of a list so many are left behind the
/// present one.
#[derive(Clone, Copy, Debug)]
pub(crate) enum Phase {
    First,
    Requests(u32),
    Last,
}

/// What a function has found so far: the word that was last given or loaded, the request that was last
/// posted or loaded, the one before it, the requests that were collected, the status, where one was
/// given, and an index.
#[derive(Drop)]
pub(crate) struct Found {
    pub(crate) word: Word,
    pub(crate) request: Word,
    pub(crate) earlier: Word,
    pub(crate) requests: Vec<Word>,
    pub(crate) status: Option<Status>,
    pub(crate) index: i32,
}

impl Model for Found {
    ghost use Rattle.c_tree.specs.Scripts as scripts;

    ghost Value = { scripts.Found };

    ghost view = { λ f. record { word = f.word; request = f.request; earlier = f.earlier; requests = f.requests.items; status = f.status; index = f.index } };
}

/// An MPI function whose script is being taken: what it is called with, the line of the call, the part of
/// the script and how many of its steps are taken, the index of the request, and what was found.
#[derive(Drop)]
pub(crate) struct Script {
    pub(crate) alloc: Global,
    pub(crate) mpi: MpiCall,
    pub(crate) arguments: Vec<Word>,
    pub(crate) line: u32,
    pub(crate) phase: Phase,
    pub(crate) taken: usize,
    pub(crate) index: u32,
    pub(crate) found: Found,
}

impl Model for Script {
    ghost use Rattle.std.specs.Prelude.{drop};
    ghost use Rattle.c_code.specs.Machine.{Scripting};
    ghost use Rattle.task_vm.specs.Parts.{phase_of, part_of, IsIndexed};

    ghost Value = { Scripting };

    ghost view = { λ s. record { mpi = s.mpi; arguments = s.arguments.items; line = s.line; phase = phase_of s.phase; steps = drop s.taken (part_of s.mpi.function s.phase); index = s.index; found = s.found } };

    ghost invariant = { λ s. IsIndexed s.phase s.index };
}

impl Script {
    /// The script of a function that is called with these arguments at a line.
    pub(crate) fn new(alloc: Global, mpi: MpiCall, arguments: Vec<Word>, line: u32) -> Script
        ensures { result ≡ record { mpi = mpi; arguments = arguments.items; line = line; phase = machine.First; steps = steps_of mpi.function; index = 0; found = nothing_found } }
    {
        Script {
            alloc,
            mpi,
            arguments,
            line,
            phase: Phase::First,
            taken: 0,
            index: 0,
            found: Found {
                word: Word::Null,
                request: Word::Req(0),
                earlier: Word::Req(0),
                requests: Vec::new(alloc),
                status: None,
                index: 0,
            },
        }
    }

    // Goes on to the last part.
    fn begin_last(&mut self)
        ensures { self.new ≡ record self.old { phase = machine.Last; steps = last_of self.old.mpi.function; index = 0 } }
    {
        self.phase = Phase::Last;
        self.taken = 0;
        self.index = 0;
    }

    // Goes on behind the first part: to the first request, or, where there is none, to the last part.
    fn begin_requests(&mut self, call: &mut Call) -> Taken
        ensures { Takes result call.new (λ m. behind_first m self.old (each_of self.old.mpi.function) (number_at self.old.arguments 0)) self.old self.new }
    {
        if self.mpi.function.each_steps().is_empty() {
            self.begin_last();
            return Taken::Went;
        }
        match u32::try_from(number_at(&self.arguments, 0)) {
            Err(_) => {
                *call = Call::Broke {
                    fault: Fault::BadCount,
                };
                Taken::Asked(self.line)
            }
            Ok(0) => {
                self.begin_last();
                Taken::Went
            }
            Ok(count) => {
                self.phase = Phase::Requests(count - 1);
                self.taken = 0;
                self.index = 0;
                Taken::Went
            }
        }
    }

    // Goes on where no step of the present part is left.
    fn next_part(&mut self, call: &mut Call) -> Taken
        ensures { Takes result call.new (λ m. part_behind m self.old self.old.phase) self.old self.new }
    {
        match self.phase {
            Phase::First => self.begin_requests(call),
            Phase::Requests(0) => {
                self.begin_last();
                Taken::Went
            }
            Phase::Requests(left) => {
                self.phase = Phase::Requests(left - 1);
                self.taken = 0;
                self.index += 1;
                Taken::Went
            }
            Phase::Last => Taken::Ended,
        }
    }

    /// Takes the next step.
    pub(crate) fn step(&mut self, call: &mut Call) -> Result<Taken, Memory>
        ensures { IfOk result (λ r. Takes r call.new (λ m. script_step m self.old self.old.steps) self.old self.new) }
    {
        let steps = part_of(self.mpi.function, self.phase);
        let Some(step) = steps.get(self.taken) else {
            return Ok(self.next_part(call));
        };
        match self.wanted(*step, call)? {
            Wish::Wants => Ok(Taken::Asked(self.line)),
            Wish::Skips => {
                self.taken += 1;
                Ok(Taken::Went)
            }
            Wish::Breaks(fault) => {
                *call = Call::Broke { fault };
                Ok(Taken::Asked(self.line))
            }
        }
    }

    /// Takes the answer to the call of the next step, where there is one.
    pub(crate) fn resume(&mut self, answer: Answer) -> Result<(), Memory>
        ensures { OnOk result ((m : Mach) → m.script ≡ Some self.old → gone_on m (script_resume m self.old answer self.old.steps) ≡ record m { script = Some self.new }) }
    {
        let steps = part_of(self.mpi.function, self.phase);
        let Some(step) = steps.get(self.taken) else {
            return Ok(());
        };
        self.found.find(*step, answer)?;
        self.taken += 1;
        Ok(())
    }
}

// The steps of a part.
fn part_of(function: MpiFunction, phase: Phase) -> &'static [ScriptStep]
    ensures { result.now ≡ part_of function phase }
{
    match phase {
        Phase::First => function.steps(),
        Phase::Requests(_) => function.each_steps(),
        Phase::Last => function.last_steps(),
    }
}

impl Machine {
    /// Begins the script of a function with the arguments on the stack.
    #[inline(never)]
    pub(crate) fn begin(&mut self, mpi: MpiCall, count: u32, line: u32) -> Result<Step, Memory>
        ensures { IfOk result (λ r. (call : Call) → Shows r call (Moves (record self.old {
          stack = drop count self.old.stack;
          script = Some (record { mpi = mpi; arguments = arguments_on count self.old.stack; line = line; phase = machine.First; steps = steps_of mpi.function; index = 0; found = nothing_found });
        })) self.old self.new) }
    {
        let arguments = Vec::from_slice(self.alloc, self.stack.latest(count as usize))?;
        self.stack.drop_top(count as usize);
        self.script = Some(Script::new(self.alloc, mpi, arguments, line));
        Ok(Step::Went)
    }
}
