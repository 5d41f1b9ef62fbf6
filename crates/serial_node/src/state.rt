ghost use Rattle.std.specs.Prelude.{◌≡◌, ◌<◌, ◌≤◌, ◌-◌, ◌^◌, [], List, IfOk, OnErr};
ghost use Rattle.mpc_values.specs.CallTable.{call_number};
ghost use Rattle.mpc_values.specs.declared.answers.Answer.{Answer};
ghost use Rattle.serial_model.specs.World.{first_memory, first_task};
ghost use Rattle.serial_model.specs.Go.{has_ended, visited, Makes, entry_of, calls_limit};
ghost use Rattle.serial_model.specs.Run.{ending};
ghost use Rattle.serial_node.specs.Worlds.{world_seen, answers_after, state_of, outcome, tried, SameState, FaultsLeave};

use crate::acts::act;
use crate::places::Places;
use mpc_base::limits::DEFAULT_CALLS;
use mpc_base::{Answer, Call, End, Fault, Memory, Out, StaticVar};
use serial_model::Last;
use std::alloc::Global;

/// What stands of a run of one task, beside its entries.
#[derive(Debug, Drop)]
pub struct State {
    pub places: Places,
    pub output: Vec<u8>,
    pub exit: Option<i32>,
    /// How many entries the task has.
    pub count: u32,
    pub last: Option<Last>,
}

impl State {
    /// The state at the start of a run of a program with these static variables.
    pub fn new(alloc: Global, variables: &[StaticVar]) -> Result<State, Memory>
        ensures memory { IfOk result (λ state. state.places.memory ≡ first_memory variables.now 1) }
        ensures task { IfOk result (λ state. state_of state ≡ first_task) }
        ensures count { IfOk result (λ state. state.count ≡ 0) }
        ensures last { IfOk result (λ state. state.last ≡ None) }
    {
        let places = Places::new(alloc, variables)?;
        Ok(State {
            places,
            output: Vec::new(alloc),
            exit: None,
            count: 0,
            last: None,
        })
    }

    /// Whether the run has ended, by a fault or by the end of main.
    pub fn has_ended(&self) -> bool
        ensures { (answers : List (List Answer)) → result ≡ has_ended (world_seen answers self.now) }
    {
        self.last.is_some() || self.exit.is_some()
    }

    /// How the run stands.
    pub fn ending(&self) -> End
        ensures { (answers : List (List Answer)) → result ≡ ending (world_seen answers self.now) }
    {
        if let Some(last) = self.last {
            return End::Fault {
                task: last.task,
                fault: last.fault,
                line: last.line,
            };
        }
        if self.exit.is_some() {
            End::Finished
        } else {
            End::Going
        }
    }

    // What becomes of a call, before it is counted.
    fn try_call(&mut self, alloc: Global, call: &Call) -> Result<Result<Answer, Fault>, Memory>
        requires built { call_number call.now ≤ 9 }
        requires room { self.old.places.made < 2 ^ 32 - 1 }
        ensures ok { IfOk result (λ done. outcome self.new done ≡ tried self.old.count self.old call.now) }
        ensures count { self.new.count ≡ self.old.count }
        ensures last { self.new.last ≡ self.old.last }
        ensures fault { IfOk result (λ done. FaultsLeave self.old self.new done) }
        ensures err { OnErr result (SameState self.old self.new) }
    {
        if DEFAULT_CALLS <= self.count {
            return Ok(Err(Fault::Calls));
        }
        act(
            alloc,
            &mut self.places,
            &mut self.output,
            &mut self.exit,
            call,
        )
    }

    /// Does a call of the task, one of 1 to 9, and counts its entry. A fault ends the run. After want of
    /// memory nothing has changed.
    pub fn step(&mut self, alloc: Global, call: &Call, line: u32) -> Result<Out, Memory>
        requires built { call_number call.now ≤ 9 }
        requires room { self.old.places.made < 2 ^ 32 - 1 }
        requires few { self.old.count ≤ calls_limit }
        ensures ok { IfOk result (λ out. (answers : List (List Answer)) → visited (world_seen answers self.old) 0 (state_of self.old) call.now line ≡ Makes (entry_of 0 call.now line out) (world_seen (answers_after answers out) self.new)) }
        ensures err { OnErr result (SameState self.old self.new) }
    {
        let done = self.try_call(alloc, call)?;
        self.count += 1;
        match done {
            Ok(answer) => Ok(Out::Did(answer)),
            Err(fault) => {
                self.last = Some(Last {
                    task: 0,
                    fault,
                    line,
                });
                Ok(Out::Broke(fault))
            }
        }
    }
}
