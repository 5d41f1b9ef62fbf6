ghost use Rattle.std.specs.Prelude.{◌≡◌, ◌≢◌, ◌≤◌, [], IfOk, OnOk, OnErr};
ghost use Rattle.mpc_values.specs.CallTable.{call_number};
ghost use Rattle.c_tree.specs.Asking.{Asks};
ghost use Rattle.c_tree.specs.Next.{next_of};
ghost use Rattle.c_tree.specs.ProgramOf.{program_of};
ghost use Rattle.serial_model.specs.Go.{go, has_ended, answers_of};
ghost use Rattle.serial_model.specs.Run.{world_of, ending, rank_state, LegalRun, RecordsRun};
ghost use Rattle.serial_node.specs.Visits.{made, reply_of, reply_to};

use crate::state::State;
use mpc_base::{
    Answer, Call, End, Entries, Entry, Journal, Memory, Out, RankEnd, RankEnds, RankState, Text,
};
use serial_model::{Last, RunRecord, Setup};
use std::alloc::Global;
use std::marker::Model;

/// What a visit answers.
#[derive(Clone, Copy, Debug, PartialEq, Eq)]
pub enum Reply {
    /// The call is done, with this answer.
    Did(Answer),
    /// The run has ended.
    Stop,
}

/// The memory and the journal of a run, which is at every moment a run of its setup.
#[derive(Debug, Drop)]
pub struct Node {
    alloc: Global,
    setup: Setup,
    state: State,
    entries: Vec<Entry>,
}

impl Model for Node {
    ghost use Rattle.serial_node.specs.Held.{Held};
    ghost use Rattle.serial_node.specs.HeldCoding.{held_code};

    ghost Value = { Held };

    ghost coded = { held_code };

    ghost use Rattle.serial_node.specs.Keeps.{held_of, Keeps};

    ghost view = { held_of };

    ghost invariant = { Keeps };
}

impl Node {
    /// A node at the start of a run.
    pub fn new(alloc: Global, setup: Setup) -> Result<Node, Memory>
        ensures { IfOk result (λ node. node ≡ record { setup = setup; entries = [] }) }
    {
        let state = State::new(alloc, setup.program.variables.as_slice())?;
        Ok(Node {
            alloc,
            setup,
            state,
            entries: Vec::new(alloc),
        })
    }

    /// What the run is set up from.
    pub fn setup(&self) -> &Setup
        ensures { result.now ≡ self.now.setup }
    {
        &self.setup
    }

    /// One visit of the task, whose program asks this call at this line behind the answers that the run holds
    /// for it. A run that has ended makes no entry, and the answer is Stop. Else there is one entry more: the
    /// call is done, or it has a fault, and the answer is Stop. After want of memory the node is as before.
    pub fn visit(&mut self, task: u32, call: &Call, line: u32) -> Result<Reply, Memory>
        requires task { task ≡ 0 }
        requires asks { next_of (program_of self.old.setup.program) (answers_of (world_of self.old.setup self.old.entries) 0) ≡ Asks call.now line }
        requires built { call_number call.now ≤ 9 }
        ensures setup { OnOk result (self.new.setup ≡ self.old.setup) }
        ensures entries { OnOk result (self.new.entries ≡ made self.old.entries (go self.old.setup (world_of self.old.setup self.old.entries) 0)) }
        ensures reply { IfOk result (λ reply. reply ≡ reply_of (has_ended (world_of self.old.setup self.old.entries)) (go self.old.setup (world_of self.old.setup self.old.entries) 0)) }
        ensures err { OnErr result (self.new ≡ self.old) }
    {
        if self.state.has_ended() {
            return Ok(Reply::Stop);
        }
        self.entries.reserve(1)?;
        let out = self.state.step(self.alloc, call, line)?;
        self.entries.push_reserved(Entry {
            task,
            line,
            call: call.number(),
            out,
        });
        Ok(reply_to(out))
    }

    /// The node's entries are a legal run of its setup. It does nothing.
    pub fn is_of_a_run(&self)
        ensures { LegalRun self.now.setup (record { tasks = 1; entries = self.now.entries }) }
    {
        let _entries = &self.entries;
    }

    /// How the run stands.
    pub fn ended(&self) -> End
        ensures { result ≡ ending (world_of self.now.setup self.now.entries) }
    {
        self.state.ending()
    }

    /// The record of the run, which has ended.
    pub fn into_record(self) -> Result<RunRecord, Memory>
        requires { ending (world_of self.setup self.entries) ≢ End.Going }
        ensures records { IfOk result (λ record'. RecordsRun record') }
        ensures setup { IfOk result (λ record'. record'.setup ≡ self.setup) }
        ensures tasks { IfOk result (λ record'. record'.journal.tasks ≡ 1) }
        ensures entries { IfOk result (λ record'. record'.journal.entries ≡ self.entries) }
        ensures end { IfOk result (λ record'. record'.end ≡ ending (world_of self.setup self.entries)) }
    {
        let Node {
            alloc,
            setup,
            state,
            entries,
        } = self;
        let end = state.ending();
        let mut ranks = Vec::new(alloc);
        ranks.push(rank_end(state))?;
        Ok(RunRecord {
            setup,
            journal: Journal {
                tasks: 1,
                entries: Entries::of(entries),
            },
            end,
            ranks: RankEnds::of(ranks),
        })
    }
}

fn reply_to(out: Out) -> Reply
    ensures { result ≡ reply_to out }
{
    match out {
        Out::Did(answer) => Reply::Did(answer),
        Out::Broke(_) | Out::Waits => Reply::Stop,
    }
}

// How task 0 stands at the end.
fn rank_state(exit: Option<i32>, last: Option<Last>) -> RankState
    ensures { result ≡ rank_state 0 last exit }
{
    match (exit, last) {
        (Some(code), _) => RankState::Exit(code),
        (None, None) => RankState::Stopped,
        (None, Some(last)) => {
            if last.task == 0 {
                RankState::Fault {
                    fault: last.fault,
                    line: last.line,
                }
            } else {
                RankState::Stopped
            }
        }
    }
}

fn rank_end(state: State) -> RankEnd
    ensures { result ≡ record { state = rank_state 0 state.last state.exit; output = state.output.items } }
{
    let state_at_end = rank_state(state.exit, state.last);
    RankEnd {
        state: state_at_end,
        output: Text::of(state.output),
    }
}
