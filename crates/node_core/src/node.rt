//! The node: the state and the journal of a run.
ghost use Rattle.std.specs.Prelude.{◌≡◌, ◌≢◌, ◌<◌, ◌≤◌, ◌-◌, ◌^◌, ◌∷◌, ◌++◌, ◌&&◌, [], length, slice_get, is_some, unwrap_or, not, true, None, IfOk, OnOk, OnErr, IfSome};
ghost use Rattle.mpc_values.specs.CallTable.{call_number};
ghost use Rattle.mpc_values.specs.declared.limits.TheConstants.{MAX_TASKS};
ghost use Rattle.c_tree.specs.Asking.{Asks};
ghost use Rattle.c_tree.specs.Next.{next_of};
ghost use Rattle.run_model.specs.Setup.{setup_of, tasks_of};
ghost use Rattle.run_model.specs.Valid.{Valid};
ghost use Rattle.run_model.specs.World.{World};
ghost use Rattle.run_model.specs.Steps.{answers_of, entry_of};
ghost use Rattle.run_model.specs.Go.{go};
ghost use Rattle.run_model.specs.Choice.{can_go};
ghost use Rattle.run_model.specs.Run.{LegalRun};
ghost use Rattle.run_model.specs.Ranks.{rank_ends};
ghost use Rattle.run_model.specs.Records.{MapsAgree};
ghost use Rattle.mpc_base.specs.declared.journals.End.TheVariants as end;
ghost use Rattle.node_core.specs.Built.{IsBuilt};
ghost use Rattle.node_core.specs.Stands.{Stands, SpaceStands, IsSpaceOf};
ghost use Rattle.node_core.specs.Steps.{SameState, Stepped, AllFit};
ghost use Rattle.node_core.specs.Held.{world_in, end_of, is_going, IsStop, stop_after};
ghost use Rattle.node_core.specs.Visits.{made_by, reply_in, reply_to};

use crate::parts::State;
use crate::records::{Mapped, map_of, rank_ends};
use mem_space::Space;
use mpc_base::{Answer, Call, End, Entries, Entry, Journal, Memory, Out, RankEnds};
use run_model::{RunRecord, Setup};
use std::alloc::Global;
use std::marker::Model;
use std::mem;

/// What a visit answers.
#[derive(Clone, Copy, Debug, PartialEq, Eq)]
pub enum Reply {
    /// The call is done, with this answer.
    Did(Answer),
    /// The call waits.
    NotYet,
    /// The run has ended.
    Stop,
}

/// The state and the journal of a run, which is at every moment a run of its setup.
#[derive(Debug, Drop)]
pub struct Node {
    alloc: Global,
    setup: Setup,
    state: State,
    journal: Journal,
    // How the run is.
    end: End,
    // The end with which the node was stopped, while the run went on.
    stop: Option<End>,
}

impl Model for Node {
    ghost use Rattle.node_core.specs.Held.{Held};
    ghost use Rattle.node_core.specs.HeldCoding.{held_code};

    ghost Value = { Held };

    ghost coded = { held_code };

    ghost use Rattle.node_core.specs.Keeps.{held_of, Keeps};

    ghost view = { held_of };

    ghost invariant = { Keeps };
}

/// The entries, with none left behind.
fn taken(alloc: Global, entries: &mut Entries) -> Vec<Entry>
    ensures taken { result.items ≡ entries.old }
    ensures left { entries.new ≡ [] }
{
    mem::replace(entries, Entries::of(Vec::new(alloc))).into_vec()
}

/// A visit of a task that can go, with its entry in the journal. The entry's room is made first, so that
/// after want of memory nothing that contracts see has changed.
fn visit_with(
    alloc: Global,
    setup: &Setup,
    state: &mut State,
    entries: &mut Entries,
    task: u32,
    call: &Call,
    line: u32,
) -> Result<Out, Memory>
    requires there { task < length state.old.tasks.items }
    requires one { task < tasks_of (setup_of setup.now) }
    requires set { IsSpaceOf (setup_of setup.now) state.old.shared.space }
    requires built { IsBuilt call.now }
    requires room { IfSome (slice_get state.old.tasks.items task) (λ part. part.course.entries < 2 ^ 32 - 1) }
    ensures ok { IfOk result (λ out. (w : World) → Stands w state.old → Stepped (setup_of setup.now) w task call.now line out state.new) }
    ensures entry { IfOk result (λ out. entries.new ≡ entries.old ++ entry_of task call.now line out ∷ []) }
    ensures set { IsSpaceOf (setup_of setup.now) state.new.shared.space }
    ensures noted { OnOk result (AllFit state.old.tasks.items → AllFit state.new.tasks.items) }
    ensures err { OnErr result (SameState state.old state.new) }
    ensures err_entries { OnErr result (entries.new ≡ entries.old) }
{
    let mut list = taken(alloc, entries);
    if list.reserve(1).is_err() {
        *entries = Entries::of(list);
        return Err(Memory);
    }
    match state.step(setup, task, call, line) {
        Err(wanting) => {
            *entries = Entries::of(list);
            Err(wanting)
        }
        Ok(out) => {
            list.push_reserved(Entry {
                task,
                line,
                call: call.number(),
                out,
            });
            *entries = Entries::of(list);
            Ok(out)
        }
    }
}

fn reply_to(out: Out) -> Reply
    ensures { result ≡ reply_to out }
{
    match out {
        Out::Did(answer) => Reply::Did(answer),
        Out::Broke(_) => Reply::Stop,
        Out::Waits => Reply::NotYet,
    }
}

/// How a node is: as its run is, or as it was stopped.
fn how_stands(stop: Option<End>, end: End) -> End
    ensures { result ≡ unwrap_or stop end }
{
    match stop {
        None => end,
        Some(stop) => stop,
    }
}

fn is_going(end: End) -> bool
    ensures { result ≡ is_going end }
{
    match end {
        End::Going => true,
        _ => false,
    }
}

impl Node {
    /// A node at the start of a run.
    pub fn new(alloc: Global, setup: Setup) -> Result<Node, Memory>
        requires valid { Valid (setup_of setup) }
        ensures { IfOk result (λ node. node ≡ record { setup = setup; entries = []; stop = None }) }
    {
        let tasks = setup.cores.as_slice().len() as u32;
        let state = State::new(alloc, &setup)?;
        let end = state.ending_after(0);
        let entries = Vec::new(alloc);
        Ok(Node {
            alloc,
            setup,
            state,
            journal: Journal {
                tasks,
                entries: Entries::of(entries),
            },
            end,
            stop: None,
        })
    }

    /// What the run is set up from.
    pub fn setup(&self) -> &Setup
        ensures { result.now ≡ self.now.setup }
    {
        &self.setup
    }

    /// One visit of a task, whose program asks this call at this line after the answers that the run holds
    /// for it. Stop where the run has ended before, without an entry, or by this visit's fault; NotYet where
    /// the call waits; else the answer. After want of memory the node is as before.
    pub fn visit(&mut self, task: u32, call: &Call, line: u32) -> Result<Reply, Memory>
        requires asks { next_of (setup_of self.old.setup).program (answers_of (world_in self.old) task) ≡ Asks call.now line }
        requires built { IsBuilt call.now }
        ensures setup { OnOk result (self.new.setup ≡ self.old.setup) }
        ensures stop { OnOk result (self.new.stop ≡ self.old.stop) }
        ensures entries { OnOk result (self.new.entries ≡ made_by self.old.stop self.old.entries (go (setup_of self.old.setup) (world_in self.old) task)) }
        ensures reply { IfOk result (λ reply. reply ≡ reply_in (is_going (end_of self.old)) (go (setup_of self.old.setup) (world_in self.old) task)) }
        ensures err { OnErr result (self.new ≡ self.old) }
    {
        if !is_going(how_stands(self.stop, self.end)) {
            return Ok(Reply::Stop);
        }
        if !self.state.may_go(task) {
            return Ok(Reply::NotYet);
        }
        let out = visit_with(
            self.alloc,
            &self.setup,
            &mut self.state,
            &mut self.journal.entries,
            task,
            call,
            line,
        )?;
        self.end = self.state.ending_after(task);
        Ok(reply_to(out))
    }

    /// Stops the node with NoThread or NoMemory. Nothing changes where the run has ended.
    pub fn stop_with(&mut self, end: End)
        requires { IsStop end }
        ensures setup { self.new.setup ≡ self.old.setup }
        ensures entries { self.new.entries ≡ self.old.entries }
        ensures stop { self.new.stop ≡ stop_after self.old end }
    {
        if is_going(how_stands(self.stop, self.end)) {
            self.stop = Some(end);
        }
    }

    /// How the run is, or with which end it was stopped.
    pub fn ended(&self) -> End
        ensures { result ≡ end_of self.now }
    {
        how_stands(self.stop, self.end)
    }

    /// How many tasks there are, 1 to 64.
    pub fn tasks(&self) -> u32
        ensures tasks { result ≡ tasks_of (setup_of self.now.setup) }
        ensures few { result ≤ MAX_TASKS }
    {
        self.journal.tasks
    }

    /// Whether a task can go: the node was not stopped, and a step of the task makes an entry.
    pub fn can_go(&self, task: u32) -> bool
        ensures goes { result ≡ (not (is_some self.now.stop) && can_go (setup_of self.now.setup) (world_in self.now) task) }
        ensures there { result ≡ true → task < tasks_of (setup_of self.now.setup) }
    {
        if self.stop.is_some() {
            return false;
        }
        self.state.may_go(task)
    }

    /// The journal, which is a legal run of the setup.
    pub fn journal(&self) -> &Journal
        ensures entries { result.now.entries ≡ self.now.entries }
        ensures legal { LegalRun (setup_of self.now.setup) result.now }
    {
        &self.journal
    }

    /// The heap, which stands for the places, live objects and marks of the run's world.
    pub fn space(&self) -> &Space
        ensures stands { SpaceStands (world_in self.now).core result.now }
        ensures set { IsSpaceOf (setup_of self.now.setup) result.now }
    {
        &self.state.shared.space
    }

    /// What is handed back: the setup, the journal, the end, and the end of each rank. Map and words are given exactly
    /// where the run finished.
    pub fn into_record(self) -> Result<RunRecord, Memory>
        ensures setup { IfOk result (λ kept. kept.setup ≡ self.setup) }
        ensures entries { IfOk result (λ kept. kept.journal.entries ≡ self.entries) }
        ensures legal { IfOk result (λ kept. LegalRun (setup_of self.setup) kept.journal) }
        ensures ended { IfOk result (λ kept. kept.end ≡ end_of self) }
        ensures ranks { IfOk result (λ kept. rank_ends (world_in self) (end_of self) ≡ kept.ranks) }
        ensures finished { IfOk result (λ kept. end_of self ≡ end.Finished → MapsAgree kept.map kept.words (world_in self).core.memory) }
        ensures others { IfOk result (λ kept. end_of self ≢ end.Finished → (kept.map ≡ None) × (kept.words ≡ None)) }
    {
        let Node {
            alloc,
            setup,
            state,
            journal,
            end,
            stop,
        } = self;
        let end = how_stands(stop, end);
        let State {
            shared,
            tasks,
            last: _,
        } = state;
        let Mapped { map, words } = map_of(alloc, shared.space, end)?;
        let ranks = rank_ends(alloc, tasks, end)?;
        Ok(RunRecord {
            setup,
            journal,
            end,
            ranks: RankEnds::of(ranks),
            map,
            words,
        })
    }
}
