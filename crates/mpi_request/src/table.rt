//! The active requests of a run.
ghost use Rattle.std.specs.Prelude.{◌≡◌, ◌+◌, ◌<◌, length, position, IfOk, OnOk, OnErr, Some, true};
ghost use Rattle.mpc_values.specs.declared.limits.TheConstants.{MAX_GIVEN};
ghost use Rattle.mpi_request.specs.Active.{own_at, told_in, span_in, ready_in, is_ready_in};
ghost use Rattle.mpi_request.specs.Steps.{no_requests, started, taken_back, matched, finished};

use crate::own::Own;
use crate::owners::{Owners, RequestId};
use crate::started::Started;
use block_table::Span;
use mpc_values::{Fault, Memory, Status, Word};
use std::alloc::Global;
use std::marker::Model;

/// The active requests of each task (MPI 3.1, section 3.7), and the request that each posting belongs to.
#[derive(Drop)]
pub struct Requests {
    tasks: Vec<Own>,
    owners: Owners,
}

impl Model for Requests {
    ghost use Rattle.mpi_request.specs.Active.{Table};

    ghost Value = { Table };

    ghost view = { λ r. record { tasks = r.tasks.items; owners = r.owners } };
}

impl Requests {
    /// So many tasks without requests.
    #[tactic(auto, using(crate::proofs::Counted::replicate_more))]
    pub fn new(alloc: Global, tasks: u32) -> Result<Requests, Memory>
        ensures { IfOk result (λ r. r ≡ no_requests tasks) }
    {
        let mut all = Vec::new(alloc);
        for _ in 0..tasks {
            all.push(Own::new(alloc))?;
        }
        Ok(Requests {
            tasks: all,
            owners: Owners::new(alloc),
        })
    }

    /// Starts a request of a task, and gives its number: a task's requests are numbered from 1 (MPI 3.1, section
    /// 3.7.2). A posting belongs to the request that was started first for it. After want of memory all is as it was.
    #[tactic(auto, unfolding(crate::specs::Steps::started))]
    pub fn start(&mut self, task: u32, what: Started) -> Result<u32, Memory>
        requires there { task < length self.old.tasks }
        requires few { (own_at self.old task).made < MAX_GIVEN }
        ensures number { IfOk result (λ number. number ≡ (own_at self.old task).made + 1) }
        ensures after { OnOk result (self.new ≡ started self.old task what) }
        ensures err { OnErr result (self.new ≡ self.old) }
    {
        let own = &mut self.tasks[task as usize];
        let number = own.start(what)?;
        let id = RequestId { task, number };
        if let Err(refused) = self.owners.add(what.post(), id) {
            own.take_back();
            return Err(refused);
        }
        Ok(number)
    }

    /// Takes the start of a request back, which was the last change: all is as it was before it.
    #[tactic(auto, unfolding(crate::specs::Steps::taken_back))]
    pub fn take_back(&mut self, task: u32, req: u32)
        requires there { task < length self.old.tasks }
        requires last { req ≡ (own_at self.old task).made }
        requires given { 0 < req }
        ensures { self.new ≡ taken_back self.old task }
    {
        if let Some(open) = self.tasks[task as usize].take_back() {
            self.owners
                .remove(open.what.post(), RequestId { task, number: req });
        }
    }

    /// Notes what the match of a posting told the request that it belongs to (MPI 3.1, section 3.5). A receive then
    /// ends with it, and a send with the empty status. A posting of no active request changes nothing.
    #[tactic(auto, unfolding(crate::specs::Steps::matched))]
    pub fn matched(&mut self, post: u32, outcome: Result<Status, Fault>)
        ensures { self.new ≡ matched self.old post outcome }
    {
        if let Some(id) = self.owners.get(post) {
            if let Some(own) = self.tasks.get_mut(id.task as usize) {
                own.note(id.number, outcome);
            }
        }
    }

    /// Whether a request is ready: a send, once it is eager or matched; a receive, once it is matched; one without a
    /// posting, at once (MPI 3.1, sections 3.4 and 3.7.3). None comes where the request is not active.
    pub fn ready(&self, task: u32, req: u32) -> Option<bool>
        requires { task < length self.now.tasks }
        ensures { result ≡ ready_in (own_at self.now task) req }
    {
        self.tasks[task as usize]
            .get(req)
            .map(|open| open.told().is_some())
    }

    /// The least index of a word that names an active request which is ready, where there is one (MPI 3.1, section
    /// 3.7.5).
    pub fn any_ready(&self, task: u32, reqs: &[Word]) -> Option<usize>
        requires { task < length self.now.tasks }
        ensures { result ≡ position (is_ready_in (own_at self.now task)) reqs.now }
    {
        self.tasks[task as usize].first_ready(reqs)
    }

    /// Ends a request that is ready, and gives what it ends with and its places: a status, or the fault of a receive
    /// whose message did not fit (MPI 3.1, sections 3.2.4, 3.3.1 and 3.7.3).
    #[tactic(auto, unfolding(crate::specs::Steps::finished))]
    pub fn finish(&mut self, task: u32, req: u32) -> (Result<Status, Fault>, Option<Span>)
        requires there { task < length self.old.tasks }
        requires ready { ready_in (own_at self.old task) req ≡ Some true }
        ensures told { Some result.0 ≡ told_in (own_at self.old task) req }
        ensures span { result.1 ≡ span_in (own_at self.old task) req }
        ensures after { self.new ≡ finished self.old task req }
    {
        let Some(open) = self.tasks[task as usize].end(req) else {
            unreachable!()
        };
        self.owners
            .remove(open.what.post(), RequestId { task, number: req });
        let Some(told) = open.told() else {
            unreachable!()
        };
        (told, open.what.span())
    }

    /// How many requests of a task are active.
    pub fn active_of(&self, task: u32) -> u32
        requires { task < length self.now.tasks }
        ensures { result ≡ length (own_at self.now task).active }
    {
        self.tasks[task as usize].count()
    }
}

#[cfg(test)]
impl Requests {
    /// How many tasks there are.
    pub fn tasks(&self) -> usize
        ensures { result ≡ length self.now.tasks }
    {
        self.tasks.len()
    }

    /// The number that a task's next request gets.
    pub fn next_number(&self, task: u32) -> u32
        requires { task < length self.now.tasks }
        ensures { result ≡ (own_at self.now task).made + 1 }
    {
        self.tasks[task as usize].next_number()
    }
}
