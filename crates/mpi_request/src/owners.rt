//! The request that each posting belongs to.
ghost use Rattle.std.specs.Prelude.{◌≡◌, [], OnOk, OnErr};
ghost use Rattle.mpi_request.specs.Owners.{owner_in, is_same, has_owner, with_owner, without_owner};

use mpc_values::Memory;
use std::alloc::Global;
use std::collections::BTreeMap;
use std::marker::Model;

/// A request of a run: its task, and its number there.
#[derive(Clone, Copy, Debug, PartialEq, Eq)]
pub struct RequestId {
    pub task: u32,
    pub number: u32,
}

impl RequestId {
    fn is(&self, other: &RequestId) -> bool
        ensures { result ≡ is_same self.now other.now }
    {
        self.task == other.task && self.number == other.number
    }
}

/// The request of each posting that an active request awaits, by the posting's number.
#[derive(Drop)]
pub struct Owners {
    requests: BTreeMap<u32, RequestId>,
}

impl Model for Owners {
    ghost use Rattle.mpi_request.specs.Owners.{PostOwners};

    ghost Value = { PostOwners };

    ghost view = { λ o. o.requests.entries };
}

impl Owners {
    /// No postings. It takes no memory.
    pub fn new(alloc: Global) -> Owners
        ensures { result ≡ [] }
    {
        Owners {
            requests: BTreeMap::new(alloc),
        }
    }

    /// The request of a posting.
    pub fn get(&self, post: u32) -> Option<RequestId>
        ensures { result ≡ owner_in self.now post }
    {
        self.requests.get(&post).copied()
    }

    /// Gives a posting its request, unless it has one.
    pub fn add(&mut self, post: Option<u32>, id: RequestId) -> Result<(), Memory>
        ensures after { OnOk result (self.new ≡ with_owner self.old post id) }
        ensures err { OnErr result (self.new ≡ self.old) }
    {
        if let Some(post) = post {
            if self.get(post).is_none() {
                self.requests.insert(post, id)?;
            }
        }
        Ok(())
    }

    /// Takes its request from a posting, where it is this one.
    pub fn remove(&mut self, post: Option<u32>, id: RequestId)
        ensures { self.new ≡ without_owner self.old post id }
    {
        if let Some(post) = post {
            if self.has(post, &id) {
                self.requests.remove(&post);
            }
        }
    }

    /// Whether a posting has this request.
    fn has(&self, post: u32, id: &RequestId) -> bool
        ensures { result ≡ has_owner self.now post id.now }
    {
        match self.get(post) {
            Some(first) => first.is(id),
            None => false,
        }
    }
}
