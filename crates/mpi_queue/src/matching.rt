//! The queue of postings that wait for a partner.
ghost use Rattle.std.specs.Prelude.{◌≡◌, ◌+◌, ◌<◌, [], IfOk, OnOk, OnErr};
ghost use Rattle.mpc_values.specs.declared.limits.TheConstants.{MAX_GIVEN};
ghost use Rattle.mpi_queue.specs.Matching.{partner, without, posted, IsCounted};

use crate::postings::{Posting, can_meet};
use mpc_values::Memory;
use std::alloc::Global;
use std::marker::Model;

/// The postings that wait for a partner, by rising number. Numbers are given from 1 on.
#[derive(Debug, Drop)]
pub struct Queue {
    made: u32,
    waiting: Vec<(u32, Posting)>,
}

impl Model for Queue {
    ghost use Rattle.mpi_queue.specs.Matching.{Matching, IsCounted};

    ghost Value = { Matching };

    ghost view = { λ q. record { made = q.made; waiting = q.waiting.items } };

    ghost invariant = { λ q. IsCounted (record { made = q.made; waiting = q.waiting.items }) };
}

impl Queue {
    /// A queue before the first posting.
    pub fn new(alloc: Global) -> Queue
        ensures { result ≡ record { made = 0; waiting = [] } }
    {
        Queue {
            made: 0,
            waiting: Vec::new(alloc),
        }
    }

    /// Makes a posting: its number, and the number of its partner, the fitting posting made first among those
    /// of the other kind that wait (MPI 3.1, sections 3.2.4 and 3.5). The two leave the queue; a posting without
    /// a partner waits. After want of memory the queue is as it was.
    #[tactic(auto, unfolding(crate::specs::Matching::posted))]
    pub fn post(&mut self, p: Posting) -> Result<(u32, Option<u32>), Memory>
        requires { self.old.made < MAX_GIVEN }
        ensures number { IfOk result (λ r. r.0 ≡ self.old.made + 1) }
        ensures partner { IfOk result (λ r. r.1 ≡ partner self.old.waiting p) }
        ensures after { OnOk result (self.new ≡ posted self.old p) }
        ensures err { OnErr result (self.new ≡ self.old) }
    {
        let number = self.made + 1;
        let met = first_partner(self.waiting.as_slice(), &p);
        match met {
            Some(partner) => take_out(&mut self.waiting, partner),
            None => self.waiting.push((number, p))?,
        }
        self.made = number;
        Ok((number, met))
    }

    /// The number of the partner that `post` of this posting would give, for a send as for a receive.
    pub fn peek(&self, p: &Posting) -> Option<u32>
        ensures { result ≡ partner self.now.waiting p.now }
    {
        first_partner(self.waiting.as_slice(), p)
    }

    /// The number that the next posting gets. The postings that wait have smaller ones, in rising order.
    pub fn next_number(&self) -> u32
        ensures value { result ≡ self.now.made + 1 }
        ensures rising { IsCounted self.now }
    {
        self.made + 1
    }
}

/// The number of the first posting that may meet this one.
#[tactic(auto, unfolding(crate::specs::Matching::partner))]
fn first_partner(waiting: &[(u32, Posting)], p: &Posting) -> Option<u32>
    ensures { result ≡ partner waiting.now p.now }
{
    waiting.iter().find(|w| can_meet(p, &w.1)).map(|w| w.0)
}

/// Takes out the posting of this number.
fn take_out(waiting: &mut Vec<(u32, Posting)>, number: u32)
    ensures { waiting.new.items ≡ without waiting.old.items number }
{
    waiting.retain(|w| w.0 != number);
}
