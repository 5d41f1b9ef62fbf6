//! The active requests of one task.
ghost use Rattle.std.specs.Prelude.{◌≡◌, ◌+◌, ◌<◌, length, position, IfOk, OnOk, OnErr};
ghost use Rattle.mpc_values.specs.declared.limits.TheConstants.{MAX_GIVEN};
ghost use Rattle.mpi_request.specs.Active.{no_own, open_in, is_ready_in, with_start, without, without_last, with_outcome, IsCounted};

use crate::started::{Open, Started};
use mpc_values::{Fault, Memory, Status, Word};
use std::alloc::Global;
use std::collections::BTreeMap;
use std::marker::Model;

/// How many requests a task has started, and those that are active, by their numbers.
#[derive(Drop)]
pub struct Own {
    made: u32,
    active: BTreeMap<u32, Open>,
}

impl Model for Own {
    ghost use Rattle.mpi_request.specs.Active.{OwnRequests, IsCounted};

    ghost Value = { OwnRequests };

    ghost view = { λ o. record { made = o.made; active = o.active.entries } };

    ghost invariant = { λ o. IsCounted (record { made = o.made; active = o.active.entries }) };
}

impl Own {
    /// A task before its first request. It takes no memory.
    pub fn new(alloc: Global) -> Own
        ensures { result ≡ no_own }
    {
        Own {
            made: 0,
            active: BTreeMap::new(alloc),
        }
    }

    /// The active request of a number.
    pub fn get(&self, number: u32) -> Option<Open>
        ensures { result ≡ open_in self.now number }
    {
        self.active.get(&number).copied()
    }

    /// Whether a word names an active request that is ready.
    pub fn is_ready(&self, word: &Word) -> bool
        ensures { result ≡ is_ready_in self.now word.now }
    {
        match word {
            Word::Req(number) => match self.get(*number) {
                Some(open) => open.told().is_some(),
                None => false,
            },
            _ => false,
        }
    }

    /// The least index of a word that names an active request which is ready.
    pub fn first_ready(&self, words: &[Word]) -> Option<usize>
        ensures { result ≡ position (is_ready_in self.now) words.now }
    {
        words.iter().position(|word| self.is_ready(word))
    }

    /// How many requests are active.
    pub fn count(&self) -> u32
        ensures { result ≡ length self.now.active }
    {
        self.active.len() as u32
    }

    /// Starts a request under the next number. After want of memory all is as it was.
    pub fn start(&mut self, what: Started) -> Result<u32, Memory>
        requires { self.old.made < MAX_GIVEN }
        ensures number { IfOk result (λ number. number ≡ self.old.made + 1) }
        ensures after { OnOk result (self.new ≡ with_start self.old what) }
        ensures err { OnErr result (self.new ≡ self.old) }
        ensures counted { IsCounted self.old }
    {
        let number = self.made + 1;
        let open = Open {
            what,
            outcome: None,
        };
        self.active.insert(number, open)?;
        self.made = number;
        Ok(number)
    }

    /// Takes the request that was started last back, where it is active, and its number too.
    pub fn take_back(&mut self) -> Option<Open>
        requires { 0 < self.old.made }
        ensures value { result ≡ open_in self.old self.old.made }
        ensures after { self.new ≡ without_last self.old }
    {
        let open = self.active.remove(&self.made);
        self.made -= 1;
        open
    }

    /// Ends a request, where it is active.
    pub fn end(&mut self, number: u32) -> Option<Open>
        ensures value { result ≡ open_in self.old number }
        ensures after { self.new ≡ without self.old number }
    {
        self.active.remove(&number)
    }

    /// Notes what the match of a request told, where it is active.
    pub fn note(&mut self, number: u32, outcome: Result<Status, Fault>)
        ensures { self.new ≡ with_outcome self.old number outcome }
    {
        if let Some(open) = self.active.get_mut(&number) {
            open.outcome = Some(outcome);
        }
    }
}

#[cfg(test)]
impl Own {
    /// The number that the next request gets.
    pub fn next_number(&self) -> u32
        ensures { result ≡ self.now.made + 1 }
    {
        self.made + 1
    }
}
