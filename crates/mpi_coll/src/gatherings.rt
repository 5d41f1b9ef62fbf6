//! A meeting that some members have not come to.
ghost use Rattle.std.specs.Prelude.{◌≡◌, ◌<◌, ◌+◌, IfOk, length, map};
ghost use Rattle.std.specs.List.{range_with_len};

use crate::shares::{Takers, hand_out};
use mpc_values::{Coll, Memory, Words};
use std::alloc::Global;
use std::marker::Model;

/// What is kept of a meeting while members are missing: what each has asked and given, by rank.
#[derive(Debug, Drop)]
pub(crate) struct Gathering {
    coll: Coll,
    arrived: u32,
    asked: Vec<Coll>,
    given: Vec<Words>,
}

impl Model for Gathering {
    ghost use Rattle.mpi_coll.specs.Rooms.{Gathered};

    ghost Value = { Gathered };

    ghost view = { λ g. record { coll = g.coll; arrived = g.arrived; asked = g.asked.items; given = g.given.items } };
}

impl Gathering {
    ghost use Rattle.mpi_coll.specs.Rooms.{fresh, put_in, come_to};

    /// A meeting that nobody has come to.
    pub(crate) fn new(alloc: Global, members: u32, coll: &Coll) -> Result<Gathering, Memory>
        ensures { IfOk result (λ g. g ≡ fresh members coll.now) }
    {
        let given = hand_out(alloc, &[], Takers::All, members)?;
        let asked = repeated(alloc, members, coll)?;
        Ok(Gathering {
            coll: *coll,
            arrived: 0,
            asked,
            given,
        })
    }

    /// Writes down what a member asks and gives, and does not count it yet.
    pub(crate) fn put(&mut self, rank: u32, coll: &Coll, words: Words)
        requires asked { rank < length self.old.asked }
        requires given { rank < length self.old.given }
        ensures { self.new ≡ put_in self.old rank coll.now words }
    {
        if self.arrived == 0 {
            self.coll = *coll;
        }
        self.asked[rank as usize] = *coll;
        self.given[rank as usize] = words;
    }

    /// Counts one member more.
    pub(crate) fn come(&mut self)
        requires { self.old.arrived < 4294967295 }
        ensures { self.new ≡ come_to self.old }
    {
        self.arrived += 1;
    }

    /// How many have come.
    pub(crate) fn arrived(&self) -> u32
        ensures { result ≡ self.now.arrived }
    {
        self.arrived
    }

    /// What the member that came first asks.
    pub(crate) fn coll(&self) -> &Coll
        ensures { result.now ≡ self.now.coll }
    {
        &self.coll
    }

    /// What each member gives, by rank.
    pub(crate) fn given(&self) -> &[Words]
        ensures { result.now ≡ self.now.given }
    {
        self.given.as_slice()
    }

    /// What each member asks, by rank.
    pub(crate) fn asked(&self) -> &[Coll]
        ensures { result.now ≡ self.now.asked }
    {
        self.asked.as_slice()
    }
}

/// One call for each member.
fn repeated(alloc: Global, members: u32, coll: &Coll) -> Result<Vec<Coll>, Memory>
    ensures { IfOk result (λ all. all.items ≡ map (λ rank. coll.now) (range_with_len 0 members)) }
{
    let all = (0..members).map(|_rank| *coll).collect(alloc)?;
    Ok(all)
}
