ghost use Rattle.std.specs.Prelude.{◌≡◌, ◌∷◌, [], ◌+◌, ◌-◌, ◌≤◌, ◌<◌, ◌||◌, ◌&&◌, not, ◌++◌, length, take, min, nat_le, Some, IfOk, OnErr, is_err};
ghost use Rattle.mpc_base.specs.Causes.{HasCause};
ghost use Rattle.mpc_base.specs.FailLists.{fails_now, counted};
ghost use Rattle.mpc_base.specs.MemSinkSeen.{taken_by, finds_no_room};

use crate::byte_sink::Sink;
use crate::fail_list::FailList;
use mpc_values::{Failed, Memory};
use std::alloc::Global;
use std::marker::Model;

/// A sink in memory that tells its bytes. It takes at most `step` bytes in a write and `room` in all;
/// the writes whose numbers are listed fail, and so does one of a piece that finds no room.
#[derive(Drop)]
pub struct MemSink {
    bytes: Vec<u8>,
    step: usize,
    room: usize,
    fails: FailList,
    faults: u64,
}

impl Model for MemSink {
    ghost use Rattle.std.specs.Prelude.{◌≤◌, vec_len, vec_capacity, length};
    ghost use Rattle.mpc_base.specs.MemSinkSeen.{MemSinkSeen};

    ghost Value = { MemSinkSeen };

    ghost view = { λ s. record { bytes = s.bytes.items; step = s.step; room = s.room; fails = s.fails; faults = s.faults } };

    ghost invariant = { λ s. (1 ≤ s.step) × (vec_len s.bytes ≤ s.room) × (s.room ≤ vec_capacity s.bytes) };
}

impl MemSink {
    /// A sink of `room` bytes that takes at most `step` of them in one write. Those writes whose number
    /// is in `fails`, counted from 0, fail.
    pub fn new(alloc: Global, step: usize, room: usize, fails: Vec<u64>) -> Result<MemSink, Memory>
        requires { 1 ≤ step }
        ensures { IfOk result (λ sink. sink ≡ record { bytes = []; step = step; room = room; fails = record { listed = fails.items; calls = 0 }; faults = 0 }) }
    {
        let bytes = Vec::with_capacity(alloc, room)?;
        Ok(MemSink {
            bytes,
            step,
            room,
            fails: FailList::new(fails),
            faults: 0,
        })
    }

    /// The bytes taken so far.
    pub fn bytes(&self) -> &[u8]
        ensures { result.now ≡ self.now.bytes }
    {
        self.bytes.as_slice()
    }

    fn has_no_room(&self, bytes: &[u8]) -> bool
        ensures { result ≡ finds_no_room self.now bytes.now }
    {
        !bytes.is_empty() && self.room <= self.bytes.len()
    }

    // Takes what the step and the room allow.
    fn take(&mut self, bytes: &[u8]) -> usize
        ensures count { result ≡ taken_by self.old bytes.now }
        ensures took { self.new ≡ record self.old { bytes = self.old.bytes ++ take result bytes.now } }
        ensures within { result ≤ length bytes.now }
    {
        let room = self.room - self.bytes.len();
        let count = bytes.len().min(self.step).min(room);
        match self.bytes.extend_from_slice(&bytes[..count]) {
            Ok(()) => count,
            Err(_) => unreachable!(),
        }
    }
}

impl Sink for MemSink {
    ghost taken = { λ s. Some s.bytes };

    ghost faults = { λ s. s.faults };

    fn write(&mut self, bytes: &[u8]) -> Result<usize, Failed>
        ensures count { IfOk result (λ n. n ≡ taken_by self.old bytes.now) }
        ensures within { IfOk result (λ n. n ≤ length bytes.now) }
        ensures some { IfOk result (λ n. 0 < length bytes.now → 0 < n) }
        ensures took { IfOk result (λ n. Some self.new.bytes ≡ Some (self.old.bytes ++ take n bytes.now)) }
        ensures err { OnErr result (Some self.new.bytes ≡ Some self.old.bytes) }
        ensures fails { is_err result ≡ fails_now self.old.fails || finds_no_room self.old bytes.now }
        ensures counts { self.new.fails ≡ counted self.old.fails }
        ensures cause { HasCause self.old.faults self.new.faults result }
    {
        let listed = self.fails.next();
        if listed || self.has_no_room(bytes) {
            self.faults = self.faults.saturating_add(1);
            return Err(Failed);
        }
        Ok(self.take(bytes))
    }
}
