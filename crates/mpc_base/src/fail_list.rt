ghost use Rattle.std.specs.Prelude.{◌≡◌, ◌<◌, ◌+◌, ◌-◌, ◌^◌};
ghost use Rattle.std.specs.Bool.{OnTrue, OnFalse};
ghost use Rattle.mpc_base.specs.FailLists.{fails_now, counted, failed_so_far};

use std::marker::Model;

/// Which calls of an object are to fail: a list of their numbers, counted from 0.
#[derive(Debug, Drop)]
pub struct FailList {
    numbers: Vec<u64>,
    past: u64,
}

impl Model for FailList {
    ghost use Rattle.mpc_base.specs.FailLists.{FailsAt};

    ghost Value = { FailsAt };

    ghost view = { λ f. record { listed = f.numbers.items; calls = f.past } };
}

impl FailList {
    pub fn new(numbers: Vec<u64>) -> FailList
        ensures { result ≡ record { listed = numbers.items; calls = 0 } }
    {
        FailList { numbers, past: 0 }
    }

    /// Counts a call, and tells whether it is to fail.
    pub fn next(&mut self) -> bool
        ensures value { result ≡ fails_now self.old }
        ensures after { self.new ≡ counted self.old }
        ensures risen { OnTrue result (failed_so_far self.old < failed_so_far self.new) }
        ensures still { OnFalse result (failed_so_far self.new ≡ failed_so_far self.old) }
        ensures few { failed_so_far self.old < 2 ^ 64 - 2 }
    {
        let fails = is_listed(self.numbers.as_slice(), self.past);
        self.past = self.past.saturating_add(1);
        fails
    }
}

fn is_listed(numbers: &[u64], past: u64) -> bool
    ensures { result ≡ fails_now (record { listed = numbers.now; calls = past }) }
{
    past < u64::MAX && numbers.contains(&past)
}
