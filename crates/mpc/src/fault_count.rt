ghost use Rattle.std.specs.Prelude.{◌≡◌, ◌+◌, ◌-◌, ◌^◌, ◌<◌, ◌≤◌, min};
ghost use Rattle.std.specs.Bool.{OnTrue, OnFalse};

/// How many calls on the outside have failed. At its type's end the count stands still, and each
/// call that can fail does so.
#[derive(Debug, Drop)]
pub struct FaultCount {
    count: u64,
}

impl FaultCount {
    /// No call has failed.
    pub fn new() -> FaultCount
        ensures { result.count ≡ 0 }
    {
        FaultCount { count: 0 }
    }

    /// Whether the count stands at its type's end.
    pub fn is_full(&self) -> bool
        ensures full { OnTrue result (self.now.count ≡ 2 ^ 64 - 1) }
        ensures open { OnFalse result (self.now.count < 2 ^ 64 - 1) }
    {
        self.count == u64::MAX
    }

    /// Counts a call that has failed.
    pub fn rise(&mut self)
        ensures risen { self.new.count ≡ min (self.old.count + 1) (2 ^ 64 - 1) }
        ensures later { self.old.count ≤ self.new.count }
    {
        self.count = self.count.saturating_add(1);
    }
}
