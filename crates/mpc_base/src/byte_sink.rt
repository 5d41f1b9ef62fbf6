ghost use Rattle.std.specs.Prelude.{◌≡◌, List, ℕ, length, take, ◌≤◌, ◌<◌, IfOk, OnErr, Option};
ghost use Rattle.mpc_base.specs.Causes.{HasCause};
ghost use Rattle.mpc_base.specs.Told.{Took};

use mpc_values::Failed;

/// What takes the bytes that are written: the bytes taken so far, where it tells them, and a count of
/// faults that never falls.
pub trait Sink {
    /// The bytes taken, where the sink tells them.
    ghost taken: { Self → Option (List ℕ) };

    /// How often the sink has failed.
    ghost faults: { Self → ℕ };

    /// Takes bytes from the front of the piece, and answers how many: at least one of a piece that is
    /// not empty. An `Err` takes nothing, and comes only where the count of faults rose.
    fn write(&mut self, bytes: &[u8]) -> Result<usize, Failed>
        ensures count { IfOk result (λ n. n ≤ length bytes.now) }
        ensures some { IfOk result (λ n. 0 < length bytes.now → 0 < n) }
        ensures took { IfOk result (λ n. Took (taken self.old) (take n bytes.now) (taken self.new)) }
        ensures err { OnErr result (taken self.new ≡ taken self.old) }
        ensures cause { HasCause (faults self.old) (faults self.new) result };
}
