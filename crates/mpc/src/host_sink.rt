ghost use Rattle.std.specs.Prelude.{◌≡◌, ◌≤◌, ◌<◌, ◌-◌, ◌^◌, length, take, IfOk, OnOk, OnErr, IsErr};
ghost use Rattle.mpc.specs.Transfers.{no_bytes};
ghost use Rattle.mpc_base.specs.Causes.{HasCause};
ghost use Rattle.mpc_base.specs.Told.{Took};
ghost use Rattle.std.specs.Io.KnownBytes.{WriteAppends};

use crate::fault_count::FaultCount;
use mpc_base::{Failed, Sink};
use std::io::{ErrorKind, Stdout, Write};

/// Standard output. It tells no bytes.
#[derive(Drop)]
pub struct HostSink {
    out: Stdout,
    faults: FaultCount,
}

impl HostSink {
    /// Standard output, to which no write has failed.
    pub fn new(out: Stdout) -> HostSink
        ensures { result.faults.count ≡ 0 }
    {
        HostSink {
            out,
            faults: FaultCount::new(),
        }
    }
}

impl Sink for HostSink {
    ghost taken = { λ _. no_bytes };

    ghost faults = { λ sink. sink.faults.count };

    fn write(&mut self, bytes: &[u8]) -> Result<usize, Failed>
        ensures count { IfOk result (λ n. n ≤ length bytes.now) }
        ensures some { IfOk result (λ n. 0 < length bytes.now → 0 < n) }
        ensures took { IfOk result (λ n. Took no_bytes (take n bytes.now) no_bytes) }
        ensures err { OnErr result (no_bytes ≡ no_bytes) }
        ensures cause { HasCause self.old.faults.count self.new.faults.count result }
        ensures full { self.old.faults.count ≡ 2 ^ 64 - 1 → IsErr result }
        ensures counts { OnOk result (self.new.faults.count ≡ self.old.faults.count) }
    {
        if self.faults.is_full() {
            return Err(Failed);
        }
        let taken = offer(&mut self.out, bytes);
        if taken.is_err() {
            self.faults.rise();
        }
        taken
    }
}

/// Offers a piece to a writer, again where a signal cut the call off, and answers how many bytes
/// from its front were taken. A writer that takes nothing of a piece that is not empty has failed.
pub fn offer<W: Write>(out: &mut W, bytes: &[u8]) -> Result<usize, Failed>
    ensures count { IfOk result (λ n. n ≤ length bytes.now) }
    ensures some { IfOk result (λ n. 0 < length bytes.now → 0 < n) }
    ensures took { WriteAppends (W.contents out.old) (W.contents out.new) result bytes.now }
{
    for _ in 0..u64::MAX {
        match out.write(bytes) {
            Ok(0) if !bytes.is_empty() => return Err(Failed),
            Ok(count) => return Ok(count),
            Err(error) if error.kind() == ErrorKind::Interrupted => {}
            Err(_) => return Err(Failed),
        }
    }
    Err(Failed)
}
