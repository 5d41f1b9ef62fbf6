//! The program: its words, the adapters over real files and standard output, and its exit status.
#![tactic(auto)]

ghost use Rattle.std.specs.Prelude.{◌≡◌, ◌≢◌, ◌↔◌, true, map, string_bytes, IfSome, IsErr};
ghost use Rattle.std.specs.Process.{exit_status};
ghost use Rattle.mpc_top.specs.Answers.{is_status};
ghost use Rattle.mpc_top.specs.Command.{NamesNone};
ghost use Rattle.mpc_top.specs.RunStatuses.{IsStatusOf};

mod fault_count;
mod host_files;
mod host_sink;
mod words;

use crate::host_files::HostFiles;
use crate::host_sink::HostSink;
use mpc_base::Memory;
use mpc_top::{Top, mpc_serial};
use std::alloc::Global;
use std::process::ExitCode;

/// The exit status where the words found no memory.
const NO_MEMORY: u8 = 10;

// The language lets `main` have no clause; what it answers is what `answered` does.
fn main(rt: HostRuntime) -> ExitCode {
    let given = words::gather(&rt);
    answered(rt, given)
}

// Does what the words ask: the program ends with the status that the top call answers to them.
fn answered(rt: HostRuntime, given: Result<Vec<String>, Memory>) -> ExitCode
    ensures statuses { is_status (exit_status result) ≡ true }
    ensures memory { IsErr given → exit_status result ≡ NO_MEMORY }
{
    match given {
        Ok(words) => {
            let top = run(rt, words.as_slice());
            exit_of(&top)
        }
        Err(Memory) => ExitCode::from(NO_MEMORY),
    }
}

fn exit_of(top: &Top) -> ExitCode
    ensures { exit_status result ≡ top.now.status }
{
    ExitCode::from(top.status)
}

// The top call over the real files and standard output. These tell nothing of what they hold, so its other clauses
// say no more here.
fn run(rt: HostRuntime, words: &[String]) -> Top
    ensures statuses { is_status result.status ≡ true }
    ensures usage { (result.status ≡ 6) ↔ NamesNone (map string_bytes words.now) }
    ensures run { IfSome result.kept (λ run. result.status ≢ 8 → IsStatusOf run result.status) }
{
    let mut files = HostFiles::new(rt);
    let mut out = HostSink::new(rt.stdout());
    mpc_serial(rt.alloc(), words, &mut files, &mut out)
}

#[cfg(test)]
mod tests;
