ghost use Rattle.std.specs.Prelude.{◌≡◌, ◌≢◌, ◌++◌, IfOk, OnOk, string_bytes};
ghost use Rattle.journal.specs.Report.{report_of, rank_part, rank_line, state_text, closing, ending_line};

use mpc_base::{Call, End, Memory, RankEnd, RankState};
use serial_model::RunRecord;
use std::alloc::{AllocError, Global};

fn state_text(alloc: Global, state: &RankState) -> Result<String, AllocError>
    ensures { IfOk result (λ text. string_bytes text ≡ state_text state.now) }
{
    match *state {
        RankState::Exit(code) => format!(in alloc; "exit {code}"),
        RankState::Stopped => format!(in alloc; "stopped"),
        RankState::Fault { fault, line } => {
            let name = fault.name();
            format!(in alloc; "fault {name} at line {line}")
        }
        RankState::Blocked { call, line } => {
            let name = Call::name_of(call);
            format!(in alloc; "blocked in {name} at line {line}")
        }
        RankState::Aborted { code, line } => format!(in alloc; "aborted {code} at line {line}"),
    }
}

fn rank_line(
    alloc: Global,
    rank: usize,
    state: &RankState,
    length: usize,
) -> Result<String, AllocError>
    ensures { IfOk result (λ line. string_bytes line ≡ rank_line rank state.now length) }
{
    let state = state_text(alloc, state)?;
    format!(in alloc; "== rank {rank}: {state}, {length} bytes ==\n")
}

// A line feed, where the output is not empty and does not end with one.
fn closing(output: &[u8]) -> &'static [u8]
    ensures { result.now ≡ closing output.now }
{
    let last = if output.is_empty() {
        0
    } else {
        output.len() - 1
    };
    match output.get(last) {
        None => b"",
        Some(byte) => { if *byte == b'\n' { b"" } else { b"\n" } }
    }
}

fn push_rank(
    alloc: Global,
    text: &mut Vec<u8>,
    rank: usize,
    end: &RankEnd,
) -> Result<(), AllocError>
    ensures { OnOk result (text.new.items ≡ text.old.items ++ rank_part rank end.now) }
{
    let output = end.output.as_slice();
    let line = rank_line(alloc, rank, &end.state, output.len())?;
    text.extend_from_slice(line.as_bytes())?;
    text.extend_from_slice(output)?;
    text.extend_from_slice(closing(output))
}

fn ending_line(alloc: Global, end: &End) -> Result<String, AllocError>
    requires going { end.now ≢ End.Going }
    requires memory { end.now ≢ End.NoMemory }
    ensures { IfOk result (λ line. string_bytes line ≡ ending_line end.now) }
{
    match *end {
        End::Going | End::NoMemory => unreachable!(),
        End::Finished => format!(in alloc; "== run: finished ==\n"),
        End::Fault { task, .. } => format!(in alloc; "== run: fault in rank {task} ==\n"),
        End::Abort { task, .. } => format!(in alloc; "== run: aborted by rank {task} ==\n"),
        End::Stuck => format!(in alloc; "== run: stuck ==\n"),
        End::NoThread => format!(in alloc; "== run: no thread ==\n"),
    }
}

/// The report of a run that has ended: for each rank a line with its state and the number of its bytes, and
/// these bytes; and a last line with the run's ending.
pub fn report(alloc: Global, run: &RunRecord) -> Result<Vec<u8>, Memory>
    requires going { run.now.end ≢ End.Going }
    requires memory { run.now.end ≢ End.NoMemory }
    ensures { IfOk result (λ text. text.items ≡ report_of run.now.ranks run.now.end) }
{
    let mut text = Vec::new(alloc);
    for (rank, end) in run.ranks.as_slice().iter().enumerate() {
        push_rank(alloc, &mut text, rank, end)?;
    }
    let line = ending_line(alloc, &run.end)?;
    text.extend_from_slice(line.as_bytes())?;
    Ok(text)
}
