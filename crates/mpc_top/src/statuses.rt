//! The exit status of a run.
ghost use Rattle.std.specs.Prelude.{◌≡◌};
ghost use Rattle.std.specs.List.{list_all};
ghost use Rattle.serial_model.specs.Run as runs;

use mpc_base::{End, RankEnd, RankState};
use serial_model::RunRecord;

fn is_zero_exit(state: &RankState) -> bool
    ensures { result ≡ runs.is_zero_exit state.now }
{
    match *state {
        RankState::Exit(code) => code == 0,
        RankState::Stopped
        | RankState::Blocked { .. }
        | RankState::Fault { .. }
        | RankState::Aborted { .. } => false,
    }
}

fn all_exit_zero(ranks: &[RankEnd]) -> bool
    ensures { result ≡ list_all (λ rank_end. runs.is_zero_exit rank_end.state) ranks.now }
{
    ranks.iter().all(|rank| is_zero_exit(&rank.state))
}

/// The exit status of a run: 0 where all ranks finished with the exit code 0, 1 where all finished and
/// some exit code is another, 2 where a fault ended the run, 3 where it is stuck, and 4 where a rank aborted
/// it; 9 where a thread and 10 where memory was not found. A run that goes on has none.
pub fn status_of(run: &RunRecord) -> u8
    ensures { result ≡ runs.status_of run.now.end run.now.ranks }
{
    match run.end {
        End::Going => 0,
        End::Finished => {
            if all_exit_zero(run.ranks.as_slice()) {
                0
            } else {
                1
            }
        }
        End::Fault { .. } => 2,
        End::Abort { .. } => 4,
        End::Stuck => 3,
        End::NoThread => 9,
        End::NoMemory => 10,
    }
}
