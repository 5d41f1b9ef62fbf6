//! Which answers fit a call, and which calls end a task.
ghost use Rattle.std.specs.Prelude.{◌≡◌};
ghost use Rattle.c_tree.specs.Asking as asking;
ghost use Rattle.task_vm.specs.Tasks.{ends_task};

use mpc_values::{Answer, Call};

/// Whether an answer is one of the call's kind.
pub fn fits(call: &Call, answer: &Answer) -> bool
    ensures { result ≡ asking.fits call.now answer.now }
{
    match call {
        Call::Load { .. }
        | Call::New { .. }
        | Call::Malloc { .. }
        | Call::Print { .. }
        | Call::Finish { .. }
        | Call::Abort { .. }
        | Call::Rank { .. }
        | Call::Size { .. } => matches!(answer, Answer::Gives(_)),
        Call::Store { .. }
        | Call::Drop { .. }
        | Call::Free { .. }
        | Call::Init
        | Call::Finalize
        | Call::Arrive { .. }
        | Call::HlsWait { .. }
        | Call::HlsExit { .. }
        | Call::HlsBar { .. }
        | Call::HlsBarWait { .. } => matches!(answer, Answer::Done),
        Call::Leave { .. } => matches!(answer, Answer::Done | Answer::Gives(_)),
        Call::Send { .. } | Call::Recv { .. } => matches!(answer, Answer::Posted { .. }),
        Call::Complete { .. } | Call::Probe { .. } => matches!(answer, Answer::Got(_)),
        Call::Test { .. } | Call::Iprobe { .. } => matches!(answer, Answer::Flag(_)),
        Call::AnyOf { .. } => matches!(answer, Answer::Any { .. }),
        Call::HlsEnter { .. } => matches!(answer, Answer::Entered(_)),
        Call::Broke { .. } => false,
    }
}

/// Whether nothing is asked behind the answer to a call.
pub fn ends(call: &Call) -> bool
    ensures { result ≡ ends_task call.now }
{
    matches!(call, Call::Finish { .. } | Call::Abort { .. })
}
