//! What a task wants, and what it keeps between its calls.
ghost use Rattle.std.specs.Prelude.{◌≡◌};
ghost use Rattle.task_vm.specs.States.{pending_of};

use mpc_values::{Answer, Call};

/// What a task wants when it stops: a call, at a source line.
#[derive(Debug, Drop)]
pub enum Want {
    Ask { call: Call, line: u32 },
}

/// Where a task stands: it runs; it asked a call, which may be its last; it has an answer that its machine
/// has still to take; its last call was answered; or memory was wanted and not found.
#[derive(Clone, Copy, Debug)]
pub(crate) enum State {
    Ready,
    Asked { ends: bool },
    Answered(Answer),
    Over,
    Short,
}

impl State {
    /// The answer that the machine has still to take.
    pub(crate) fn pending(self) -> Option<Answer>
        ensures { result ≡ pending_of self }
    {
        match self {
            State::Answered(answer) => Some(answer),
            State::Ready | State::Asked { .. } | State::Over | State::Short => None,
        }
    }
}
