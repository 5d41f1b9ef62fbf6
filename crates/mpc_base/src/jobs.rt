use std::snapshot::Snapshot;
use std::sync::Wait;
use std::thread::{Promise, PromisedHandle, Threads};

/// What a thread does, and what its result keeps.
pub trait Job {
    type Out;

    /// What the result of the job keeps.
    ghost promise: { Self → Self.Out → Type 0 };

    /// Does the job. It may wait for other threads.
    fn run<R: Threads + Wait>(self, rt: &R) -> Self::Out
        ensures { promise self result };
}

// The job that a thread was started with, as its promise remembers it.
#[derive(Drop)]
pub(crate) struct Kept<J>(pub(crate) Snapshot<J>);

impl<J: Job> Promise<J::Out> for Kept<J> {
    ghost kept_by = { λ kept out. J.promise kept.0.value out };
}

// On a thread of its own, or kept to be run when it is joined.
pub(crate) enum StartedAs<J: Job> {
    OnThread(PromisedHandle<J::Out, Kept<J>>),
    Late(J),
}

/// A job that was started, and remembers it. Only `Spawner::start` makes one, and only `Spawner::join` ends
/// one: it cannot be dropped.
pub struct Started<J: Job> {
    pub(crate) way: StartedAs<J>,
}
