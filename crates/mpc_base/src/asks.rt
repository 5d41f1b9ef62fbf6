//! What a start and a join hand to their spawner. Nothing else makes such a value, and none can be copied or
//! dropped. So a spawner that wraps another one hands each on at most once, and nobody raises the counts
//! of a spawner but by a start.
ghost use Rattle.std.specs.Prelude.{◌≡◌};
ghost use Rattle.mpc_base.specs.Starts.{choice_of};

use std::marker::PhantomData;

/// How a job is started: on a thread of its own, or kept and run when it is joined, or not at all.
#[derive(Clone, Copy, Debug, PartialEq, Eq)]
pub enum Choice {
    OnThread,
    Late,
    Refuse,
}

/// One start of a job of type `J`, which a spawner is asked to choose for. It answers by a choice, or hands
/// the question on to another spawner.
pub struct Asked<J> {
    of: PhantomData<J>,
}

impl<J> Asked<J> {
    pub(crate) fn new() -> Asked<J> {
        Asked { of: PhantomData }
    }

    /// Answers with a choice.
    pub fn with(self, choice: Choice) -> Chosen<J>
        ensures { choice_of result ≡ choice }
    {
        let Asked { of } = self;
        Chosen { choice, of }
    }
}

/// The choice for one start.
pub struct Chosen<J> {
    choice: Choice,
    of: PhantomData<J>,
}

impl<J> Chosen<J> {
    pub(crate) fn choice(self) -> Choice
        ensures { result ≡ choice_of self }
    {
        let Chosen { choice, of: _ } = self;
        choice
    }
}

/// A job has been started.
pub struct Begun;

/// No thread could be made for a job.
pub struct NoThread;

/// A job that was kept begins or ends to run.
pub struct Runs;

/// What has happened to one job of type `J`, which a spawner notes once, or hands on to another spawner.
pub struct Event<J, What> {
    of: PhantomData<(J, What)>,
}

impl<J, What> Event<J, What> {
    pub(crate) fn new() -> Event<J, What> {
        Event { of: PhantomData }
    }

    /// Says that it is noted.
    pub fn noted(self) -> Noted<J, What> {
        let Event { of } = self;
        Noted { of }
    }
}

/// An event was noted.
pub struct Noted<J, What> {
    of: PhantomData<(J, What)>,
}

impl<J, What> Noted<J, What> {
    pub(crate) fn end(self) {
        let Noted { of: _ } = self;
    }
}
