//! What a call is answered.

use crate::values::Word;

/// What a completed receive or probe tells of its message (MPI 3.1, section 3.2.5): the sender's
/// rank, the tag, and how many elements came.
#[derive(Clone, Copy, Debug, PartialEq, Eq)]
pub struct Status {
    pub source: i32,
    pub tag: i32,
    pub count: u32,
}

/// What a task does at a `single`.
#[derive(Clone, Copy, Debug, PartialEq, Eq)]
pub enum Way {
    /// It runs the block.
    Run,
    /// It goes on behind the block.
    Skip,
    /// It waits until another task has run the block.
    Hold,
}

/// What a call is answered.
#[derive(Clone, Copy, Debug, PartialEq, Eq)]
pub enum Answer {
    /// It is done, and there is nothing to tell.
    Done,
    /// The word that was asked for.
    Gives(Word),
    /// The request of a posting, the posting's number, its partner's number or 0, and how many words
    /// were moved.
    Posted {
        req: u32,
        post: u32,
        met: u32,
        words: u32,
    },
    /// The status of a completed request, or of a message that fits.
    Got(Status),
    /// The status, where a request is complete or a message fits.
    Flag(Option<Status>),
    /// The index of the completed request, or -3 where none is active, and its status.
    Any {
        index: i32,
        status: Status,
    },
    /// What the task does at a `single`.
    Entered(Way),
}
