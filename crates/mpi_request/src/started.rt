//! What a request is started for, and what is kept of it while it is active.
ghost use Rattle.std.specs.Prelude.{◌≡◌};
ghost use Rattle.mpi_request.specs.Started.{post_of, span_of, told};

use block_table::Span;
use mpc_values::{Fault, Status};

/// The status of a completed send (MPI 3.1, section 3.7.3).
const EMPTY: Status = Status {
    source: -1,
    tag: -1,
    count: 0,
};

/// What a request is started for (MPI 3.1, section 3.7.2).
#[derive(Clone, Copy, Debug, PartialEq, Eq)]
pub enum Started {
    /// A call whose peer is MPI_PROC_NULL. It ends at once with this status (MPI 3.1, section 3.11).
    AtOnce(Status),
    /// The send of this posting, and its places. An eager one ends without its partner (MPI 3.1, section 3.4).
    Send {
        post: u32,
        span: Option<Span>,
        eager: bool,
    },
    /// The receive of this posting, and its places.
    Recv {
        post: u32,
        span: Option<Span>,
    },
}

/// A request that is active: what it was started for, and what its match told, where it has one.
#[derive(Clone, Copy, Debug, PartialEq, Eq)]
pub struct Open {
    pub what: Started,
    pub outcome: Option<Result<Status, Fault>>,
}

impl Started {
    /// The posting that is awaited.
    pub fn post(&self) -> Option<u32>
        ensures { result ≡ post_of self.now }
    {
        match self {
            Started::AtOnce(_) => None,
            Started::Send { post, .. } => Some(*post),
            Started::Recv { post, .. } => Some(*post),
        }
    }

    /// The places of the buffer.
    pub fn span(&self) -> Option<Span>
        ensures { result ≡ span_of self.now }
    {
        match self {
            Started::AtOnce(_) => None,
            Started::Send { span, .. } => *span,
            Started::Recv { span, .. } => *span,
        }
    }
}

impl Open {
    /// What the request ends with, once it is ready.
    pub fn told(&self) -> Option<Result<Status, Fault>>
        ensures { result ≡ told self.now }
    {
        match self.what {
            Started::AtOnce(status) => Some(Ok(status)),
            Started::Send { eager, .. } => {
                if eager || self.outcome.is_some() {
                    Some(Ok(EMPTY))
                } else {
                    None
                }
            }
            Started::Recv { .. } => self.outcome,
        }
    }
}
