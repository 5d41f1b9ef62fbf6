//! What is kept of requests and of the messages that they stand for.

use memory_model::Span;
use mpc_values::{Datatype, Status, Words};

/// What a request waits for.
#[derive(Clone, Copy, Debug, PartialEq, Eq)]
pub enum Awaited {
    /// Nothing, since its peer is MPI_PROC_NULL: it ends with this status (MPI 3.1, section 3.11).
    Nothing(Status),
    /// The posting of this number.
    Posting(u32),
}

/// A request of a task (MPI 3.1, section 3.7). It is active from its posting to its completing call.
#[derive(Clone, Copy, Debug, PartialEq, Eq)]
pub struct Request {
    pub awaited: Awaited,
    /// Whether it is one of a send.
    pub send: bool,
    /// The places of its buffer, where there are any.
    pub places: Option<Span>,
    pub active: bool,
}

/// What a posting carries beside its envelope.
#[derive(Debug, Clone, Drop)]
pub struct Carried {
    pub kind: Datatype,
    /// How many places it names.
    pub count: u32,
    /// These places, where there are any.
    pub places: Option<Span>,
    /// The words that a send's places held when it was posted.
    pub words: Words,
    /// Whether it is a send that completes without its partner (MPI 3.1, section 3.4).
    pub eager: bool,
}
