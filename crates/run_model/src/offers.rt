//! What a send or a receive asks for.

use mpc_values::{Datatype, Fault, Word};
use mpi_queue::Posting;
use mpi_request::Carried;

/// The arguments of a send or a receive.
#[derive(Clone, Copy, Debug, PartialEq, Eq)]
pub struct Offer {
    pub send: bool,
    pub at: Word,
    pub count: i32,
    pub kind: Datatype,
    pub peer: i32,
    pub tag: i32,
    pub comm: Word,
    /// Whether a send is synchronous (MPI 3.1, section 3.4).
    pub sync: bool,
}

/// What the arguments of a send or a receive ask for.
#[derive(Debug, Drop)]
pub enum Asked {
    /// They have a fault.
    Refused(Fault),
    /// The peer is MPI_PROC_NULL (MPI 3.1, section 3.11).
    Nobody,
    /// A posting, with what it carries.
    Posts { posting: Posting, carried: Carried },
}
