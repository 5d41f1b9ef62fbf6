//! Postings, and which of them fit.
ghost use Rattle.std.specs.Prelude.{◌≡◌, pos};
ghost use Rattle.std.specs.Ordering.{int_eq};
ghost use Rattle.mpi_queue.specs.Fits.{is_taken_by, is_fit, is_match};

/// MPI_ANY_SOURCE and MPI_ANY_TAG.
const ANY: i32 = -1;

/// A send or a receive that a task posted.
#[derive(Clone, Copy, Debug, PartialEq, Eq)]
pub struct Posting {
    /// The task that posted it.
    pub task: u32,
    /// The communicator's number.
    pub comm: u32,
    /// Whether it is a send.
    pub send: bool,
    /// The poster's own rank in the communicator.
    pub rank: u32,
    /// A send's destination, or a receive's source, which may be MPI_ANY_SOURCE, -1.
    pub peer: i32,
    /// The tag; a receive's may be MPI_ANY_TAG, -1.
    pub tag: i32,
}

fn is_rank(peer: i32, rank: u32) -> bool
    ensures { result ≡ int_eq peer (pos rank) }
{
    i64::from(peer) == i64::from(rank)
}

fn takes_source(pattern: i32, rank: u32) -> bool
    ensures { result ≡ is_taken_by (pos rank) pattern }
{
    pattern == ANY || is_rank(pattern, rank)
}

fn takes_tag(pattern: i32, tag: i32) -> bool
    ensures { result ≡ is_taken_by tag pattern }
{
    pattern == ANY || pattern == tag
}

/// Whether the receive may take the message of the send (MPI 3.1, section 3.2.4).
fn fits(recv: &Posting, send: &Posting) -> bool
    ensures { result ≡ is_fit recv.now send.now }
{
    recv.comm == send.comm
        && (is_rank(send.peer, recv.rank)
            && (takes_source(recv.peer, send.rank) && takes_tag(recv.tag, send.tag)))
}

/// Whether the two postings are of two kinds and fit.
pub(crate) fn can_meet(posting: &Posting, other: &Posting) -> bool
    ensures { result ≡ is_match posting.now other.now }
{
    if posting.send {
        !other.send && fits(other, posting)
    } else {
        other.send && fits(posting, other)
    }
}
