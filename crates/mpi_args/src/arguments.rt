//! The checks of peers and tags.
ghost use Rattle.std.specs.Prelude.{◌≡◌};
ghost use Rattle.mpi_args.specs.Arguments.{is_peer, is_tag_argument};

/// MPI_ANY_SOURCE: a receive or a probe takes a message of any member.
pub const ANY_SOURCE: i32 = -1;

/// MPI_ANY_TAG: a receive or a probe takes a message of any tag.
pub const ANY_TAG: i32 = -1;

/// MPI_PROC_NULL: a message to or from nobody.
pub const PROC_NULL: i32 = -2;

/// The greatest tag of a message.
pub const LAST_TAG: i32 = 32767;

/// Whether a call may name this peer: a rank of a group of `size` members or MPI_PROC_NULL, and where the
/// call is `wild`, as a receive or a probe, also MPI_ANY_SOURCE (MPI 3.1, sections 3.2.3, 3.2.4 and 3.11).
pub fn rank_fits(rank: i32, size: u32, wild: bool) -> bool
    ensures { result ≡ is_peer rank size wild }
{
    let in_group = rank >= 0 && i64::from(rank) < i64::from(size);
    in_group || rank == PROC_NULL || (wild && rank == ANY_SOURCE)
}

/// Whether a call may name this tag: 0 to 32,767, and where the call is `wild`, as a receive or a probe,
/// also MPI_ANY_TAG (MPI 3.1, sections 3.2.3 and 3.2.4).
pub fn tag_fits(tag: i32, wild: bool) -> bool
    ensures { result ≡ is_tag_argument tag wild }
{
    (tag >= 0 && tag <= LAST_TAG) || (wild && tag == ANY_TAG)
}
