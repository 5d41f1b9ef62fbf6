//! What each member of a meeting gets (MPI 3.1, chapter 5).
ghost use Rattle.std.specs.Prelude.{◌≡◌, ◌<◌, IfOk, length};
ghost use Rattle.mpi_coll.specs.Shares.{results_of};

use crate::comparing::meeting_count;
use crate::reducing::{fold_all, fold_along, fold_before};
use crate::shares::{Takers, exchange, hand_out, join, of_member, scatter};
use mpc_values::{Coll, CollKind, Memory, Words};
use std::alloc::Global;

/// What each of `members` gets of a meeting, by rank: one function of the contributions in rank order. It takes time
/// and memory in proportion to the members and to the words that are given and got.
pub(crate) fn results(
    alloc: Global,
    coll: &Coll,
    given: &[Words],
    members: u32,
) -> Result<Vec<Words>, Memory>
    requires { length given.now ≡ members }
    ensures { IfOk result (λ all. all.items ≡ results_of coll.now given.now members) }
{
    let count = meeting_count(coll).unsigned_abs();
    match coll.what {
        CollKind::Barrier | CollKind::Dup | CollKind::Split | CollKind::Free => {
            hand_out(alloc, &[], Takers::All, members)
        }
        CollKind::Bcast => {
            let words = of_member(given, coll.root);
            hand_out(alloc, words, Takers::Others(coll.root), members)
        }
        CollKind::Reduce => {
            let total = fold_all(alloc, coll.op, coll.kind, given)?;
            hand_out(alloc, total.as_slice(), Takers::Root(coll.root), members)
        }
        CollKind::Allreduce => {
            let total = fold_all(alloc, coll.op, coll.kind, given)?;
            hand_out(alloc, total.as_slice(), Takers::All, members)
        }
        CollKind::Scan => fold_along(alloc, coll.op, coll.kind, given),
        CollKind::Exscan => fold_before(alloc, coll.op, coll.kind, given),
        CollKind::Gather => {
            let all = join(alloc, given)?;
            hand_out(alloc, all.as_slice(), Takers::Root(coll.root), members)
        }
        CollKind::Allgather => {
            let all = join(alloc, given)?;
            hand_out(alloc, all.as_slice(), Takers::All, members)
        }
        CollKind::Scatter => scatter(alloc, of_member(given, coll.root), count, members),
        CollKind::Alltoall => exchange(alloc, given, count, members),
    }
}
