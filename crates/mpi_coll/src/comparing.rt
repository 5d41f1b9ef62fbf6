//! Which calls can be of one meeting (MPI 3.1, chapter 5).
ghost use Rattle.std.specs.Prelude.{◌≡◌, ◌==◌, ◌||◌, not, pos};
ghost use Rattle.std.specs.Ordering.{int_eq};
ghost use Rattle.mpi_args.specs.Datatypes.{is_same_datatype};
ghost use Rattle.mpi_coll.specs.Arguments.{has_root, is_fold, has_words, count_of};
ghost use Rattle.mpi_coll.specs.Meetings.{kind_number, op_number, agree};

use mpc_values::{Coll, CollKind, Datatype, Op};

/// Whether two calls can be of one meeting: they agree in kind, and in what the kind has of root, operation,
/// datatype and count.
pub(crate) fn agrees(a: &Coll, b: &Coll) -> bool
    ensures { result ≡ agree a.now b.now }
{
    is_same_kind(a.what, b.what)
        && (is_same_root(a, b) && (folds_alike(a, b) && (moves_alike(a, b) && is_same_count(a, b))))
}

/// The root is the same, where the call has one.
fn is_same_root(a: &Coll, b: &Coll) -> bool
    ensures { result ≡ (not (has_root a.now.what) || int_eq a.now.root b.now.root) }
{
    !names_root(a.what) || a.root == b.root
}

/// The operation is the same, where the call folds.
fn folds_alike(a: &Coll, b: &Coll) -> bool
    ensures { result ≡ (not (is_fold a.now.what) || op_number a.now.op == op_number b.now.op) }
{
    !folds(a.what) || is_same_op(a.op, b.op)
}

/// The datatype is the same, where the call moves words.
fn moves_alike(a: &Coll, b: &Coll) -> bool
    ensures { result ≡ (not (has_words a.now.what) || is_same_datatype a.now.kind b.now.kind) }
{
    !moves_words(a.what) || is_same_type(a.kind, b.kind)
}

/// The count of the meeting is the same.
fn is_same_count(a: &Coll, b: &Coll) -> bool
    ensures { result ≡ int_eq (count_of a.now) (count_of b.now) }
{
    is_same_number(meeting_count(a), meeting_count(b))
}

fn is_same_number(a: i32, b: i32) -> bool
    ensures { result ≡ int_eq a b }
{
    a == b
}

#[tactic(auto, using(crate::proofs::Tags::kind_tests))]
fn is_same_kind(a: CollKind, b: CollKind) -> bool
    ensures { result ≡ (kind_number a == kind_number b) }
{
    a == b
}

#[tactic(auto, using(crate::proofs::Tags::op_tests))]
fn is_same_op(a: Op, b: Op) -> bool
    ensures { result ≡ (op_number a == op_number b) }
{
    a == b
}

#[tactic(auto, using(crate::proofs::Tags::type_tests))]
fn is_same_type(a: Datatype, b: Datatype) -> bool
    ensures { result ≡ is_same_datatype a b }
{
    a == b
}

/// Whether the call has a root.
fn names_root(what: CollKind) -> bool
    ensures { result ≡ has_root what }
{
    match what {
        CollKind::Bcast | CollKind::Reduce | CollKind::Gather | CollKind::Scatter => true,
        _ => false,
    }
}

/// Whether the call folds words by an operation.
fn folds(what: CollKind) -> bool
    ensures { result ≡ is_fold what }
{
    match what {
        CollKind::Reduce | CollKind::Allreduce | CollKind::Scan | CollKind::Exscan => true,
        _ => false,
    }
}

/// Whether the call moves words.
fn moves_words(what: CollKind) -> bool
    ensures { result ≡ has_words what }
{
    match what {
        CollKind::Barrier | CollKind::Dup | CollKind::Split | CollKind::Free => false,
        _ => true,
    }
}

/// The count of a call's meeting: the send count, in MPI_Scatter the receive count, and 0 where the call has none.
pub(crate) fn meeting_count(coll: &Coll) -> i32
    ensures { result ≡ count_of coll.now }
{
    match coll.what {
        CollKind::Scatter => coll.other,
        CollKind::Barrier | CollKind::Dup | CollKind::Split | CollKind::Free => 0,
        _ => coll.count,
    }
}
