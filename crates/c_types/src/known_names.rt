//! The known names: those of MPI that programs may use, of `printf`, and of `malloc`.
ghost use Rattle.std.specs.Prelude.{◌≡◌};
ghost use Rattle.c_types.specs.KnownNames as names;
ghost use Rattle.c_types.specs.Keys.{by_text};

use crate::kinds::{Kind, Known};
use c_tree::mpi::MpiFunction;
use c_tree::syntax::Base;
use mpc_values::{Datatype, Op, Word};

/// The names that are no functions of MPI (MPI 3.1, annex A.1), and what they stand for.
pub const OTHER_NAMES: [(&str, Known); 26] = [
    ("printf", Known::Printf),
    ("malloc", Known::Malloc),
    ("free", Known::Free),
    ("NULL", Known::Constant(Kind::Null, Word::Null)),
    (
        "MPI_COMM_WORLD",
        Known::Constant(Kind::Plain(Base::Comm), Word::Comm(1)),
    ),
    (
        "MPI_COMM_NULL",
        Known::Constant(Kind::Plain(Base::Comm), Word::Comm(0)),
    ),
    (
        "MPI_REQUEST_NULL",
        Known::Constant(Kind::Plain(Base::Request), Word::Req(0)),
    ),
    (
        "MPI_SUCCESS",
        Known::Constant(Kind::Plain(Base::Int), Word::Int(0)),
    ),
    (
        "MPI_ANY_SOURCE",
        Known::Constant(Kind::Plain(Base::Int), Word::Int(-1)),
    ),
    (
        "MPI_ANY_TAG",
        Known::Constant(Kind::Plain(Base::Int), Word::Int(-1)),
    ),
    (
        "MPI_PROC_NULL",
        Known::Constant(Kind::Plain(Base::Int), Word::Int(-2)),
    ),
    (
        "MPI_UNDEFINED",
        Known::Constant(Kind::Plain(Base::Int), Word::Int(-3)),
    ),
    ("MPI_INT", Known::Datatype(Datatype::Int)),
    ("MPI_LONG", Known::Datatype(Datatype::Long)),
    ("MPI_MAX", Known::Operation(Op::Max)),
    ("MPI_MIN", Known::Operation(Op::Min)),
    ("MPI_SUM", Known::Operation(Op::Sum)),
    ("MPI_PROD", Known::Operation(Op::Prod)),
    ("MPI_LAND", Known::Operation(Op::Land)),
    ("MPI_BAND", Known::Operation(Op::Band)),
    ("MPI_LOR", Known::Operation(Op::Lor)),
    ("MPI_BOR", Known::Operation(Op::Bor)),
    ("MPI_LXOR", Known::Operation(Op::Lxor)),
    ("MPI_BXOR", Known::Operation(Op::Bxor)),
    ("MPI_STATUS_IGNORE", Known::Ignored),
    ("MPI_STATUSES_IGNORE", Known::Ignored),
];

// What the first row with the name has.
fn listed(rows: &[(&str, Known)], name: &[u8]) -> Option<Known>
    ensures { result ≡ names.listed name.now (by_text rows.now) }
{
    for row in rows {
        if row.0.as_bytes() == name {
            return Some(row.1);
        }
    }
    None
}

/// What the name stands for, where it is a known one.
pub fn known(name: &[u8]) -> Option<Known>
    ensures { result ≡ names.known name.now }
{
    match MpiFunction::named(name) {
        Some(function) => Some(Known::Mpi(function)),
        None => listed(&OTHER_NAMES, name),
    }
}
