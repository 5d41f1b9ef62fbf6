//! The operations of reductions.
ghost use Rattle.std.specs.Prelude.{◌≡◌, ◌+ℤ◌, ◌*ℤ◌};
ghost use Rattle.std.specs.Int.{w32, int_wrap};
ghost use Rattle.mpi_args.specs.Folds.{fold_of, width_of, number_of};

use mpc_values::{Datatype, Op};

/// What an operation of a reduction makes of two numbers, the one of the lower rank first (MPI 3.1,
/// section 5.9.2). MPI_SUM and MPI_PROD wrap in two's complement of the datatype, and the logical operations
/// give 0 or 1. The other operations take the 64 bits as they are.
pub fn fold(op: Op, kind: Datatype, a: i64, b: i64) -> i64
    ensures { result ≡ fold_of op kind a b }
{
    match op {
        Op::Max => a.max(b),
        Op::Min => a.min(b),
        Op::Sum => wrapped_sum(kind, a, b),
        Op::Prod => wrapped_product(kind, a, b),
        Op::Land => number(a != 0 && b != 0),
        Op::Band => a & b,
        Op::Lor => number(a != 0 || b != 0),
        Op::Bor => a | b,
        Op::Lxor => number((a != 0) != (b != 0)),
        Op::Bxor => a ^ b,
    }
}

/// C's number of a truth.
fn number(truth: bool) -> i64
    ensures { result ≡ number_of truth }
{
    if truth { 1 } else { 0 }
}

/// The sum, wrapped in two's complement of the datatype.
fn wrapped_sum(kind: Datatype, a: i64, b: i64) -> i64
    ensures { result ≡ int_wrap (width_of kind) (a +ℤ b) }
{
    match kind {
        Datatype::Int => i64::from(wrapped_int(i128::from(a) + i128::from(b))),
        Datatype::Long => a.wrapping_add(b),
    }
}

/// The product, wrapped in two's complement of the datatype.
fn wrapped_product(kind: Datatype, a: i64, b: i64) -> i64
    ensures { result ≡ int_wrap (width_of kind) (a *ℤ b) }
{
    match kind {
        Datatype::Int => i64::from(wrapped_int(i128::from(a) * i128::from(b))),
        Datatype::Long => a.wrapping_mul(b),
    }
}

/// The number of 32 bits that differs from `exact` by a multiple of 2^32.
fn wrapped_int(exact: i128) -> i32
    ensures { result ≡ int_wrap w32 exact }
{
    let low = exact.rem_euclid(1 << 32) as u32;
    low.cast_signed()
}
