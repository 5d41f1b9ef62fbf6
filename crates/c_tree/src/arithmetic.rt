//! Operations on numbers, as the constants of a source and a running task compute them.
ghost use Rattle.std.specs.Prelude.{◌≡◌, ◌<◌, ◌^◌, ◌*ℤ◌, pos, neg_ℤ, if◌then◌else◌};
ghost use Rattle.std.specs.Int.{int_wrap, w32};
ghost use Rattle.c_tree.specs.Arithmetic.{operated, computed, negated, complemented, compared, in_type, right_width};
ghost use Rattle.c_tree.specs.Numbers.{wrapped, bits_of};
ghost use Rattle.c_tree.specs.declared.program.Width.TheVariants as width;

use crate::program::{Comparison, Operation, Width};
use mpc_values::Fault;

// A number as an int: the lowest 32 bits.
fn wrap_int(number: i64) -> i32
    ensures { result ≡ int_wrap w32 number }
{
    let low = number.rem_euclid(4294967296);
    (low as u32).cast_signed()
}

/// A number as one of a type: it wraps.
pub fn wrap(width: Width, number: i64) -> i64
    ensures { result ≡ wrapped width number }
{
    match width {
        Width::Int => i64::from(wrap_int(number)),
        Width::Long => number,
    }
}

// A number as an int, where it is one.
fn int_in_type(number: i64) -> Result<i64, Fault>
    ensures { result ≡ in_type width.Int number }
{
    match i32::try_from(number) {
        Ok(number) => Ok(i64::from(number)),
        Err(_) => Err(Fault::Overflow),
    }
}

/// Whether a comparison of two numbers holds (C99, sections 6.5.8 and 6.5.9).
pub fn compare(comparison: Comparison, left: i64, right: i64) -> bool
    ensures { result ≡ compared comparison left right }
{
    match comparison {
        Comparison::Less => left < right,
        Comparison::Greater => left > right,
        Comparison::LessEqual => left <= right,
        Comparison::GreaterEqual => left >= right,
        Comparison::Equal => left == right,
        Comparison::NotEqual => left != right,
    }
}

/// `~` of a number.
pub fn complement(number: i64) -> i64
    ensures { result ≡ complemented number }
{
    !number
}

fn negate_int(number: i32) -> Result<i64, Fault>
    ensures { result ≡ in_type width.Int (neg_ℤ number) }
{
    int_in_type(-i64::from(number))
}

fn negate_long(number: i64) -> Result<i64, Fault>
    ensures { result ≡ in_type width.Long (neg_ℤ number) }
{
    number.checked_neg().ok_or(Fault::Overflow)
}

fn divide_int(left: i32, right: i32) -> Result<i64, Fault>
    ensures { result ≡ computed width.Int Operation.Divide left right }
{
    if right == 0 {
        return Err(Fault::Divide);
    }
    match left.checked_div(right) {
        Some(quotient) => Ok(i64::from(quotient)),
        None => Err(Fault::Overflow),
    }
}

fn divide_long(left: i64, right: i64) -> Result<i64, Fault>
    ensures { result ≡ computed width.Long Operation.Divide left right }
{
    if right == 0 {
        return Err(Fault::Divide);
    }
    left.checked_div(right).ok_or(Fault::Overflow)
}

fn remainder_int(left: i32, right: i32) -> Result<i64, Fault>
    ensures { result ≡ computed width.Int Operation.Remainder left right }
{
    if right == 0 {
        return Err(Fault::Divide);
    }
    match left.checked_rem(right) {
        Some(rest) => Ok(i64::from(rest)),
        None => Err(Fault::Overflow),
    }
}

fn remainder_long(left: i64, right: i64) -> Result<i64, Fault>
    ensures { result ≡ computed width.Long Operation.Remainder left right }
{
    if right == 0 {
        return Err(Fault::Divide);
    }
    left.checked_rem(right).ok_or(Fault::Overflow)
}

// A left shift by a count of bits that is below the width.
fn shift_left(width: Width, number: i64, count: u32) -> Result<i64, Fault>
    requires { count < bits_of width }
    ensures { result ≡ in_type width (number *ℤ pos (2 ^ count)) }
{
    let Some(product) = i128::from(number).checked_mul(1 << count) else {
        return Err(Fault::Overflow);
    };
    match i64::try_from(product) {
        Ok(product) => match width {
            Width::Int => int_in_type(product),
            Width::Long => Ok(product),
        },
        Err(_) => Err(Fault::Overflow),
    }
}

fn shift_int(left: bool, number: i32, count: i64) -> Result<i64, Fault>
    ensures { result ≡ computed width.Int (if left then Operation.ShiftLeft else Operation.ShiftRight) number count }
{
    match u32::try_from(count) {
        Ok(count) if count < 32 => if left {
            shift_left(Width::Int, i64::from(number), count)
        } else {
            Ok(i64::from(number >> count))
        },
        _ => Err(Fault::Shift),
    }
}

fn shift_long(left: bool, number: i64, count: i64) -> Result<i64, Fault>
    ensures { result ≡ computed width.Long (if left then Operation.ShiftLeft else Operation.ShiftRight) number count }
{
    match u32::try_from(count) {
        Ok(count) if count < 64 => if left {
            shift_left(Width::Long, number, count)
        } else {
            Ok(number >> count)
        },
        _ => Err(Fault::Shift),
    }
}

// An operation on ints; the right number is one only where the operation is no shift.
fn compute_int(operation: Operation, left: i32, right: i64) -> Result<i64, Fault>
    ensures { result ≡ computed width.Int operation left (wrapped (right_width width.Int operation) right) }
{
    match operation {
        Operation::Add => int_in_type(i64::from(left) + i64::from(wrap_int(right))),
        Operation::Subtract => int_in_type(i64::from(left) - i64::from(wrap_int(right))),
        Operation::Multiply => int_in_type(i64::from(left) * i64::from(wrap_int(right))),
        Operation::Divide => divide_int(left, wrap_int(right)),
        Operation::Remainder => remainder_int(left, wrap_int(right)),
        Operation::ShiftLeft => shift_int(true, left, right),
        Operation::ShiftRight => shift_int(false, left, right),
        Operation::BitAnd => Ok(i64::from(left & wrap_int(right))),
        Operation::BitXor => Ok(i64::from(left ^ wrap_int(right))),
        Operation::BitOr => Ok(i64::from(left | wrap_int(right))),
    }
}

fn compute_long(operation: Operation, left: i64, right: i64) -> Result<i64, Fault>
    ensures { result ≡ computed width.Long operation left right }
{
    match operation {
        Operation::Add => left.checked_add(right).ok_or(Fault::Overflow),
        Operation::Subtract => left.checked_sub(right).ok_or(Fault::Overflow),
        Operation::Multiply => left.checked_mul(right).ok_or(Fault::Overflow),
        Operation::Divide => divide_long(left, right),
        Operation::Remainder => remainder_long(left, right),
        Operation::ShiftLeft => shift_long(true, left, right),
        Operation::ShiftRight => shift_long(false, left, right),
        Operation::BitAnd => Ok(left & right),
        Operation::BitXor => Ok(left ^ right),
        Operation::BitOr => Ok(left | right),
    }
}

/// What an operation of a type gives on two numbers, which become numbers of their operands' types
/// first: those of the operation's type, but the count of a shift is a long. Overflow where the
/// result is outside the type, Divide for a divisor of 0, Shift for a count outside the width
/// (C99, sections 6.5.5 to 6.5.12).
pub fn compute(width: Width, operation: Operation, left: i64, right: i64) -> Result<i64, Fault>
    ensures { result ≡ operated width operation left right }
{
    match width {
        Width::Int => compute_int(operation, wrap_int(left), right),
        Width::Long => compute_long(operation, left, right),
    }
}

/// `-` of a number, which becomes one of the type first; Overflow where the result is outside it.
pub fn negate(width: Width, number: i64) -> Result<i64, Fault>
    ensures { result ≡ negated width number }
{
    match width {
        Width::Int => negate_int(wrap_int(number)),
        Width::Long => negate_long(number),
    }
}
