//! Which types are numbers and pointers, and which agree with one another.
ghost use Rattle.std.specs.Prelude.{◌≡◌};
ghost use Rattle.c_types.specs.Kinds as kinds;

use crate::kinds::Kind;
use c_tree::program::Width;
use c_tree::syntax::Base;

/// An int or a long.
pub fn is_number(kind: Kind) -> bool
    ensures { result ≡ kinds.is_number kind }
{
    match kind {
        Kind::Plain(Base::Int) | Kind::Plain(Base::Long) => true,
        _ => false,
    }
}

/// A pointer that has elements.
pub fn is_pointer(kind: Kind) -> bool
    ensures { result ≡ kinds.is_pointer kind }
{
    match kind {
        Kind::Pointer(_) => true,
        _ => false,
    }
}

pub fn is_null(kind: Kind) -> bool
    ensures { result ≡ kinds.is_null kind }
{
    match kind {
        Kind::Null => true,
        _ => false,
    }
}

/// A pointer or NULL.
pub fn points(kind: Kind) -> bool
    ensures { result ≡ kinds.points kind }
{
    is_pointer(kind) || is_null(kind)
}

/// What may be a condition (C99, section 6.8.4.1).
pub fn is_condition(kind: Kind) -> bool
    ensures { result ≡ kinds.is_condition kind }
{
    is_number(kind) || points(kind)
}

fn same_base(a: Base, b: Base) -> bool
    ensures { result ≡ kinds.same_base a b }
{
    match (a, b) {
        (Base::Int, Base::Int)
        | (Base::Long, Base::Long)
        | (Base::Comm, Base::Comm)
        | (Base::Request, Base::Request)
        | (Base::Status, Base::Status) => true,
        _ => false,
    }
}

pub fn same_kind(a: Kind, b: Kind) -> bool
    ensures { result ≡ kinds.same_kind a b }
{
    match (a, b) {
        (Kind::Plain(a), Kind::Plain(b)) | (Kind::Pointer(a), Kind::Pointer(b)) => same_base(a, b),
        (Kind::Void, Kind::Void) | (Kind::Null, Kind::Null) | (Kind::Arguments, Kind::Arguments) =>
            true,
        _ => false,
    }
}

pub fn is_status(kind: Kind) -> bool
    ensures { result ≡ kinds.is_status kind }
{
    same_kind(kind, Kind::Plain(Base::Status))
}

/// A base of its own, and no pointer.
pub fn is_plain(kind: Kind) -> bool
    ensures { result ≡ kinds.is_plain kind }
{
    match kind {
        Kind::Plain(_) => true,
        _ => false,
    }
}

/// A type of variables that can be assigned.
pub fn is_stored(kind: Kind) -> bool
    ensures { result ≡ kinds.is_stored kind }
{
    match kind {
        Kind::Void | Kind::Arguments => false,
        _ => !is_status(kind),
    }
}

/// Whether the second may be given where the first is due (C99, section 6.5.16.1).
pub fn agree(due: Kind, given: Kind) -> bool
    ensures { result ≡ kinds.agree due given }
{
    match due {
        Kind::Void | Kind::Arguments => false,
        _ => {
            same_kind(due, given)
                || (is_number(due) && is_number(given))
                || (is_pointer(due) && is_null(given))
        }
    }
}

/// Whether the two may be the sides of `?:` (C99, section 6.5.15).
pub fn alike(a: Kind, b: Kind) -> bool
    ensures { result ≡ kinds.alike a b }
{
    same_kind(a, b)
        || (is_number(a) && is_number(b))
        || (points(a) && is_null(b))
        || (is_null(a) && points(b))
}

/// Whether `==` may compare the two (C99, section 6.5.9).
pub fn comparable(a: Kind, b: Kind) -> bool
    ensures { result ≡ kinds.comparable a b }
{
    is_stored(a) && alike(a, b)
}

/// The operand has a type, and is no number.
pub fn is_no_number(operand: Option<Kind>) -> bool
    ensures { result ≡ kinds.misses kinds.is_number operand }
{
    match operand {
        Some(kind) => !is_number(kind),
        None => false,
    }
}

/// The operand has a type, and cannot be a condition.
pub fn is_no_condition(operand: Option<Kind>) -> bool
    ensures { result ≡ kinds.misses kinds.is_condition operand }
{
    match operand {
        Some(kind) => !is_condition(kind),
        None => false,
    }
}

/// The operand has a type, and is no pointer with elements.
pub fn is_no_pointer(operand: Option<Kind>) -> bool
    ensures { result ≡ kinds.misses kinds.is_pointer operand }
{
    match operand {
        Some(kind) => !is_pointer(kind),
        None => false,
    }
}

/// The operand has a type, and is no pointer and not NULL.
pub fn is_no_place(operand: Option<Kind>) -> bool
    ensures { result ≡ kinds.misses kinds.points operand }
{
    match operand {
        Some(kind) => !points(kind),
        None => false,
    }
}

/// The operand has a type, and is no MPI_Status.
pub fn is_no_status(operand: Option<Kind>) -> bool
    ensures { result ≡ kinds.misses kinds.is_status operand }
{
    match operand {
        Some(kind) => !is_status(kind),
        None => false,
    }
}

/// The operand has a type, and `==` compares none such.
pub fn is_incomparable(operand: Option<Kind>) -> bool
    ensures { result ≡ kinds.misses kinds.can_compare operand }
{
    match operand {
        Some(kind) => !is_stored(kind),
        None => false,
    }
}

/// What is given has a type, and does not agree with what is due.
pub fn disagrees(due: Kind, given: Option<Kind>) -> bool
    ensures { result ≡ kinds.misses (kinds.agree due) given }
{
    match given {
        Some(kind) => !agree(due, kind),
        None => false,
    }
}

/// The operand is known to be a pointer or NULL.
pub fn has_place(operand: Option<Kind>) -> bool
    ensures { result ≡ kinds.has kinds.points operand }
{
    match operand {
        Some(kind) => points(kind),
        None => false,
    }
}

/// The operand is known to be a number.
pub fn has_number(operand: Option<Kind>) -> bool
    ensures { result ≡ kinds.has kinds.is_number operand }
{
    match operand {
        Some(kind) => is_number(kind),
        None => false,
    }
}

/// The operand is known to be NULL.
pub fn has_null(operand: Option<Kind>) -> bool
    ensures { result ≡ kinds.has kinds.is_null operand }
{
    match operand {
        Some(kind) => is_null(kind),
        None => false,
    }
}

/// The operand is known to be a pointer with elements.
pub fn has_elements(operand: Option<Kind>) -> bool
    ensures { result ≡ kinds.has kinds.is_pointer operand }
{
    match operand {
        Some(kind) => is_pointer(kind),
        None => false,
    }
}

/// Both operands have types, which are not alike.
pub fn are_unlike(a: Option<Kind>, b: Option<Kind>) -> bool
    ensures { result ≡ kinds.differ kinds.alike a b }
{
    match (a, b) {
        (Some(a), Some(b)) => !alike(a, b),
        _ => false,
    }
}

/// Both operands have types, which `==` does not compare.
pub fn are_incomparable(a: Option<Kind>, b: Option<Kind>) -> bool
    ensures { result ≡ kinds.differ kinds.comparable a b }
{
    match (a, b) {
        (Some(a), Some(b)) => !comparable(a, b),
        _ => false,
    }
}

/// The type of an operation on two numbers: long where one is known to be long (C99, section 6.3.1.8).
pub fn wider(a: Option<Kind>, b: Option<Kind>) -> Option<Kind>
    ensures { result ≡ kinds.wider a b }
{
    match (a, b) {
        (Some(Kind::Plain(Base::Long)), _) | (_, Some(Kind::Plain(Base::Long))) => {
            Some(Kind::Plain(Base::Long))
        }
        (Some(a), Some(_)) => Some(a),
        _ => None,
    }
}

/// The type of a sum: a pointer's where it stands on the left (C99, section 6.5.6).
pub fn sum_kind(a: Option<Kind>, b: Option<Kind>) -> Option<Kind>
    ensures { result ≡ kinds.sum_kind a b }
{
    match a {
        None => None,
        Some(Kind::Pointer(element)) => Some(Kind::Pointer(element)),
        Some(a) => wider(Some(a), b),
    }
}

// The type of `?:` where only one side's is known.
fn side_alone(kind: Kind) -> Option<Kind>
    ensures { result ≡ kinds.side_alone kind }
{
    match kind {
        Kind::Null | Kind::Plain(Base::Int) => None,
        _ => Some(kind),
    }
}

/// The type of `?:`: of numbers the wider one, of a pointer and NULL the pointer's.
pub fn choice_kind(a: Option<Kind>, b: Option<Kind>) -> Option<Kind>
    ensures { result ≡ kinds.choice_kind a b }
{
    match (a, b) {
        (None, None) => None,
        (None, Some(side)) | (Some(side), None) => side_alone(side),
        (Some(Kind::Null), Some(b)) | (Some(Kind::Plain(Base::Int)), Some(b)) => Some(b),
        (Some(a), Some(_)) => Some(a),
    }
}

/// The type of what a pointer points to.
pub fn element_of(pointer: Option<Kind>) -> Option<Kind>
    ensures { result ≡ kinds.element_of pointer }
{
    match pointer {
        Some(Kind::Pointer(base)) => Some(Kind::Plain(base)),
        _ => None,
    }
}

/// How many words an element has.
pub fn words_of(base: Base) -> u32
    ensures { result ≡ kinds.words_of base }
{
    match base {
        Base::Status => 3,
        _ => 1,
    }
}

/// The width of a number.
pub fn width_of(number: Option<Kind>) -> Width
    ensures { result ≡ kinds.width_of number }
{
    match number {
        Some(Kind::Plain(Base::Long)) => Width::Long,
        _ => Width::Int,
    }
}
