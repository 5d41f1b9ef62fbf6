//! The arguments of calls against what is due: the parameters of a function, or a row of the table of
//! MPI functions.
ghost use Rattle.std.specs.Prelude.{◌≡◌, [], ◌∷◌};
ghost use Rattle.c_types.specs.Arguments as arguments;
ghost use Rattle.c_types.specs.Kinds as kinds;

use crate::agreement::{disagrees, is_no_number};
use crate::kinds::{Given, Kind};
use c_tree::mpi::{Argument, MpiFunction};
use c_tree::syntax::Base;
use mpc_values::{Datatype, Op};

/// Each argument agrees with its parameter, and there are as many (C99, section 6.5.2.2).
pub fn all_agree(dues: &[Kind], given: &[Option<Kind>]) -> bool
    ensures { result ≡ kinds.all_agree dues.now given.now }
{
    if dues.len() != given.len() {
        return false;
    }
    for i in 0..dues.len() {
        if disagrees(dues[i], given[i]) {
            return false;
        }
    }
    true
}

// It may be given where a place of such an element is due.
fn is_place_of(element: Base, kind: Option<Kind>) -> bool
    ensures { result ≡ arguments.is_place_of element kind }
{
    !disagrees(Kind::Pointer(element), kind)
}

// An expression of this type is what stands at this place of a row; a buffer's type is looked at apart.
fn meets_typed(row: Argument, kind: Option<Kind>) -> bool
    ensures { result ≡ arguments.meets row (Given.Typed kind) }
{
    match row {
        Argument::Number => !is_no_number(kind),
        Argument::Comm => !disagrees(Kind::Plain(Base::Comm), kind),
        Argument::NumberPlace => is_place_of(Base::Int, kind),
        Argument::CommPlace => is_place_of(Base::Comm, kind),
        Argument::RequestPlace => is_place_of(Base::Request, kind),
        Argument::Status | Argument::FilledStatus => is_place_of(Base::Status, kind),
        Argument::Buffer => true,
        Argument::Datatype | Argument::Operation | Argument::Start => false,
    }
}

// The argument is what stands at this place of a row.
fn meets(row: Argument, given: Given) -> bool
    ensures { result ≡ arguments.meets row given }
{
    match (given, row) {
        (Given::Typed(kind), _) => meets_typed(row, kind),
        (Given::Datatype(_), Argument::Datatype)
        | (Given::Operation(_), Argument::Operation)
        | (Given::Ignored, Argument::Status) => true,
        _ => false,
    }
}

/// Each argument is what stands at its place of the row, and there are as many.
pub fn all_meet(rows: &[Argument], given: &[Given]) -> bool
    ensures { result ≡ arguments.all_meet rows.now given.now }
{
    if rows.len() != given.len() {
        return false;
    }
    for i in 0..rows.len() {
        if !meets(rows[i], given[i]) {
            return false;
        }
    }
    true
}

/// The first datatype among the arguments.
pub fn first_datatype(given: &[Given]) -> Option<Datatype>
    ensures { result ≡ arguments.first_datatype given.now }
{
    for one in given {
        if let Given::Datatype(datatype) = one {
            return Some(*datatype);
        }
    }
    None
}

/// The last datatype among the arguments, or else this one.
pub fn last_datatype(other: Datatype, given: &[Given]) -> Datatype
    ensures { result ≡ arguments.last_datatype other given.now }
{
    let mut last = other;
    for one in given {
        if let Given::Datatype(datatype) = one {
            last = *datatype;
        }
    }
    last
}

/// The operation among the arguments, or a sum.
pub fn operation_of(given: &[Given]) -> Op
    ensures { result ≡ arguments.operation_of given.now }
{
    for one in given {
        if let Given::Operation(operation) = one {
            return *operation;
        }
    }
    Op::Sum
}

/// A status among the arguments is ignored.
pub fn is_ignored(given: &[Given]) -> bool
    ensures { result ≡ arguments.is_ignored given.now }
{
    for one in given {
        if let Given::Ignored = one {
            return true;
        }
    }
    false
}

fn element_base(datatype: Datatype) -> Base
    ensures { result ≡ arguments.element_base datatype }
{
    match datatype {
        Datatype::Int => Base::Int,
        Datatype::Long => Base::Long,
    }
}

// A buffer of this type may stand before the datatype.
fn fits_datatype(datatype: Option<Datatype>, kind: Option<Kind>) -> bool
    ensures { result ≡ arguments.fits_datatype datatype kind }
{
    match datatype {
        Some(datatype) => is_place_of(element_base(datatype), kind),
        None => true,
    }
}

// Where a buffer is due, it agrees with the datatype that follows it.
fn buffer_agrees(row: Argument, given: Given, behind: &[Given]) -> bool
    ensures { result ≡ arguments.buffers_agree (row ∷ []) (given ∷ behind.now) }
{
    match (row, given) {
        (Argument::Buffer, Given::Typed(kind)) => fits_datatype(first_datatype(behind), kind),
        _ => true,
    }
}

// Each buffer agrees with the datatype that follows it.
fn buffers_agree(rows: &[Argument], given: &[Given]) -> bool
    ensures { result ≡ arguments.buffers_agree rows.now given.now }
{
    let count = rows.len().min(given.len());
    for i in 0..count {
        if !buffer_agrees(rows[i], given[i], &given[i + 1..]) {
            return false;
        }
    }
    true
}

fn same_datatype(a: Datatype, b: Datatype) -> bool
    ensures { result ≡ arguments.same_datatype a b }
{
    match (a, b) {
        (Datatype::Int, Datatype::Int) | (Datatype::Long, Datatype::Long) => true,
        _ => false,
    }
}

// The datatypes among the arguments are all this one.
fn all_datatypes(one: Datatype, given: &[Given]) -> bool
    ensures { result ≡ arguments.all_datatypes one given.now }
{
    for other in given {
        if let Given::Datatype(datatype) = other {
            if !same_datatype(one, *datatype) {
                return false;
            }
        }
    }
    true
}

/// Buffers agree with their datatypes, and the datatypes of one collective with each other.
pub fn datatypes_agree(function: MpiFunction, rows: &[Argument], given: &[Given]) -> bool
    ensures { result ≡ arguments.datatypes_agree function rows.now given.now }
{
    if !buffers_agree(rows, given) {
        return false;
    }
    match (function, first_datatype(given)) {
        (MpiFunction::Sendrecv, _) | (_, None) => true,
        (_, Some(datatype)) => all_datatypes(datatype, given),
    }
}
