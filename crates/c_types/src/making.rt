//! Typed expressions, made from the typed forms of what stands in them.
ghost use Rattle.std.specs.Prelude.{◌≡◌, IfOk};
ghost use Rattle.c_tree.specs.ProgramOf.{expr_of};
ghost use Rattle.c_tree.specs.Programs as program;
ghost use Rattle.c_types.specs.Typed as typed;

use crate::agreement::{has_number, is_status, width_of, words_of};
use crate::kinds::{Decl, Home, Kind, Known, Variable};
use crate::meanings::{Meaning, meaning_of, operation_width};
use crate::names::Names;
use c_tree::program::{Comparison, Expr, Operation, Scalar, Update, Width};
use c_tree::syntax::{Base, Binary, Change, TypeName, Unary};
use mpc_values::{Memory, Obj, Word};
use std::alloc::Global;

pub fn undefined() -> Expr
    ensures { expr_of result ≡ typed.undefined }
{
    Expr::Constant(Word::Undef)
}

// A local's address is taken somewhere in its function.
pub fn is_taken(names: &Names, slot: u32) -> bool
    ensures { result ≡ typed.is_taken names.now slot }
{
    match names.taken.get(slot as usize) {
        Some(taken) => *taken,
        None => false,
    }
}

// It has several words, and its value is its first place.
pub fn is_aggregate(variable: Variable) -> bool
    ensures { result ≡ typed.is_aggregate variable }
{
    variable.is_array || is_status(variable.kind)
}

/// The slot of a local that the task keeps.
pub fn kept_local(names: &Names, variable: Variable, home: Home) -> Option<u32>
    ensures { result ≡ typed.kept_local names.now variable home }
{
    match home {
        Home::Static(_) => None,
        Home::Local(slot) => {
            if is_aggregate(variable) || is_taken(names, slot) {
                None
            } else {
                Some(slot)
            }
        }
    }
}

// The first place of a variable that is static or in memory.
fn home_place(home: Home) -> Expr
    ensures { expr_of result ≡ typed.home_place home }
{
    match home {
        Home::Static(number) => Expr::Constant(Word::Ptr {
            obj: Obj::Glob(number),
            at: 0,
        }),
        Home::Local(slot) => Expr::Object(slot),
    }
}

// What the word of a type is read as.
fn scalar_of(kind: Kind) -> Scalar
    ensures { result ≡ typed.scalar_of kind }
{
    match kind {
        Kind::Plain(Base::Int) => Scalar::Number(Width::Int),
        Kind::Plain(Base::Long) => Scalar::Number(Width::Long),
        Kind::Plain(Base::Comm) => Scalar::Comm,
        Kind::Plain(Base::Request) => Scalar::Request,
        _ => Scalar::Pointer,
    }
}

// The value of a type at a place; that of an MPI_Status is the place.
fn loaded(alloc: Global, kind: Kind, place: Expr) -> Result<Expr, Memory>
    ensures { IfOk result (λ r. expr_of r ≡ typed.loaded kind (expr_of place)) }
{
    match kind {
        Kind::Plain(Base::Status) => Ok(place),
        _ => Ok(Expr::Load(scalar_of(kind), Box::new(alloc, place)?)),
    }
}

/// The element at a place, by the pointer's type.
pub fn element_loaded(alloc: Global, pointer: Option<Kind>, place: Expr) -> Result<Expr, Memory>
    ensures { IfOk result (λ r. expr_of r ≡ typed.element_loaded pointer (expr_of place)) }
{
    match pointer {
        Some(Kind::Pointer(element)) => loaded(alloc, Kind::Plain(element), place),
        _ => Ok(place),
    }
}

pub fn variable_value(alloc: Global, names: &Names, variable: Variable) -> Result<Expr, Memory>
    ensures { IfOk result (λ r. expr_of r ≡ typed.variable_value names.now variable) }
{
    match kept_local(names, variable, variable.home) {
        Some(slot) => Ok(Expr::Local(slot)),
        None => {
            if variable.is_array {
                return Ok(home_place(variable.home));
            }
            loaded(alloc, variable.kind, home_place(variable.home))
        }
    }
}

/// The value of a name.
pub fn name_value(alloc: Global, names: &Names, declared: Option<Decl>) -> Result<Expr, Memory>
    ensures { IfOk result (λ r. expr_of r ≡ typed.name_value names.now declared) }
{
    match declared {
        Some(Decl::Variable(variable)) => variable_value(alloc, names, variable),
        Some(Decl::Count) => Ok(Expr::Local(0)),
        Some(Decl::Known(Known::Constant(_, value))) => Ok(Expr::Constant(value)),
        _ => Ok(undefined()),
    }
}

/// A value where one of a type is due: a long becomes an int (C99, section 6.3.1.3).
pub fn converted(
    alloc: Global,
    due: Option<Kind>,
    given: Option<Kind>,
    value: Expr,
) -> Result<Expr, Memory>
    ensures { IfOk result (λ r. expr_of r ≡ typed.converted due given (expr_of value)) }
{
    match (due, given) {
        (Some(Kind::Plain(Base::Int)), Some(Kind::Plain(Base::Long))) => {
            Ok(Expr::Narrow(Box::new(alloc, value)?))
        }
        _ => Ok(value),
    }
}

/// How many words an element of a pointer has.
pub fn element_words(pointer: Option<Kind>) -> u32
    ensures { result ≡ typed.element_words pointer }
{
    match pointer {
        Some(Kind::Pointer(element)) => words_of(element),
        _ => 1,
    }
}

fn is_back(operation: Operation) -> bool
    ensures { result ≡ typed.is_back operation }
{
    match operation {
        Operation::Subtract => true,
        _ => false,
    }
}

// A sum with a pointer moves it, and other operations are on numbers.
fn operation_made(
    operation: Operation,
    a: Option<Kind>,
    b: Option<Kind>,
    left: Box<Expr>,
    right: Box<Expr>,
) -> Expr
    ensures { expr_of result ≡ typed.operation_made operation a b (expr_of left.value) (expr_of right.value) }
{
    match a {
        Some(Kind::Pointer(element)) => {
            Expr::Offset(is_back(operation), words_of(element), left, right)
        }
        _ => Expr::Arithmetic(operation_width(operation, a, b), operation, left, right),
    }
}

// `==` and `!=` of what is no number ask whether both sides are the same.
fn comparison_made(
    comparison: Comparison,
    of_numbers: bool,
    left: Box<Expr>,
    right: Box<Expr>,
) -> Expr
    ensures { expr_of result ≡ typed.comparison_made comparison of_numbers (expr_of left.value) (expr_of right.value) }
{
    if of_numbers {
        return Expr::Compare(comparison, left, right);
    }
    match comparison {
        Comparison::Equal => Expr::Same(true, left, right),
        Comparison::NotEqual => Expr::Same(false, left, right),
        _ => Expr::Compare(comparison, left, right),
    }
}

/// What a sign makes of two operands of these types.
pub fn binary_made(
    alloc: Global,
    meaning: Meaning,
    a: Option<Kind>,
    b: Option<Kind>,
    left: Expr,
    right: Expr,
) -> Result<Expr, Memory>
    ensures { IfOk result (λ r. expr_of r ≡ typed.binary_made meaning a b (expr_of left) (expr_of right)) }
{
    let left = Box::new(alloc, left)?;
    let right = Box::new(alloc, right)?;
    match meaning {
        Meaning::Operates(operation) => Ok(operation_made(operation, a, b, left, right)),
        Meaning::Compares(comparison) => {
            Ok(comparison_made(comparison, has_number(a), left, right))
        }
        Meaning::Conjunction => Ok(Expr::And(left, right)),
        Meaning::Disjunction => Ok(Expr::Or(left, right)),
    }
}

// The operation of a computing assignment.
fn computes(meaning: Meaning) -> Operation
    ensures { result ≡ typed.computes meaning }
{
    match meaning {
        Meaning::Operates(operation) => operation,
        _ => Operation::Add,
    }
}

// How a variable of the first type takes up a number of the second.
fn update_of(operation: Operation, a: Option<Kind>, b: Option<Kind>) -> Update
    ensures { result ≡ typed.update_of operation a b }
{
    match a {
        Some(Kind::Pointer(element)) => Update::Pointer {
            back: is_back(operation),
            words: words_of(element),
        },
        _ => Update::Number {
            operation,
            width: operation_width(operation, a, b),
            target: width_of(a),
        },
    }
}

fn change_operation(change: Change) -> Operation
    ensures { result ≡ typed.change_operation change }
{
    match change {
        Change::Increment => Operation::Add,
        Change::Decrement => Operation::Subtract,
    }
}

// The left side is typed as a value: it says which local or place is assigned.
pub fn assigned_to(left: Expr, value: Box<Expr>) -> Expr
    ensures { expr_of result ≡ typed.assigned_to (expr_of left) (expr_of value.value) }
{
    match left {
        Expr::Local(slot) => Expr::SetLocal(slot, value),
        Expr::Load(_, place) => Expr::Store(place, value),
        _ => undefined(),
    }
}

fn updated(update: Update, left: Expr, value: Box<Expr>) -> Expr
    ensures { expr_of result ≡ typed.updated update (expr_of left) (expr_of value.value) }
{
    match left {
        Expr::Local(slot) => Expr::UpdateLocal(update, slot, value),
        Expr::Load(_, place) => Expr::UpdateStore(update, place, value),
        _ => undefined(),
    }
}

/// `++` or `--` of an operand of a type.
pub fn stepped(change: Change, before: bool, kind: Option<Kind>, operand: Expr) -> Expr
    ensures { expr_of result ≡ typed.stepped
        (typed.update_of (typed.change_operation change) kind kind) before (expr_of operand) }
{
    let update = update_of(change_operation(change), kind, kind);
    match operand {
        Expr::Local(slot) => Expr::StepLocal(update, before, slot),
        Expr::Load(_, place) => Expr::StepStore(update, before, place),
        _ => undefined(),
    }
}

// The address of what a value is loaded from.
fn address_of(value: Expr) -> Expr
    ensures { expr_of result ≡ typed.address_of (expr_of value) }
{
    match value {
        Expr::Load(_, place) => Box::into_inner(place),
        _ => value,
    }
}

/// An assignment, by its sign where it is a computing one, and the types of both sides.
pub fn assignment(
    alloc: Global,
    sign: Option<Binary>,
    a: Option<Kind>,
    b: Option<Kind>,
    left: Expr,
    right: Expr,
) -> Result<Expr, Memory>
    ensures { IfOk result (λ r. expr_of r ≡ typed.assignment sign a b (expr_of left) (expr_of right)) }
{
    match sign {
        None => {
            let value = converted(alloc, a, b, right)?;
            Ok(assigned_to(left, Box::new(alloc, value)?))
        }
        Some(sign) => Ok(updated(
            update_of(computes(meaning_of(sign)), a, b),
            left,
            Box::new(alloc, right)?,
        )),
    }
}

/// The value of a field of an MPI_Status: its source is its first word, and its tag the second.
pub fn field_value(alloc: Global, is_tag: bool, status: Expr) -> Result<Expr, Memory>
    ensures { IfOk result (λ r. expr_of r ≡ program.Load (Scalar.Number Width.Int) (typed.field_place is_tag (expr_of status))) }
{
    let place = if is_tag {
        Expr::Offset(
            false,
            1,
            Box::new(alloc, status)?,
            Box::new(alloc, Expr::Constant(Word::Int(1)))?,
        )
    } else {
        status
    };
    Ok(Expr::Load(Scalar::Number(Width::Int), Box::new(alloc, place)?))
}

/// What a sign makes of one operand.
pub fn unary_made(
    alloc: Global,
    sign: Unary,
    kind: Option<Kind>,
    value: Expr,
) -> Result<Expr, Memory>
    ensures { IfOk result (λ r. expr_of r ≡ typed.unary_made sign kind (expr_of value)) }
{
    match sign {
        Unary::Minus => Ok(Expr::Negate(width_of(kind), Box::new(alloc, value)?)),
        Unary::Plus => Ok(value),
        Unary::Not => Ok(Expr::Not(Box::new(alloc, value)?)),
        Unary::Complement => Ok(Expr::Complement(Box::new(alloc, value)?)),
        Unary::Indirection => element_loaded(alloc, kind, value),
        Unary::Address => Ok(address_of(value)),
    }
}

/// A cast of a value. One to a pointer stands over a malloc, and leaves nothing.
pub fn cast_made(
    alloc: Global,
    to: TypeName,
    kind: Option<Kind>,
    value: Expr,
) -> Result<Expr, Memory>
    ensures { IfOk result (λ r. expr_of r ≡ typed.cast_made to kind (expr_of value)) }
{
    if to.pointer {
        return Ok(value);
    }
    converted(alloc, Some(Kind::Plain(to.base)), kind, value)
}
