//! What names stand for, and what the rules read of the left side of an assignment, of casts and of the
//! arguments of calls.
ghost use Rattle.std.specs.Prelude.{◌≡◌};
ghost use Rattle.c_tree.specs.SyntaxOf.{expr_of, exprs_of};
ghost use Rattle.c_types.specs.Answers.{called_by};
ghost use Rattle.c_types.specs.Calls as calls;

use crate::agreement::{is_no_number, is_no_place};
use crate::kinds::{Decl, Given, Kind, Known, Left, Variable};
use crate::known_names::known;
use crate::names::Names;
use crate::shapes::{OperandShape, Shape};
use c_tree::mpi::MpiFunction;
use c_tree::syntax::{Base, Expr, TypeName, Unary};

/// What a name stands for: what it is declared as, or a known name.
pub fn meaning(names: &Names, name: &[u8]) -> Option<Decl>
    ensures { result ≡ calls.meaning name.now names.now.scopes }
{
    match names.find(name) {
        Some(decl) => Some(decl),
        None => match known(name) {
            Some(known) => Some(Decl::Known(known)),
            None => None,
        },
    }
}

/// What a call is of.
#[derive(Clone, Copy, Debug)]
pub enum Callable {
    /// The program's own function at a place among those declared so far.
    Own(usize),
    Mpi(MpiFunction),
    Printf,
    Malloc,
    Free,
    Nothing,
}

pub fn callee_of(declared: Option<Decl>) -> Callable
    ensures { result ≡ called_by declared }
{
    match declared {
        Some(Decl::Function(place)) => Callable::Own(place),
        Some(Decl::Known(Known::Mpi(function))) => Callable::Mpi(function),
        Some(Decl::Known(Known::Printf)) => Callable::Printf,
        Some(Decl::Known(Known::Malloc)) => Callable::Malloc,
        Some(Decl::Known(Known::Free)) => Callable::Free,
        _ => Callable::Nothing,
    }
}

fn variable_side(variable: Variable) -> Left
    ensures { result ≡ calls.variable_side variable }
{
    if variable.is_array {
        Left::Array
    } else {
        Left::Typed(variable.kind)
    }
}

// What a name is as the left side of an assignment.
fn name_side(declared: Option<Decl>) -> Left
    ensures { result ≡ calls.name_side declared }
{
    match declared {
        None => Left::Unknown,
        Some(Decl::Variable(variable)) => variable_side(variable),
        Some(Decl::Count) => Left::Count,
        Some(Decl::Arguments) => Left::Arguments,
        Some(Decl::Function(_)) | Some(Decl::Known(_)) => Left::Nothing,
    }
}

fn element_side(kind: Option<Kind>) -> Left
    ensures { result ≡ calls.element_side kind }
{
    match kind {
        None => Left::Unknown,
        Some(kind) => Left::Typed(kind),
    }
}

/// What an expression of a type is as the left side of an assignment (C99, section 6.3.2.1).
pub fn side_of(names: &Names, e: &Expr, kind: Option<Kind>) -> Left
    ensures { result ≡ calls.side_of names.now.scopes (expr_of e.now) kind }
{
    match e {
        Expr::Name(_, name) => name_side(meaning(names, name.as_slice())),
        Expr::Index(_, _, _) => element_side(kind),
        Expr::Unary(_, sign, _) => match sign {
            Unary::Indirection => element_side(kind),
            _ => Left::Nothing,
        },
        _ => Left::Nothing,
    }
}

/// The element of the pointer that a malloc is for where this type is due.
pub fn wanted_by(kind: Kind) -> Option<Base>
    ensures { result ≡ calls.wanted_by kind }
{
    match kind {
        Kind::Pointer(element) => Some(element),
        _ => None,
    }
}

/// The same on the right of an assignment.
pub fn wanted(side: Left) -> Option<Base>
    ensures { result ≡ calls.wanted side }
{
    match side {
        Left::Typed(kind) => wanted_by(kind),
        _ => None,
    }
}

/// The same under a cast to a pointer.
pub fn cast_want(to: TypeName) -> Option<Base>
    ensures { result ≡ calls.cast_want to }
{
    if to.pointer { Some(to.base) } else { None }
}

/// The element, where a malloc can be for it: only int and long have a size.
pub fn sized(want: Option<Base>) -> Option<Base>
    ensures { result ≡ calls.sized want }
{
    match want {
        Some(Base::Int) => Some(Base::Int),
        Some(Base::Long) => Some(Base::Long),
        _ => None,
    }
}

fn names_malloc(declared: Option<Decl>) -> bool
    ensures { result ≡ calls.names_malloc declared }
{
    match declared {
        Some(Decl::Known(Known::Malloc)) => true,
        _ => false,
    }
}

/// Whether the expression is a call of malloc.
pub fn is_malloc(names: &Names, e: &Expr) -> bool
    ensures { result ≡ calls.is_malloc names.now.scopes (expr_of e.now) }
{
    match e {
        Expr::Call(_, name, _) => names_malloc(meaning(names, name.as_slice())),
        _ => false,
    }
}

/// What the rules read of a cast. One to a pointer stands over a malloc, where that is for a pointer.
pub fn cast_shape(want: Option<Base>, to: TypeName, over_malloc: bool, kind: Option<Kind>) -> Shape
    ensures { result ≡ calls.cast_shape want to over_malloc kind }
{
    if to.pointer {
        Shape::Operand(OperandShape::Cast(to.base, over_malloc && want.is_some()))
    } else {
        Shape::Operand(OperandShape::Converted(to.base, kind))
    }
}

pub fn unary_shape(sign: Unary, side: Left, kind: Option<Kind>) -> Shape
    ensures { result ≡ calls.unary_shape sign side kind }
{
    match sign {
        Unary::Minus | Unary::Plus | Unary::Complement => {
            Shape::Operand(OperandShape::Signed(kind))
        }
        Unary::Not => Shape::Operand(OperandShape::Negated(kind)),
        Unary::Indirection => Shape::Operand(OperandShape::Pointed(kind)),
        Unary::Address => Shape::Operand(OperandShape::Located(side)),
    }
}

/// The fields of an MPI_Status that programs may use (MPI 3.1, section 3.2.5).
pub fn is_field(name: &[u8]) -> bool
    ensures { result ≡ calls.is_field name.now }
{
    name == b"MPI_SOURCE".as_slice() || name == b"MPI_TAG".as_slice()
}

fn named_given(declared: Option<Decl>) -> Option<Given>
    ensures { result ≡ calls.named_given declared }
{
    match declared {
        Some(Decl::Known(Known::Datatype(datatype))) => Some(Given::Datatype(datatype)),
        Some(Decl::Known(Known::Operation(operation))) => Some(Given::Operation(operation)),
        Some(Decl::Known(Known::Ignored)) => Some(Given::Ignored),
        _ => None,
    }
}

/// What an argument of an MPI function is where it is a name that is no expression.
pub fn special(names: &Names, e: &Expr) -> Option<Given>
    ensures { result ≡ calls.special names.now.scopes (expr_of e.now) }
{
    match e {
        Expr::Name(_, name) => named_given(meaning(names, name.as_slice())),
        _ => None,
    }
}

/// An argument that is no such name is an expression of a type.
pub fn or_typed(special: Option<Given>, kind: Option<Kind>) -> Given
    ensures { result ≡ calls.or_typed special kind }
{
    match special {
        Some(given) => given,
        None => Given::Typed(kind),
    }
}

/// There is one argument, and it is a number.
pub fn is_one_number(kinds: &[Option<Kind>]) -> bool
    ensures { result ≡ calls.is_one_number kinds.now }
{
    match kinds {
        [kind] => !is_no_number(*kind),
        _ => false,
    }
}

/// There is one argument, and it is a pointer.
pub fn is_one_pointer(kinds: &[Option<Kind>]) -> bool
    ensures { result ≡ calls.is_one_pointer kinds.now }
{
    match kinds {
        [kind] => !is_no_place(*kind),
        _ => false,
    }
}

/// There are two arguments.
pub fn are_two(arguments: &[Expr]) -> bool
    ensures { result ≡ calls.are_two (exprs_of arguments.now) }
{
    match arguments {
        [_, _] => true,
        _ => false,
    }
}

fn stands_for_null(declared: Option<Decl>) -> bool
    ensures { result ≡ calls.stands_for_null declared }
{
    match declared {
        Some(Decl::Known(Known::Constant(Kind::Null, _))) => true,
        _ => false,
    }
}

fn is_null_name(names: &Names, e: &Expr) -> bool
    ensures { result ≡ calls.is_name_of calls.stands_for_null names.now.scopes (expr_of e.now) }
{
    match e {
        Expr::Name(_, name) => stands_for_null(meaning(names, name.as_slice())),
        _ => false,
    }
}

fn stands_for_count(declared: Option<Decl>) -> bool
    ensures { result ≡ calls.stands_for_count declared }
{
    match declared {
        Some(Decl::Count) => true,
        _ => false,
    }
}

fn stands_for_arguments(declared: Option<Decl>) -> bool
    ensures { result ≡ calls.stands_for_arguments declared }
{
    match declared {
        Some(Decl::Arguments) => true,
        _ => false,
    }
}

fn is_count_name(names: &Names, e: &Expr) -> bool
    ensures { result ≡ calls.is_name_of calls.stands_for_count names.now.scopes (expr_of e.now) }
{
    match e {
        Expr::Name(_, name) => stands_for_count(meaning(names, name.as_slice())),
        _ => false,
    }
}

fn is_arguments_name(names: &Names, e: &Expr) -> bool
    ensures { result ≡ calls.is_name_of calls.stands_for_arguments names.now.scopes (expr_of e.now) }
{
    match e {
        Expr::Name(_, name) => stands_for_arguments(meaning(names, name.as_slice())),
        _ => false,
    }
}

fn is_count_address(names: &Names, e: &Expr) -> bool
    ensures { result ≡ calls.is_address_of calls.stands_for_count names.now.scopes (expr_of e.now) }
{
    match e {
        Expr::Unary(_, Unary::Address, operand) => is_count_name(names, operand),
        _ => false,
    }
}

fn is_arguments_address(names: &Names, e: &Expr) -> bool
    ensures { result ≡ calls.is_address_of calls.stands_for_arguments names.now.scopes (expr_of e.now) }
{
    match e {
        Expr::Unary(_, Unary::Address, operand) => is_arguments_name(names, operand),
        _ => false,
    }
}

/// MPI_Init's arguments are `NULL, NULL` or main's own `&argc, &argv`.
pub fn may_start(names: &Names, arguments: &[Expr]) -> bool
    ensures { result ≡ calls.may_start names.now.scopes (exprs_of arguments.now) }
{
    match arguments {
        [first, second] => {
            (is_null_name(names, first) && is_null_name(names, second))
                || (is_count_address(names, first) && is_arguments_address(names, second))
        }
        _ => false,
    }
}
