//! The least rule that a node breaks, and the type of a node.
#![tactic(auto, unfolding(crate::specs::Rules::rule, crate::specs::Rules::kind))]

ghost use Rattle.std.specs.Prelude.{◌≡◌, cond, Some};
ghost use Rattle.c_types.specs.Kinds as kinds;
ghost use Rattle.c_types.specs.Rules as rules;

use crate::agreement::{
    agree, are_incomparable, are_unlike, choice_kind, disagrees, element_of, has_elements,
    has_null, has_place, is_incomparable, is_no_condition, is_no_number, is_no_pointer,
    is_no_status, is_number, is_plain, is_pointer, is_status, is_stored, same_kind, sum_kind,
    wider,
};
use crate::kinds::{Decl, Kind, Known, Left};
use crate::shapes::{
    CallShape, Declared, Initial, ItemShape, OperandShape, OperatorShape, Parameter, Shape,
    StatementShape,
};
use c_tree::syntax::{Base, Binary};
use mpc_values::limits::MAX_CONSTRUCTS;

// The type that a name has as a value.
fn value_kind(declared: Option<Decl>) -> Option<Kind>
    ensures { result ≡ rules.value_kind declared }
{
    match declared {
        Some(Decl::Variable(variable)) => Some(variable.kind),
        Some(Decl::Count) => Some(Kind::Plain(Base::Int)),
        Some(Decl::Known(Known::Constant(kind, _))) => Some(kind),
        _ => None,
    }
}

fn is_arguments(declared: Option<Decl>) -> bool
    ensures { result ≡ rules.is_arguments declared }
{
    match declared {
        Some(Decl::Arguments) => true,
        _ => false,
    }
}

// The name stands for no value, and is not argv either.
fn has_no_value(declared: Option<Decl>) -> bool
    ensures { result ≡ rules.has_no_value declared }
{
    value_kind(declared).is_none() && !is_arguments(declared)
}

// The left side is no variable and no element that can be assigned.
fn is_no_target(side: Left) -> bool
    ensures { result ≡ rules.is_no_target side }
{
    match side {
        Left::Nothing | Left::Array => true,
        Left::Typed(kind) => is_status(kind),
        _ => false,
    }
}

// The right side has a type that the left side does not take.
fn takes_no(side: Left, given: Option<Kind>) -> bool
    ensures { result ≡ kinds.misses (rules.takes side) given }
{
    match (given, side) {
        (None, _) => false,
        (Some(given), Left::Typed(kind)) => !agree(kind, given),
        (Some(given), Left::Count) => !agree(Kind::Plain(Base::Int), given),
        (Some(given), _) => !is_stored(given),
    }
}

fn is_count(side: Left) -> bool
    ensures { result ≡ rules.is_count side }
{
    match side {
        Left::Count => true,
        _ => false,
    }
}

// `++` and `--` cannot move it.
fn cannot_step(side: Left) -> bool
    ensures { result ≡ rules.cannot_step side }
{
    match side {
        Left::Nothing | Left::Array => true,
        Left::Typed(kind) => !(is_number(kind) || is_pointer(kind)),
        _ => false,
    }
}

// It has no address.
fn cannot_locate(side: Left) -> bool
    ensures { result ≡ rules.cannot_locate side }
{
    match side {
        Left::Nothing | Left::Array | Left::Arguments => true,
        Left::Typed(kind) => !is_plain(kind),
        _ => false,
    }
}

// A sum with a pointer that is not on the left of a number.
fn is_no_pointer_sum(a: Option<Kind>, b: Option<Kind>) -> bool
    ensures { result ≡ rules.is_no_pointer_sum a b }
{
    has_place(b) || has_null(a) || (has_elements(a) && is_no_number(b))
}

fn no_numbers(a: Option<Kind>, b: Option<Kind>) -> bool
    ensures { result ≡ rules.no_numbers a b }
{
    is_no_number(a) || is_no_number(b)
}

// A sum without pointers whose operands are no numbers.
fn is_no_number_sum(a: Option<Kind>, b: Option<Kind>) -> bool
    ensures { result ≡ rules.is_no_number_sum a b }
{
    !(has_place(a) || has_place(b)) && no_numbers(a, b)
}

fn cannot_compare(a: Option<Kind>, b: Option<Kind>) -> bool
    ensures { result ≡ rules.cannot_compare a b }
{
    is_incomparable(a) || is_incomparable(b) || are_incomparable(a, b)
}

// The sign moves pointers.
fn moves(sign: Binary) -> bool
    ensures { result ≡ rules.moves sign }
{
    match sign {
        Binary::Add | Binary::Subtract => true,
        _ => false,
    }
}

// What a return gives is not what is due.
fn returns_amiss(due: Kind, given: Option<Option<Kind>>) -> bool
    ensures { result ≡ rules.returns_amiss due given }
{
    match (due, given) {
        (Kind::Void, None) => false,
        (_, None) | (Kind::Void, Some(_)) => true,
        (_, Some(given)) => disagrees(due, given),
    }
}

fn is_constant_amiss(initial: Initial) -> bool
    ensures { result ≡ rules.is_constant_amiss initial }
{
    match initial {
        Initial::Constant(fits) => !fits,
        _ => false,
    }
}

fn is_given(initial: Initial) -> bool
    ensures { result ≡ rules.is_given initial }
{
    match initial {
        Initial::Nothing => false,
        _ => true,
    }
}

// The initializer of a variable that is not static does not agree with it.
fn is_value_amiss(kind: Kind, initial: Initial) -> bool
    ensures { result ≡ rules.is_value_amiss kind initial }
{
    match initial {
        Initial::Value(given) => disagrees(kind, given),
        Initial::List => true,
        _ => false,
    }
}

// An array or a status.
fn is_whole(declared: Declared) -> bool
    ensures { result ≡ rules.is_whole declared }
{
    declared.is_array || is_status(declared.kind)
}

// There are no parameters of its type.
fn is_no_parameter(parameter: Parameter) -> bool
    ensures { result ≡ rules.is_no_parameter parameter }
{
    same_kind(parameter.kind, Kind::Plain(Base::Request))
        || is_status(parameter.kind)
        || (parameter.is_array && same_kind(parameter.kind, Kind::Pointer(Base::Comm)))
}

// No function answers it.
fn is_no_answer(kind: Kind) -> bool
    ensures { result ≡ rules.is_no_answer kind }
{
    match kind {
        Kind::Plain(Base::Comm) | Kind::Plain(Base::Request) | Kind::Plain(Base::Status) => true,
        _ => false,
    }
}

fn is_arguments_kind(kind: Kind) -> bool
    ensures { result ≡ rules.is_arguments_kind kind }
{
    match kind {
        Kind::Arguments => true,
        _ => false,
    }
}

// `sizeof` has no size for it.
fn has_no_size(base: Base) -> bool
    ensures { result ≡ rules.has_no_size base }
{
    match base {
        Base::Int | Base::Long => false,
        _ => true,
    }
}

// The rule of this number, where it is broken, and else the next.
fn or_else(is_broken: bool, number: u16, next: Option<u16>) -> Option<u16>
    ensures { result ≡ cond is_broken (Some number) next }
{
    if is_broken { Some(number) } else { next }
}

fn variable_rule(declared: Declared) -> Option<u16>
    ensures { result ≡ rules.rule (Shape.Item (ItemShape.Variable declared)) }
{
    if declared.is_twice {
        Some(2)
    } else if declared.is_known {
        Some(4)
    } else if !declared.fits {
        Some(5)
    } else if is_constant_amiss(declared.initial) {
        Some(6)
    } else if !declared.is_static && is_whole(declared) && is_given(declared.initial) {
        Some(7)
    } else if declared.is_array && same_kind(Kind::Plain(declared.base), Kind::Plain(Base::Comm)) {
        Some(8)
    } else if !declared.is_static
        && !is_whole(declared)
        && is_value_amiss(declared.kind, declared.initial)
    {
        Some(15)
    } else {
        None
    }
}

fn parameter_rule(parameter: Parameter) -> Option<u16>
    ensures { result ≡ rules.rule (Shape.Item (ItemShape.Parameter parameter)) }
{
    if parameter.is_twice {
        Some(2)
    } else if parameter.is_known {
        Some(4)
    } else if is_no_parameter(parameter) {
        Some(8)
    } else if is_arguments_kind(parameter.kind) && !parameter.is_main {
        Some(29)
    } else {
        None
    }
}

fn item_rule(shape: ItemShape) -> Option<u16>
    ensures { result ≡ rules.rule (Shape.Item shape) }
{
    match shape {
        ItemShape::Unit(has_main) => or_else(!has_main, 1, None),
        ItemShape::Scope(may_stand) => or_else(!may_stand, 30, None),
        ItemShape::Variable(declared) => variable_rule(declared),
        ItemShape::Parameter(parameter) => parameter_rule(parameter),
        ItemShape::Function {
            is_twice,
            is_known,
            returns,
        } => or_else(
            is_twice,
            2,
            or_else(is_known, 4, or_else(is_no_answer(returns), 8, None)),
        ),
    }
}

fn statement_rule(shape: StatementShape) -> Option<u16>
    ensures { result ≡ rules.rule (Shape.Statement shape) }
{
    match shape {
        StatementShape::Tested(condition) => or_else(is_no_condition(condition), 13, None),
        StatementShape::Returned(due, given) => or_else(returns_amiss(due, given), 22, None),
        StatementShape::Jumped(in_loop) => or_else(!in_loop, 23, None),
        StatementShape::Single {
            are_shared,
            may_stand,
            before,
        } => or_else(
            !are_shared,
            31,
            or_else(!may_stand, 32, or_else(before >= MAX_CONSTRUCTS, 33, None)),
        ),
        StatementShape::Barrier { are_shared, before } => {
            or_else(!are_shared, 31, or_else(before >= MAX_CONSTRUCTS, 33, None))
        }
    }
}

fn call_rule(shape: CallShape) -> Option<u16>
    ensures { result ≡ rules.rule (Shape.Call shape) }
{
    match shape {
        CallShape::Nothing => Some(3),
        CallShape::Own {
            is_defined,
            agrees,
            ..
        } => or_else(!agrees, 20, or_else(!is_defined, 21, None)),
        CallShape::Printf(agrees) => or_else(!agrees, 24, None),
        CallShape::Malloc {
            element,
            has_number,
        } => or_else(element.is_none() || !has_number, 25, None),
        CallShape::Free(has_pointer) => or_else(!has_pointer, 25, None),
        CallShape::Init { has_two, may_stand } => {
            or_else(!has_two, 26, or_else(!may_stand, 28, None))
        }
        CallShape::Mpi { meets, agrees } => or_else(!meets, 26, or_else(!agrees, 27, None)),
    }
}

fn operand_rule(shape: OperandShape) -> Option<u16>
    ensures { result ≡ rules.rule (Shape.Operand shape) }
{
    match shape {
        OperandShape::Number(_) => None,
        OperandShape::Text => Some(26),
        OperandShape::Used(declared) => or_else(
            has_no_value(declared),
            3,
            or_else(is_arguments(declared), 29, None),
        ),
        OperandShape::Element(a, b) => {
            or_else(is_no_number(b), 9, or_else(is_no_pointer(a), 18, None))
        }
        OperandShape::Field(is_field, a) => or_else(!is_field || is_no_status(a), 19, None),
        OperandShape::Stepped(side) => {
            or_else(cannot_step(side), 16, or_else(is_count(side), 29, None))
        }
        OperandShape::Signed(a) => or_else(is_no_number(a), 9, None),
        OperandShape::Negated(a) => or_else(is_no_condition(a), 13, None),
        OperandShape::Pointed(a) => or_else(is_no_pointer(a), 18, None),
        OperandShape::Located(side) => {
            or_else(cannot_locate(side), 17, or_else(is_count(side), 29, None))
        }
        OperandShape::Converted(base, a) => or_else(has_no_size(base) || is_no_number(a), 9, None),
        OperandShape::Cast(_, may_stand) => or_else(!may_stand, 25, None),
        OperandShape::Sized(base) => or_else(has_no_size(base), 9, None),
    }
}

fn computed_rule(sign: Binary, side: Left, a: Option<Kind>, b: Option<Kind>) -> Option<u16>
    ensures { result ≡ rules.rule (Shape.Operator (OperatorShape.Computed sign side a b)) }
{
    let is_sum = moves(sign);
    let no_numbers = if is_sum {
        is_no_number_sum(a, b)
    } else {
        no_numbers(a, b)
    };
    if no_numbers {
        Some(9)
    } else if is_sum && is_no_pointer_sum(a, b) {
        Some(10)
    } else if is_no_target(side) {
        Some(15)
    } else if is_count(side) {
        Some(29)
    } else {
        None
    }
}

fn operator_rule(shape: OperatorShape) -> Option<u16>
    ensures { result ≡ rules.rule (Shape.Operator shape) }
{
    match shape {
        OperatorShape::Arithmetic(a, b) | OperatorShape::Shifted(a, b) => {
            or_else(no_numbers(a, b), 9, None)
        }
        OperatorShape::Sum(a, b) => or_else(
            is_no_number_sum(a, b),
            9,
            or_else(is_no_pointer_sum(a, b), 10, None),
        ),
        OperatorShape::Ordered(a, b) => or_else(no_numbers(a, b), 12, None),
        OperatorShape::Compared(a, b) => or_else(cannot_compare(a, b), 11, None),
        OperatorShape::Joined(a, b) => {
            or_else(is_no_condition(a) || is_no_condition(b), 13, None)
        }
        OperatorShape::Chosen(test, a, b) => or_else(
            is_no_condition(test),
            13,
            or_else(are_unlike(a, b), 14, None),
        ),
        OperatorShape::Assigned(side, b) => or_else(
            is_no_target(side) || takes_no(side, b),
            15,
            or_else(is_count(side), 29, None),
        ),
        OperatorShape::Computed(sign, side, a, b) => computed_rule(sign, side, a, b),
    }
}

/// The least rule that a node breaks.
pub fn rule(shape: Shape) -> Option<u16>
    ensures { result ≡ rules.rule shape }
{
    match shape {
        Shape::Item(shape) => item_rule(shape),
        Shape::Statement(shape) => statement_rule(shape),
        Shape::Call(shape) => call_rule(shape),
        Shape::Operand(shape) => operand_rule(shape),
        Shape::Operator(shape) => operator_rule(shape),
    }
}

fn left_kind(side: Left) -> Option<Kind>
    ensures { result ≡ rules.left_kind side }
{
    match side {
        Left::Typed(kind) => Some(kind),
        Left::Count => Some(Kind::Plain(Base::Int)),
        _ => None,
    }
}

fn address_kind(side: Left) -> Option<Kind>
    ensures { result ≡ rules.address_kind side }
{
    match side {
        Left::Typed(Kind::Plain(base)) => Some(Kind::Pointer(base)),
        _ => None,
    }
}

fn pointer_to(element: Option<Base>) -> Option<Kind>
    ensures { result ≡ rules.pointer_to element }
{
    match element {
        Some(base) => Some(Kind::Pointer(base)),
        None => None,
    }
}

pub fn number_kind(is_long: bool) -> Kind
    ensures { result ≡ rules.number_kind is_long }
{
    if is_long {
        Kind::Plain(Base::Long)
    } else {
        Kind::Plain(Base::Int)
    }
}

fn operand_kind(shape: OperandShape) -> Option<Kind>
    ensures { result ≡ rules.sound_kind (Shape.Operand shape) }
{
    match shape {
        OperandShape::Number(is_long) => Some(number_kind(is_long)),
        OperandShape::Text => None,
        OperandShape::Used(declared) => value_kind(declared),
        OperandShape::Element(a, _) | OperandShape::Pointed(a) => element_of(a),
        OperandShape::Field(_, _) | OperandShape::Negated(_) => Some(Kind::Plain(Base::Int)),
        OperandShape::Stepped(side) => left_kind(side),
        OperandShape::Signed(a) => a,
        OperandShape::Located(side) => address_kind(side),
        OperandShape::Converted(base, _) => Some(Kind::Plain(base)),
        OperandShape::Cast(base, _) => Some(Kind::Pointer(base)),
        OperandShape::Sized(_) => Some(Kind::Plain(Base::Long)),
    }
}

fn operator_kind(shape: OperatorShape) -> Option<Kind>
    ensures { result ≡ rules.sound_kind (Shape.Operator shape) }
{
    match shape {
        OperatorShape::Arithmetic(a, b) => wider(a, b),
        OperatorShape::Shifted(a, _) => a,
        OperatorShape::Sum(a, b) => sum_kind(a, b),
        OperatorShape::Ordered(_, _)
        | OperatorShape::Compared(_, _)
        | OperatorShape::Joined(_, _) => Some(Kind::Plain(Base::Int)),
        OperatorShape::Chosen(_, a, b) => choice_kind(a, b),
        OperatorShape::Assigned(side, _) | OperatorShape::Computed(_, side, _, _) => {
            left_kind(side)
        }
    }
}

fn call_kind(shape: CallShape) -> Option<Kind>
    ensures { result ≡ rules.sound_kind (Shape.Call shape) }
{
    match shape {
        CallShape::Nothing => None,
        CallShape::Own { returns, .. } => Some(returns),
        CallShape::Malloc { element, .. } => pointer_to(element),
        CallShape::Free(_) => Some(Kind::Void),
        CallShape::Printf(_) | CallShape::Init { .. } | CallShape::Mpi { .. } => {
            Some(Kind::Plain(Base::Int))
        }
    }
}

/// A node's own type. One that breaks a rule has none.
pub fn kind(shape: Shape) -> Option<Kind>
    ensures { result ≡ rules.kind shape }
{
    if rule(shape).is_some() {
        return None;
    }
    match shape {
        Shape::Item(_) | Shape::Statement(_) => None,
        Shape::Call(shape) => call_kind(shape),
        Shape::Operand(shape) => operand_kind(shape),
        Shape::Operator(shape) => operator_kind(shape),
    }
}
