//! What signs between two operands do.
ghost use Rattle.std.specs.Prelude.{◌≡◌};
ghost use Rattle.c_types.specs.Constants as constants;

use crate::agreement::{wider, width_of};
use crate::kinds::Kind;
use crate::shapes::{OperatorShape, Shape};
use c_tree::program::{Comparison, Operation, Width};
use c_tree::syntax::Binary;

/// What a sign between two operands does.
#[derive(Clone, Copy, Debug, PartialEq, Eq)]
pub enum Meaning {
    Operates(Operation),
    Compares(Comparison),
    /// `&&`
    Conjunction,
    /// `||`
    Disjunction,
}

pub fn meaning_of(sign: Binary) -> Meaning
    ensures { result ≡ constants.meaning_of sign }
{
    match sign {
        Binary::Multiply => Meaning::Operates(Operation::Multiply),
        Binary::Divide => Meaning::Operates(Operation::Divide),
        Binary::Remainder => Meaning::Operates(Operation::Remainder),
        Binary::Add => Meaning::Operates(Operation::Add),
        Binary::Subtract => Meaning::Operates(Operation::Subtract),
        Binary::ShiftLeft => Meaning::Operates(Operation::ShiftLeft),
        Binary::ShiftRight => Meaning::Operates(Operation::ShiftRight),
        Binary::Less => Meaning::Compares(Comparison::Less),
        Binary::Greater => Meaning::Compares(Comparison::Greater),
        Binary::LessEqual => Meaning::Compares(Comparison::LessEqual),
        Binary::GreaterEqual => Meaning::Compares(Comparison::GreaterEqual),
        Binary::Equal => Meaning::Compares(Comparison::Equal),
        Binary::NotEqual => Meaning::Compares(Comparison::NotEqual),
        Binary::BitAnd => Meaning::Operates(Operation::BitAnd),
        Binary::BitXor => Meaning::Operates(Operation::BitXor),
        Binary::BitOr => Meaning::Operates(Operation::BitOr),
        Binary::And => Meaning::Conjunction,
        Binary::Or => Meaning::Disjunction,
    }
}

/// What the rules read of a sign between two operands of these types.
pub fn binary_shape(sign: Binary, a: Option<Kind>, b: Option<Kind>) -> Shape
    ensures { result ≡ constants.binary_shape sign a b }
{
    match sign {
        Binary::Multiply
        | Binary::Divide
        | Binary::Remainder
        | Binary::BitAnd
        | Binary::BitXor
        | Binary::BitOr => Shape::Operator(OperatorShape::Arithmetic(a, b)),
        Binary::Add | Binary::Subtract => Shape::Operator(OperatorShape::Sum(a, b)),
        Binary::ShiftLeft | Binary::ShiftRight => Shape::Operator(OperatorShape::Shifted(a, b)),
        Binary::Less | Binary::Greater | Binary::LessEqual | Binary::GreaterEqual => {
            Shape::Operator(OperatorShape::Ordered(a, b))
        }
        Binary::Equal | Binary::NotEqual => Shape::Operator(OperatorShape::Compared(a, b)),
        Binary::And | Binary::Or => Shape::Operator(OperatorShape::Joined(a, b)),
    }
}

/// The width of an operation on numbers of these types; of a shift it is the left one's.
pub fn operation_width(operation: Operation, a: Option<Kind>, b: Option<Kind>) -> Width
    ensures { result ≡ constants.operation_width operation a b }
{
    match operation {
        Operation::ShiftLeft | Operation::ShiftRight => width_of(a),
        _ => width_of(wider(a, b)),
    }
}
