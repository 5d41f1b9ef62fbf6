//! Constant expressions (C99, section 6.6): their types, and their values where they have no fault.
ghost use Rattle.std.specs.Prelude.{◌≡◌, IfOk, Some, map};
ghost use Rattle.c_tree.specs.SyntaxOf.{expr_of, initializer_of};
ghost use Rattle.c_types.specs.Constants as constants;
ghost use Rattle.c_types.specs.Keys.{Holds};

use crate::agreement::{agree, is_number, width_of};
use crate::kinds::{Constant, Kind, Known};
use crate::known_names::known;
use crate::meanings::{Meaning, binary_shape, meaning_of, operation_width};
use crate::rules::{kind, number_kind};
use crate::shapes::{OperandShape, OperatorShape, Shape};
use c_tree::arithmetic::{compare, complement, compute, negate, wrap};
use c_tree::program::{Comparison, Operation, Width};
use c_tree::syntax::{Base, Binary, Expr, Initializer, TypeName, Unary};
use c_tree::words::{holds, same_word, truth};
use mpc_values::limits::MAX_ARRAY_LENGTH;
use mpc_values::{Memory, Word};
use std::alloc::Global;

// A word read as a number.
fn number_in(word: Word) -> i64
    ensures { result ≡ constants.number_in word }
{
    match word {
        Word::Int(number) => number,
        _ => 0,
    }
}

fn truth_of(value: Option<Word>) -> Option<Word>
    ensures { result ≡ constants.truth_of value }
{
    match value {
        Some(word) => Some(truth(holds(word))),
        None => None,
    }
}

// A comparison of two numbers, or of two others, of which only their sameness is asked.
fn compared_words(comparison: Comparison, a: Word, b: Word) -> bool
    ensures { result ≡ constants.compared_words comparison a b }
{
    match comparison {
        Comparison::Equal => same_word(a, b),
        Comparison::NotEqual => !same_word(a, b),
        _ => compare(comparison, number_in(a), number_in(b)),
    }
}

fn operated_words(width: Width, operation: Operation, a: Word, b: Word) -> Option<Word>
    ensures { result ≡ constants.operated_words width operation a b }
{
    match compute(width, operation, number_in(a), number_in(b)) {
        Ok(number) => Some(Word::Int(number)),
        Err(_) => None,
    }
}

// The value of `&&`, whose right side counts only where the left one does not decide.
fn conjoined(a: Option<Word>, b: Option<Word>) -> Option<Word>
    ensures { result ≡ constants.conjoined a b }
{
    match a {
        None => None,
        Some(a) => if holds(a) {
            truth_of(b)
        } else {
            Some(truth(false))
        },
    }
}

// The same of `||`.
fn disjoined(a: Option<Word>, b: Option<Word>) -> Option<Word>
    ensures { result ≡ constants.disjoined a b }
{
    match a {
        None => None,
        Some(a) => if holds(a) {
            Some(truth(true))
        } else {
            truth_of(b)
        },
    }
}

fn binary_value(meaning: Meaning, a: Constant, b: Constant) -> Option<Word>
    ensures { result ≡ constants.binary_value meaning a b }
{
    match meaning {
        Meaning::Operates(operation) => {
            let width = operation_width(operation, Some(a.kind), Some(b.kind));
            match (a.value, b.value) {
                (Some(a), Some(b)) => operated_words(width, operation, a, b),
                _ => None,
            }
        }
        Meaning::Compares(comparison) => match (a.value, b.value) {
            (Some(a), Some(b)) => Some(truth(compared_words(comparison, a, b))),
            _ => None,
        },
        Meaning::Conjunction => conjoined(a.value, b.value),
        Meaning::Disjunction => disjoined(a.value, b.value),
    }
}

// A constant of a type, where the types of its operands allow one.
fn constant_if(kind: Option<Kind>, value: Option<Word>) -> Option<Constant>
    ensures { result ≡ constants.constant_if kind value }
{
    match kind {
        Some(kind) => Some(Constant { kind, value }),
        None => None,
    }
}

fn binary_constant(sign: Binary, a: Option<Constant>, b: Option<Constant>) -> Option<Constant>
    ensures { result ≡ constants.binary_constant sign a b }
{
    match (a, b) {
        (Some(a), Some(b)) => constant_if(
            kind(binary_shape(sign, Some(a.kind), Some(b.kind))),
            binary_value(meaning_of(sign), a, b),
        ),
        _ => None,
    }
}

fn unary_value(sign: Unary, kind: Kind, a: Word) -> Option<Word>
    ensures { result ≡ constants.unary_value sign kind a }
{
    match sign {
        Unary::Minus => match negate(width_of(Some(kind)), number_in(a)) {
            Ok(number) => Some(Word::Int(number)),
            Err(_) => None,
        },
        Unary::Plus => Some(a),
        Unary::Not => Some(truth(!holds(a))),
        Unary::Complement => Some(Word::Int(complement(number_in(a)))),
        Unary::Indirection | Unary::Address => None,
    }
}

fn unary_kind(sign: Unary, operand: Kind) -> Option<Kind>
    ensures { result ≡ constants.unary_kind sign operand }
{
    match sign {
        Unary::Minus | Unary::Plus | Unary::Complement => {
            kind(Shape::Operand(OperandShape::Signed(Some(operand))))
        }
        Unary::Not => kind(Shape::Operand(OperandShape::Negated(Some(operand)))),
        Unary::Indirection | Unary::Address => None,
    }
}

fn unary_constant(sign: Unary, a: Option<Constant>) -> Option<Constant>
    ensures { result ≡ constants.unary_constant sign a }
{
    match a {
        Some(a) => {
            let value = match a.value {
                Some(word) => unary_value(sign, a.kind, word),
                None => None,
            };
            constant_if(unary_kind(sign, a.kind), value)
        }
        None => None,
    }
}

// A word as one of a base: as an int it wraps.
fn cast_word(base: Base, a: Word) -> Word
    ensures { result ≡ constants.cast_word base a }
{
    match base {
        Base::Int => Word::Int(wrap(Width::Int, number_in(a))),
        _ => a,
    }
}

fn cast_constant(to: TypeName, a: Option<Constant>) -> Option<Constant>
    ensures { result ≡ constants.cast_constant to a }
{
    match a {
        Some(a) => {
            if to.pointer {
                return None;
            }
            let value = match a.value {
                Some(word) => Some(cast_word(to.base, word)),
                None => None,
            };
            constant_if(
                kind(Shape::Operand(OperandShape::Converted(to.base, Some(a.kind)))),
                value,
            )
        }
        None => None,
    }
}

// The value that a constant chooses.
fn chosen(test: Option<Word>, a: Option<Word>, b: Option<Word>) -> Option<Word>
    ensures { result ≡ constants.chosen test a b }
{
    match test {
        Some(test) => if holds(test) { a } else { b },
        None => None,
    }
}

fn choice_constant(
    test: Option<Constant>,
    a: Option<Constant>,
    b: Option<Constant>,
) -> Option<Constant>
    ensures { result ≡ constants.choice_constant test a b }
{
    match (test, a, b) {
        (Some(test), Some(a), Some(b)) => constant_if(
            kind(Shape::Operator(OperatorShape::Chosen(
                Some(test.kind),
                Some(a.kind),
                Some(b.kind),
            ))),
            chosen(test.value, a.value, b.value),
        ),
        _ => None,
    }
}

fn known_constant(known: Option<Known>) -> Option<Constant>
    ensures { result ≡ constants.known_constant known }
{
    match known {
        Some(Known::Constant(kind, word)) => Some(Constant {
            kind,
            value: Some(word),
        }),
        _ => None,
    }
}

/// The size of an int or a long in bytes.
pub fn size_of(base: Base) -> u32
    ensures { result ≡ constants.size_of base }
{
    match base {
        Base::Int => 4,
        Base::Long => 8,
        _ => 0,
    }
}

fn size_constant(base: Base) -> Option<Constant>
    ensures { result ≡ constants.size_constant base }
{
    constant_if(
        kind(Shape::Operand(OperandShape::Sized(base))),
        Some(Word::Int(i64::from(size_of(base)))),
    )
}

/// The constant that an expression is, if it is one.
pub fn constant_of(e: &Expr) -> Option<Constant>
    ensures { result ≡ constants.constant_of (expr_of e.now) }
{
    match e {
        Expr::Name(_, name) => known_constant(known(name.as_slice())),
        Expr::Number(_, value, is_long) => Some(Constant {
            kind: number_kind(*is_long),
            value: Some(Word::Int(*value)),
        }),
        Expr::Unary(_, sign, value) => unary_constant(*sign, constant_of(value)),
        Expr::Cast(_, to, value) => cast_constant(*to, constant_of(value)),
        Expr::SizeOf(_, base) => size_constant(*base),
        Expr::Binary(_, sign, left, right) => {
            binary_constant(*sign, constant_of(left), constant_of(right))
        }
        Expr::Choice(_, test, a, b) => {
            choice_constant(constant_of(test), constant_of(a), constant_of(b))
        }
        Expr::Text(_, _)
        | Expr::Call(_, _, _)
        | Expr::Index(_, _, _)
        | Expr::Field(_, _, _)
        | Expr::Postfix(_, _, _)
        | Expr::Prefix(_, _, _)
        | Expr::Assign(_, _, _, _) => None,
    }
}

// A number from 1 to the greatest length of an array.
fn length_in(word: Word) -> Option<u32>
    ensures { result ≡ constants.length_in word }
{
    match word {
        Word::Int(number) => match u32::try_from(number) {
            Ok(number) if number >= 1 && number <= MAX_ARRAY_LENGTH => Some(number),
            _ => None,
        },
        _ => None,
    }
}

/// The length that an array is declared with, where it is a constant in the limits (C99, section
/// 6.7.5.2).
pub fn array_length(len: &Expr) -> Option<u32>
    ensures { result ≡ constants.array_length (expr_of len.now) }
{
    match constant_of(len) {
        Some(constant) if is_number(constant.kind) => match constant.value {
            Some(word) => length_in(word),
            None => None,
        },
        _ => None,
    }
}

fn stored_word(due: Kind, a: Word) -> Word
    ensures { result ≡ constants.stored_word due a }
{
    match due {
        Kind::Plain(Base::Int) => cast_word(Base::Int, a),
        _ => a,
    }
}

// The word that a variable of a type starts with, where the constant may stand there.
fn start_word(due: Kind, constant: Option<Constant>) -> Option<Word>
    ensures { result ≡ constants.start_word due constant }
{
    match constant {
        Some(a) => {
            if !agree(due, a.kind) {
                return None;
            }
            match a.value {
                Some(word) => Some(stored_word(due, word)),
                None => None,
            }
        }
        None => None,
    }
}

// The word of a variable without an initializer (C99, section 6.7.8).
fn zero_word(kind: Kind) -> Word
    ensures { result ≡ constants.zero_word kind }
{
    match kind {
        Kind::Plain(Base::Comm) => Word::Comm(0),
        Kind::Plain(Base::Request) => Word::Req(0),
        Kind::Pointer(_) => Word::Null,
        _ => Word::Int(0),
    }
}

// So many words: these, and zeros behind them, where there are not too many.
fn filled(words: Vec<Word>, len: u32, zero: Word) -> Result<Option<Vec<Word>>, Memory>
    ensures { IfOk result (λ r. Holds r (constants.filled len zero (Some words.items))) }
{
    let mut words = words;
    let len = len as usize;
    if words.len() > len {
        return Ok(None);
    }
    words.resize(len, zero)?;
    Ok(Some(words))
}

// The words that a list of values starts with, where each may stand there.
fn start_words(alloc: Global, due: Kind, values: &[Expr]) -> Result<Option<Vec<Word>>, Memory>
    ensures { IfOk result (λ r. Holds r (constants.start_words due (map expr_of values.now))) }
{
    let mut words = Vec::new(alloc);
    for value in values {
        match start_word(due, constant_of(value)) {
            Some(word) => words.push(word)?,
            None => return Ok(None),
        }
    }
    Ok(Some(words))
}

/// The words that a static variable starts with, where its initializer may stand there: by its element's
/// type, whether it is an array, and how many words it has.
pub fn initial_words(
    alloc: Global,
    element: Kind,
    is_array: bool,
    len: u32,
    initializer: &Initializer,
) -> Result<Option<Vec<Word>>, Memory>
    ensures { IfOk result (λ r. Holds r
        (constants.initial_words element is_array len (initializer_of initializer.now))) }
{
    match initializer {
        Initializer::Nothing => filled(Vec::new(alloc), len, zero_word(element)),
        Initializer::Value(value) => {
            if is_array {
                return Ok(None);
            }
            match start_word(element, constant_of(value)) {
                Some(word) => filled(vec![in alloc; word]?, len, zero_word(element)),
                None => Ok(None),
            }
        }
        Initializer::List(values) => {
            if !is_array {
                return Ok(None);
            }
            match start_words(alloc, element, values)? {
                Some(words) => filled(words, len, zero_word(element)),
                None => Ok(None),
            }
        }
    }
}
