//! What a symbol means by its class: signs before and between operands, marks, keys, names and bases.
ghost use Rattle.std.specs.Prelude.{◌≡◌};
ghost use Rattle.c_parse.specs.Signs as spec;

use crate::symbols::{Class, Key, Mark};
use c_tree::syntax::{Base, Binary, Change, Unary};

/// A sign before an operand.
#[derive(Clone, Copy, Debug, PartialEq, Eq)]
pub enum Prefix {
    Sign(Unary),
    Step(Change),
}

// The level of a sign between operands; 0 is the tightest.
fn level_of(sign: Binary) -> u32
    ensures { result ≡ spec.level_of sign }
{
    match sign {
        Binary::Multiply | Binary::Divide | Binary::Remainder => 0,
        Binary::Add | Binary::Subtract => 1,
        Binary::ShiftLeft | Binary::ShiftRight => 2,
        Binary::Less | Binary::Greater | Binary::LessEqual | Binary::GreaterEqual => 3,
        Binary::Equal | Binary::NotEqual => 4,
        Binary::BitAnd => 5,
        Binary::BitXor => 6,
        Binary::BitOr => 7,
        Binary::And => 8,
        Binary::Or => 9,
    }
}

/// The sign between operands, if it is of this level.
pub fn binary_of(level: u32, class: Class) -> Option<Binary>
    ensures { result ≡ spec.binary_of level class }
{
    match class {
        Class::Binary(sign) => if level_of(sign) == level {
            Some(sign)
        } else {
            None
        },
        _ => None,
    }
}

// The sign before an operand that a sign between operands also is.
fn turned(sign: Binary) -> Option<Prefix>
    ensures { result ≡ spec.turned sign }
{
    match sign {
        Binary::Subtract => Some(Prefix::Sign(Unary::Minus)),
        Binary::Add => Some(Prefix::Sign(Unary::Plus)),
        Binary::Multiply => Some(Prefix::Sign(Unary::Indirection)),
        Binary::BitAnd => Some(Prefix::Sign(Unary::Address)),
        _ => None,
    }
}

/// The sign before an operand.
pub fn prefix_of(class: Class) -> Option<Prefix>
    ensures { result ≡ spec.prefix_of class }
{
    match class {
        Class::Unary(sign) => Some(Prefix::Sign(sign)),
        Class::Change(change) => Some(Prefix::Step(change)),
        Class::Binary(sign) => turned(sign),
        _ => None,
    }
}

/// The sign of an assignment: None of `=`, and of a computing one that which it computes by.
pub fn assigns(class: Class) -> Option<Option<Binary>>
    ensures { result ≡ spec.assigns class }
{
    match class {
        Class::Assign(sign) => Some(sign),
        _ => None,
    }
}

/// The base that a key begins.
pub fn base_of(class: Class) -> Option<Base>
    ensures { result ≡ spec.base_of class }
{
    match class {
        Class::Key(Key::Int) => Some(Base::Int),
        Class::Key(Key::Long) => Some(Base::Long),
        Class::Key(Key::Comm) => Some(Base::Comm),
        Class::Key(Key::Request) => Some(Base::Request),
        Class::Key(Key::Status) => Some(Base::Status),
        _ => None,
    }
}

/// Whether it is int or long.
pub fn is_number(base: Base) -> bool
    ensures { result ≡ spec.is_number base }
{
    matches!(base, Base::Int | Base::Long)
}

/// Whether it is `*`.
pub fn is_star(class: Class) -> bool
    ensures { result ≡ spec.is_star class }
{
    matches!(class, Class::Binary(Binary::Multiply))
}

#[tactic(auto, unfolding(crate::specs::Signs::same_mark))]
fn same_mark(mark: Mark, other: Mark) -> bool
    ensures { result ≡ spec.same_mark mark other }
{
    mark == other
}

#[tactic(auto, unfolding(crate::specs::Signs::same_key))]
fn same_key(key: Key, other: Key) -> bool
    ensures { result ≡ spec.same_key key other }
{
    key == other
}

pub fn is_mark(mark: Mark, class: Class) -> bool
    ensures { result ≡ spec.is_mark mark class }
{
    match class {
        Class::Mark(found) => same_mark(found, mark),
        _ => false,
    }
}

pub fn is_key(key: Key, class: Class) -> bool
    ensures { result ≡ spec.is_key key class }
{
    match class {
        Class::Key(found) => same_key(found, key),
        _ => false,
    }
}

pub fn is_name(class: Class) -> bool
    ensures { result ≡ spec.is_name class }
{
    matches!(class, Class::Name)
}

/// Whether it is `=`.
pub fn is_equals(class: Class) -> bool
    ensures { result ≡ spec.is_equals class }
{
    matches!(class, Class::Assign(None))
}
