//! What a declarator declares.
ghost use Rattle.std.specs.Prelude.{◌≡◌, ◌<◌, ◌^◌, IfSome};
ghost use Rattle.c_tree.specs.SyntaxOf.{declarator_of};
ghost use Rattle.c_types.specs.Declarations as declarations;

use crate::constants::array_length;
use crate::kinds::{Home, Kind, Variable};
use c_tree::syntax::{Base, Declarator};

/// Whether the variable is an array.
pub fn is_array(d: &Declarator) -> bool
    ensures { result ≡ declarations.is_array (declarator_of d.now) }
{
    match &d.len {
        Some(_) => true,
        None => false,
    }
}

/// The type of one element; a variable that is no array has one.
pub fn element_kind(base: Base, d: &Declarator) -> Kind
    ensures { result ≡ declarations.element_kind base (declarator_of d.now) }
{
    if d.pointer && !is_array(d) {
        Kind::Pointer(base)
    } else {
        Kind::Plain(base)
    }
}

/// The type of the variable's value: an array's is a pointer.
pub fn declared_kind(base: Base, d: &Declarator) -> Kind
    ensures { result ≡ declarations.declared_kind base (declarator_of d.now) }
{
    if is_array(d) {
        Kind::Pointer(base)
    } else {
        element_kind(base, d)
    }
}

pub fn variable_of(base: Base, d: &Declarator, home: Home) -> Variable
    ensures { result ≡ declarations.variable_of base (declarator_of d.now) home }
{
    Variable {
        kind: declared_kind(base, d),
        is_array: is_array(d),
        home,
    }
}

// How many elements the variable has, where its length is a constant in the limits.
fn elements(d: &Declarator) -> Option<u32>
    ensures { result ≡ declarations.elements (declarator_of d.now).len }
{
    match &d.len {
        Some(len) => array_length(len),
        None => Some(1),
    }
}

/// How many words the variable has, where its length is a constant in the limits.
pub fn object_words(base: Base, d: &Declarator) -> Option<u64>
    ensures value { result ≡ declarations.object_words base (declarator_of d.now) }
    ensures limit { IfSome result (λ words. words < 2 ^ 34) }
{
    match elements(d) {
        Some(elements) => match element_kind(base, d) {
            Kind::Plain(Base::Status) => Some(u64::from(elements) * 3),
            _ => Some(u64::from(elements)),
        },
        None => None,
    }
}
