//! The types of functions, and which function is main.
ghost use Rattle.std.specs.Prelude.{◌≡◌, IfOk, map, is_some, slice_get};
ghost use Rattle.c_tree.specs.SyntaxOf.{function_of, item_of};
ghost use Rattle.c_types.specs.Units as units;

use crate::agreement::same_kind;
use crate::kinds::{Decl, Kind, Kinds, Sig};
use crate::names::Names;
use c_tree::syntax::{Base, Function, Item, Param, ParamType, Returns, TypeName};
use mpc_values::Memory;
use std::alloc::Global;

fn type_kind(name: TypeName) -> Kind
    ensures { result ≡ units.type_kind name }
{
    if name.pointer {
        Kind::Pointer(name.base)
    } else {
        Kind::Plain(name.base)
    }
}

/// What a function answers.
pub fn answer_kind(returns: Returns) -> Kind
    ensures { result ≡ units.answer_kind returns }
{
    match returns {
        Returns::Void => Kind::Void,
        Returns::Value(name) => type_kind(name),
    }
}

/// The type of a parameter; one that is written as an array is a pointer (C99, section 6.7.5.3).
pub fn written_kind(written: ParamType) -> Kind
    ensures { result ≡ units.written_kind written }
{
    match written {
        ParamType::Plain(name) => type_kind(name),
        ParamType::Array(base) => Kind::Pointer(base),
        ParamType::Arguments => Kind::Arguments,
    }
}

pub fn is_written_array(written: ParamType) -> bool
    ensures { result ≡ units.is_written_array written }
{
    match written {
        ParamType::Array(_) => true,
        _ => false,
    }
}

fn param_kinds(alloc: Global, params: &[Param]) -> Result<Kinds, Memory>
    ensures { IfOk result (λ kinds. kinds ≡ units.param_kinds params.now) }
{
    let mut kinds = Vec::new(alloc);
    for param in params {
        kinds.push(written_kind(param.param_type))?;
    }
    Ok(Kinds::of(kinds))
}

fn is_plain_int(written: ParamType) -> bool
    ensures { result ≡ units.is_plain_int written }
{
    match written {
        ParamType::Plain(name) => same_kind(type_kind(name), Kind::Plain(Base::Int)),
        _ => false,
    }
}

fn is_written_arguments(written: ParamType) -> bool
    ensures { result ≡ units.is_written_arguments written }
{
    match written {
        ParamType::Arguments => true,
        _ => false,
    }
}

// The parameters are an int and a `char` parameter.
fn are_arguments(params: &[Param]) -> bool
    ensures { result ≡ units.are_arguments params.now }
{
    match params {
        [first, second] => {
            is_plain_int(first.param_type) && is_written_arguments(second.param_type)
        }
        _ => false,
    }
}

fn are_none(params: &[Param]) -> bool
    ensures { result ≡ units.are_none params.now }
{
    match params {
        [] => true,
        _ => false,
    }
}

/// Whether the function is called main and answers an int.
pub fn is_called_main(f: &Function) -> bool
    ensures { result ≡ units.is_called_main (function_of f.now) }
{
    f.name.as_slice() == "main".as_bytes()
        && same_kind(answer_kind(f.returns), Kind::Plain(Base::Int))
}

/// Whether the function is a main with argc and argv.
pub fn is_main_with_arguments(f: &Function) -> bool
    ensures { result ≡ units.is_main_with_arguments (function_of f.now) }
{
    is_called_main(f) && are_arguments(&f.params)
}

// A main as it has to be (C99, section 5.1.2.2.1).
fn is_main(f: &Function) -> bool
    ensures { result ≡ units.is_main (function_of f.now) }
{
    is_called_main(f) && (are_none(&f.params) || are_arguments(&f.params))
}

/// Whether the function is defined, and not only declared.
pub fn has_body(f: &Function) -> bool
    ensures { result ≡ is_some (function_of f.now).body }
{
    match &f.body {
        Some(_) => true,
        None => false,
    }
}

/// Whether a proper main is defined.
pub fn has_main(items: &[Item]) -> bool
    ensures { result ≡ units.has_main (map item_of items.now) }
{
    for item in items {
        if let Item::Function(f) = item {
            if has_body(f) && is_main(f) {
                return true;
            }
        }
    }
    false
}

// The parameters have these types.
fn have_kinds(kinds: &[Kind], params: &[Param]) -> bool
    ensures { result ≡ units.same_kinds kinds.now (units.param_kinds params.now) }
{
    if kinds.len() != params.len() {
        return false;
    }
    for i in 0..kinds.len() {
        if !same_kind(kinds[i], written_kind(params[i].param_type)) {
            return false;
        }
    }
    true
}

// The function at the place is declared with the same types, and this is not its second definition.
fn agrees_with(names: &Names, place: usize, f: &Function) -> bool
    ensures { result ≡ units.agrees_with (slice_get names.now.functions place) (function_of f.now) }
{
    match names.functions.get(place) {
        Some(sig) => {
            same_kind(sig.returns, answer_kind(f.returns))
                && have_kinds(sig.params.as_slice(), &f.params)
                && !(sig.is_defined && has_body(f))
        }
        None => false,
    }
}

/// Whether the name of the function is declared otherwise, where it is declared so.
pub fn conflicts(names: &Names, declared: Option<Decl>, f: &Function) -> bool
    ensures { result ≡ units.conflicts names.now declared (function_of f.now) }
{
    match declared {
        None => false,
        Some(Decl::Function(place)) => !agrees_with(names, place, f),
        Some(_) => true,
    }
}

/// The number of a definition.
pub fn numbered(declared: Option<Decl>) -> Option<usize>
    ensures { result ≡ units.numbered declared }
{
    match declared {
        Some(Decl::Function(number)) => Some(number),
        _ => None,
    }
}

/// The types of a function that is declared for the first time.
pub fn signature(alloc: Global, names: &Names, f: &Function) -> Result<Sig, Memory>
    ensures { IfOk result (λ sig. sig ≡ units.signature names.now (function_of f.now)) }
{
    let number = match numbered(names.definitions.get(f.name.as_slice())) {
        Some(number) => Some(u32::try_from(number).map_err(|_| Memory)?),
        None => None,
    };
    Ok(Sig {
        returns: answer_kind(f.returns),
        params: param_kinds(alloc, &f.params)?,
        number,
        is_defined: has_body(f),
    })
}
