//! The pass over functions: their names, parameters and bodies.
ghost use Rattle.std.specs.Prelude.{◌≡◌, IfOk, OnOk, Some, map, take, length};
ghost use Rattle.c_tree.specs.ProgramOf as program;
ghost use Rattle.c_tree.specs.Programs as p;
ghost use Rattle.c_tree.specs.SyntaxOf.{function_of, body_of};
ghost use Rattle.c_types.specs.Env.{find};
ghost use Rattle.c_types.specs.Nodes as nodes;
ghost use Rattle.c_types.specs.Nodes.{first_of};
ghost use Rattle.c_types.specs.Outcomes.{fault};
ghost use Rattle.c_types.specs.Statements as statements;
ghost use Rattle.c_types.specs.Units as units;

use crate::addresses::taken_slots;
use crate::kinds::{Decl, Home, Kind, Variable};
use crate::known_names::known;
use crate::names::Names;
use crate::outcomes::{blamed, both, then};
use crate::refusals::TypeRefusal;
use crate::shapes::{ItemShape, Parameter, Shape};
use crate::signatures::{
    answer_kind, conflicts, has_body, is_called_main, is_main_with_arguments, is_written_array,
    signature, written_kind,
};
use crate::statements::pass_items;
use c_tree::program;
use c_tree::program::{Ending, Params};
use c_tree::syntax::{Body, Function, Param};
use mpc_values::Memory;
use std::alloc::Global;

// The function among those that are declared.
fn put_signature(alloc: Global, names: &mut Names, f: &Function) -> Result<(), Memory>
    ensures { OnOk result (names.new ≡ units.with_signature names.old (function_of f.now) (find f.now.name names.old.scopes)) }
{
    match names.find(f.name.as_slice()) {
        None => {
            let sig = signature(alloc, names, f)?;
            let place = names.functions.len();
            names.functions.push(sig)?;
            names.put(f.name.clone()?.into_vec(), Decl::Function(place))
        }
        Some(Decl::Function(place)) => {
            let is_defined = has_body(f);
            if let Some(sig) = names.functions.get_mut(place) {
                sig.is_defined = sig.is_defined || is_defined;
            }
            Ok(())
        }
        Some(_) => Ok(()),
    }
}

fn with_function(alloc: Global, names: &mut Names, f: &Function) -> Result<(), Memory>
    ensures { OnOk result (names.new ≡ units.with_function names.old (function_of f.now)) }
{
    put_signature(alloc, names, f)?;
    names.has_definition = names.has_definition || has_body(f);
    Ok(())
}

// What a parameter is in scope: of a main with two the first is argc.
fn param_decl(is_main: bool, slot: u32, kind: Kind) -> Decl
    ensures { result ≡ units.param_decl is_main slot kind }
{
    match kind {
        Kind::Arguments => Decl::Arguments,
        _ => {
            if is_main {
                return Decl::Count;
            }
            Decl::Variable(Variable {
                kind,
                is_array: false,
                home: Home::Local(slot),
            })
        }
    }
}

// A parameter takes the next slot.
fn pass_param(
    names: &mut Names,
    is_main: bool,
    param: &Param,
) -> Result<Result<(), TypeRefusal>, Memory>
    ensures names { OnOk result (names.new ≡ units.with_param is_main names.old param.now) }
    ensures first { IfOk result (λ r. fault r ≡ first_of (nodes.At param.now.at.line (units.param_shape is_main names.old param.now) nodes.Empty)) }
{
    let kind = written_kind(param.param_type);
    let shape = Shape::Item(ItemShape::Parameter(Parameter {
        is_twice: names.is_in_top(param.name.as_slice()),
        is_known: known(param.name.as_slice()).is_some(),
        kind,
        is_array: is_written_array(param.param_type),
        is_main,
    }));
    let slot = names.slots;
    names.put(
        param.name.clone()?.into_vec(),
        param_decl(is_main, slot, kind),
    )?;
    names.slots = slot.checked_add(1).ok_or(Memory)?;
    Ok(blamed(shape, param.at.line, Ok(())))
}

fn pass_params(
    names: &mut Names,
    is_main: bool,
    all: &[Param],
) -> Result<Result<(), TypeRefusal>, Memory>
    ensures names { OnOk result (names.new ≡ units.with_params is_main names.old all.now) }
    ensures first { IfOk result (λ r. fault r ≡ first_of (units.params_outline is_main names.old all.now)) }
{
    let mut made = Ok(());
    for param in all {
        let next = pass_param(names, is_main, param)?;
        made = then(made, next);
    }
    Ok(made)
}

// By slot, whether a local's address is taken in the function.
fn body_taken(alloc: Global, f: &Function) -> Result<Vec<bool>, Memory>
    ensures { IfOk result (λ taken. taken.items ≡ units.body_taken (function_of f.now) (function_of f.now).body) }
{
    match &f.body {
        Some(body) => taken_slots(alloc, &f.params, &body.items),
        None => Ok(Vec::new(alloc)),
    }
}

// Inside of a function, before its parameters.
fn enter_function(alloc: Global, names: &mut Names, f: &Function) -> Result<(), Memory>
    ensures { OnOk result (names.new ≡ units.in_function names.old (function_of f.now)) }
{
    names.enter(alloc)?;
    names.slots = 0;
    names.taken = body_taken(alloc, f)?;
    names.returns = answer_kind(f.returns);
    Ok(())
}

fn ending_of(f: &Function) -> Ending
    ensures { result ≡ units.ending_of (function_of f.now) (units.answer_kind f.now.returns) }
{
    match answer_kind(f.returns) {
        Kind::Void => Ending::Void,
        _ => {
            if is_called_main(f) {
                Ending::Zero
            } else {
                Ending::Missing
            }
        }
    }
}

// Which parameters are in memory.
fn param_flags(alloc: Global, names: &Names, f: &Function) -> Result<Params, Memory>
    ensures { IfOk result (λ flags. flags ≡ take (length (function_of f.now).params) names.now.taken) }
{
    let mut flags = Vec::new(alloc);
    let count = f.params.len().min(names.taken.len());
    flags.extend_from_slice(&names.taken[..count])?;
    Ok(Params::of(flags))
}

// A definition, made of its items.
fn function_made(
    params: Params,
    slots: u32,
    items: Vec<program::Stmt>,
    ending: Ending,
    end_line: u32,
) -> program::Function
    ensures { program.function_of result ≡ record { params = params; slots = slots; body = statements.onto (map program.stmt_of items.items) p.Done; ending = ending; end_line = end_line } }
{
    program::Function {
        params,
        slots,
        body: items,
        ending,
        end_line,
    }
}

// The body of a function, behind its parameters.
fn pass_body(
    alloc: Global,
    names: &mut Names,
    f: &Function,
    body: &Body,
) -> Result<Result<program::Function, TypeRefusal>, Memory>
    ensures names { OnOk result (names.new ≡ statements.after_all names.old (body_of body.now).items) }
    ensures first { IfOk result (λ r. fault r ≡ first_of (units.body_outline names.old (Some (body_of body.now)))) }
    ensures made { IfOk result (λ r. IfOk r (λ made. program.function_of made ≡ units.function_made names.old (function_of f.now) (body_of body.now))) }
{
    let params = param_flags(alloc, names, f)?;
    match pass_items(alloc, names, false, &body.items)? {
        Ok(items) => Ok(Ok(function_made(params, names.slots, items, ending_of(f), body.end_line))),
        Err(refusal) => Ok(Err(refusal)),
    }
}

// A prototype leaves nothing, and a definition a function.
fn pass_maybe_body(
    alloc: Global,
    names: &mut Names,
    f: &Function,
) -> Result<Result<Vec<program::Function>, TypeRefusal>, Memory>
    ensures names { OnOk result (names.new ≡ units.after_body names.old (function_of f.now).body) }
    ensures first { IfOk result (λ r. fault r ≡ first_of (units.body_outline names.old (function_of f.now).body)) }
    ensures made { IfOk result (λ r. IfOk r (λ made. map program.function_of made.items ≡ units.body_made names.old (function_of f.now) (function_of f.now).body)) }
{
    match &f.body {
        None => Ok(Ok(Vec::new(alloc))),
        Some(body) => match pass_body(alloc, names, f, body)? {
            Ok(function) => Ok(Ok(vec![in alloc; function]?)),
            Err(refusal) => Ok(Err(refusal)),
        },
    }
}

// What the rules read of a function's name and answer.
fn function_shape(names: &Names, f: &Function) -> Shape
    ensures { result ≡ units.function_shape names.now (function_of f.now) }
{
    let declared = names.find(f.name.as_slice());
    Shape::Item(ItemShape::Function {
        is_twice: conflicts(names, declared, f),
        is_known: known(f.name.as_slice()).is_some(),
        returns: answer_kind(f.returns),
    })
}

/// A function: the definition, where it is one.
pub fn pass_function(
    alloc: Global,
    names: &mut Names,
    f: &Function,
) -> Result<Result<Vec<program::Function>, TypeRefusal>, Memory>
    ensures names { OnOk result (names.new ≡ units.after_function names.old (function_of f.now)) }
    ensures first { IfOk result (λ r. fault r ≡ first_of (units.function_outline names.old (function_of f.now))) }
    ensures made { IfOk result (λ r. IfOk r (λ made. map program.function_of made.items ≡ units.body_made (units.behind_params names.old (function_of f.now)) (function_of f.now) (function_of f.now).body)) }
{
    let shape = function_shape(names, f);
    with_function(alloc, names, f)?;
    enter_function(alloc, names, f)?;
    let params = pass_params(names, is_main_with_arguments(f), &f.params)?;
    let body = pass_maybe_body(alloc, names, f)?;
    names.leave();
    match blamed(shape, f.at.line, both(params, body)) {
        Ok(made) => Ok(Ok(made.1)),
        Err(refusal) => Ok(Err(refusal)),
    }
}
