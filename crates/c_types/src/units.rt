//! The pass over a whole source.
ghost use Rattle.std.specs.Prelude.{◌≡◌, IfOk, IfErr, OnOk, [], map, codes, unwrap_or};
ghost use Rattle.std.specs.FinMap as fin;
ghost use Rattle.c_tree.specs.ProgramOf as program;
ghost use Rattle.c_tree.specs.Programs as p;
ghost use Rattle.c_tree.specs.SyntaxOf.{item_of, tree_of};
ghost use Rattle.c_types.specs.Nodes.{first_of};
ghost use Rattle.c_types.specs.Outcomes.{fault};
ghost use Rattle.c_types.specs.Typing.{Typed, Refused};
ghost use Rattle.c_types.specs.declared.refusals.TypeRefusal.{TypeRefusal};
ghost use Rattle.c_types.specs.Units as units;

use crate::declarations::pass_globals;
use crate::directives::pass_scope;
use crate::functions::pass_function;
use crate::kinds::{Decl, Kind};
use crate::names::Names;
use crate::outcomes::{appended, blamed};
use crate::refusals::TypeRefusal;
use crate::scopes::{Scope, Scopes};
use crate::shapes::{ItemShape, Shape};
use crate::signatures::{has_body, has_main, numbered};
use c_tree::program::{Constructs, Function, Program};
use c_tree::syntax::{Item, Tree};
use c_tree::{Globals, Identifier};
use mpc_values::Memory;
use std::alloc::Global;

// How many file-scope variables there are.
fn variable_count(items: &[Item]) -> Result<u32, Memory>
    ensures { IfOk result (λ count. count ≡ units.variable_count (map item_of items.now)) }
{
    let mut count: u32 = 0;
    for item in items {
        if let Item::Declare(declaration) = item {
            let more = u32::try_from(declaration.declarators.len()).map_err(|_| Memory)?;
            count = count.checked_add(more).ok_or(Memory)?;
        }
    }
    Ok(count)
}

// One more definition, whose number counts where the name has none.
fn with_definition(found: &mut Scope, name: &Identifier, number: usize) -> Result<(), Memory>
    ensures { OnOk result (found.new ≡ units.with_definition name.now number found.old) }
{
    if found.get(name.as_slice()).is_some() {
        return Ok(());
    }
    found.insert(name.clone()?.into_vec(), Decl::Function(number))
}

// The names of the functions that are defined, each with the number of its first definition.
fn definitions(alloc: Global, items: &[Item]) -> Result<Scope, Memory>
    ensures { IfOk result (λ found. found ≡ units.definitions_from 0 fin.empty (map item_of items.now)) }
{
    let mut found = Scope::new(alloc);
    let mut number: usize = 0;
    for item in items {
        if let Item::Function(f) = item {
            if has_body(f) {
                with_definition(&mut found, &f.name, number)?;
                number = number.checked_add(1).ok_or(Memory)?;
            }
        }
    }
    Ok(found)
}

// Before the first item.
fn start(alloc: Global, items: &[Item]) -> Result<Names, Memory>
    ensures { IfOk result (λ names. names ≡ units.start (map item_of items.now)) }
{
    let mut scopes = Scopes::new(alloc);
    scopes.enter(alloc)?;
    Ok(Names {
        definitions: definitions(alloc, items)?,
        file_variables: variable_count(items)?,
        scopes,
        functions: Vec::new(alloc),
        has_definition: false,
        globals: Vec::new(alloc),
        statics: Vec::new(alloc),
        words: 0,
        constructs: Vec::new(alloc),
        slots: 0,
        taken: Vec::new(alloc),
        returns: Kind::Void,
    })
}

fn nothing(alloc: Global, found: Result<(), TypeRefusal>) -> Result<Vec<Function>, TypeRefusal>
    ensures refused { fault result ≡ fault found }
    ensures made { IfOk result (λ made. map program.function_of made.items ≡ []) }
{
    match found {
        Ok(()) => Ok(Vec::new(alloc)),
        Err(refusal) => Err(refusal),
    }
}

// An item: the function that it defines, where it defines one.
fn pass_item(
    alloc: Global,
    names: &mut Names,
    item: &Item,
) -> Result<Result<Vec<Function>, TypeRefusal>, Memory>
    ensures names { OnOk result (names.new ≡ units.after_item names.old (item_of item.now)) }
    ensures first { IfOk result (λ r. fault r ≡ first_of (units.item_outline names.old (item_of item.now))) }
    ensures made { IfOk result (λ r. IfOk r (λ made. map program.function_of made.items ≡ units.item_made names.old (item_of item.now))) }
{
    match item {
        Item::Scope(at, level, all) => Ok(nothing(
            alloc,
            pass_scope(names, *at, *level, all.as_slice()),
        )),
        Item::Declare(declaration) => Ok(nothing(
            alloc,
            pass_globals(alloc, declaration.base, names, &declaration.declarators)?,
        )),
        Item::Function(f) => pass_function(alloc, names, f),
    }
}

fn pass_all(
    alloc: Global,
    names: &mut Names,
    items: &[Item],
) -> Result<Result<Vec<Function>, TypeRefusal>, Memory>
    ensures names { OnOk result (names.new ≡ units.after_items names.old (map item_of items.now)) }
    ensures first { IfOk result (λ r. fault r ≡ first_of (units.items_outline names.old (map item_of items.now))) }
    ensures made { IfOk result (λ r. IfOk r (λ made. map program.function_of made.items ≡ units.functions_made names.old (map item_of items.now))) }
{
    let mut made = Ok(Vec::new(alloc));
    for item in items {
        let next = pass_item(alloc, names, item)?;
        made = appended(made, next)?;
    }
    Ok(made)
}

// The number of main among the definitions.
fn main_number(names: &Names) -> Result<u32, Memory>
    ensures { IfOk result (λ number. number ≡ unwrap_or (units.numbered (fin.get names.now.definitions (codes "main"))) 0) }
{
    match numbered(names.definitions.get("main".as_bytes())) {
        Some(number) => u32::try_from(number).map_err(|_| Memory),
        None => Ok(0),
    }
}

// The typed program of a tree, and the first refusal.
fn program_of(alloc: Global, tree: &Tree) -> Result<Result<Program, TypeRefusal>, Memory>
    ensures first { IfOk result (λ r. fault r ≡ first_of (units.tree_outline (tree_of tree.now))) }
    ensures made { IfOk result (λ r. IfOk r (λ made. program.program_of made ≡ units.program_made (tree_of tree.now))) }
{
    let mut names = start(alloc, &tree.items)?;
    let main = main_number(&names)?;
    let made = pass_all(alloc, &mut names, &tree.items)?;
    let shape = Shape::Item(ItemShape::Unit(has_main(&tree.items)));
    match blamed(shape, 1, made) {
        Ok(functions) => {
            let (variables, constructs) = names.into_parts()?;
            Ok(Ok(Program {
                variables: Globals::of(variables),
                functions,
                main,
                constructs: Constructs::of(constructs),
                lines: tree.last_line,
            }))
        }
        Err(refusal) => Ok(Err(refusal)),
    }
}

/// The typed program of a tree, or the first rule that it breaks: nodes in the order of their first
/// tokens, an outer one before those in it, and at one node the least rule (C99, section 6).
///
/// `Memory` is also answered where a number of the program would not fit a `u32`.
pub fn check(alloc: Global, tree: &Tree) -> Result<Result<Program, TypeRefusal>, Memory>
    ensures program { IfOk result (λ r. IfOk r (λ made. Typed (tree_of tree.now) (program.program_of made))) }
    ensures refused { IfOk result (λ r. IfErr r (λ refusal. Refused (tree_of tree.now) refusal)) }
    ensures one_program { (a b : p.Program) → Typed (tree_of tree.now) a → Typed (tree_of tree.now) b → a ≡ b }
    ensures one_refusal { (a b : TypeRefusal) → Refused (tree_of tree.now) a → Refused (tree_of tree.now) b → a ≡ b }
    ensures not_both { (a : p.Program) (b : TypeRefusal) → Typed (tree_of tree.now) a → Refused (tree_of tree.now) b → ⊥ }
{
    program_of(alloc, tree)
}
