//! Declarations of variables: what they declare, the first refusal, and the statements that they leave.
ghost use Rattle.std.specs.Prelude.{◌≡◌, ◌≤◌, ◌<◌, ◌+◌, ◌^◌, IfOk, OnOk, IfSome, Option, List, [], false, map, unwrap_or};
ghost use Rattle.mpc_values.specs.declared.values.Word.{Word};
ghost use Rattle.c_tree.specs.ProgramOf as program;
ghost use Rattle.c_tree.specs.SyntaxOf.{declarator_of, declaration_of, initializer_of};
ghost use Rattle.c_types.specs.Declarations as declarations;
ghost use Rattle.c_types.specs.declared.kinds.Decl.TheVariants as decl;
ghost use Rattle.c_types.specs.Env.{put};
ghost use Rattle.c_types.specs.Keys.{Holds};
ghost use Rattle.c_types.specs.Nodes.{first_of};
ghost use Rattle.c_types.specs.Outcomes.{fault};

use crate::calls::wanted_by;
use crate::constants::initial_words;
use crate::expressions::{Looked, look};
use crate::kinds::{Decl, Home, Kind, Variable};
use crate::known_names::known;
use crate::making::{assigned_to, converted, is_aggregate, is_taken, variable_value};
use crate::names::Names;
use crate::outcomes::{appended, blamed, then};
use crate::refusals::TypeRefusal;
use crate::shapes::{Declared, Initial, ItemShape, Shape};
use crate::variables::{declared_kind, element_kind, is_array, object_words, variable_of};
use c_tree::program::{Expr, Stmt};
use c_tree::syntax::{Base, Declaration, Declarator, Initializer};
use mpc_values::limits::{MAX_STATIC_VARIABLES, MAX_STATIC_WORDS};
use mpc_values::{Memory, StaticVar, Word, Words};
use std::alloc::Global;

// Whether one more static variable of so many words keeps the limits.
fn fits_static(names: &Names, words: u64) -> bool
    requires { words < 2 ^ 34 }
    ensures { result ≡ declarations.fits_static names.now words }
{
    let others = names.globals.len().saturating_add(names.statics.len());
    others < MAX_STATIC_VARIABLES && u64::from(names.words) + words <= MAX_STATIC_WORDS
}

// How many words a static variable has, where these and the variable keep the limits.
fn static_words(names: &Names, base: Base, d: &Declarator) -> Option<u32>
    ensures value { result ≡ declarations.static_words names.now base (declarator_of d.now) }
    ensures limit { IfSome result (λ words. names.now.words + words ≤ MAX_STATIC_WORDS) }
{
    match object_words(base, d) {
        Some(words) if fits_static(names, words) => Some(words as u32),
        _ => None,
    }
}

// What the rules read of a declared variable.
fn declared_shape(
    is_twice: bool,
    is_static: bool,
    base: Base,
    d: &Declarator,
    fits: bool,
    initial: Initial,
) -> Shape
    ensures { result ≡ declarations.declared_shape is_twice is_static base (declarator_of d.now) fits initial }
{
    Shape::Item(ItemShape::Variable(Declared {
        is_twice,
        is_known: known(d.name.as_slice()).is_some(),
        is_static,
        is_array: is_array(d),
        base,
        kind: declared_kind(base, d),
        fits,
        initial,
    }))
}

// A static variable, as a program has it: of no words where the limits are not kept.
fn static_of(alloc: Global, words: Option<u32>, first: Option<Vec<Word>>) -> StaticVar
    ensures { (list : Option (List Word)) → Holds first list → result ≡ declarations.static_of words list }
{
    match (words, first) {
        (Some(len), Some(first)) => StaticVar {
            len,
            level: None,
            first: Words::of(first),
        },
        (words, _) => StaticVar {
            len: words.unwrap_or(0),
            level: None,
            first: Words::of(Vec::new(alloc)),
        },
    }
}

// How many static words there are with these.
fn total_words(names: &Names, words: Option<u32>) -> u32
    requires { IfSome words (λ n. names.now.words + n ≤ MAX_STATIC_WORDS) }
    ensures { result ≡ names.now.words + unwrap_or words 0 }
{
    match words {
        Some(words) => names.words + words,
        None => names.words,
    }
}

// A static variable as it is read: what the rules read of it, how many static words there are with it,
// and the variable itself.
#[derive(Drop)]
struct ReadStatic {
    shape: Shape,
    total: u32,
    variable: StaticVar,
}

fn read_static(
    alloc: Global,
    names: &Names,
    base: Base,
    d: &Declarator,
) -> Result<ReadStatic, Memory>
    ensures shape { IfOk result (λ r. r.shape ≡ declarations.static_shape names.now base (declarator_of d.now)) }
    ensures total { IfOk result (λ r. r.total
        ≡ names.now.words + unwrap_or (declarations.static_words names.now base (declarator_of d.now)) 0) }
    ensures variable { IfOk result (λ r. r.variable ≡ declarations.static_variable names.now base (declarator_of d.now)) }
{
    let is_twice = names.is_in_top(d.name.as_slice());
    let words = static_words(names, base, d);
    let len = words.unwrap_or(0);
    let first = initial_words(
        alloc,
        element_kind(base, d),
        is_array(d),
        len,
        &d.initializer,
    )?;
    let initial = Initial::Constant(first.is_some());
    Ok(ReadStatic {
        shape: declared_shape(is_twice, true, base, d, words.is_some(), initial),
        total: total_words(names, words),
        variable: static_of(alloc, words, first),
    })
}

// The names with one more variable.
fn put_variable(names: &mut Names, base: Base, d: &Declarator, home: Home) -> Result<(), Memory>
    ensures { OnOk result (names.new ≡ record names.old {
      scopes = put d.now.name (decl.Variable (declarations.variable_of base (declarator_of d.now) home)) names.old.scopes;
    }) }
{
    names.put(
        d.name.clone()?.into_vec(),
        Decl::Variable(variable_of(base, d, home)),
    )
}

// The next file-scope variable.
fn pass_global(
    alloc: Global,
    base: Base,
    names: &mut Names,
    d: &Declarator,
) -> Result<Result<(), TypeRefusal>, Memory>
    ensures names { OnOk result (names.new ≡ declarations.with_global base names.old (declarator_of d.now)) }
    ensures first { IfOk result (λ r. fault r ≡ first_of (declarations.static_outline names.old base (declarator_of d.now))) }
{
    let read = read_static(alloc, names, base, d)?;
    let number = u32::try_from(names.globals.len()).map_err(|_| Memory)?;
    put_variable(names, base, d, Home::Static(number))?;
    names.globals.push(read.variable)?;
    names.words = read.total;
    Ok(blamed(read.shape, d.at.line, Ok(())))
}

// The next static local.
fn pass_static(
    alloc: Global,
    base: Base,
    names: &mut Names,
    d: &Declarator,
) -> Result<Result<Vec<Stmt>, TypeRefusal>, Memory>
    ensures names { OnOk result (names.new ≡ declarations.with_static base names.old (declarator_of d.now)) }
    ensures first { IfOk result (λ r. fault r ≡ first_of (declarations.static_outline names.old base (declarator_of d.now))) }
    ensures made { IfOk result (λ r. IfOk r (λ items. items.items ≡ [])) }
{
    let read = read_static(alloc, names, base, d)?;
    let others = u32::try_from(names.statics.len()).map_err(|_| Memory)?;
    let number = names.file_variables.checked_add(others).ok_or(Memory)?;
    put_variable(names, base, d, Home::Static(number))?;
    names.statics.push(read.variable)?;
    names.words = read.total;
    Ok(blamed(read.shape, d.at.line, Ok(Vec::new(alloc))))
}

// An initializer of a local: what the rules read of it, and its value as one of the variable's type.
#[derive(Drop)]
struct ReadInitial {
    initial: Initial,
    made: Result<Option<Expr>, TypeRefusal>,
}

fn read_initial(
    alloc: Global,
    names: &Names,
    kind: Kind,
    initializer: &Initializer,
) -> Result<ReadInitial, Memory>
    ensures initial { IfOk result (λ r. r.initial ≡ declarations.initial_of names.now kind (initializer_of initializer.now)) }
    ensures first { IfOk result (λ r. fault r.made ≡ first_of (declarations.initial_outline names.now kind (initializer_of initializer.now))) }
    ensures made { IfOk result (λ r. IfOk r.made (λ value. program.maybe_of value ≡ declarations.initial_value names.now kind (initializer_of initializer.now))) }
{
    match initializer {
        Initializer::Nothing => Ok(ReadInitial {
            initial: Initial::Nothing,
            made: Ok(None),
        }),
        Initializer::List(_) => Ok(ReadInitial {
            initial: Initial::List,
            made: Ok(None),
        }),
        Initializer::Value(value) => {
            let Looked { kind: given, made } = look(alloc, names, wanted_by(kind), value)?;
            let made = match made {
                Ok(value) => Ok(Some(converted(alloc, Some(kind), given, value)?)),
                Err(refusal) => Err(refusal),
            };
            Ok(ReadInitial {
                initial: Initial::Value(given),
                made,
            })
        }
    }
}

// The task keeps the local, or it is made in memory.
fn local_made(names: &Names, line: u32, variable: Variable, slot: u32, words: u32) -> Stmt
    ensures { program.stmt_of result ≡ declarations.local_made names.now line variable slot words }
{
    if is_aggregate(variable) || is_taken(names, slot) {
        Stmt::New(line, slot, words)
    } else {
        Stmt::Unset(slot)
    }
}

// A local with its initializer.
fn local_stored(
    alloc: Global,
    names: &Names,
    line: u32,
    variable: Variable,
    slot: u32,
    words: u32,
    value: Option<Expr>,
) -> Result<Vec<Stmt>, Memory>
    ensures { IfOk result (λ items. map program.stmt_of items.items ≡ declarations.local_stored names.now line variable slot words (program.maybe_of value)) }
{
    let mut items = Vec::new(alloc);
    items.push(local_made(names, line, variable, slot, words))?;
    if let Some(value) = value {
        let left = variable_value(alloc, names, variable)?;
        items.push(Stmt::Eval(line, assigned_to(left, Box::new(alloc, value)?)))?;
    }
    Ok(items)
}

// The next slot.
fn pass_local(
    alloc: Global,
    line: u32,
    base: Base,
    names: &mut Names,
    d: &Declarator,
) -> Result<Result<Vec<Stmt>, TypeRefusal>, Memory>
    ensures names { OnOk result (names.new ≡ declarations.with_local base names.old (declarator_of d.now)) }
    ensures first { IfOk result (λ r. fault r ≡ first_of (declarations.local_outline names.old base (declarator_of d.now))) }
    ensures made { IfOk result (λ r. IfOk r (λ items. map program.stmt_of items.items ≡ declarations.declarator_made line false base names.old (declarator_of d.now))) }
{
    let is_twice = names.is_in_top(d.name.as_slice());
    let words = object_words(base, d);
    let len = u32::try_from(words.unwrap_or(0)).map_err(|_| Memory)?;
    let slot = names.slots;
    let variable = variable_of(base, d, Home::Local(slot));
    put_variable(names, base, d, Home::Local(slot))?;
    names.slots = slot.checked_add(1).ok_or(Memory)?;
    let read = read_initial(alloc, names, variable.kind, &d.initializer)?;
    let shape = declared_shape(is_twice, false, base, d, words.is_some(), read.initial);
    match blamed(shape, d.at.line, read.made) {
        Ok(value) => Ok(Ok(local_stored(alloc, names, line, variable, slot, len, value)?)),
        Err(refusal) => Ok(Err(refusal)),
    }
}

/// The declarators of a file-scope declaration.
pub fn pass_globals(
    alloc: Global,
    base: Base,
    names: &mut Names,
    all: &[Declarator],
) -> Result<Result<(), TypeRefusal>, Memory>
    ensures names { OnOk result (names.new
        ≡ declarations.with_globals base names.old (map declarator_of all.now)) }
    ensures first { IfOk result (λ r. fault r
        ≡ first_of (declarations.global_outlines base names.old (map declarator_of all.now))) }
{
    let mut made = Ok(());
    for d in all {
        let next = pass_global(alloc, base, names, d)?;
        made = then(made, next);
    }
    Ok(made)
}

// A declarator in a function.
fn pass_inner(
    alloc: Global,
    line: u32,
    is_static: bool,
    base: Base,
    names: &mut Names,
    d: &Declarator,
) -> Result<Result<Vec<Stmt>, TypeRefusal>, Memory>
    ensures names { OnOk result (names.new
        ≡ declarations.with_inner is_static base names.old (declarator_of d.now)) }
    ensures first { IfOk result (λ r. fault r
        ≡ first_of (declarations.inner_outline is_static base names.old (declarator_of d.now))) }
    ensures made { IfOk result (λ r. IfOk r (λ items. map program.stmt_of items.items
        ≡ declarations.declarator_made line is_static base names.old (declarator_of d.now))) }
{
    if is_static {
        pass_static(alloc, base, names, d)
    } else {
        pass_local(alloc, line, base, names, d)
    }
}

// The declarators of a declaration in a function.
fn pass_inners(
    alloc: Global,
    line: u32,
    is_static: bool,
    base: Base,
    names: &mut Names,
    all: &[Declarator],
) -> Result<Result<Vec<Stmt>, TypeRefusal>, Memory>
    ensures names { OnOk result (names.new
        ≡ declarations.with_inners is_static base names.old (map declarator_of all.now)) }
    ensures first { IfOk result (λ r. fault r
        ≡ first_of (declarations.inner_outlines is_static base names.old (map declarator_of all.now))) }
    ensures made { IfOk result (λ r. IfOk r (λ items. map program.stmt_of items.items
        ≡ declarations.declarators_made line is_static base names.old (map declarator_of all.now))) }
{
    let mut made = Ok(Vec::new(alloc));
    for d in all {
        let next = pass_inner(alloc, line, is_static, base, names, d)?;
        made = appended(made, next)?;
    }
    Ok(made)
}

/// A declaration in a function: the statements that it leaves.
pub fn pass_declaration(
    alloc: Global,
    names: &mut Names,
    d: &Declaration,
) -> Result<Result<Vec<Stmt>, TypeRefusal>, Memory>
    ensures names { OnOk result (names.new ≡ declarations.declared names.old (declaration_of d.now)) }
    ensures first { IfOk result (λ r. fault r
        ≡ first_of (declarations.declaration_outline names.old (declaration_of d.now))) }
    ensures made { IfOk result (λ r. IfOk r (λ items. map program.stmt_of items.items
        ≡ declarations.declaration_made names.old (declaration_of d.now))) }
{
    pass_inners(alloc, d.at.line, d.is_static, d.base, names, &d.declarators)
}
