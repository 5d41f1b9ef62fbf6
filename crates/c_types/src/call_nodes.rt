//! What is found of a call, by what is found of its arguments.
ghost use Rattle.std.specs.Prelude.{◌≡◌, ◌∷◌, IfOk, None, slice_get};
ghost use Rattle.c_tree.specs.ProgramOf.{expr_of, exprs_of};
ghost use Rattle.c_tree.specs.Programs as program;
ghost use Rattle.c_tree.specs.SyntaxOf as syntax;
ghost use Rattle.c_tree.specs.declared.program.Callee.TheVariants as callee;
ghost use Rattle.c_types.specs.Answers.{Makes, MakesAll, ReadsFirst, row_fault, row_made};
ghost use Rattle.c_types.specs.Calls as calls;
ghost use Rattle.c_types.specs.Nodes.{blame};
ghost use Rattle.c_types.specs.Outcomes.{fault};
ghost use Rattle.c_types.specs.Rules as rules;
ghost use Rattle.c_types.specs.Typed as typed;
ghost use Rattle.c_types.specs.declared.shapes.CallShape.TheVariants as call;
ghost use Rattle.c_types.specs.declared.shapes.Shape.TheVariants.{Call};

use crate::arguments::{
    all_agree, all_meet, datatypes_agree, first_datatype, is_ignored, last_datatype, operation_of,
};
use crate::calls::{are_two, is_one_number, is_one_pointer, may_start, sized};
use crate::constants::size_of;
use crate::formats::{ReadFormat, are_printed, read_format};
use crate::kinds::{Given, Kind};
use crate::making::undefined;
use crate::names::Names;
use crate::nodes::Looked;
use crate::outcomes::blamed;
use crate::refusals::TypeRefusal;
use crate::rules::kind;
use crate::shapes::{CallShape, Shape};
use c_tree::formats::Format;
use c_tree::mpi::MpiFunction;
use c_tree::program::{Callee, Expr, MpiCall};
use c_tree::syntax;
use mpc_values::{Datatype, Memory};
use std::alloc::Global;
use syntax::Base;

/// What is found of arguments that are all evaluated: their types, and their typed forms as the callee
/// takes them, or the first refusal in them.
#[derive(Drop)]
pub struct Every {
    pub kinds: Vec<Option<Kind>>,
    pub made: Result<Vec<Expr>, TypeRefusal>,
}

/// What is found of arguments by a row of the table of MPI functions: what each is, and the typed forms
/// of those that are expressions, or the first refusal in these.
#[derive(Drop)]
pub struct ByRow {
    pub givens: Vec<Given>,
    pub made: Result<Vec<Expr>, TypeRefusal>,
}

// A call that leaves its arguments in the typed program.
fn applied(
    shape: Shape,
    line: u32,
    callee: Callee,
    arguments: Result<Vec<Expr>, TypeRefusal>,
) -> Looked
    ensures kind { result.kind ≡ rules.kind shape }
    ensures first { fault result.made ≡ blame (rules.rule shape) line (fault arguments) }
    ensures made { (es : program.Exprs) → MakesAll arguments es → Makes result.made (program.Apply callee es) }
{
    let kind = kind(shape);
    match blamed(shape, line, arguments) {
        Ok(arguments) => Looked {
            kind,
            made: Ok(Expr::Apply(callee, arguments)),
        },
        Err(refusal) => Looked {
            kind,
            made: Err(refusal),
        },
    }
}

/// A call of what is no function.
pub fn no_call(line: u32, arguments: Result<Vec<Expr>, TypeRefusal>) -> Looked
    ensures kind { result.kind ≡ rules.kind (Call call.Nothing) }
    ensures first { fault result.made ≡ blame (rules.rule (Call call.Nothing)) line (fault arguments) }
    ensures made { Makes result.made typed.undefined }
{
    let shape = Shape::Call(CallShape::Nothing);
    let kind = kind(shape);
    match blamed(shape, line, arguments) {
        Ok(_) => Looked {
            kind,
            made: Ok(undefined()),
        },
        Err(refusal) => Looked {
            kind,
            made: Err(refusal),
        },
    }
}

/// The parameters of the function at a place.
pub fn own_params(names: &Names, place: usize) -> &[Kind]
    ensures { result.now ≡ typed.own_params (slice_get names.now.functions place) }
{
    match names.functions.get(place) {
        Some(sig) => sig.params.as_slice(),
        None => &[],
    }
}

/// A call of the program's own function at a place.
pub fn own_call(names: &Names, place: usize, line: u32, given: Every) -> Looked
    ensures kind { result.kind ≡ rules.kind (calls.own_shape (slice_get names.now.functions place) given.kinds.items) }
    ensures first { fault result.made
        ≡ blame (rules.rule (calls.own_shape (slice_get names.now.functions place) given.kinds.items)) line (fault given.made) }
    ensures made { (es : program.Exprs) → MakesAll given.made es → Makes result.made
        (program.Apply (callee.Function (typed.own_number (slice_get names.now.functions place))) es) }
{
    match names.functions.get(place) {
        Some(sig) => {
            let agrees = all_agree(sig.params.as_slice(), &given.kinds);
            applied(
                Shape::Call(CallShape::Own {
                    is_defined: sig.number.is_some(),
                    agrees,
                    returns: sig.returns,
                }),
                line,
                Callee::Function(sig.number.unwrap_or(0)),
                given.made,
            )
        }
        None => applied(
            Shape::Call(CallShape::Nothing),
            line,
            Callee::Function(0),
            given.made,
        ),
    }
}

// The format that the first argument of printf is, if it is one.
fn format_argument(alloc: Global, arguments: &[syntax::Expr]) -> Result<Option<ReadFormat>, Memory>
    ensures { IfOk result (λ r. ReadsFirst (syntax.exprs_of arguments.now) r) }
{
    match arguments.first() {
        Some(syntax::Expr::Text(_, text)) => read_format(alloc, text.as_slice()),
        _ => Ok(None),
    }
}

// The first of the arguments.
fn first_of(arguments: Vec<Expr>) -> Expr
    ensures { expr_of result ≡ typed.first_of_all (exprs_of arguments.items) }
{
    match arguments.into_iter().next() {
        Some(first) => first,
        None => undefined(),
    }
}

fn element_size(want: Option<Base>) -> u32
    ensures { result ≡ typed.element_size want }
{
    match want {
        Some(element) => size_of(element),
        None => 0,
    }
}

/// A call of malloc, where it would be for a pointer to such elements.
pub fn malloc_call(
    alloc: Global,
    want: Option<Base>,
    line: u32,
    given: Every,
) -> Result<Looked, Memory>
    ensures kind { IfOk result (λ r. r.kind ≡ rules.kind (Call (call.Malloc (calls.sized want) (calls.is_one_number given.kinds.items)))) }
    ensures first { IfOk result (λ r. fault r.made
        ≡ blame (rules.rule (Call (call.Malloc (calls.sized want) (calls.is_one_number given.kinds.items)))) line (fault given.made)) }
    ensures made { IfOk result (λ r. (es : program.Exprs) → MakesAll given.made es → Makes r.made
        (program.Malloc (typed.element_size want) (typed.first_of_all es))) }
{
    let shape = Shape::Call(CallShape::Malloc {
        element: sized(want),
        has_number: is_one_number(&given.kinds),
    });
    let kind = kind(shape);
    match blamed(shape, line, given.made) {
        Ok(arguments) => {
            let bytes = Box::new(alloc, first_of(arguments))?;
            Ok(Looked {
                kind,
                made: Ok(Expr::Malloc(element_size(want), bytes)),
            })
        }
        Err(refusal) => Ok(Looked {
            kind,
            made: Err(refusal),
        }),
    }
}

/// A call of free.
pub fn free_call(alloc: Global, line: u32, given: Every) -> Result<Looked, Memory>
    ensures kind { IfOk result (λ r. r.kind ≡ rules.kind (Call (call.Free (calls.is_one_pointer given.kinds.items)))) }
    ensures first { IfOk result (λ r. fault r.made
        ≡ blame (rules.rule (Call (call.Free (calls.is_one_pointer given.kinds.items)))) line (fault given.made)) }
    ensures made { IfOk result (λ r. (es : program.Exprs) → MakesAll given.made es → Makes r.made
        (program.Free (typed.first_of_all es))) }
{
    let shape = Shape::Call(CallShape::Free(is_one_pointer(&given.kinds)));
    let kind = kind(shape);
    match blamed(shape, line, given.made) {
        Ok(arguments) => {
            let pointer = Box::new(alloc, first_of(arguments))?;
            Ok(Looked {
                kind,
                made: Ok(Expr::Free(pointer)),
            })
        }
        Err(refusal) => Ok(Looked {
            kind,
            made: Err(refusal),
        }),
    }
}

/// A call of printf, by its arguments and what is found of those behind the first.
pub fn printf_call(
    alloc: Global,
    line: u32,
    arguments: &[syntax::Expr],
    given: Every,
) -> Result<Looked, Memory>
    ensures kind { IfOk result (λ r. r.kind
        ≡ rules.kind (Call (call.Printf (calls.prints_all (syntax.exprs_of arguments.now) (None ∷ given.kinds.items))))) }
    ensures first { IfOk result (λ r. fault r.made
        ≡ blame (rules.rule (Call (call.Printf (calls.prints_all (syntax.exprs_of arguments.now) (None ∷ given.kinds.items))))) line (fault given.made)) }
    ensures made { IfOk result (λ r. (es : program.Exprs) → MakesAll given.made es → Makes r.made
        (program.Apply (callee.Print (typed.format_of (syntax.exprs_of arguments.now))) es)) }
{
    match format_argument(alloc, arguments)? {
        Some(format) => {
            let agrees = are_printed(&format.widths, &given.kinds);
            Ok(applied(
                Shape::Call(CallShape::Printf(agrees)),
                line,
                Callee::Print(format.pieces),
                given.made,
            ))
        }
        None => Ok(applied(
            Shape::Call(CallShape::Printf(false)),
            line,
            Callee::Print(Format::of(Vec::new(alloc))),
            given.made,
        )),
    }
}

// What a call of an MPI function has beside the arguments that are evaluated.
fn mpi_callee(function: MpiFunction, givens: &[Given]) -> MpiCall
    ensures { result ≡ typed.mpi_call function givens.now }
{
    let kind = first_datatype(givens).unwrap_or(Datatype::Int);
    MpiCall {
        function,
        kind,
        received: last_datatype(kind, givens),
        op: operation_of(givens),
        ignored: is_ignored(givens),
    }
}

fn mpi_shape(
    function: MpiFunction,
    names: &Names,
    arguments: &[syntax::Expr],
    givens: &[Given],
) -> Shape
    ensures { result ≡ calls.mpi_shape function names.now.scopes (syntax.exprs_of arguments.now) givens.now }
{
    match function {
        MpiFunction::Init => Shape::Call(CallShape::Init {
            has_two: are_two(arguments),
            may_stand: may_start(names, arguments),
        }),
        _ => Shape::Call(CallShape::Mpi {
            meets: all_meet(function.arguments(), givens),
            agrees: datatypes_agree(function, function.arguments(), givens),
        }),
    }
}

// The typed arguments of an MPI function; MPI_Init evaluates none.
fn row_arguments(
    alloc: Global,
    function: MpiFunction,
    made: Result<Vec<Expr>, TypeRefusal>,
) -> Result<Vec<Expr>, TypeRefusal>
    ensures refused { fault result ≡ row_fault function (fault made) }
    ensures made { (es : program.Exprs) → MakesAll made es → MakesAll result (row_made function es) }
{
    match function {
        MpiFunction::Init => Ok(Vec::new(alloc)),
        _ => made,
    }
}

/// A call of an MPI function.
pub fn mpi_call(
    alloc: Global,
    names: &Names,
    function: MpiFunction,
    line: u32,
    arguments: &[syntax::Expr],
    given: ByRow,
) -> Looked
    ensures kind { result.kind
        ≡ rules.kind (calls.mpi_shape function names.now.scopes (syntax.exprs_of arguments.now) given.givens.items) }
    ensures first { fault result.made
        ≡ blame (rules.rule (calls.mpi_shape function names.now.scopes (syntax.exprs_of arguments.now) given.givens.items)) line
        (row_fault function (fault given.made)) }
    ensures made { (es : program.Exprs) → MakesAll given.made es → Makes result.made
        (program.Apply (callee.Mpi (typed.mpi_call function given.givens.items)) (row_made function es)) }
{
    let shape = mpi_shape(function, names, arguments, &given.givens);
    let callee = Callee::Mpi(mpi_callee(function, &given.givens));
    applied(
        shape,
        line,
        callee,
        row_arguments(alloc, function, given.made),
    )
}
