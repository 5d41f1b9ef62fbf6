//! The pass over expressions: their types, and their typed forms or the first refusals in them.
ghost use Rattle.std.specs.Prelude.{◌≡◌, cond, drop, is_some, slice_get, IfOk, None};
ghost use Rattle.c_tree.specs.Programs as programs;
ghost use Rattle.c_tree.specs.SyntaxOf.{expr_of, exprs_of};
ghost use Rattle.c_types.specs.Answers.{Makes, MakesAll, MakesOnto, due_by};
ghost use Rattle.c_types.specs.Calls as calls;
ghost use Rattle.c_types.specs.Expressions as expressions;
ghost use Rattle.c_types.specs.Env.{first_some};
ghost use Rattle.c_types.specs.Nodes.{first_of};
ghost use Rattle.c_types.specs.Outcomes.{fault};
ghost use Rattle.c_types.specs.Typed as typed;

use crate::call_nodes::{
    ByRow, Every, free_call, malloc_call, mpi_call, no_call, own_call, own_params, printf_call,
};
use crate::calls::{
    Callable, callee_of, cast_want, is_malloc, meaning, or_typed, side_of, special, wanted,
};
use crate::constants::size_of;
use crate::kinds::{Given, Kind};
use crate::making::{converted, name_value, undefined};
use crate::names::Names;
pub use crate::nodes::Looked;
use crate::nodes::{assign, binary, cast, choice, element, field, leaf, step, unary};
use crate::outcomes::both;
use crate::refusals::TypeRefusal;
use crate::shapes::{OperandShape, Shape};
use c_tree::mpi::Argument;
use c_tree::program;
use c_tree::syntax::{Base, Binary, Expr};
use mpc_values::{Memory, Word};
use std::alloc::Global;

// The pointer that a malloc on the right of an assignment is for; a computing one is for none.
fn right_want(names: &Names, sign: Option<Binary>, left: &Expr, kind: Option<Kind>) -> Option<Base>
    ensures { result ≡ expressions.right_want names.now sign (expr_of left.now) kind }
{
    match sign {
        None => wanted(side_of(names, left, kind)),
        Some(_) => None,
    }
}

/// What is found of an expression. `want` is the element of the pointer that a malloc just there would
/// be for, if there is one.
#[cycle(look)]
pub fn look(alloc: Global, names: &Names, want: Option<Base>, e: &Expr) -> Result<Looked, Memory>
    ensures kind { IfOk result (λ r. r.kind ≡ expressions.kind_of names.now want (expr_of e.now)) }
    ensures first { IfOk result (λ r. fault r.made ≡ first_of (expressions.outline names.now want (expr_of e.now))) }
    ensures made { IfOk result (λ r. Makes r.made (typed.typed names.now want (expr_of e.now))) }
{
    match e {
        Expr::Name(at, name) => {
            let declared = meaning(names, name.as_slice());
            let value = name_value(alloc, names, declared)?;
            Ok(leaf(Shape::Operand(OperandShape::Used(declared)), at.line, value))
        }
        Expr::Number(at, value, is_long) => {
            let number = program::Expr::Constant(Word::Int(*value));
            Ok(leaf(
                Shape::Operand(OperandShape::Number(*is_long)),
                at.line,
                number,
            ))
        }
        Expr::Text(at, _) => Ok(leaf(Shape::Operand(OperandShape::Text), at.line, undefined())),
        Expr::SizeOf(at, base) => {
            let size = program::Expr::Constant(Word::Int(i64::from(size_of(*base))));
            Ok(leaf(Shape::Operand(OperandShape::Sized(*base)), at.line, size))
        }
        Expr::Index(at, array, index) => {
            let x = look(alloc, names, None, array)?;
            let y = look(alloc, names, None, index)?;
            element(alloc, at.line, x, y)
        }
        Expr::Field(at, value, name) => {
            let x = look(alloc, names, None, value)?;
            field(alloc, at.line, name.as_slice(), x)
        }
        Expr::Postfix(at, change, value) => {
            let x = look(alloc, names, None, value)?;
            let side = side_of(names, value, x.kind);
            Ok(step(at.line, *change, false, side, x))
        }
        Expr::Prefix(at, change, value) => {
            let x = look(alloc, names, None, value)?;
            let side = side_of(names, value, x.kind);
            Ok(step(at.line, *change, true, side, x))
        }
        Expr::Unary(at, sign, value) => {
            let x = look(alloc, names, None, value)?;
            let side = side_of(names, value, x.kind);
            unary(alloc, at.line, *sign, side, x)
        }
        Expr::Cast(at, to, value) => {
            let x = look(alloc, names, cast_want(*to), value)?;
            cast(alloc, at.line, want, *to, is_malloc(names, value), x)
        }
        Expr::Binary(at, sign, left, right) => {
            let x = look(alloc, names, None, left)?;
            let y = look(alloc, names, None, right)?;
            binary(alloc, at.line, *sign, x, y)
        }
        Expr::Choice(at, test, left, right) => {
            let t = look(alloc, names, None, test)?;
            let x = look(alloc, names, None, left)?;
            let y = look(alloc, names, None, right)?;
            choice(alloc, at.line, t, x, y)
        }
        Expr::Assign(at, sign, left, right) => {
            let x = look(alloc, names, None, left)?;
            let side = side_of(names, left, x.kind);
            let y = look(alloc, names, right_want(names, *sign, left, x.kind), right)?;
            assign(alloc, at.line, *sign, side, x, y)
        }
        Expr::Call(at, name, arguments) => {
            match callee_of(meaning(names, name.as_slice())) {
                Callable::Own(place) => {
                    let params = own_params(names, place);
                    let given = look_every(alloc, names, params, 0, arguments)?;
                    Ok(own_call(names, place, at.line, given))
                }
                Callable::Mpi(function) => {
                    let given = look_row(alloc, names, function.arguments(), arguments)?;
                    Ok(mpi_call(alloc, names, function, at.line, arguments, given))
                }
                Callable::Printf => {
                    let given = look_every(alloc, names, &[], 1, arguments)?;
                    printf_call(alloc, at.line, arguments, given)
                }
                Callable::Malloc => {
                    let given = look_every(alloc, names, &[], 0, arguments)?;
                    malloc_call(alloc, want, at.line, given)
                }
                Callable::Free => {
                    let given = look_every(alloc, names, &[], 0, arguments)?;
                    free_call(alloc, at.line, given)
                }
                Callable::Nothing => {
                    let given = look_every(alloc, names, &[], 0, arguments)?;
                    Ok(no_call(at.line, given.made))
                }
            }
        }
    }
}

// What is found of the arguments from a place on. Each is typed as its parameter, where there is one.
#[cycle(look)]
fn look_every(
    alloc: Global,
    names: &Names,
    params: &[Kind],
    from: usize,
    arguments: &[Expr],
) -> Result<Every, Memory>
    ensures kinds { IfOk result (λ r. r.kinds.items ≡ expressions.kinds names.now (exprs_of (drop from arguments.now))) }
    ensures first { IfOk result (λ r. fault r.made
        ≡ first_of (expressions.argument_outline calls.Every names.now (exprs_of (drop from arguments.now)))) }
    ensures made { IfOk result (λ r. MakesAll r.made
        (typed.passed names.now (typed.Own params.now) (exprs_of (drop from arguments.now)))) }
{
    let mut kinds = Vec::new(alloc);
    let mut made = Ok(Vec::new(alloc));
    for i in from..arguments.len() {
        let x = look(alloc, names, None, &arguments[i])?;
        kinds.push(x.kind)?;
        made = with_argument(alloc, made, param_at(params, i - from), x)?;
    }
    Ok(Every { kinds, made })
}

// What is found of the arguments of an MPI function.
#[cycle(look)]
fn look_row(
    alloc: Global,
    names: &Names,
    row: &[Argument],
    arguments: &[Expr],
) -> Result<ByRow, Memory>
    ensures givens { IfOk result (λ r. r.givens.items ≡ expressions.givens names.now (exprs_of arguments.now)) }
    ensures first { IfOk result (λ r. fault r.made
        ≡ first_of (expressions.argument_outline calls.Expressions names.now (exprs_of arguments.now))) }
    ensures made { IfOk result (λ r. MakesAll r.made
        (typed.passed names.now (typed.Row row.now) (exprs_of arguments.now))) }
{
    let mut givens = Vec::new(alloc);
    let mut made = Ok(Vec::new(alloc));
    for i in 0..arguments.len() {
        let x = look(alloc, names, None, &arguments[i])?;
        let special = special(names, &arguments[i]);
        givens.push(or_typed(special, x.kind))?;
        made = with_given(alloc, made, special, row_due(row, i), x)?;
    }
    Ok(ByRow { givens, made })
}

// The type of the parameter at a place, if there is one.
fn param_at(params: &[Kind], at: usize) -> Option<Kind>
    ensures { result ≡ slice_get params.now at }
{
    params.get(at).copied()
}

// The type that an argument at a place of a row becomes.
fn row_due(row: &[Argument], at: usize) -> Option<Kind>
    ensures { result ≡ due_by (slice_get row.now at) }
{
    match row.get(at) {
        Some(Argument::Number) => Some(Kind::Plain(Base::Int)),
        _ => None,
    }
}

// One more argument at the end, as one of the type that is due, where nothing is refused.
fn with_argument(
    alloc: Global,
    all: Result<Vec<program::Expr>, TypeRefusal>,
    due: Option<Kind>,
    x: Looked,
) -> Result<Result<Vec<program::Expr>, TypeRefusal>, Memory>
    ensures refused { IfOk result (λ r. fault r ≡ first_some (fault all) (fault x.made)) }
    ensures made { IfOk result (λ r. (a : programs.Expr) (rest goal : programs.Exprs) → Makes x.made a →
        MakesOnto all (programs.More (typed.converted due x.kind a) rest) goal → MakesOnto r rest goal) }
{
    match both(all, x.made) {
        Ok((mut all, one)) => {
            all.push(converted(alloc, due, x.kind, one)?)?;
            Ok(Ok(all))
        }
        Err(refusal) => Ok(Err(refusal)),
    }
}

// The same of an argument of an MPI function, which is left out where it is no expression.
fn with_given(
    alloc: Global,
    all: Result<Vec<program::Expr>, TypeRefusal>,
    special: Option<Given>,
    due: Option<Kind>,
    x: Looked,
) -> Result<Result<Vec<program::Expr>, TypeRefusal>, Memory>
    ensures refused { IfOk result (λ r. fault r ≡ first_some (fault all) (cond (is_some special) None (fault x.made))) }
    ensures made { IfOk result (λ r. (a : programs.Expr) (rest goal : programs.Exprs) → Makes x.made a →
        MakesOnto all (typed.unless_special special (typed.converted due x.kind a) rest) goal → MakesOnto r rest goal) }
{
    match special {
        Some(_) => Ok(all),
        None => with_argument(alloc, all, due, x),
    }
}
