//! The code of expressions.
ghost use Rattle.std.specs.Prelude.{◌≡◌, ◌∷◌, [], ◌++◌, length, OnOk, IfOk};
ghost use Rattle.c_tree.specs.ProgramOf.{expr_of, exprs_of};
ghost use Rattle.c_tree.specs.Evaluation.{scalar_of};
ghost use Rattle.c_compile.specs.Compiled.{expr_code, exprs_code, callee_code, step_local, step_store};

use crate::emitter::Emitter;
use c_code::{Instr, Printed, Printing};
use c_tree::formats::Format;
use c_tree::program::{Callee, Expr, Scalar, Update};
use mpc_values::{Memory, Word};

// What an updated variable is read as.
fn scalar_of(update: Update) -> Scalar
    ensures { result ≡ scalar_of update }
{
    match update {
        Update::Number { target, .. } => Scalar::Number(target),
        Update::Pointer { .. } => Scalar::Pointer,
    }
}

// `++` or `--` of a local that the task keeps.
fn put_step_local(
    out: &mut Emitter,
    line: u32,
    update: Update,
    before: bool,
    slot: u32,
) -> Result<(), Memory>
    ensures { OnOk result (out.new ≡ step_local update before slot line ++ out.old) }
{
    if before {
        out.put(Instr::Set { slot })?;
        out.put(Instr::Update { update, line })?;
        out.put(Instr::Push(Word::Int(1)))?;
    } else {
        out.put(Instr::Pop)?;
        out.put(Instr::Set { slot })?;
        out.put(Instr::Update { update, line })?;
        out.put(Instr::Push(Word::Int(1)))?;
        out.put(Instr::Duplicate)?;
    }
    out.put(Instr::Get { slot, line })
}

// `++` or `--` of the word at a place that is on the stack.
fn put_step_store(out: &mut Emitter, line: u32, update: Update, before: bool) -> Result<(), Memory>
    ensures { OnOk result (out.new ≡ step_store update before line ++ out.old) }
{
    let scalar = scalar_of(update);
    if before {
        out.put(Instr::Store { line })?;
        out.put(Instr::Update { update, line })?;
        out.put(Instr::Push(Word::Int(1)))?;
    } else {
        out.put(Instr::Pop)?;
        out.put(Instr::Store { line })?;
        out.put(Instr::Update { update, line })?;
        out.put(Instr::Push(Word::Int(1)))?;
        out.put(Instr::Tuck)?;
    }
    out.put(Instr::Peek { scalar, line })
}

// A number of arguments.
fn counted(count: usize) -> Result<u32, Memory>
    ensures { IfOk result (λ n. n ≡ count) }
{
    u32::try_from(count).map_err(|_| Memory)
}

fn copied(format: &Format) -> Result<Format, Memory>
    ensures { IfOk result (λ copy. copy ≡ format.now) }
{
    Ok(format.clone()?)
}

// What is called with so many arguments.
fn put_callee(out: &mut Emitter, line: u32, callee: &Callee, count: usize) -> Result<(), Memory>
    ensures { OnOk result (out.new ≡ callee_code line callee.now count ++ out.old) }
{
    let count = counted(count)?;
    match callee {
        Callee::Function(number) => out.put(Instr::Call {
            function: *number,
            count,
            line,
        }),
        Callee::Print(format) => {
            let format = copied(format)?;
            let printed = Printed::new(out.alloc(), Printing { format, count })?;
            out.put(Instr::Print { printed, line })?;
            Ok(())
        }
        Callee::Mpi(mpi) => out.put(Instr::Mpi {
            mpi: *mpi,
            count,
            line,
        }),
    }
}

// An instruction on one operand.
#[cycle(expression)]
fn put_on_one(out: &mut Emitter, line: u32, operand: &Expr, instr: Instr) -> Result<(), Memory>
    ensures { OnOk result (out.new ≡ expr_code line (expr_of operand.now) ++ instr ∷ out.old) }
{
    out.put(instr)?;
    put_expression(out, line, operand)
}

// Several expressions, of which the first is evaluated first.
#[cycle(expression)]
fn put_expressions(out: &mut Emitter, line: u32, all: &[Expr]) -> Result<(), Memory>
    ensures { OnOk result (out.new ≡ exprs_code line (exprs_of all.now) ++ out.old) }
{
    let mut left = all.len();
    while left > 0 {
        left -= 1;
        put_expression(out, line, &all[left])?;
    }
    Ok(())
}

/// The code that puts an expression's value on the stack, in a statement of this line (C99, section 6.5).
#[cycle(expression)]
pub fn put_expression(out: &mut Emitter, line: u32, e: &Expr) -> Result<(), Memory>
    ensures { OnOk result (out.new ≡ expr_code line (expr_of e.now) ++ out.old) }
{
    match e {
        Expr::Constant(word) => out.put(Instr::Push(*word)),
        Expr::Local(slot) => out.put(Instr::Get { slot: *slot, line }),
        Expr::Object(slot) => out.put(Instr::Object { slot: *slot }),
        Expr::Load(scalar, place) => put_on_one(
            out,
            line,
            place,
            Instr::Load {
                scalar: *scalar,
                line,
            },
        ),
        Expr::SetLocal(slot, value) => put_on_one(out, line, value, Instr::Set { slot: *slot }),
        Expr::Store(place, value) => {
            put_on_one(out, line, value, Instr::Store { line })?;
            put_expression(out, line, place)
        }
        Expr::UpdateLocal(update, slot, value) => {
            out.put(Instr::Set { slot: *slot })?;
            put_on_one(
                out,
                line,
                value,
                Instr::Update {
                    update: *update,
                    line,
                },
            )?;
            out.put(Instr::Get { slot: *slot, line })
        }
        Expr::UpdateStore(update, place, value) => {
            out.put(Instr::Store { line })?;
            put_on_one(
                out,
                line,
                value,
                Instr::Update {
                    update: *update,
                    line,
                },
            )?;
            let scalar = scalar_of(*update);
            put_on_one(out, line, place, Instr::Peek { scalar, line })
        }
        Expr::StepLocal(update, before, slot) => {
            put_step_local(out, line, *update, *before, *slot)
        }
        Expr::StepStore(update, before, place) => {
            put_step_store(out, line, *update, *before)?;
            put_expression(out, line, place)
        }
        Expr::Negate(width, value) => put_on_one(
            out,
            line,
            value,
            Instr::Negate {
                width: *width,
                line,
            },
        ),
        Expr::Complement(value) => put_on_one(out, line, value, Instr::Complement),
        Expr::Not(value) => put_on_one(out, line, value, Instr::Not),
        Expr::Narrow(value) => put_on_one(out, line, value, Instr::Narrow),
        Expr::Arithmetic(width, operation, left, right) => {
            let (width, operation) = (*width, *operation);
            put_on_one(
                out,
                line,
                right,
                Instr::Arithmetic {
                    width,
                    operation,
                    line,
                },
            )?;
            put_expression(out, line, left)
        }
        Expr::Compare(comparison, left, right) => {
            let comparison = *comparison;
            put_on_one(out, line, right, Instr::Compare { comparison })?;
            put_expression(out, line, left)
        }
        Expr::Same(wanted, left, right) => {
            put_on_one(out, line, right, Instr::Same { wanted: *wanted })?;
            put_expression(out, line, left)
        }
        Expr::And(left, right) => {
            out.put(Instr::Push(Word::Int(0)))?;
            let end = out.made();
            out.put(Instr::Skip(1))?;
            put_on_one(out, line, right, Instr::Truth)?;
            let passed = out.since(end)?;
            put_on_one(out, line, left, Instr::Unless(passed))
        }
        Expr::Or(left, right) => {
            let end = out.made();
            put_on_one(out, line, right, Instr::Truth)?;
            let passed = out.since(end)?;
            out.put(Instr::Skip(passed))?;
            out.put(Instr::Push(Word::Int(1)))?;
            put_on_one(out, line, left, Instr::Unless(2))
        }
        Expr::Choice(test, yes, no) => {
            let end = out.made();
            put_expression(out, line, no)?;
            let passed = out.since(end)?;
            let other = out.made();
            put_on_one(out, line, yes, Instr::Skip(passed))?;
            let passed = out.since(other)?;
            put_on_one(out, line, test, Instr::Unless(passed))
        }
        Expr::Offset(back, words, pointer, index) => {
            let (back, words) = (*back, *words);
            put_on_one(out, line, index, Instr::Offset { back, words, line })?;
            put_expression(out, line, pointer)
        }
        Expr::Malloc(size, bytes) => {
            put_on_one(out, line, bytes, Instr::Malloc { size: *size, line })
        }
        Expr::Free(pointer) => put_on_one(out, line, pointer, Instr::Free { line }),
        Expr::Apply(callee, arguments) => {
            let arguments = arguments.as_slice();
            put_callee(out, line, callee, arguments.len())?;
            put_expressions(out, line, arguments)?;
            Ok(())
        }
    }
}
