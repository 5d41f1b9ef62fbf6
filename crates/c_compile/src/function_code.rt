//! The code of functions.
ghost use Rattle.std.specs.Prelude.{◌≡◌, ◌++◌, ◌∷◌, [], ℕ, suc, List, Bool, length, OnOk, IfOk};
ghost use Rattle.c_code.specs.declared.instr.Instr.{Instr};
ghost use Rattle.c_tree.specs.ProgramOf.{function_of};
ghost use Rattle.c_compile.specs.Compiled.{Place, params_code, function_code};
ghost use Rattle.c_compile.specs.Standing.{Standing, opened_place, in_memory, with_opened, closing};

use crate::emitter::Emitter;
use crate::statement_code::put_items;
use crate::surroundings::Surroundings;
use c_code::Instr;
use c_tree::program::Function;
use mpc_values::{Memory, Word};

// The slot of a parameter.
fn slot_of(index: usize) -> Result<u32, Memory>
    ensures { IfOk result (λ slot. slot ≡ index) }
{
    u32::try_from(index).map_err(|_| Memory)
}

// The slot behind this one.
fn next_slot(slot: u32) -> Result<u32, Memory>
    ensures { IfOk result (λ next. next ≡ suc slot) }
{
    slot.checked_add(1).ok_or(Memory)
}

// The drop of a parameter, which is opened where it is in memory.
fn put_param_drop(
    out: &mut Emitter,
    around: &mut Surroundings,
    slot: u32,
    is_in_memory: bool,
    end: u32,
) -> Result<(), Memory>
    ensures code { OnOk result (out.new ≡ closing end (in_memory slot (is_in_memory ∷ [])) ++ out.old) }
    ensures opened { OnOk result (around.new ≡ with_opened around.old (in_memory slot (is_in_memory ∷ []))) }
{
    if is_in_memory {
        out.put(Instr::Release { slot, line: end })?;
        around.open(slot)?;
    }
    Ok(())
}

// The drops of the parameters at the end of a function, which are opened where they are in memory.
fn put_param_drops(
    out: &mut Emitter,
    around: &mut Surroundings,
    params: &[bool],
    end: u32,
) -> Result<(), Memory>
    ensures code { OnOk result (out.new ≡ closing end (in_memory 0 params.now) ++ out.old) }
    ensures opened { OnOk result (around.new ≡ with_opened around.old (in_memory 0 params.now)) }
{
    let mut slot: u32 = 0;
    for is_in_memory in params {
        put_param_drop(out, around, slot, *is_in_memory, end)?;
        slot = next_slot(slot)?;
    }
    Ok(())
}

// A parameter that is in memory is made and given its value as the function begins, and closed here.
fn put_param(
    out: &mut Emitter,
    around: &mut Surroundings,
    slot: u32,
    is_in_memory: bool,
) -> Result<(), Memory>
    ensures { (s : Standing) (end : ℕ) (more : List Bool) (place : Place) (body : Place → List Instr) (behind : List Instr) → around.old ≡ with_opened s (in_memory slot (is_in_memory ∷ []))
        → out.old ≡ params_code end (suc slot) more (opened_place (in_memory slot (is_in_memory ∷ [])) place) body ++ (closing end (in_memory slot (is_in_memory ∷ [])) ++ behind)
        → OnOk result ((out.new ≡ params_code end slot (is_in_memory ∷ more) place body ++ behind) × (around.new ≡ s)) }
{
    if is_in_memory {
        around.close();
        out.put(Instr::StoreParam { slot })?;
        out.put(Instr::NewParam { slot })?;
        out.put(Instr::SaveParam { slot })?;
    }
    Ok(())
}

// The parameters in memory as the function begins.
fn put_params(out: &mut Emitter, around: &mut Surroundings, params: &[bool]) -> Result<(), Memory>
    ensures { (s : Standing) (end : ℕ) (place : Place) (body : Place → List Instr) (behind : List Instr) → around.old ≡ with_opened s (in_memory 0 params.now)
        → out.old ≡ body (opened_place (in_memory 0 params.now) place) ++ (closing end (in_memory 0 params.now) ++ behind) → OnOk result (out.new ≡ params_code end 0 params.now place body ++ behind) }
{
    let mut left = params.len();
    while left > 0 {
        left -= 1;
        let slot = slot_of(left)?;
        put_param(out, around, slot, params[left])?;
    }
    Ok(())
}

/// The code of a function: a call of it comes to its first instruction, and control that comes to its end
/// leaves with 0 (C99, section 6.9.1).
pub fn put_function(out: &mut Emitter, f: &Function) -> Result<(), Memory>
    ensures { OnOk result (out.new ≡ function_code (function_of f.now) ++ out.old) }
{
    let end = f.end_line;
    out.put(Instr::Return { line: end })?;
    out.put(Instr::Push(Word::Int(0)))?;
    let mut around = Surroundings::outermost(out.alloc(), out.made());
    let params = f.params.as_slice();
    put_param_drops(out, &mut around, params, end)?;
    put_items(out, &mut around, f.body.as_slice(), end, Some(f.ending))?;
    put_params(out, &mut around, params)?;
    Ok(())
}
