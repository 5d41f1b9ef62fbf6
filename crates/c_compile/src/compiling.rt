//! From a typed program to its code.
ghost use Rattle.std.specs.Prelude.{◌≡◌, ◌++◌, [], length, map, reverse, slice_get, OnOk, IfOk};
ghost use Rattle.c_tree.specs.ProgramOf.{function_of, program_of};
ghost use Rattle.c_compile.specs.Compiled.{functions_code, entries_from, params_of};
ghost use Rattle.c_compile.specs.Correct.{compiled, Behaves, HasMain};
ghost use Rattle.c_compile.specs.Standing.{lengths_of};

use crate::emitter::Emitter;
use crate::function_code::put_function;
use c_code::{Code, Entry};
use c_tree::program::{Function, Program};
use mpc_values::Memory;
use std::alloc::Global;

// The code of functions, one behind the other, and the length of each, the last one's first.
fn put_functions(out: &mut Emitter, functions: &[Function]) -> Result<Vec<u32>, Memory>
    requires { out.old ≡ [] }
    ensures code { OnOk result (out.new ≡ functions_code (map function_of functions.now)) }
    ensures lengths { IfOk result (λ lengths. lengths.items ≡ reverse (lengths_of functions.now)) }
{
    let mut lengths = Vec::new(out.alloc());
    let mut left = functions.len();
    while left > 0 {
        left -= 1;
        let behind = out.made();
        put_function(out, &functions[left])?;
        lengths.push(out.since(behind)?)?;
    }
    Ok(lengths)
}

// Where each function's code begins.
fn entries(
    alloc: Global,
    functions: &[Function],
    mut lengths: Vec<u32>,
) -> Result<Vec<Entry>, Memory>
    requires { lengths.items ≡ reverse (lengths_of functions.now) }
    ensures { IfOk result (λ entries. entries.items ≡ entries_from 0 (map function_of functions.now)) }
{
    let mut list = Vec::new(alloc);
    let mut start: u32 = 0;
    for f in functions {
        let Some(length) = lengths.pop() else {
            unreachable!();
        };
        list.push(Entry {
            start,
            slots: f.slots,
        })?;
        start = start.checked_add(length).ok_or(Memory)?;
    }
    Ok(list)
}

// How many parameters main has.
fn arguments(functions: &[Function], main: u32) -> Result<u32, Memory>
    ensures { IfOk result (λ n. n ≡ params_of (slice_get (map function_of functions.now) main)) }
{
    match functions.get(main as usize) {
        Some(f) => u32::try_from(f.params.as_slice().len()).map_err(|_| Memory),
        None => Ok(0),
    }
}

/// The code of a program with a main. Behind every list of answers it demands what the program asks; where
/// the program is over or an answer does not fit, so does its code find. More than 4,294,967,295
/// instructions are want of memory.
pub fn compile(alloc: Global, program: &Program) -> Result<Code, Memory>
    requires main { HasMain (program_of program.now) }
    ensures code { IfOk result (λ code. code ≡ compiled (program_of program.now)) }
    ensures behaves { IfOk result (λ code. Behaves code (program_of program.now)) }
{
    let functions = program.functions.as_slice();
    let mut out = Emitter::new(alloc);
    let lengths = put_functions(&mut out, functions)?;
    let entries = entries(alloc, functions, lengths)?;
    let arguments = arguments(functions, program.main)?;
    let code = Code::of(out.into_instrs(), entries, program.main, arguments);
    Ok(code)
}
