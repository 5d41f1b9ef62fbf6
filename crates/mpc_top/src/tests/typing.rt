//! Sources against the rules of typing, and what typed programs have.
mod bounds;
mod rules;
mod rules_of_functions;
mod shapes;

use c_lex::lex;
use c_parse::parse;
use c_tree::program::Program;
use c_types::{TypeRefusal, check};
use mpc_base::Memory;
use std::alloc::Global;

/// How a source is answered.
#[derive(Clone, Copy, Debug, PartialEq, Eq)]
enum Verdict {
    /// The numbers of its functions, static variables, and variables with a level.
    Accepted(usize, usize, usize),
    /// The first broken rule, and its line.
    Rule(u16, u32),
    /// It is too long, or has no tokens or no tree.
    NoTree,
}

// The typed program of a source, or how it is refused.
fn read(alloc: Global, src: &str) -> Result<Result<Program, Verdict>, Memory> {
    let src = src.as_bytes();
    if src.len() > 1_048_576 {
        return Ok(Err(Verdict::NoTree));
    }
    let Ok(tokens) = lex(alloc, src)? else {
        return Ok(Err(Verdict::NoTree));
    };
    let Ok(tree) = parse(alloc, src, tokens.as_slice())? else {
        return Ok(Err(Verdict::NoTree));
    };
    match check(alloc, &tree)? {
        Ok(program) => Ok(Ok(program)),
        Err(TypeRefusal { rule, line }) => Ok(Err(Verdict::Rule(rule, line))),
    }
}

fn answered(alloc: Global, src: &str) -> Result<Verdict, Memory> {
    match read(alloc, src)? {
        Ok(program) => {
            let globals = program.globals();
            let shared = globals
                .iter()
                .filter(|variable| variable.level.is_some())
                .count();
            Ok(Verdict::Accepted(program.functions.len(), globals.len(), shared))
        }
        Err(verdict) => Ok(verdict),
    }
}
