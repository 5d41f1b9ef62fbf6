//! The way of a source to its typed program, or to why it is refused.
ghost use Rattle.std.specs.Prelude.{◌≡◌, ◌≤◌, length, IfOk, IfErr, string_bytes};
ghost use Rattle.mpc_values.specs.declared.limits.TheConstants.{MAX_SOURCE_BYTES};
ghost use Rattle.c_tree.specs.ProgramOf.{program_of};
ghost use Rattle.mpc_top.specs.Sources.{Accepted, RefusesContent, refusal_line, accepted_line, counts_line, shared_of};
ghost use Rattle.mpc_top.specs.declared.command.Mode.{Mode};

use crate::command::Mode;
use c_lex::{LexRefusal, lex};
use c_parse::{ParseRefusal, parse};
use c_tree::program::Program;
use c_tree::syntax::Tree;
use c_types::{TypeRefusal, check};
use mpc_base::Memory;
use mpc_base::limits::MAX_SOURCE_BYTES;
use std::alloc::{AllocError, Global};

/// Why a source is refused.
#[derive(Clone, Copy, Debug, PartialEq, Eq)]
pub enum SourceRefusal {
    /// There is no such file.
    Missing,
    /// It has more bytes than a source may have.
    TooLong,
    /// No token begins at a byte.
    Lex(LexRefusal),
    /// Its tokens spell no tree, or a directive for shared variables says nothing.
    Parse(ParseRefusal),
    /// A rule of typing is broken.
    Type(TypeRefusal),
    /// It is accepted, and is not run yet.
    NotBuilt,
}

impl SourceRefusal {
    /// The line that is written in place of a report.
    pub fn line(self, alloc: Global) -> Result<String, AllocError>
        ensures { IfOk result (λ line. string_bytes line ≡ refusal_line self) }
    {
        match self {
            SourceRefusal::Missing => format!(in alloc; "mpc: source: missing\n"),
            SourceRefusal::TooLong => format!(in alloc; "mpc: source: too long\n"),
            SourceRefusal::Lex(LexRefusal { line, col }) => format!(in alloc;
                "mpc: source: line {line}, column {col}: lex\n"
            ),
            SourceRefusal::Parse(ParseRefusal::Syntax { line, col }) => format!(in alloc;
                "mpc: source: line {line}, column {col}: syntax\n"
            ),
            SourceRefusal::Parse(ParseRefusal::Pragma { line }) => format!(in alloc;
                "mpc: source: line {line}: pragma\n"
            ),
            SourceRefusal::Type(TypeRefusal { rule, line }) => format!(in alloc;
                "mpc: source: line {line}: rule {rule}\n"
            ),
            SourceRefusal::NotBuilt => format!(in alloc; "mpc: source: not built\n"),
        }
    }
}

/// The typed program of a source, or the first cause for which it is refused: no token begins at a
/// byte, the tokens spell no tree, a rule is broken.
pub fn accept(alloc: Global, src: &[u8]) -> Result<Result<Program, SourceRefusal>, Memory>
    requires small { length src.now ≤ MAX_SOURCE_BYTES }
    ensures program { IfOk result (λ r. IfOk r (λ p. Accepted src.now (program_of p))) }
    ensures refused { IfOk result (λ r. IfErr r (λ q. (mode : Mode) → RefusesContent mode q src.now)) }
{
    let tokens = match lex(alloc, src)? {
        Ok(tokens) => tokens,
        Err(refusal) => return Ok(Err(SourceRefusal::Lex(refusal))),
    };
    let tree = match parse(alloc, src, tokens.as_slice())? {
        Ok(tree) => tree,
        Err(refusal) => return Ok(Err(SourceRefusal::Parse(refusal))),
    };
    match check(alloc, &tree)? {
        Ok(program) => Ok(Ok(program)),
        Err(refusal) => Ok(Err(SourceRefusal::Type(refusal))),
    }
}

fn shared_count(program: &Program) -> usize
    ensures { result ≡ shared_of program.now.variables }
{
    program
        .variables
        .as_slice()
        .iter()
        .filter(|variable| variable.level.is_some())
        .count()
}

fn counts_text(
    alloc: Global,
    functions: usize,
    globals: usize,
    shared: usize,
) -> Result<String, AllocError>
    ensures { IfOk result (λ line. string_bytes line ≡ counts_line functions globals shared) }
{
    format!(in alloc; "accepted: {functions} functions, {globals} globals, {shared} shared\n")
}

/// The line of a source that is accepted: how many functions are defined, how many static variables
/// there are, and how many of these are shared.
pub fn accepted_text(alloc: Global, program: &Program) -> Result<String, AllocError>
    ensures { IfOk result (λ line. string_bytes line ≡ accepted_line (program_of program.now)) }
{
    let functions = program.functions.len();
    let globals = program.variables.as_slice().len();
    counts_text(alloc, functions, globals, shared_count(program))
}
