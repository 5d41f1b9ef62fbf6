//! Sources, the trees that they spell, and the places at which they are refused.
mod bounds;
mod refusals;
mod shapes;

use crate::{ParseRefusal, parse};
use c_lex::lex;
use c_tree::syntax::Tree;
use mpc_values::Memory;
use mpc_values::limits::MAX_SOURCE_BYTES;
use std::alloc::Global;

/// How a source is answered.
#[derive(Clone, Copy, Debug, PartialEq, Eq)]
enum Verdict {
    Tree,
    Syntax(u32, u32),
    Pragma(u32),
    /// It is too long, or has no tokens.
    NoTokens,
}

// The tree of a source, or how it is refused.
fn parsed(alloc: Global, src: &str) -> Result<Result<Tree, Verdict>, Memory> {
    let src = src.as_bytes();
    if src.len() > MAX_SOURCE_BYTES {
        return Ok(Err(Verdict::NoTokens));
    }
    let tokens = match lex(alloc, src)? {
        Ok(tokens) => tokens,
        Err(_) => return Ok(Err(Verdict::NoTokens)),
    };
    match parse(alloc, src, tokens.as_slice())? {
        Ok(tree) => Ok(Ok(tree)),
        Err(ParseRefusal::Syntax { line, col }) => Ok(Err(Verdict::Syntax(line, col))),
        Err(ParseRefusal::Pragma { line }) => Ok(Err(Verdict::Pragma(line))),
    }
}

fn answered(alloc: Global, src: &str) -> Result<Verdict, Memory> {
    match parsed(alloc, src)? {
        Ok(_) => Ok(Verdict::Tree),
        Err(verdict) => Ok(verdict),
    }
}
