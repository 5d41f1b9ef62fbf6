//! From the tokens of a source to its tree.
ghost use Rattle.std.specs.Prelude.{◌≡◌, ◌≤◌, length, IfOk, IfErr, MatchResult};
ghost use Rattle.c_lex.specs.Places.{behind, start};
ghost use Rattle.mpc_values.specs.declared.limits.TheConstants.{MAX_SOURCE_BYTES};
ghost use Rattle.c_tree.specs.Syntax as x;
ghost use Rattle.c_tree.specs.SyntaxOf.{tree_of};
ghost use Rattle.c_parse.specs.declared.refusals.ParseRefusal.{ParseRefusal as Refusal};
ghost use Rattle.c_parse.specs.Parsed.{Spelt, RefusedAt};
ghost use Rattle.c_parse.specs.Places as spec;

use crate::cursor::Cursor;
use crate::refusals::ParseRefusal;
use crate::sources::source;
use crate::stops::Stop;
use crate::symbols::Class;
use crate::tokens::symbols;
use c_lex::Token;
use c_tree::syntax::{Place, Tree};
use hls_pragma::reading_laws;
use mpc_values::Memory;
use std::alloc::Global;

// The place just behind the last byte.
fn end_of(src: &[u8]) -> Place
    requires { length src.now ≤ MAX_SOURCE_BYTES }
    ensures line { result.line ≡ (behind start src.now).line }
    ensures col { result.col ≡ (behind start src.now).col }
{
    let mut line: u32 = 1;
    let mut col: u32 = 1;
    for byte in src {
        if *byte == b'\n' {
            line += 1;
            col = 1;
        } else {
            col += 1;
        }
    }
    Place { line, col }
}

// What refuses a source that cannot go on with the next symbol.
fn refusal(src: &[u8], cursor: &Cursor<'_>) -> ParseRefusal
    requires { length src.now ≤ MAX_SOURCE_BYTES }
    ensures { result ≡ spec.refusal_at src.now cursor.now }
{
    if cursor.is_over() {
        let Place { line, col } = end_of(src);
        return ParseRefusal::Syntax { line, col };
    }
    let Place { line, col } = cursor.place();
    match cursor.class() {
        Class::Refused => ParseRefusal::Pragma { line },
        _ => ParseRefusal::Syntax { line, col },
    }
}

/// The tree of a source of at most 1,048,576 bytes, from its tokens (C99, sections 6.5 to 6.9):
/// there is one exactly where the tokens spell it. Else the refusal names the first token with which
/// the tokens are no front of a source any more, or that is the 1,025th of its expression, or the end
/// of the source where there is none; and a refused pragma that stands there by its line. The outer
/// error comes for want of memory.
pub fn parse(
    alloc: Global,
    src: &[u8],
    tokens: &[Token],
) -> Result<Result<Tree, ParseRefusal>, Memory>
    requires { length src.now ≤ MAX_SOURCE_BYTES }
    ensures tree { IfOk result (λ r. IfOk r (λ t. Spelt src.now tokens.now (tree_of t))) }
    ensures refused { IfOk result (λ r. IfErr r (RefusedAt src.now tokens.now)) }

    // The tokens spell at most one tree, or are refused in one way, and never both.
    ensures only_tree { IfOk result (λ r. MatchResult r
        (λ t. (u : x.Tree) → Spelt src.now tokens.now u → u ≡ tree_of t)
        (λ _. (u : x.Tree) → Spelt src.now tokens.now u → ⊥)) }
    ensures only_refusal { IfOk result (λ r. MatchResult r
        (λ _. (q : Refusal) → RefusedAt src.now tokens.now q → ⊥)
        (λ p. (q : Refusal) → RefusedAt src.now tokens.now q → q ≡ p)) }
{
    reading_laws();
    let symbols = symbols(alloc, src, tokens)?;
    let mut cursor = Cursor::new(src, symbols.as_slice());
    match source(alloc, &mut cursor) {
        Ok(tree) => Ok(Ok(tree)),
        Err(Stop::Refused) => Ok(Err(refusal(src, &cursor))),
        Err(Stop::Memory) => Err(Memory),
    }
}
