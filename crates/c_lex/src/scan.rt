//! The tokens of a source.
ghost use Rattle.std.specs.Prelude.{◌≡◌, ◌+◌, ◌≤◌, List, length, IfOk, IfErr, OnOk, MatchResult};
ghost use Rattle.mpc_values.specs.declared.limits.TheConstants.{MAX_SOURCE_BYTES};
ghost use Rattle.c_lex.specs.declared.tokens.LexRefusal.{LexRefusal as Refusal};
ghost use Rattle.c_lex.specs.declared.tokens.Token.{Token};
ghost use Rattle.c_lex.specs.Defined.{meanings};
ghost use Rattle.c_lex.specs.Lexed.{fresh_behind as fresh_after, Lexed, RefusedAt};
ghost use Rattle.c_lex.specs.Spans.{InOrder};
ghost use Rattle.c_lex.specs.Stops.{EndsAs, IsWithin, kept, known_from};

use crate::defines::Defines;
use crate::pieces::{Found, piece};
use crate::places::{Place, behind};
use crate::tokens::{Kind, LexRefusal, Token};
use mpc_values::Memory;
use std::alloc::Global;

/// Why a source gives no tokens.
#[derive(Clone, Copy, Debug, PartialEq, Eq)]
enum Stop {
    Memory,
    Refused(LexRefusal),
}

// Adds the token of a piece, where it gives one. That of a pragma begins behind its mark.
fn keep(tokens: &mut Vec<Token>, place: Place, found: Found, len: usize) -> Result<(), Memory>
    requires at { place.at ≤ MAX_SOURCE_BYTES }
    requires col { place.col ≤ MAX_SOURCE_BYTES + 1 }
    requires mark { found ≡ Found.Pragma → 7 ≤ len }
    ensures { OnOk result (tokens.new.items ≡ kept tokens.old.items place found len) }
{
    match found {
        Found::Taken(kind) => {
            let token = Token {
                kind,
                start: place.at,
                len,
                line: place.line,
                col: place.col,
            };
            tokens.push(token)?;
            Ok(())
        }
        Found::Pragma => {
            let token = Token {
                kind: Kind::Pragma,
                start: place.at + 7,
                len: len - 7,
                line: place.line,
                col: place.col + 7,
            };
            tokens.push(token)?;
            Ok(())
        }
        _ => Ok(()),
    }
}

// Notes the name that a piece defines, where it defines one.
fn note<'a>(defines: &mut Defines<'a>, src: &'a [u8], at: usize, found: Found) -> Result<(), Memory>
    requires { IsWithin src.now at found }
    ensures { OnOk result (meanings defines.new.numbers ≡ known_from src.entry.now at (meanings defines.old.numbers) found) }
{
    match found {
        Found::Define { from, len, number } => defines.put(
            &src[at + from..at + from + len],
            number,
        ),
        _ => Ok(()),
    }
}

// Whether only blanks stand in the line up to the end of a piece.
fn fresh_behind(fresh: bool, found: Found) -> bool
    ensures { result ≡ fresh_after fresh found }
{
    match found {
        Found::Feed => true,
        Found::Blank => fresh,
        _ => false,
    }
}

fn tokens_of(alloc: Global, src: &[u8]) -> Result<Vec<Token>, Stop>
    requires { length src.now ≤ MAX_SOURCE_BYTES }
    ensures tokens { IfOk result (λ v. Lexed src.now v.items) }
    ensures refused { IfErr result (EndsAs src.now) }
{
    let mut tokens = Vec::new(alloc);
    let mut defines = Defines::new(alloc);
    let mut place = Place {
        at: 0,
        line: 1,
        col: 1,
    };
    let mut fresh = true;
    while place.at < src.len() {
        match piece(src, place.at, fresh, &defines) {
            None => return Err(Stop::Refused(LexRefusal {
                line: place.line,
                col: place.col,
            })),
            Some((found, len)) => {
                if keep(&mut tokens, place, found, len).is_err() {
                    return Err(Stop::Memory);
                }
                if note(&mut defines, src, place.at, found).is_err() {
                    return Err(Stop::Memory);
                }
                fresh = fresh_behind(fresh, found);
                place = behind(src, place, len);
            }
        }
    }
    Ok(tokens)
}

/// The tokens of a source of at most 1,048,576 bytes, from left to right (C99, 6.4 and 6.10):
/// blanks, comments, `#include` and `#define` give none. Refused at the first byte at which no
/// piece of the source begins. An error stands for want of memory.
pub fn lex(alloc: Global, src: &[u8]) -> Result<Result<Vec<Token>, LexRefusal>, Memory>
    requires { length src.now ≤ MAX_SOURCE_BYTES }
    ensures tokens { IfOk result (λ r. IfOk r (λ v. Lexed src.now v.items)) }
    ensures refused { IfOk result (λ r. IfErr r (λ at. RefusedAt src.now at)) }
    ensures spans { IfOk result (λ r. IfOk r (λ v. InOrder 0 (length src.now) v.items)) }

    // A source has at most one list of tokens or one refusal, and never both.
    ensures only_tokens { IfOk result (λ r. MatchResult r
        (λ v. (ts : List Token) → Lexed src.now ts → ts ≡ v.items)
        (λ _. (ts : List Token) → Lexed src.now ts → ⊥)) }
    ensures only_refusal { IfOk result (λ r. MatchResult r
        (λ _. (q : Refusal) → RefusedAt src.now q → ⊥)
        (λ at. (q : Refusal) → RefusedAt src.now q → q ≡ at)) }
{
    match tokens_of(alloc, src) {
        Ok(tokens) => Ok(Ok(tokens)),
        Err(Stop::Refused(refusal)) => Ok(Err(refusal)),
        Err(Stop::Memory) => Err(Memory),
    }
}
