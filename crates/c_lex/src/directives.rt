//! The directives, each on a line of its own.
ghost use Rattle.std.specs.Prelude.{◌≡◌, ◌+◌, ◌≤◌, ◌&&◌, not, length, take, drop, IfSome};
ghost use Rattle.c_lex.specs.declared.directives.Along.TheVariants.{Between};
ghost use Rattle.c_lex.specs.Defined.{meanings};
ghost use Rattle.c_lex.specs.Front.{is_line_over as line_over, agrees as may_be, numbered as numbered_at, define_agreed, define_named as named_at, define_at, directive_named as directive_of, directive_at, starts};
ghost use Rattle.c_lex.specs.Bytes.{is_letter as letter};
ghost use Rattle.c_lex.specs.Lookups.{is_key as key_test};
ghost use Rattle.mpc_values.specs.declared.limits.TheConstants.{MAX_SOURCE_BYTES};

use crate::bytes::{Class, is_gap, is_letter, run};
use crate::defines::Defines;
use crate::keys::is_key;
use crate::pieces::Found;
use crate::tokens::Literal;
use crate::words::{is_word, number};

/// Where a walk along a line stands.
#[derive(Clone, Copy, Debug, PartialEq, Eq)]
pub enum Along {
    /// Between blanks and comments.
    Between,
    /// Behind the first slash of a comment.
    Slash,
    /// In a comment, and behind a star of it or not.
    Inside { star: bool },
}

// Whether nothing but blanks and comments stands up to the line's end. A comment may run over it.
fn is_line_over(src: &[u8], from: usize) -> bool
    requires { from ≤ length src.now }
    ensures { result ≡ line_over Between (drop from src.now) }
{
    let mut along = Along::Between;
    let mut at = from;
    while at < src.len() {
        let byte = src[at];
        match along {
            Along::Between => {
                if byte == b'\n' {
                    return true;
                }
                if byte == b'/' {
                    along = Along::Slash;
                } else if !is_gap(byte) {
                    return false;
                }
            }
            Along::Slash => {
                if byte == b'/' {
                    return true;
                }
                if byte != b'*' {
                    return false;
                }
                along = Along::Inside { star: false };
            }
            Along::Inside { star } => {
                if byte == b'\n' {
                    return true;
                }
                if star && byte == b'/' {
                    along = Along::Between;
                } else {
                    along = Along::Inside { star: byte == b'*' };
                }
            }
        }
        at += 1;
    }
    match along {
        Along::Slash => false,
        _ => true,
    }
}

// Whether a name that has this number may be given that one.
fn agrees(old: Option<Literal>, number: Literal) -> bool
    ensures { result ≡ may_be old number }
{
    match old {
        None => true,
        Some(other) => other.value == number.value && other.long == number.long,
    }
}

// Whether a letter stands here.
fn starts_name(src: &[u8], at: usize) -> bool
    ensures { result ≡ starts letter (drop at src.now) }
{
    at < src.len() && is_letter(src[at])
}

// Blanks and a number, behind which the line is over, and their length.
fn numbered(src: &[u8], from: usize) -> Option<(Literal, usize)>
    requires { from ≤ length src.now }
    ensures value { result ≡ numbered_at (drop from src.now) }
    ensures within { IfSome result (λ n. from + n.1 ≤ length src.now) }
{
    let space = run(Class::Gap, src, from);
    let at = from + space;
    let len = run(Class::NameByte, src, at);
    if !is_line_over(src, at + len) {
        return None;
    }
    match number(&src[at..at + len]) {
        None => None,
        Some(literal) => Some((literal, space + len)),
    }
}

// Whether a name that is no key stands here, so long.
fn is_definable(src: &[u8], at: usize, len: usize) -> bool
    requires { at + len ≤ length src.now }
    ensures { result ≡ (starts letter (drop at src.now) && not (key_test (take len (drop at src.now)))) }
{
    starts_name(src, at) && !is_key(&src[at..at + len])
}

// The definition of this name, so far behind the directive's word, where the number agrees.
#[tactic(auto, unfolding(crate::specs::Front::define_agreed))]
fn agreed(
    defines: &Defines,
    gap: usize,
    name: &[u8],
    len: usize,
    value: Option<(Literal, usize)>,
) -> Option<(Found, usize)>
    requires gap { gap ≤ MAX_SOURCE_BYTES }
    requires len { len ≤ MAX_SOURCE_BYTES }
    requires rest { IfSome value (λ v. v.1 ≤ MAX_SOURCE_BYTES) }
    ensures { result ≡ define_agreed (meanings defines.now.numbers) gap name.now len value }
{
    let (number, rest) = value?;
    if agrees(defines.find(name), number) {
        let found = Found::Define {
            from: 7 + gap,
            len,
            number,
        };
        Some((found, 7 + gap + len + rest))
    } else {
        None
    }
}

// The definition whose name stands here, so far behind the directive's word.
fn define_named(src: &[u8], at: usize, gap: usize, defines: &Defines) -> Option<(Found, usize)>
    requires room { at ≤ length src.now }
    requires small { gap ≤ length src.now }
    requires short { length src.now ≤ MAX_SOURCE_BYTES }
    ensures { result ≡ named_at (meanings defines.now.numbers) gap (drop at src.now) }
{
    let len = run(Class::NameByte, src, at);
    if !is_definable(src, at, len) {
        return None;
    }
    agreed(
        defines,
        gap,
        &src[at..at + len],
        len,
        numbered(src, at + len),
    )
}

// The definition behind its directive's word.
fn define_piece(src: &[u8], at: usize, defines: &Defines) -> Option<(Found, usize)>
    requires room { at ≤ length src.now }
    requires short { length src.now ≤ MAX_SOURCE_BYTES }
    ensures { result ≡ define_at (meanings defines.now.numbers) (drop at src.now) }
{
    let gap = run(Class::Gap, src, at);
    define_named(src, at + gap, gap, defines)
}

// The directive of this word, which stands here.
fn directive_named(src: &[u8], at: usize, word: &[u8], defines: &Defines) -> Option<(Found, usize)>
    requires room { at + length word.now ≤ length src.now }
    requires short { length src.now ≤ MAX_SOURCE_BYTES }
    ensures { result ≡ directive_of (meanings defines.now.numbers) word.now (drop at src.now) }
{
    if is_word(word, "include") {
        Some((Found::Include, 8 + run(Class::LineByte, src, at + 7)))
    } else if is_word(word, "pragma") {
        Some((Found::Pragma, 7 + run(Class::LineByte, src, at + 6)))
    } else if is_word(word, "define") {
        define_piece(src, at + 6, defines)
    } else {
        None
    }
}

/// The directive whose # stands before this place, and its length with the #.
pub fn directive_piece(src: &[u8], at: usize, defines: &Defines) -> Option<(Found, usize)>
    requires room { at ≤ length src.now }
    requires short { length src.now ≤ MAX_SOURCE_BYTES }
    ensures { result ≡ directive_at (meanings defines.now.numbers) (drop at src.now) }
{
    let len = run(Class::NameByte, src, at);
    directive_named(src, at, &src[at..at + len], defines)
}
