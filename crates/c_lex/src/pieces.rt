//! The piece that stands at a place of the source.
ghost use Rattle.std.specs.Prelude.{◌≡◌, ◌+◌, ◌<◌, ◌≤◌, false, length, drop, IfSome};
ghost use Rattle.std.specs.Option.{option_map};
ghost use Rattle.c_lex.specs.Defined.{meanings};
ghost use Rattle.c_lex.specs.Lookups.{sign_at as sign_front};
ghost use Rattle.mpc_values.specs.declared.limits.TheConstants.{MAX_SOURCE_BYTES};
ghost use Rattle.c_lex.specs.Front.{text_len as text_length, close_len as close_length, text_found, comment_found, sign_found, slash_of, word_at, number_at, other_at, piece_at, number_kind as kind_of_number, word_kind as kind_of_word};

use crate::bytes::{Class, is_digit, is_escape, is_gap, is_letter, is_plain, run};
use crate::defines::Defines;
use crate::directives::directive_piece;
use crate::keys::key_of;
use crate::signs::sign_at;
use crate::tokens::{Kind, Literal};
use crate::words::number;

/// A piece of the source.
#[derive(Clone, Copy, Debug, PartialEq, Eq)]
pub enum Found {
    Feed,
    /// A blank that does not end the line.
    Blank,
    Comment,
    Include,
    /// A definition. Its name is the `len` bytes from the byte `from` of the piece on.
    Define {
        from: usize,
        len: usize,
        number: Literal,
    },
    Pragma,
    /// A token of this kind.
    Taken(Kind),
}

fn number_kind(number: Literal) -> Kind
    ensures { result ≡ kind_of_number number }
{
    Kind::Number {
        value: number.value,
        long: number.long,
    }
}

// What a word that begins with a letter is.
fn word_kind(word: &[u8], defines: &Defines) -> Kind
    ensures { result ≡ kind_of_word (meanings defines.now.numbers) word.now }
{
    if let Some(key) = key_of(word) {
        return Kind::Key(key);
    }
    match defines.find(word) {
        None => Kind::Name,
        Some(literal) => number_kind(literal),
    }
}

// How long a text is behind its opening quote.
fn text_len(src: &[u8], from: usize) -> Option<usize>
    requires { from ≤ length src.now }
    ensures count { result ≡ text_length false (drop from src.now) }
    ensures within { IfSome result (λ n. from + n ≤ length src.now) }
{
    let mut at = from;
    let mut escaped = false;
    while at < src.len() {
        let byte = src[at];
        if escaped {
            if !is_escape(byte) {
                return None;
            }
            escaped = false;
        } else if byte == b'"' {
            return Some(at + 1 - from);
        } else if byte == b'\\' {
            escaped = true;
        } else if !is_plain(byte) {
            return None;
        }
        at += 1;
    }
    None
}

// How far the end of a comment is behind its opening.
fn close_len(src: &[u8], from: usize) -> Option<usize>
    requires { from ≤ length src.now }
    ensures count { result ≡ close_length false (drop from src.now) }
    ensures within { IfSome result (λ n. from + n ≤ length src.now) }
{
    let mut at = from;
    let mut star = false;
    while at < src.len() {
        let byte = src[at];
        if star && byte == b'/' {
            return Some(at + 1 - from);
        }
        star = byte == b'*';
        at += 1;
    }
    None
}

// The name, the key or the defined number whose first letter stands here.
fn word_piece(src: &[u8], at: usize, defines: &Defines) -> Option<(Found, usize)>
    requires { at < length src.now }
    ensures { result ≡ word_at (meanings defines.now.numbers) (drop at src.now) }
{
    let len = run(Class::NameByte, src, at);
    let kind = word_kind(&src[at..at + len], defines);
    Some((Found::Taken(kind), len))
}

// The number whose first digit stands here.
fn number_piece(src: &[u8], at: usize) -> Option<(Found, usize)>
    requires { at < length src.now }
    ensures { result ≡ number_at (drop at src.now) }
{
    let len = run(Class::NameByte, src, at);
    match number(&src[at..at + len]) {
        None => None,
        Some(literal) => Some((Found::Taken(number_kind(literal)), len)),
    }
}

// The text whose opening quote stands before this place.
fn text_piece(src: &[u8], from: usize) -> Option<(Found, usize)>
    requires { from ≤ length src.now }
    ensures { result ≡ option_map text_found (text_length false (drop from src.now)) }
{
    match text_len(src, from) {
        None => None,
        Some(len) => Some((Found::Taken(Kind::Text), len + 1)),
    }
}

// The comment whose opening stands before this place.
fn comment_piece(src: &[u8], from: usize) -> Option<(Found, usize)>
    requires { from ≤ length src.now }
    ensures { result ≡ option_map comment_found (close_length false (drop from src.now)) }
{
    match close_len(src, from) {
        None => None,
        Some(len) => Some((Found::Comment, 2 + len)),
    }
}

// The sign that stands here.
fn sign_piece(src: &[u8], at: usize) -> Option<(Found, usize)>
    requires { at < length src.now }
    ensures { result ≡ sign_found (sign_front (drop at src.now)) }
{
    match sign_at(&src[at..]) {
        None => None,
        Some((sign, len)) => Some((Found::Taken(Kind::Sign(sign)), len)),
    }
}

// The comment or the sign that begins with the slash here.
fn slash_piece(src: &[u8], at: usize) -> Option<(Found, usize)>
    requires { at < length src.now }
    ensures { result ≡ slash_of (drop at src.now) }
{
    if at + 1 == src.len() {
        return sign_piece(src, at);
    }
    let second = src[at + 1];
    if second == b'/' {
        return Some((Found::Comment, 2 + run(Class::LineByte, src, at + 2)));
    }
    if second == b'*' {
        return comment_piece(src, at + 2);
    }
    sign_piece(src, at)
}

// The piece that stands here and begins with this byte, where it is no blank and no word.
fn other_piece(src: &[u8], at: usize, fresh: bool, defines: &Defines) -> Option<(Found, usize)>
    requires room { at < length src.now }
    requires short { length src.now ≤ MAX_SOURCE_BYTES }
    ensures { result ≡ other_at fresh (meanings defines.now.numbers) (drop at src.now) }
{
    let first = src[at];
    if first == b'"' {
        return text_piece(src, at + 1);
    }
    if first == b'#' {
        return if fresh {
            directive_piece(src, at + 1, defines)
        } else {
            None
        };
    }
    if first == b'/' {
        return slash_piece(src, at);
    }
    sign_piece(src, at)
}

/// The piece that stands here and its length, or None where no piece begins. A directive begins
/// only where only blanks stand before it in its line.
pub fn piece(src: &[u8], at: usize, fresh: bool, defines: &Defines) -> Option<(Found, usize)>
    requires room { at < length src.now }
    requires short { length src.now ≤ MAX_SOURCE_BYTES }
    ensures { result ≡ piece_at fresh (meanings defines.now.numbers) (drop at src.now) }
{
    let first = src[at];
    if first == b'\n' {
        return Some((Found::Feed, 1));
    }
    if is_gap(first) {
        return Some((Found::Blank, 1));
    }
    if is_letter(first) {
        return word_piece(src, at, defines);
    }
    if is_digit(first) {
        return number_piece(src, at);
    }
    other_piece(src, at, fresh, defines)
}
