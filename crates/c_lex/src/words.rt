//! What a word spells: a directive's word, or a number.
ghost use Rattle.std.specs.Prelude.{◌≡◌, ◌≤◌, true, length, IfSome};
ghost use Rattle.std.specs.Str.{bytes_eq};
ghost use Rattle.c_lex.specs.Bytes.{is_digit as digit, is_hex as hex};
ghost use Rattle.c_lex.specs.Words.{digit_worth, hex_worth as worth_of_hex};
ghost use Rattle.c_lex.specs.Front.{numeral_from, decimal_of, hexadecimal_of, is_marked as marked, numeral_of, is_suffixed as suffixed, number_of};

use crate::bytes::{is_digit, is_hex};
use crate::tokens::Literal;

const LONG_MAX: u64 = 9223372036854775807;

const INT_MAX: u64 = 2147483647;

/// Whether the word is this one.
pub fn is_word(word: &[u8], other: &str) -> bool
    ensures { result ≡ bytes_eq word.now other.now }
{
    word == other.as_bytes()
}

fn decimal_digits(word: &[u8]) -> Option<u64>
    ensures value { result ≡ numeral_from digit 9 digit_worth 0 word.now }
    ensures fits { IfSome result (λ n. n ≤ 9223372036854775807) }
{
    let mut value: u64 = 0;
    for byte in word {
        if !is_digit(*byte) {
            return None;
        }
        let worth = u64::from(*byte - b'0');
        if value > (LONG_MAX - worth) / 10 {
            return None;
        }
        value = value * 10 + worth;
    }
    Some(value)
}

// What a digit of a hexadecimal number is worth.
fn hex_worth(byte: u8) -> u8
    requires { hex byte ≡ true }
    ensures value { result ≡ worth_of_hex byte }
    ensures small { result ≤ 15 }
{
    if is_digit(byte) {
        byte - b'0'
    } else if byte >= b'a' {
        byte - b'a' + 10
    } else {
        byte - b'A' + 10
    }
}

fn hexadecimal_digits(word: &[u8]) -> Option<u64>
    ensures value { result ≡ numeral_from hex 15 worth_of_hex 0 word.now }
    ensures fits { IfSome result (λ n. n ≤ 9223372036854775807) }
{
    let mut value: u64 = 0;
    for byte in word {
        if !is_hex(*byte) {
            return None;
        }
        let worth = u64::from(hex_worth(*byte));
        if value > (LONG_MAX - worth) / 16 {
            return None;
        }
        value = value * 16 + worth;
    }
    Some(value)
}

fn decimal(word: &[u8]) -> Option<u64>
    ensures value { result ≡ decimal_of word.now }
    ensures fits { IfSome result (λ n. n ≤ 9223372036854775807) }
{
    if word.is_empty() || word.len() > 1 && word[0] == b'0' {
        return None;
    }
    decimal_digits(word)
}

fn hexadecimal(word: &[u8]) -> Option<u64>
    ensures value { result ≡ hexadecimal_of word.now }
    ensures fits { IfSome result (λ n. n ≤ 9223372036854775807) }
{
    if word.is_empty() {
        return None;
    }
    hexadecimal_digits(word)
}

// Whether the word begins with 0x.
fn is_marked(word: &[u8]) -> bool
    ensures { result ≡ marked word.now }
{
    word.len() > 1 && word[0] == b'0' && word[1] == b'x'
}

fn numeral(word: &[u8]) -> Option<u64>
    ensures value { result ≡ numeral_of word.now }
    ensures fits { IfSome result (λ n. n ≤ 9223372036854775807) }
{
    if is_marked(word) {
        hexadecimal(&word[2..])
    } else {
        decimal(word)
    }
}

// Whether the last byte is L or l.
fn is_suffixed(word: &[u8]) -> bool
    ensures { result ≡ suffixed word.now }
{
    if word.is_empty() {
        return false;
    }
    let last = word[word.len() - 1];
    last == b'L' || last == b'l'
}

/// The number that a word spells, or None where it spells none (C99, 6.4.4.1, without octal
/// numbers and without unsigned ones).
pub fn number(word: &[u8]) -> Option<Literal>
    ensures { result ≡ number_of word.now }
{
    if is_suffixed(word) {
        let value = numeral(&word[..word.len() - 1])?;
        return Some(Literal {
            value: value as i64,
            long: true,
        });
    }
    let value = numeral(word)?;
    Some(Literal {
        value: value as i64,
        long: value > INT_MAX,
    })
}
