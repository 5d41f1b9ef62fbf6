//! Tokens, and the place at which a source is refused.
use crate::keys::Key;
use crate::signs::Sign;

/// What a token is.
#[derive(Clone, Copy, Debug, PartialEq, Eq)]
pub enum Kind {
    Name,
    Key(Key),
    /// A number from 0 to the greatest value of 64 signed bits; it is a long where it has the
    /// suffix, or is too large for an int.
    Number { value: i64, long: bool },
    Text,
    Sign(Sign),
    /// What stands behind `#pragma` in its line.
    Pragma,
}

/// A piece of the source that the grammar sees: its bytes are the `len` bytes from `start` on.
/// Lines and columns count from 1, columns in bytes.
#[derive(Clone, Copy, Debug, PartialEq, Eq)]
pub struct Token {
    pub kind: Kind,
    pub start: usize,
    pub len: usize,
    pub line: u32,
    pub col: u32,
}

/// The first byte that the lexical rules refuse.
#[derive(Clone, Copy, Debug, PartialEq, Eq, thiserror::Error)]
#[error("line {line}, column {col}: no token begins here")]
pub struct LexRefusal {
    pub line: u32,
    pub col: u32,
}

/// The number that a word spells, or that a name stands for.
#[derive(Clone, Copy, Debug, PartialEq, Eq)]
pub struct Literal {
    pub value: i64,
    pub long: bool,
}
