//! What the grammar sees of a token.
use c_tree::Identifiers;
use c_tree::syntax::{Binary, Change, Place, Unary};
use mpc_values::Level;

/// A key that a production uses (C99, section 6.4.1).
#[derive(Clone, Copy, Debug, PartialEq, Eq)]
pub enum Key {
    Int,
    Long,
    Void,
    Char,
    Static,
    If,
    Else,
    While,
    Do,
    For,
    Return,
    Break,
    Continue,
    SizeOf,
    Comm,
    Request,
    Status,
}

/// A sign that is no operator (C99, section 6.4.6).
#[derive(Clone, Copy, Debug, PartialEq, Eq)]
pub enum Mark {
    Open,
    Close,
    OpenSquare,
    CloseSquare,
    OpenBrace,
    CloseBrace,
    Semicolon,
    Comma,
    Dot,
    Question,
    Colon,
}

/// What a token is to the grammar.
#[derive(Clone, Copy, Debug, PartialEq, Eq)]
pub enum Class {
    Name,
    /// A number's value, and whether it is a long.
    Number(i64, bool),
    Text,
    Key(Key),
    Mark(Mark),
    /// A sign that stands between operands, some of which also stand before one.
    Binary(Binary),
    /// A sign that only stands before an operand.
    Unary(Unary),
    Change(Change),
    /// `=`, or a sign that computes and assigns.
    Assign(Option<Binary>),
    /// A directive that gives variables a level.
    Scope(Level),
    /// A directive whose block one task runs, and whether it is `nowait`.
    Single(bool),
    /// A directive at which tasks wait for each other.
    Barrier,
    /// A line that begins as a directive for shared variables, and is none.
    Refused,
    /// A key that stands in no production; also what stands behind the last symbol.
    Other,
}

/// A token as the grammar sees it: its span, its place, and the names that a directive lists.
#[derive(Debug, Drop)]
pub struct Symbol {
    pub class: Class,
    pub start: usize,
    pub len: usize,
    pub at: Place,
    pub names: Identifiers,
}
