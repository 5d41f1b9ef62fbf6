//! The symbols of the tokens of a source.
ghost use Rattle.std.specs.Prelude.{◌≡◌, [], IfOk, length, take, drop, map};
ghost use Rattle.c_parse.specs.Symbols as spec;
ghost use Rattle.c_parse.specs.Symbols.{Symbols, sym_of};
ghost use Rattle.c_parse.specs.Seen.{Sees, made};

use crate::symbols::{Class, Key, Mark, Symbol};
use c_lex::{Key as Word, Kind, Sign, Token};
use c_tree::syntax::{Binary, Change, Place, Unary};
use c_tree::{Identifier, Identifiers};
use hls_pragma::{Names, Pragma, read_pragma};
use mpc_values::Memory;
use std::alloc::Global;

// What a key is to the grammar.
#[tactic(auto, unfolding(crate::specs::Symbols::key_class))]
fn key_class(key: Word) -> Class
    ensures { result ≡ spec.key_class key }
{
    let key = match key {
        Word::Int => Key::Int,
        Word::Long => Key::Long,
        Word::Void => Key::Void,
        Word::Char => Key::Char,
        Word::Static => Key::Static,
        Word::If => Key::If,
        Word::Else => Key::Else,
        Word::While => Key::While,
        Word::Do => Key::Do,
        Word::For => Key::For,
        Word::Return => Key::Return,
        Word::Break => Key::Break,
        Word::Continue => Key::Continue,
        Word::SizeOf => Key::SizeOf,
        Word::Comm => Key::Comm,
        Word::Request => Key::Request,
        Word::Status => Key::Status,
        _ => return Class::Other,
    };
    Class::Key(key)
}

// What a sign that stands between operands is to the grammar.
#[tactic(auto, unfolding(crate::specs::Symbols::operator_class))]
fn operator_class(sign: Sign) -> Class
    ensures { result ≡ spec.operator_class sign }
{
    match sign {
        Sign::Star => Class::Binary(Binary::Multiply),
        Sign::Slash => Class::Binary(Binary::Divide),
        Sign::Percent => Class::Binary(Binary::Remainder),
        Sign::Plus => Class::Binary(Binary::Add),
        Sign::Minus => Class::Binary(Binary::Subtract),
        Sign::ShiftLeft => Class::Binary(Binary::ShiftLeft),
        Sign::ShiftRight => Class::Binary(Binary::ShiftRight),
        Sign::Less => Class::Binary(Binary::Less),
        Sign::Greater => Class::Binary(Binary::Greater),
        Sign::LessEqual => Class::Binary(Binary::LessEqual),
        Sign::GreaterEqual => Class::Binary(Binary::GreaterEqual),
        Sign::Equal => Class::Binary(Binary::Equal),
        Sign::NotEqual => Class::Binary(Binary::NotEqual),
        Sign::Ampersand => Class::Binary(Binary::BitAnd),
        Sign::Caret => Class::Binary(Binary::BitXor),
        Sign::Bar => Class::Binary(Binary::BitOr),
        Sign::LogicalAnd => Class::Binary(Binary::And),
        Sign::LogicalOr => Class::Binary(Binary::Or),
        Sign::MultiplyAssign => Class::Assign(Some(Binary::Multiply)),
        Sign::DivideAssign => Class::Assign(Some(Binary::Divide)),
        Sign::RemainderAssign => Class::Assign(Some(Binary::Remainder)),
        Sign::AddAssign => Class::Assign(Some(Binary::Add)),
        Sign::SubtractAssign => Class::Assign(Some(Binary::Subtract)),
        Sign::ShiftLeftAssign => Class::Assign(Some(Binary::ShiftLeft)),
        Sign::ShiftRightAssign => Class::Assign(Some(Binary::ShiftRight)),
        Sign::AndAssign => Class::Assign(Some(Binary::BitAnd)),
        Sign::XorAssign => Class::Assign(Some(Binary::BitXor)),
        Sign::OrAssign => Class::Assign(Some(Binary::BitOr)),
        _ => Class::Other,
    }
}

// What a sign is to the grammar.
#[tactic(auto, unfolding(crate::specs::Symbols::sign_class))]
fn sign_class(sign: Sign) -> Class
    ensures { result ≡ spec.sign_class sign }
{
    match sign {
        Sign::OpenParenthesis => Class::Mark(Mark::Open),
        Sign::CloseParenthesis => Class::Mark(Mark::Close),
        Sign::OpenBracket => Class::Mark(Mark::OpenSquare),
        Sign::CloseBracket => Class::Mark(Mark::CloseSquare),
        Sign::OpenBrace => Class::Mark(Mark::OpenBrace),
        Sign::CloseBrace => Class::Mark(Mark::CloseBrace),
        Sign::Semicolon => Class::Mark(Mark::Semicolon),
        Sign::Comma => Class::Mark(Mark::Comma),
        Sign::Dot => Class::Mark(Mark::Dot),
        Sign::Question => Class::Mark(Mark::Question),
        Sign::Colon => Class::Mark(Mark::Colon),
        Sign::Exclamation => Class::Unary(Unary::Not),
        Sign::Tilde => Class::Unary(Unary::Complement),
        Sign::Increment => Class::Change(Change::Increment),
        Sign::Decrement => Class::Change(Change::Decrement),
        Sign::Assign => Class::Assign(None),
        _ => operator_class(sign),
    }
}

/// So many bytes from a place on, as far as there are.
pub fn part(bytes: &[u8], start: usize, len: usize) -> &[u8]
    ensures { result.now ≡ take len (drop start bytes.entry.now) }
{
    if start > bytes.len() {
        return &[];
    }
    let behind = &bytes[start..];
    if len > behind.len() {
        return behind;
    }
    &behind[..len]
}

// The names that a directive lists.
fn named_in(alloc: Global, line: &[u8], names: Names) -> Result<Identifiers, Memory>
    ensures { IfOk result (λ list. list ≡ spec.named_in line.now names) }
{
    let mut list = Vec::new(alloc);
    for name in names.as_slice() {
        let bytes = Vec::from_slice(alloc, part(line, name.start, name.len))?;
        list.push(Identifier::of(bytes))?;
    }
    Ok(Identifiers::of(list))
}

fn symbol(token: &Token, class: Class, names: Identifiers) -> Symbol
    ensures { result ≡ made token.now class names }
{
    Symbol {
        class,
        start: token.start,
        len: token.len,
        at: Place {
            line: token.line,
            col: token.col,
        },
        names,
    }
}

// The symbol of a pragma; a foreign one has none.
fn pragma_symbol(alloc: Global, src: &[u8], token: &Token) -> Result<Option<Symbol>, Memory>
    requires { token.now.kind ≡ Kind.Pragma }
    ensures { IfOk result (Sees src.now token.now) }
{
    let line = part(src, token.start, token.len);
    match read_pragma(alloc, line)? {
        Ok(Pragma::Scope { level, names }) => {
            let names = named_in(alloc, line, names)?;
            Ok(Some(symbol(token, Class::Scope(level), names)))
        }
        Ok(Pragma::Single { names, nowait }) => {
            let names = named_in(alloc, line, names)?;
            Ok(Some(symbol(token, Class::Single(nowait), names)))
        }
        Ok(Pragma::Barrier { names }) => {
            let names = named_in(alloc, line, names)?;
            Ok(Some(symbol(token, Class::Barrier, names)))
        }
        Ok(Pragma::Foreign) => Ok(None),
        Err(_) => Ok(Some(alone(alloc, token, Class::Refused))),
    }
}

// A symbol that lists no names.
fn alone(alloc: Global, token: &Token, class: Class) -> Symbol
    ensures { result ≡ made token.now class [] }
{
    symbol(token, class, Identifiers::of(Vec::new(alloc)))
}

// The symbol of a token; a foreign pragma has none.
fn symbol_of(alloc: Global, src: &[u8], token: Token) -> Result<Option<Symbol>, Memory>
    ensures { IfOk result (Sees src.now token) }
{
    match token.kind {
        Kind::Pragma => pragma_symbol(alloc, src, &token),
        Kind::Name => Ok(Some(alone(alloc, &token, Class::Name))),
        Kind::Number { value, long } => Ok(Some(alone(alloc, &token, Class::Number(value, long)))),
        Kind::Text => Ok(Some(alone(alloc, &token, Class::Text))),
        Kind::Key(key) => Ok(Some(alone(alloc, &token, key_class(key)))),
        Kind::Sign(sign) => Ok(Some(alone(alloc, &token, sign_class(sign)))),
    }
}

/// The symbols of the tokens of a source. A foreign pragma has none.
pub fn symbols(alloc: Global, src: &[u8], tokens: &[Token]) -> Result<Vec<Symbol>, Memory>
    ensures { IfOk result (λ v. Symbols src.now tokens.now (map (sym_of src.now) v.items)) }
{
    let mut symbols = Vec::new(alloc);
    for token in tokens {
        if let Some(symbol) = symbol_of(alloc, src, *token)? {
            symbols.push(symbol)?;
        }
    }
    Ok(symbols)
}
