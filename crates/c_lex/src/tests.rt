//! Sources and their tokens, worked out by hand from the lexical rules.
use crate::{Key, Kind, Sign, Token, lex, lexing_laws};
use mpc_values::Memory;
use mpc_values::limits::MAX_SOURCE_BYTES;
use std::alloc::Global;
use std::test::Fail;

// Where the source is refused.
fn refusal(alloc: Global, src: &str) -> Result<Option<(u32, u32)>, Memory> {
    let src = src.as_bytes();
    if src.len() > MAX_SOURCE_BYTES {
        return Ok(None);
    }
    match lex(alloc, src)? {
        Ok(_) => Ok(None),
        Err(at) => Ok(Some((at.line, at.col))),
    }
}

// The tokens of the source, none where it is refused.
fn tokens(alloc: Global, src: &str) -> Result<Vec<Token>, Memory> {
    let src = src.as_bytes();
    if src.len() > MAX_SOURCE_BYTES {
        return Ok(Vec::new(alloc));
    }
    match lex(alloc, src)? {
        Ok(tokens) => Ok(tokens),
        Err(_) => Ok(Vec::new(alloc)),
    }
}

fn token(kind: Kind, start: usize, len: usize, line: u32, col: u32) -> Token {
    Token {
        kind,
        start,
        len,
        line,
        col,
    }
}

fn number(value: i64, long: bool) -> Kind {
    Kind::Number { value, long }
}

#[test]
fn each_refusal_at_its_place(rt: HostRuntime) -> Result<(), Fail> {
    let cases = [
        ("int main(void){ return 0@; }", 1, 25),
        ("017", 1, 1),
        (" 1u", 1, 2),
        ("12abc", 1, 1),
        ("08", 1, 1),
        ("0x", 1, 1),
        ("0X1F", 1, 1),
        ("0x1g", 1, 1),
        ("1LL", 1, 1),
        ("9223372036854775808", 1, 1),
        ("0x8000000000000000", 1, 1),
        ("a /* b", 1, 3),
        ("x\n  /*/", 2, 3),
        ("\"a\tb\"", 1, 1),
        ("\"\\q\"", 1, 1),
        ("\"abc", 1, 1),
        ("\"a\nb\"", 1, 1),
        ("a\0", 1, 2),
        ("'a'", 1, 1),
        ("\u{c}", 1, 1),
    ];
    for (src, line, col) in cases {
        assert_eq!(rt; refusal(rt.alloc(), src)?, Some((line, col)));
    }
    Ok(())
}

#[test]
fn each_refused_directive_at_its_hash(rt: HostRuntime) -> Result<(), Fail> {
    let cases = [
        ("#define int 4", 1, 1),
        ("#define A 4\n#define A 5", 2, 1),
        ("#define A 4\n#define A 4L", 2, 1),
        ("#define A", 1, 1),
        ("#define A B", 1, 1),
        ("#define A 4 x", 1, 1),
        ("#define A 4x", 1, 1),
        ("#define A 9223372036854775808", 1, 1),
        ("#define A(4)", 1, 1),
        ("  #define A 08", 1, 3),
        ("# define A 4", 1, 1),
        ("#includefoo", 1, 1),
        ("#pragmas", 1, 1),
        ("#undef A", 1, 1),
        ("a #pragma x", 1, 3),
        ("/* a */ #define A 4", 1, 9),
        ("#define A 4 /* x", 1, 13),
        ("#define A 4 /* x\n y */ #define B 5", 2, 7),
    ];
    for (src, line, col) in cases {
        assert_eq!(rt; refusal(rt.alloc(), src)?, Some((line, col)));
    }
    Ok(())
}

#[test]
fn each_kind_of_token(rt: HostRuntime) -> Result<(), Fail> {
    let cases = [
        ("int", Kind::Key(Key::Int)),
        ("_Imaginary", Kind::Key(Key::Imaginary)),
        ("MPI_Status", Kind::Key(Key::Status)),
        ("Int", Kind::Name),
        ("_a1", Kind::Name),
        ("0", number(0, false)),
        ("2147483647", number(2147483647, false)),
        ("2147483648", number(2147483648, true)),
        ("9223372036854775807", number(9223372036854775807, true)),
        ("7L", number(7, true)),
        ("7l", number(7, true)),
        ("0x7fffffff", number(2147483647, false)),
        ("0x80000000", number(2147483648, true)),
        ("0xFFl", number(255, true)),
        ("\"a\\n\\t\\\\\\\"\"", Kind::Text),
        ("<<=", Kind::Sign(Sign::ShiftLeftAssign)),
        (">>=", Kind::Sign(Sign::ShiftRightAssign)),
        ("!=", Kind::Sign(Sign::NotEqual)),
        ("~", Kind::Sign(Sign::Tilde)),
    ];
    for (src, kind) in cases {
        let found = tokens(rt.alloc(), src)?;
        assert_eq!(rt;
            found.as_slice(),
            [token(kind, 0, src.len(), 1, 1)].as_slice()
        );
    }
    lexing_laws();
    Ok(())
}

#[test]
fn the_longest_sign_is_taken(rt: HostRuntime) -> Result<(), Fail> {
    let found = tokens(rt.alloc(), "a+++b")?;
    let wanted = [
        token(Kind::Name, 0, 1, 1, 1),
        token(Kind::Sign(Sign::Increment), 1, 2, 1, 2),
        token(Kind::Sign(Sign::Plus), 3, 1, 1, 4),
        token(Kind::Name, 4, 1, 1, 5),
    ];
    assert_eq!(rt; found.as_slice(), wanted.as_slice());
    Ok(())
}

#[test]
fn comments_and_lines_are_counted(rt: HostRuntime) -> Result<(), Fail> {
    let found = tokens(rt.alloc(), "x/* \n */y//z\n\rw/* \0 */v")?;
    let wanted = [
        token(Kind::Name, 0, 1, 1, 1),
        token(Kind::Name, 8, 1, 2, 4),
        token(Kind::Name, 14, 1, 3, 2),
        token(Kind::Name, 22, 1, 3, 10),
    ];
    assert_eq!(rt; found.as_slice(), wanted.as_slice());
    Ok(())
}

#[test]
fn a_define_holds_behind_its_line(rt: HostRuntime) -> Result<(), Fail> {
    let found = tokens(rt.alloc(), "A\n#define A 4\n#define A 0x4 // again\nA A")?;
    let wanted = [
        token(Kind::Name, 0, 1, 1, 1),
        token(number(4, false), 37, 1, 4, 1),
        token(number(4, false), 39, 1, 4, 3),
    ];
    assert_eq!(rt; found.as_slice(), wanted.as_slice());
    let found = tokens(rt.alloc(), "#define A 4 /* x\n y */ int")?;
    assert_eq!(rt;
        found.as_slice(),
        [token(Kind::Key(Key::Int), 23, 3, 2, 7)].as_slice()
    );
    Ok(())
}

#[test]
fn a_pragma_is_the_rest_of_its_line(rt: HostRuntime) -> Result<(), Fail> {
    let found = tokens(rt.alloc(), " #pragma omp x\n#include <a.h> /* \n#pragma")?;
    let wanted = [
        token(Kind::Pragma, 8, 6, 1, 9),
        token(Kind::Pragma, 41, 0, 3, 8),
    ];
    assert_eq!(rt; found.as_slice(), wanted.as_slice());
    Ok(())
}
