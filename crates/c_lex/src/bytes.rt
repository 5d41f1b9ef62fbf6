//! The kinds of bytes of a source, and runs of them.
ghost use Rattle.std.specs.Prelude.{◌≡◌, ◌+◌, ◌≤◌, length, drop};
ghost use Rattle.c_lex.specs.Bytes.{is_gap as gap, is_letter as letter, is_digit as digit, is_hex as hex, is_name_byte as name_byte, is_plain as plain, is_escape as escape};
ghost use Rattle.c_lex.specs.Classes.{passes};
ghost use Rattle.c_lex.specs.Front.{run as run_of};

/// Bytes that make up a run.
#[derive(Clone, Copy, Debug, PartialEq, Eq)]
pub enum Class {
    /// A letter, a digit or an underscore.
    NameByte,
    /// A blank within a line.
    Gap,
    /// Any byte but a line feed.
    LineByte,
}

impl Class {
    fn has(self, byte: u8) -> bool
        ensures { result ≡ passes self byte }
    {
        match self {
            Class::NameByte => is_name_byte(byte),
            Class::Gap => is_gap(byte),
            Class::LineByte => byte != b'\n',
        }
    }
}

pub fn is_gap(byte: u8) -> bool
    ensures { result ≡ gap byte }
{
    byte == b' ' || byte == b'\t' || byte == b'\r'
}

pub fn is_letter(byte: u8) -> bool
    ensures { result ≡ letter byte }
{
    (97 <= byte && byte <= 122) || (65 <= byte && byte <= 90) || byte == b'_'
}

pub fn is_digit(byte: u8) -> bool
    ensures { result ≡ digit byte }
{
    48 <= byte && byte <= 57
}

pub fn is_hex(byte: u8) -> bool
    ensures { result ≡ hex byte }
{
    is_digit(byte) || (97 <= byte && byte <= 102) || (65 <= byte && byte <= 70)
}

fn is_name_byte(byte: u8) -> bool
    ensures { result ≡ name_byte byte }
{
    is_letter(byte) || is_digit(byte)
}

/// Whether a text holds this byte as it is.
pub fn is_plain(byte: u8) -> bool
    ensures { result ≡ plain byte }
{
    32 <= byte && byte <= 126 && byte != b'"' && byte != b'\\'
}

/// Whether a text may hold this byte behind a backslash.
pub fn is_escape(byte: u8) -> bool
    ensures { result ≡ escape byte }
{
    byte == b'n' || byte == b't' || byte == b'\\' || byte == b'"'
}

/// How many bytes of the class stand from here on.
pub fn run(class: Class, src: &[u8], from: usize) -> usize
    requires { from ≤ length src.now }
    ensures count { result ≡ run_of (passes class) (drop from src.now) }
    ensures within { from + result ≤ length src.now }
{
    let mut end = from;
    while end < src.len() && class.has(src[end]) {
        end += 1;
    }
    end - from
}
