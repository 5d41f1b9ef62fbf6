//! The signs, of one to three bytes.
ghost use Rattle.std.specs.Prelude.{◌≡◌, map};
ghost use Rattle.c_lex.specs.Lookups.{row_of, first_sign, sign_at as sign_found};

/// A sign, named after its glyph where it has several meanings, and after its meaning elsewhere
/// (C99, section 6.4.6).
#[derive(Clone, Copy, Debug, PartialEq, Eq)]
pub enum Sign {
    OpenParenthesis,
    CloseParenthesis,
    OpenBracket,
    CloseBracket,
    OpenBrace,
    CloseBrace,
    Semicolon,
    Comma,
    Dot,
    Question,
    Colon,
    Plus,
    Minus,
    Star,
    Slash,
    Percent,
    Ampersand,
    Bar,
    Caret,
    Tilde,
    Exclamation,
    Less,
    Greater,
    Assign,
    Increment,
    Decrement,
    LogicalAnd,
    LogicalOr,
    Equal,
    NotEqual,
    LessEqual,
    GreaterEqual,
    ShiftLeft,
    ShiftRight,
    AddAssign,
    SubtractAssign,
    MultiplyAssign,
    DivideAssign,
    RemainderAssign,
    AndAssign,
    OrAssign,
    XorAssign,
    ShiftLeftAssign,
    ShiftRightAssign,
}

// The longer signs come first.
const SIGNS: [(&str, Sign); 44] = [
    ("<<=", Sign::ShiftLeftAssign),
    (">>=", Sign::ShiftRightAssign),
    ("++", Sign::Increment),
    ("--", Sign::Decrement),
    ("&&", Sign::LogicalAnd),
    ("||", Sign::LogicalOr),
    ("==", Sign::Equal),
    ("!=", Sign::NotEqual),
    ("<=", Sign::LessEqual),
    (">=", Sign::GreaterEqual),
    ("<<", Sign::ShiftLeft),
    (">>", Sign::ShiftRight),
    ("+=", Sign::AddAssign),
    ("-=", Sign::SubtractAssign),
    ("*=", Sign::MultiplyAssign),
    ("/=", Sign::DivideAssign),
    ("%=", Sign::RemainderAssign),
    ("&=", Sign::AndAssign),
    ("|=", Sign::OrAssign),
    ("^=", Sign::XorAssign),
    ("(", Sign::OpenParenthesis),
    (")", Sign::CloseParenthesis),
    ("[", Sign::OpenBracket),
    ("]", Sign::CloseBracket),
    ("{", Sign::OpenBrace),
    ("}", Sign::CloseBrace),
    (";", Sign::Semicolon),
    (",", Sign::Comma),
    (".", Sign::Dot),
    ("?", Sign::Question),
    (":", Sign::Colon),
    ("+", Sign::Plus),
    ("-", Sign::Minus),
    ("*", Sign::Star),
    ("/", Sign::Slash),
    ("%", Sign::Percent),
    ("&", Sign::Ampersand),
    ("|", Sign::Bar),
    ("^", Sign::Caret),
    ("~", Sign::Tilde),
    ("!", Sign::Exclamation),
    ("<", Sign::Less),
    (">", Sign::Greater),
    ("=", Sign::Assign),
];

// The first of some signs that the bytes begin with, and its length.
fn sign_among(signs: &[(&str, Sign)], bytes: &[u8]) -> Option<(Sign, usize)>
    ensures { result ≡ first_sign (map row_of signs.now) bytes.now }
{
    for (text, sign) in signs {
        if bytes.starts_with(text.as_bytes()) {
            return Some((*sign, text.len()));
        }
    }
    None
}

/// The longest sign that the bytes begin with, and its length.
pub fn sign_at(bytes: &[u8]) -> Option<(Sign, usize)>
    ensures { result ≡ sign_found bytes.now }
{
    sign_among(&SIGNS, bytes)
}
