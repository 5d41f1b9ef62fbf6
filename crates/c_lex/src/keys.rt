//! The keys: words that are no names.
ghost use Rattle.std.specs.Prelude.{◌≡◌, map};
ghost use Rattle.c_lex.specs.Lookups.{row_of, key_of as key_found, is_key as key_test, looked_up};

/// A key word of C99 (section 6.4.1), or one of the types `MPI_Comm`, `MPI_Request` and
/// `MPI_Status`.
#[derive(Clone, Copy, Debug, PartialEq, Eq)]
pub enum Key {
    Int,
    Long,
    Void,
    Char,
    Static,
    If,
    Else,
    While,
    Do,
    For,
    Return,
    Break,
    Continue,
    SizeOf,
    Comm,
    Request,
    Status,
    Auto,
    Case,
    Const,
    Default,
    Double,
    Enum,
    Extern,
    Float,
    Goto,
    Inline,
    Register,
    Restrict,
    Short,
    Signed,
    Struct,
    Switch,
    Typedef,
    Union,
    Unsigned,
    Volatile,
    Bool,
    Complex,
    Imaginary,
}

const KEYS: [(&str, Key); 40] = [
    ("int", Key::Int),
    ("long", Key::Long),
    ("void", Key::Void),
    ("char", Key::Char),
    ("static", Key::Static),
    ("if", Key::If),
    ("else", Key::Else),
    ("while", Key::While),
    ("do", Key::Do),
    ("for", Key::For),
    ("return", Key::Return),
    ("break", Key::Break),
    ("continue", Key::Continue),
    ("sizeof", Key::SizeOf),
    ("MPI_Comm", Key::Comm),
    ("MPI_Request", Key::Request),
    ("MPI_Status", Key::Status),
    ("auto", Key::Auto),
    ("case", Key::Case),
    ("const", Key::Const),
    ("default", Key::Default),
    ("double", Key::Double),
    ("enum", Key::Enum),
    ("extern", Key::Extern),
    ("float", Key::Float),
    ("goto", Key::Goto),
    ("inline", Key::Inline),
    ("register", Key::Register),
    ("restrict", Key::Restrict),
    ("short", Key::Short),
    ("signed", Key::Signed),
    ("struct", Key::Struct),
    ("switch", Key::Switch),
    ("typedef", Key::Typedef),
    ("union", Key::Union),
    ("unsigned", Key::Unsigned),
    ("volatile", Key::Volatile),
    ("_Bool", Key::Bool),
    ("_Complex", Key::Complex),
    ("_Imaginary", Key::Imaginary),
];

// The key of this spelling among some.
fn key_among(keys: &[(&str, Key)], word: &[u8]) -> Option<Key>
    ensures { result ≡ looked_up (map row_of keys.now) word.now }
{
    for (text, key) in keys {
        if word == text.as_bytes() {
            return Some(*key);
        }
    }
    None
}

/// The key that is spelt so, or None where the word is no key.
pub fn key_of(word: &[u8]) -> Option<Key>
    ensures { result ≡ key_found word.now }
{
    key_among(&KEYS, word)
}

/// Whether the word is a key.
pub fn is_key(word: &[u8]) -> bool
    ensures { result ≡ key_test word.now }
{
    key_of(word).is_some()
}
