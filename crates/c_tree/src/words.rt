//! Words as conditions and compared, as the constants of a source and a running task read them.
ghost use Rattle.std.specs.Prelude.{◌≡◌};
ghost use Rattle.c_tree.specs.Words as words;

use mpc_values::{Obj, Word};

/// Whether a number or pointer holds as a condition: it is neither 0 nor NULL (C99 6.8.4.1); a word of another kind
/// does not.
pub fn holds(word: Word) -> bool
    ensures { result ≡ words.holds word }
{
    match word {
        Word::Int(number) => number != 0,
        Word::Ptr { .. } => true,
        _ => false,
    }
}

/// 1 where a condition holds, and else 0: the result of a comparison, `!`, `&&` and `||` (C99 6.5.8).
pub fn truth(condition: bool) -> Word
    ensures { result ≡ words.truth condition }
{
    if condition {
        Word::Int(1)
    } else {
        Word::Int(0)
    }
}

fn same_object(left: Obj, right: Obj) -> bool
    ensures { result ≡ words.same_object left right }
{
    match (left, right) {
        (Obj::Glob(a), Obj::Glob(b)) => a == b,
        (Obj::Dyn(a), Obj::Dyn(b)) => a == b,
        _ => false,
    }
}

/// Whether two words are the same, as `==` asks (C99 6.5.9): words of two kinds differ, and unset words are alike.
pub fn same_word(left: Word, right: Word) -> bool
    ensures { result ≡ words.same_word left right }
{
    match (left, right) {
        (Word::Undef, Word::Undef) | (Word::Null, Word::Null) => true,
        (Word::Int(a), Word::Int(b)) => a == b,
        (Word::Ptr { obj: a, at: i }, Word::Ptr { obj: b, at: j }) => same_object(a, b) && i == j,
        (Word::Comm(a), Word::Comm(b)) => a == b,
        (Word::Req(a), Word::Req(b)) => a == b,
        _ => false,
    }
}
