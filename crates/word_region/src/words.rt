//! Changes of ranges of words.
ghost use Rattle.std.specs.Prelude.{◌≡◌, ◌+◌, ◌≤◌, length, OnOk, OnErr};
ghost use Rattle.word_region.specs.Holes.{Unsets, Copies};

use mpc_values::{Memory, Word};

/// Makes the words of a range unset.
pub fn unset(words: &mut Vec<Word>, base: usize, len: usize)
    requires { base + len ≤ length words.old.items }
    ensures { Unsets words.old.items words.new.items base len }
{
    for p in base..base + len {
        words[p] = Word::Undef;
    }
}

/// Makes the words from a place on unset, as many as are asked for, with more words at the end where they are missing.
pub fn grow(words: &mut Vec<Word>, base: usize, len: usize) -> Result<(), Memory>
    requires from { base ≤ length words.old.items }
    requires past { length words.old.items ≤ base + len }
    ensures ok { OnOk result (Unsets words.old.items words.new.items base len) }
    ensures err { OnErr result (words.new.items ≡ words.old.items) }
{
    let Some(end) = base.checked_add(len) else {
        return Err(Memory);
    };
    words.reserve(end - words.len())?;
    words.truncate(base);
    words.resize(end, Word::Undef)?;
    Ok(())
}

/// Copies the words of a range over those of another.
pub fn copy(words: &mut Vec<Word>, from: usize, to: usize, len: usize)
    requires source { from + len ≤ length words.old.items }
    requires target { to + len ≤ length words.old.items }
    ensures { Copies words.old.items words.new.items from to len }
{
    words.copy_within(from..from + len, to);
}
