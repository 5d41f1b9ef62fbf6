//! The stack of words.
ghost use Rattle.std.specs.Prelude.{◌≡◌, ◌≤◌, [], ◌∷◌, length, drop, reverse, take, OnOk, IfSome, IfNone, MatchOption};

use mpc_values::{Memory, Word};
use std::alloc::Global;
use std::marker::Model;

/// A stack of words, seen as their list, the topmost first.
#[derive(Drop)]
pub(crate) struct Stack {
    words: Vec<Word>,
}

impl Model for Stack {
    ghost use Rattle.std.specs.Prelude.{List, reverse};
    ghost use Rattle.mpc_values.specs.declared.values.Word.{Word};

    ghost Value = { List Word };

    ghost view = { λ stack. reverse stack.words.items };
}

impl Stack {
    /// A stack without words.
    pub(crate) fn new(alloc: Global) -> Stack
        ensures { result ≡ [] }
    {
        Stack {
            words: Vec::new(alloc),
        }
    }

    /// Puts a word on top.
    pub(crate) fn push(&mut self, word: Word) -> Result<(), Memory>
        ensures { OnOk result (self.new ≡ word ∷ self.old) }
    {
        self.words.push(word)?;
        Ok(())
    }

    /// Takes the topmost word off, where there is one.
    pub(crate) fn pop(&mut self) -> Option<Word>
        ensures { MatchOption result ((self.old ≡ []) × (self.new ≡ [])) (λ word. self.old ≡ word ∷ self.new) }
    {
        self.words.pop()
    }

    /// The topmost word, where there is one.
    pub(crate) fn top(&self) -> Option<Word>
        ensures { MatchOption result (self.now ≡ []) (λ word. self.now ≡ word ∷ drop 1 self.now) }
    {
        self.words.last().copied()
    }

    /// The two topmost words, the topmost last, where there are two.
    pub(crate) fn top_two(&self) -> Option<(Word, Word)>
        ensures some { IfSome result (λ p. self.now ≡ p.1 ∷ p.0 ∷ drop 2 self.now) }
        ensures none { IfNone result (length self.now ≤ 1) }
    {
        let len = self.words.len();
        if len < 2 {
            return None;
        }
        Some((self.words[len - 2], self.words[len - 1]))
    }

    /// Puts a word in place of the topmost.
    pub(crate) fn replace(&mut self, word: Word)
        requires { 1 ≤ length self.old }
        ensures { self.new ≡ word ∷ drop 1 self.old }
    {
        let top = self.words.len() - 1;
        self.words[top] = word;
    }

    /// Puts a word in place of the two topmost.
    pub(crate) fn replace_two(&mut self, word: Word)
        requires { 2 ≤ length self.old }
        ensures { self.new ≡ word ∷ drop 2 self.old }
    {
        let _ = self.pop();
        self.replace(word);
    }

    /// Takes so many words off, or all where there are fewer.
    pub(crate) fn drop_top(&mut self, count: usize)
        ensures { self.new ≡ drop count self.old }
    {
        self.words.truncate(self.words.len().saturating_sub(count));
    }

    /// So many of the topmost words, or all where there are fewer, in the order in which they came.
    pub(crate) fn latest(&self, count: usize) -> &[Word]
        ensures { result.now ≡ reverse (take count self.now) }
    {
        &self.words[self.words.len().saturating_sub(count)..]
    }
}
