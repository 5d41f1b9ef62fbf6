//! A `Vec` that contracts see as the list of its items.
ghost use Rattle.std.specs.Prelude.{◌≡◌};

use crate::values::Word;
use std::marker::Model;

/// Words in order.
#[derive(Debug, Clone, Drop)]
pub struct Words {
    list: Vec<Word>,
}

impl Model for Words {
    ghost use Rattle.std.specs.Prelude.{List};
    ghost use Rattle.mpc_values.specs.declared.values.Word.{Word};

    ghost Value = { List Word };

    ghost view = { λ words. words.list.items };
}

impl Words {
    pub fn of(list: Vec<Word>) -> Words
        ensures { result ≡ list.items }
    {
        Words { list }
    }

    pub fn as_slice(&self) -> &[Word]
        ensures { result.now ≡ self.now }
    {
        self.list.as_slice()
    }

    pub fn into_vec(self) -> Vec<Word>
        ensures { result.items ≡ self }
    {
        let Words { list } = self;
        list
    }
}

/// Bytes in order.
#[derive(Debug, Clone, Drop)]
pub struct Text {
    list: Vec<u8>,
}

impl Model for Text {
    ghost use Rattle.std.specs.Prelude.{List, ℕ};

    ghost Value = { List ℕ };

    ghost view = { λ text. text.list.items };
}

impl Text {
    pub fn of(list: Vec<u8>) -> Text
        ensures { result ≡ list.items }
    {
        Text { list }
    }

    pub fn as_slice(&self) -> &[u8]
        ensures { result.now ≡ self.now }
    {
        self.list.as_slice()
    }

    pub fn into_vec(self) -> Vec<u8>
        ensures { result.items ≡ self }
    {
        let Text { list } = self;
        list
    }
}

/// The core of each task, by rising task number; or the picks of a run, in order.
#[derive(Debug, Clone, Drop)]
pub struct Cores {
    list: Vec<u32>,
}

impl Model for Cores {
    ghost use Rattle.std.specs.Prelude.{List, ℕ};

    ghost Value = { List ℕ };

    ghost view = { λ cores. cores.list.items };
}

impl Cores {
    pub fn of(list: Vec<u32>) -> Cores
        ensures { result ≡ list.items }
    {
        Cores { list }
    }

    pub fn as_slice(&self) -> &[u32]
        ensures { result.now ≡ self.now }
    {
        self.list.as_slice()
    }

    pub fn into_vec(self) -> Vec<u32>
        ensures { result.items ≡ self }
    {
        let Cores { list } = self;
        list
    }
}
