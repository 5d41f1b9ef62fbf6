ghost use Rattle.std.specs.Prelude.{◌≡◌};
ghost use Rattle.serial_memory.specs.Access.{with_word};

use mpc_base::Word;
use serial_memory::Kind;
use std::marker::Model;

/// An object in memory: its kind and its words.
#[derive(Debug, Drop)]
pub struct Object {
    kind: Kind,
    list: Vec<Word>,
}

impl Model for Object {
    ghost use Rattle.serial_memory.specs.Memory.{Object as Described};

    ghost Value = { Described };

    ghost view = { λ a. record { kind = a.kind; words = a.list.items } };
}

impl Object {
    /// An object of a kind with these words.
    pub fn of(kind: Kind, words: Vec<Word>) -> Object
        ensures { result ≡ record { kind = kind; words = words.items } }
    {
        Object { kind, list: words }
    }

    /// Which kind of object it is.
    pub fn kind(&self) -> Kind
        ensures { result ≡ self.now.kind }
    {
        self.kind
    }

    /// The words of its places, in order.
    pub fn words(&self) -> &[Word]
        ensures { result.now ≡ self.now.words }
    {
        self.list.as_slice()
    }

    /// Changes the word of a place, where there is one.
    pub fn set(&mut self, at: usize, word: Word)
        ensures { self.new ≡ with_word self.old at word }
    {
        if at < self.list.len() {
            self.list[at] = word;
        }
    }
}
