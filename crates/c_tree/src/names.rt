//! Names of a source.
ghost use Rattle.std.specs.Prelude.{◌≡◌};

use std::marker::Model;

/// An identifier (C99, section 6.4.2), seen as its bytes.
#[derive(Debug, Clone, Drop)]
pub struct Identifier {
    bytes: Vec<u8>,
}

impl Model for Identifier {
    ghost use Rattle.std.specs.Prelude.{List, ℕ};

    ghost Value = { List ℕ };

    ghost view = { λ identifier. identifier.bytes.items };
}

impl Identifier {
    pub fn of(bytes: Vec<u8>) -> Identifier
        ensures { result ≡ bytes.items }
    {
        Identifier { bytes }
    }

    pub fn as_slice(&self) -> &[u8]
        ensures { result.now ≡ self.now }
    {
        self.bytes.as_slice()
    }

    pub fn into_vec(self) -> Vec<u8>
        ensures { result.items ≡ self }
    {
        let Identifier { bytes } = self;
        bytes
    }
}

/// Identifiers in order.
#[derive(Debug, Clone, Drop)]
pub struct Identifiers {
    list: Vec<Identifier>,
}

impl Model for Identifiers {
    ghost use Rattle.std.specs.Prelude.{List, ℕ};

    ghost Value = { List (List ℕ) };

    ghost view = { λ identifiers. identifiers.list.items };
}

impl Identifiers {
    pub fn of(list: Vec<Identifier>) -> Identifiers
        ensures { result ≡ list.items }
    {
        Identifiers { list }
    }

    pub fn as_slice(&self) -> &[Identifier]
        ensures { result.now ≡ self.now }
    {
        self.list.as_slice()
    }

    pub fn into_vec(self) -> Vec<Identifier>
        ensures { result.items ≡ self }
    {
        let Identifiers { list } = self;
        list
    }
}
