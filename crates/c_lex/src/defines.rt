//! The names that a source has defined, with their numbers.
ghost use Rattle.std.specs.Prelude.{◌≡◌, OnOk};
ghost use Rattle.c_lex.specs.Defined.{empty, with_name, meanings};

use crate::tokens::Literal;
use mpc_values::Memory;
use std::alloc::Global;
use std::collections::BTreeMap;

/// The defined names of a source, each a slice of it, with the numbers that they stand for.
#[derive(Drop)]
pub struct Defines<'a> {
    numbers: BTreeMap<&'a [u8], Literal>,
}

impl<'a> Defines<'a> {
    pub fn new(alloc: Global) -> Self
        ensures { meanings result.numbers ≡ empty }
    {
        Defines {
            numbers: BTreeMap::new(alloc),
        }
    }

    pub fn find(&self, name: &[u8]) -> Option<Literal>
        ensures { result ≡ meanings self.now.numbers name.now }
    {
        self.numbers.get(name).copied()
    }

    pub fn put(&mut self, name: &'a [u8], number: Literal) -> Result<(), Memory>
        ensures { OnOk result (meanings self.new.numbers ≡ with_name name.entry.now number (meanings self.old.numbers)) }
    {
        self.numbers.insert(name, number)?;
        Ok(())
    }
}
