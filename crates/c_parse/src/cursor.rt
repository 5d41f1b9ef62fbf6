//! The symbols that are still ahead.
ghost use Rattle.std.specs.Prelude.{◌≡◌, ℕ, List, length, take, drop, map, IfOk, OnOk};
ghost use Rattle.c_parse.specs.Reading as spec;
ghost use Rattle.c_parse.specs.Reading.{Reads, itself};
ghost use Rattle.c_parse.specs.Sources.{is_over};
ghost use Rattle.c_parse.specs.Symbols.{last_line, sym_of};

use crate::signs::{is_key, is_mark, is_name};
use crate::stops::Stop;
use crate::symbols::{Class, Key, Mark, Symbol};
use crate::tokens::part;
use c_tree::syntax::Place;
use c_tree::{Identifier, Identifiers};
use mpc_values::Memory;
use std::alloc::Global;
use std::marker::Model;

/// A place between symbols, seen as the symbols behind it.
#[derive(Drop)]
pub struct Cursor<'a> {
    src: &'a [u8],
    symbols: &'a [Symbol],
    at: usize,
}

impl<'a> Model for Cursor<'a> {
    ghost use Rattle.std.specs.Prelude.{List};
    ghost use Rattle.c_parse.specs.Symbols.{Sym};

    ghost Value = { List Sym };

    ghost use Rattle.c_parse.specs.Ahead.{ahead, IsWithin};

    ghost view = { ahead };

    ghost invariant = { IsWithin };
}

impl<'a> Cursor<'a> {
    pub fn new(src: &'a [u8], symbols: &'a [Symbol]) -> Cursor<'a>
        ensures { result ≡ map (sym_of src.now) symbols.now }
    {
        Cursor {
            src,
            symbols,
            at: 0,
        }
    }

    /// How many symbols are ahead.
    pub fn left(&self) -> usize
        ensures { result ≡ length self.now }
    {
        self.symbols.len() - self.at
    }

    /// What the next symbol is.
    pub fn class(&self) -> Class
        ensures { result ≡ spec.class_at self.now }
    {
        match self.symbols.get(self.at) {
            Some(symbol) => symbol.class,
            None => Class::Other,
        }
    }

    /// Where the next symbol stands; at the end, any place.
    pub fn place(&self) -> Place
        ensures { result ≡ spec.place_at self.now }
    {
        match self.symbols.get(self.at) {
            Some(symbol) => symbol.at,
            None => Place { line: 1, col: 1 },
        }
    }

    /// Whether no symbol is ahead.
    pub fn is_over(&self) -> bool
        ensures { result ≡ is_over self.now }
    {
        self.symbols.get(self.at).is_none()
    }

    /// The line of the last symbol that is ahead, or 1 where none is.
    pub fn last_line(&self) -> u32
        ensures { result ≡ last_line self.now }
    {
        last_line_of(&self.symbols[self.at..])
    }

    /// Goes behind the next symbol, where there is one.
    pub fn advance(&mut self)
        ensures { self.new ≡ spec.behind self.old }
    {
        if self.at < self.symbols.len() {
            self.at += 1;
        }
    }

    /// The next symbols alone, of which there are at most so many.
    pub fn window(&self, most: usize) -> Cursor<'a>
        ensures { result ≡ take most self.now }
    {
        let end = self.at + most.min(self.symbols.len() - self.at);
        Cursor {
            src: self.src,
            symbols: &self.symbols[..end],
            at: self.at,
        }
    }

    /// Goes behind so many symbols, or to the end.
    pub fn skip(&mut self, count: usize)
        ensures { self.new ≡ drop count self.old }
    {
        self.at += count.min(self.symbols.len() - self.at);
    }

    /// Whether this mark comes next.
    #[tactic(auto, unfolding(crate::specs::Reading::sees))]
    pub fn sees(&self, mark: Mark) -> bool
        ensures { result ≡ spec.sees mark self.now }
    {
        is_mark(mark, self.class())
    }

    /// Whether this key comes next.
    #[tactic(auto, unfolding(crate::specs::Reading::sees_key))]
    pub fn sees_key(&self, key: Key) -> bool
        ensures { result ≡ spec.sees_key key self.now }
    {
        is_key(key, self.class())
    }

    /// Goes behind the next symbol, if this is wanted.
    #[tactic(auto, unfolding(crate::specs::Reading::behind_if))]
    pub fn advance_if(&mut self, wanted: bool)
        ensures { self.new ≡ spec.behind_if wanted self.old }
    {
        if wanted {
            self.advance();
        }
    }

    /// Goes behind this mark, if it comes next, and tells so.
    pub fn eat(&mut self, mark: Mark) -> bool
        ensures found { result ≡ spec.sees mark self.old }
        ensures after { self.new ≡ spec.behind_if (spec.sees mark self.old) self.old }
    {
        let found = self.sees(mark);
        self.advance_if(found);
        found
    }

    /// Goes behind this key, if it comes next, and tells so.
    pub fn eat_key(&mut self, key: Key) -> bool
        ensures found { result ≡ spec.sees_key key self.old }
        ensures after { self.new ≡ spec.behind_if (spec.sees_key key self.old) self.old }
    {
        let found = self.sees_key(key);
        self.advance_if(found);
        found
    }

    /// Goes behind this mark, which has to come next.
    #[tactic(auto, unfolding(crate::specs::Reading::expect))]
    pub fn expect(&mut self, mark: Mark) -> Result<(), Stop>
        ensures { Reads itself (spec.expect mark self.old) result self.new }
    {
        if self.sees(mark) {
            self.advance();
            Ok(())
        } else {
            Err(Stop::Refused)
        }
    }

    /// Goes behind this key, which has to come next.
    #[tactic(auto, unfolding(crate::specs::Reading::expect_key))]
    pub fn expect_key(&mut self, key: Key) -> Result<(), Stop>
        ensures { Reads itself (spec.expect_key key self.old) result self.new }
    {
        if self.sees_key(key) {
            self.advance();
            Ok(())
        } else {
            Err(Stop::Refused)
        }
    }

    /// The bytes of the next symbol, and the symbols behind it.
    pub fn bytes(&mut self, alloc: Global) -> Result<Vec<u8>, Memory>
        ensures bytes { IfOk result (λ v. v.items ≡ spec.bytes_at self.old) }
        ensures after { OnOk result (self.new ≡ spec.behind self.old) }
    {
        let bytes = match self.symbols.get(self.at) {
            Some(symbol) => Vec::from_slice(alloc, part(self.src, symbol.start, symbol.len))?,
            None => Vec::new(alloc),
        };
        self.advance();
        Ok(bytes)
    }

    /// The names that the next symbol lists, and goes behind it.
    pub fn names(&mut self, alloc: Global) -> Result<Identifiers, Memory>
        ensures names { IfOk result (λ n. n ≡ spec.names_at self.old) }
        ensures after { OnOk result (self.new ≡ spec.behind self.old) }
    {
        let names = match self.symbols.get(self.at) {
            Some(symbol) => copied(alloc, &symbol.names)?,
            None => Identifiers::of(Vec::new(alloc)),
        };
        self.advance();
        Ok(names)
    }

    /// Goes behind a name, which has to come next.
    #[tactic(auto, unfolding(crate::specs::Reading::name))]
    pub fn name(&mut self, alloc: Global) -> Result<Identifier, Stop>
        ensures { Reads itself (spec.name self.old) result self.new }
    {
        if is_name(self.class()) {
            Ok(Identifier::of(self.bytes(alloc)?))
        } else {
            Err(Stop::Refused)
        }
    }
}

// The line of the last symbol, or 1 where there is none.
fn last_line_of(symbols: &[Symbol]) -> u32
    ensures { (src : List ℕ) → result ≡ last_line (map (sym_of src) symbols.now) }
{
    let mut line = 1;
    for symbol in symbols {
        line = symbol.at.line;
    }
    line
}

fn copied(alloc: Global, names: &Identifiers) -> Result<Identifiers, Memory>
    ensures { IfOk result (λ n. n ≡ names.now) }
{
    let mut list = Vec::new(alloc);
    for name in names.as_slice() {
        list.push(Identifier::of(Vec::from_slice(alloc, name.as_slice())?))?;
    }
    Ok(Identifiers::of(list))
}
