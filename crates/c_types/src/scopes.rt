//! The names in scope at a place of a source, by the scopes round it.
ghost use Rattle.std.specs.Prelude.{◌≡◌, OnOk, [], ◌∷◌};
ghost use Rattle.std.specs.FinMap as map;
ghost use Rattle.c_types.specs.Env.{find, put, in_top, enter, leave};

use crate::kinds::Decl;
use mpc_values::Memory;
use std::alloc::Global;
use std::collections::BTreeMap;
use std::marker::Model;

/// The declarations of one scope (C99, section 6.2.1).
#[derive(Drop)]
pub struct Scope {
    names: BTreeMap<Vec<u8>, Decl>,
}

impl Model for Scope {
    ghost use Rattle.std.specs.Cmp.Lexicographic.{slice_cmp};
    ghost use Rattle.std.specs.Coded.{coded_ℕ, coded_list};
    ghost use Rattle.std.specs.FinMap as map;
    ghost use Rattle.std.specs.Ordering.{nat_cmp};
    ghost use Rattle.std.specs.Prelude.{ℕ};
    ghost use Rattle.c_types.specs.Keys.{by_name};
    ghost use Rattle.c_types.specs.contracts.kinds.Decl as decl;
    ghost use Rattle.c_types.specs.declared.kinds.Decl.{Decl};

    ghost Value = { map.FinMap (slice_cmp nat_cmp) Decl };

    ghost coded = { map.code (coded_list coded_ℕ) decl.the_row.coded };

    ghost view = { λ s. map.from_entries (by_name s.names.entries) };
}

impl Scope {
    pub fn new(alloc: Global) -> Scope
        ensures { result ≡ map.empty }
    {
        Scope {
            names: BTreeMap::new(alloc),
        }
    }

    pub fn get(&self, name: &[u8]) -> Option<Decl>
        ensures { result ≡ map.get self.now name.now }
    {
        self.names.get(name).copied()
    }

    pub fn insert(&mut self, name: Vec<u8>, decl: Decl) -> Result<(), Memory>
        ensures { OnOk result (self.new ≡ map.insert self.old name.items decl) }
    {
        self.names.insert(name, decl)?;
        Ok(())
    }
}

/// The scopes round a place, seen as their list, the innermost first.
#[derive(Drop)]
pub struct Scopes {
    // The outermost scope stands first.
    list: Vec<Scope>,
}

impl Model for Scopes {
    ghost use Rattle.std.specs.Cmp.Lexicographic.{slice_cmp};
    ghost use Rattle.std.specs.Coded.{coded_ℕ, coded_list};
    ghost use Rattle.std.specs.FinMap as map;
    ghost use Rattle.std.specs.Prelude.{List, reverse};
    ghost use Rattle.c_types.specs.contracts.kinds.Decl as decl;
    ghost use Rattle.c_types.specs.Env.{Scope as NamedScope};

    ghost Value = { List NamedScope };

    ghost coded = { coded_list (map.code (coded_list coded_ℕ) decl.the_row.coded) };

    ghost view = { λ s. reverse s.list.items };
}

impl Scopes {
    /// No scope.
    pub fn new(alloc: Global) -> Scopes
        ensures { result ≡ [] }
    {
        Scopes {
            list: Vec::new(alloc),
        }
    }

    /// Begins a scope within the others.
    pub fn enter(&mut self, alloc: Global) -> Result<(), Memory>
        ensures { OnOk result (self.new ≡ enter self.old) }
    {
        self.list.push(Scope::new(alloc))?;
        Ok(())
    }

    /// Ends the innermost scope.
    pub fn leave(&mut self)
        ensures { self.new ≡ leave self.old }
    {
        self.list.pop();
    }

    /// What the name is declared as, by the innermost scope that has it.
    pub fn find(&self, name: &[u8]) -> Option<Decl>
        ensures { result ≡ find name.now self.now }
    {
        let mut at = self.list.len();
        while at > 0 {
            at -= 1;
            let scope = &self.list[at];
            if let Some(decl) = scope.get(name) {
                return Some(decl);
            }
        }
        None
    }

    /// Whether the innermost scope has the name.
    pub fn is_in_top(&self, name: &[u8]) -> bool
        ensures { result ≡ in_top name.now self.now }
    {
        match self.list.last() {
            Some(scope) => scope.get(name).is_some(),
            None => false,
        }
    }

    /// Declares the name in the innermost scope.
    pub fn put(&mut self, name: Vec<u8>, decl: Decl) -> Result<(), Memory>
        ensures { OnOk result (self.new ≡ put name.items decl self.old) }
    {
        if let Some(mut scope) = self.list.pop() {
            scope.insert(name, decl)?;
            self.list.push(scope)?;
        }
        Ok(())
    }
}
