//! What is known at a place of a source: the names in scope, and what was declared so far.
ghost use Rattle.std.specs.Prelude.{◌≡◌, ◌++◌, IfOk, OnOk};
ghost use Rattle.c_types.specs.Env.{find, put, in_top, enter_scope, leave_scope};

use crate::kinds::{Decl, Kind, Sig};
use crate::scopes::{Scope, Scopes};
use c_tree::program::Construct;
use mpc_values::{Memory, StaticVar};
use std::alloc::Global;
use std::marker::Model;

/// What is known at a place.
#[derive(Drop)]
pub struct Names {
    pub definitions: Scope,
    pub file_variables: u32,
    pub scopes: Scopes,
    pub functions: Vec<Sig>,
    pub has_definition: bool,
    pub globals: Vec<StaticVar>,
    pub statics: Vec<StaticVar>,
    pub words: u32,
    pub constructs: Vec<Construct>,
    pub slots: u32,
    pub taken: Vec<bool>,
    pub returns: Kind,
}

impl Model for Names {
    ghost use Rattle.c_types.specs.Env.{Env};
    ghost use Rattle.c_types.specs.EnvCode.{env_code};

    ghost Value = { Env };

    ghost coded = { env_code };

    ghost view = { λ n. record {
      definitions = n.definitions;
      file_variables = n.file_variables;
      scopes = n.scopes;
      functions = n.functions.items;
      has_definition = n.has_definition;
      globals = n.globals.items;
      statics = n.statics.items;
      words = n.words;
      constructs = n.constructs.items;
      slots = n.slots;
      taken = n.taken.items;
      returns = n.returns;
    } };
}

impl Names {
    /// Begins a scope within the others.
    pub fn enter(&mut self, alloc: Global) -> Result<(), Memory>
        ensures { OnOk result (self.new ≡ enter_scope self.old) }
    {
        self.scopes.enter(alloc)
    }

    /// Ends the innermost scope.
    pub fn leave(&mut self)
        ensures { self.new ≡ leave_scope self.old }
    {
        self.scopes.leave();
    }

    /// What the name is declared as, by the innermost scope that has it.
    pub fn find(&self, name: &[u8]) -> Option<Decl>
        ensures { result ≡ find name.now self.now.scopes }
    {
        self.scopes.find(name)
    }

    /// Whether the innermost scope has the name.
    pub fn is_in_top(&self, name: &[u8]) -> bool
        ensures { result ≡ in_top name.now self.now.scopes }
    {
        self.scopes.is_in_top(name)
    }

    /// Declares the name in the innermost scope.
    pub fn put(&mut self, name: Vec<u8>, decl: Decl) -> Result<(), Memory>
        ensures { OnOk result (self.new
            ≡ record self.old { scopes = put name.items decl self.old.scopes }) }
    {
        self.scopes.put(name, decl)
    }

    /// The variables, file-scope ones first, and the statements that share them.
    pub fn into_parts(self) -> Result<(Vec<StaticVar>, Vec<Construct>), Memory>
        ensures variables { IfOk result (λ parts. parts.0.items ≡ self.globals ++ self.statics) }
        ensures constructs { IfOk result (λ parts. parts.1.items ≡ self.constructs) }
    {
        let Names {
            mut globals,
            mut statics,
            constructs,
            ..
        } = self;
        globals.append(&mut statics)?;
        Ok((globals, constructs))
    }
}
