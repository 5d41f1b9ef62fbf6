//! Where a statement stands, as its code is made.
ghost use Rattle.std.specs.Prelude.{◌≡◌, ◌≤◌, ℕ, ◌++◌, ◌∷◌, [], OnOk, length, drop};
ghost use Rattle.c_compile.specs.Standing.{Standing, with_opened};

use mpc_values::Memory;
use std::alloc::Global;
use std::marker::Model;

/// Where a statement stands: how many instructions were made where the loop round it ends, and where its
/// next turn begins; and the slots of the locals in memory of the blocks round it, the outermost first,
/// of which so many are outside of the loop.
#[derive(Drop)]
pub struct Surroundings {
    exit: usize,
    again: usize,
    opened: Vec<u32>,
    outside: usize,
}

impl Model for Surroundings {
    ghost use Rattle.c_compile.specs.Standing.{Standing};

    ghost Value = { Standing };

    ghost view = { λ s. record { exit = s.exit; again = s.again; opened = s.opened.items; outside = s.outside } };
}

/// The loop round a statement: where it ends, where its next turn begins, and how many locals in memory
/// are outside of it.
#[derive(Clone, Copy)]
pub struct Loop {
    pub exit: usize,
    pub again: usize,
    pub outside: usize,
}

impl Surroundings {
    /// Those of a function's body, behind which so many instructions are made.
    pub fn outermost(alloc: Global, made: usize) -> Surroundings
        ensures { result ≡ record { exit = made; again = made; opened = []; outside = 0 } }
    {
        Surroundings {
            exit: made,
            again: made,
            opened: Vec::new(alloc),
            outside: 0,
        }
    }

    /// Opens a local in memory.
    pub fn open(&mut self, slot: u32) -> Result<(), Memory>
        ensures { OnOk result (self.new ≡ with_opened self.old (slot ∷ [])) }
    {
        self.opened.push(slot)?;
        Ok(())
    }

    /// Closes the local that was opened last.
    pub fn close(&mut self)
        ensures { (before : Standing) (slot : ℕ) → self.old ≡ with_opened before (slot ∷ []) → self.new ≡ before }
    {
        let _ = self.opened.pop();
    }

    /// Goes into a loop's body, and gives the loop round the present statement.
    pub fn enter(&mut self, exit: usize, again: usize) -> Loop
        ensures outer { (result.exit ≡ self.old.exit) × ((result.again ≡ self.old.again) × (result.outside ≡ self.old.outside)) }
        ensures inner { self.new ≡ record { exit = exit; again = again; opened = self.old.opened; outside = length self.old.opened } }
    {
        let outer = Loop {
            exit: self.exit,
            again: self.again,
            outside: self.outside,
        };
        self.exit = exit;
        self.again = again;
        self.outside = self.opened.len();
        outer
    }

    /// Leaves a loop's body for the loop round it.
    pub fn leave(&mut self, outer: Loop)
        ensures { self.new ≡ record { exit = outer.exit; again = outer.again; opened = self.old.opened; outside = outer.outside } }
    {
        self.exit = outer.exit;
        self.again = outer.again;
        self.outside = outer.outside;
    }

    /// How many instructions were made where the loop ends.
    pub fn exit(&self) -> usize
        ensures { result ≡ self.now.exit }
    {
        self.exit
    }

    /// How many were made where its next turn begins.
    pub fn again(&self) -> usize
        ensures { result ≡ self.now.again }
    {
        self.again
    }

    /// The slots of the locals in memory, the outermost first.
    pub fn in_function(&self) -> &[u32]
        ensures { result.now ≡ self.now.opened }
    {
        self.opened.as_slice()
    }

    /// The same of those in the loop.
    pub fn in_loop(&self) -> &[u32]
        requires { self.now.outside ≤ length self.now.opened }
        ensures { result.now ≡ drop self.now.outside self.now.opened }
    {
        &self.opened.as_slice()[self.outside..]
    }
}
