//! Code that is made from its last instruction to its first, so that each forward jump is known when it
//! is made.
ghost use Rattle.std.specs.Prelude.{◌≡◌, ◌<◌, ◌≤◌, ◌-◌, ◌∷◌, [], ◌++◌, length, OnOk, IfOk, List};
ghost use Rattle.c_code.specs.declared.instr.Instr.{Instr};

use c_code::Instr;
use mpc_values::Memory;
use std::alloc::Global;
use std::marker::Model;

/// The instructions that are made so far: the last ones of a program.
#[derive(Drop)]
pub struct Emitter {
    alloc: Global,
    back: Vec<Instr>,
}

impl Model for Emitter {
    ghost use Rattle.std.specs.Prelude.{List, reverse};
    ghost use Rattle.c_code.specs.declared.instr.Instr.{Instr};

    ghost Value = { List Instr };

    ghost view = { λ emitter. reverse emitter.back.items };
}

impl Emitter {
    pub fn new(alloc: Global) -> Emitter
        ensures { result ≡ [] }
    {
        Emitter {
            alloc,
            back: Vec::new(alloc),
        }
    }

    /// What memory is taken from.
    pub fn alloc(&self) -> Global {
        self.alloc
    }

    /// An instruction before those that are made.
    pub fn put(&mut self, instr: Instr) -> Result<(), Memory>
        ensures { OnOk result (self.new ≡ instr ∷ self.old) }
    {
        self.back.push(instr)?;
        Ok(())
    }

    /// How many instructions are made.
    pub fn made(&self) -> usize
        ensures { result ≡ length self.now }
    {
        self.back.len()
    }

    /// How many instructions were made since there were so many. More than fit an instruction are want of
    /// memory.
    pub fn since(&self, mark: usize) -> Result<u32, Memory>
        requires { mark ≤ length self.now }
        ensures { IfOk result (λ n. n ≡ length self.now - mark) }
    {
        u32::try_from(self.back.len() - mark).map_err(|_| Memory)
    }

    /// Another instruction in the place of one, behind which so many are made.
    pub fn mend(&mut self, behind: usize, instr: Instr)
        requires { behind < length self.old }
        ensures { (front rest : List Instr) (x : Instr) → self.old ≡ front ++ x ∷ rest → length rest ≡ behind → self.new ≡ front ++ instr ∷ rest }
    {
        self.back[behind] = instr;
    }

    /// The instructions from the first to the last.
    pub fn into_instrs(self) -> Vec<Instr>
        ensures { result.items ≡ self }
    {
        let Emitter { mut back, .. } = self;
        back.reverse();
        back
    }
}
