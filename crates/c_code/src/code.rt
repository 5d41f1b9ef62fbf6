//! Code of a whole program.
ghost use Rattle.std.specs.Prelude.{◌≡◌, length, slice_get, Some};
ghost use Rattle.c_code.specs.FlatCode.{flat};
ghost use Rattle.c_code.specs.Following.{NeverSticks};

use crate::instr::Instr;
use std::marker::Model;

/// Where a function's code begins, and how many slots the function has.
#[derive(Clone, Copy, Debug, PartialEq, Eq)]
pub struct Entry {
    pub start: u32,
    pub slots: u32,
}

/// The code of a program: one flat list of instructions. It has the code of main, and no state that a
/// task comes to lacks an operand or lies outside the code, whatever the answers are. Only the
/// instruction `Again` goes back, and it counts a turn, as each call of a function does.
#[derive(Debug, Drop)]
pub struct Code {
    instrs: Vec<Instr>,
    entries: Vec<Entry>,
    main: u32,
    arguments: u32,
}

impl Model for Code {
    ghost use Rattle.c_code.specs.FlatCode.{FlatCode, flat};
    ghost use Rattle.c_code.specs.Following.{NeverSticks};

    ghost Value = { FlatCode };

    ghost view = { λ code. flat code.instrs.items code.entries.items code.main code.arguments };

    ghost invariant = { λ code. NeverSticks (flat code.instrs.items code.entries.items code.main code.arguments) };
}

impl Code {
    /// The code of these instructions: where each function's begin, the number of main, and how many
    /// parameters main has.
    pub fn of(instrs: Vec<Instr>, entries: Vec<Entry>, main: u32, arguments: u32) -> Code
        requires { NeverSticks (flat instrs.items entries.items main arguments) }
        ensures { result ≡ flat instrs.items entries.items main arguments }
    {
        Code {
            instrs,
            entries,
            main,
            arguments,
        }
    }

    /// How many instructions it has.
    pub fn len(&self) -> usize
        ensures { result ≡ length self.now.instrs }
    {
        self.instrs.len()
    }

    /// The instructions.
    pub fn instrs(&self) -> &[Instr]
        ensures { result.now ≡ self.now.instrs }
    {
        self.instrs.as_slice()
    }

    /// The entries of the functions, by their numbers.
    pub fn entries(&self) -> &[Entry]
        ensures { result.now ≡ self.now.entries }
    {
        self.entries.as_slice()
    }

    /// How many parameters main has.
    pub fn arguments(&self) -> u32
        ensures { result ≡ self.now.arguments }
    {
        self.arguments
    }

    /// The entry of main.
    pub fn main(&self) -> Entry
        ensures { slice_get self.now.entries self.now.main ≡ Some result }
    {
        let Some(entry) = self.entries.get(self.main as usize) else {
            unreachable!();
        };
        *entry
    }

    /// The code never sticks.
    pub fn never_sticks(&self)
        ensures { NeverSticks self.now }
    {
        let _ = &self.main;
    }
}
