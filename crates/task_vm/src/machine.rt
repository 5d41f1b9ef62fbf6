//! The machine between two steps.
ghost use Rattle.std.specs.Prelude.{◌≡◌, ◌+◌, ◌≤◌, ◌<◌, ◌^◌, ◌∷◌, length, drop, OnOk};

use crate::frames::Frames;
use crate::scripts::Script;
use crate::stack::Stack;
use mpc_values::{Call, Fault, Memory, Word};
use std::alloc::Global;
use std::marker::Model;

/// What a step does: the machine goes on, or it asks a call at a line, which is told beside; or it cannot
/// be taken.
#[derive(Clone, Copy, Debug)]
pub(crate) enum Step {
    Went,
    Asked(u32),
    Stuck,
}

/// The place in the code, the stack, the slots of the functions that are open, the line of the present
/// function's call, the turns that are left, and the script that is being taken.
#[derive(Drop)]
pub(crate) struct Machine {
    pub(crate) alloc: Global,
    pub(crate) pc: usize,
    pub(crate) stack: Stack,
    pub(crate) frames: Frames,
    pub(crate) line: u32,
    pub(crate) turns: u32,
    pub(crate) script: Option<Script>,
}

impl Model for Machine {
    ghost use Rattle.c_code.specs.Machine.{Mach};

    ghost Value = { Mach };

    ghost view = { λ m. record { pc = m.pc; stack = m.stack; frames = m.frames.frames; line = m.line; slots = m.frames.slots; turns = m.turns; script = m.script } };
}

// The task fails at a line.
pub(crate) fn breaks(call: &mut Call, fault: Fault, line: u32) -> Step
    ensures asked { result ≡ Step.Asked line }
    ensures broke { call.new ≡ Call.Broke fault }
{
    *call = Call::Broke { fault };
    Step::Asked(line)
}

impl Machine {
    // Puts a word on the stack, and goes on.
    pub(crate) fn put(&mut self, word: Word) -> Result<(), Memory>
        requires { self.old.pc < 2 ^ 63 }
        ensures { OnOk result (self.new ≡ record self.old { pc = self.old.pc + 1; stack = word ∷ self.old.stack }) }
    {
        self.stack.push(word)?;
        self.pc += 1;
        Ok(())
    }

    // Puts a word in place of the topmost, and goes on.
    pub(crate) fn put_over(&mut self, word: Word)
        requires near { self.old.pc < 2 ^ 63 }
        requires top { 1 ≤ length self.old.stack }
        ensures { self.new ≡ record self.old { pc = self.old.pc + 1; stack = word ∷ drop 1 self.old.stack } }
    {
        self.stack.replace(word);
        self.pc += 1;
    }

    // Puts a word in place of the two topmost, and goes on.
    pub(crate) fn put_over_two(&mut self, word: Word)
        requires near { self.old.pc < 2 ^ 63 }
        requires top { 2 ≤ length self.old.stack }
        ensures { self.new ≡ record self.old { pc = self.old.pc + 1; stack = word ∷ drop 2 self.old.stack } }
    {
        self.stack.replace_two(word);
        self.pc += 1;
    }
}
