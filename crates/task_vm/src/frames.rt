//! The slots of the functions that are open.
ghost use Rattle.std.specs.Prelude.{◌≡◌, [], ◌∷◌, ◌++◌, length, slice_set, slice_index_or, OnOk, IfOk, IfSome, IfNone};
ghost use Rattle.mpc_values.specs.declared.values.Word.TheVariants.{Undef};
ghost use Rattle.c_tree.specs.Execution.{slots_of};

use mpc_values::{Memory, Word};
use std::alloc::Global;
use std::marker::Model;

/// Where a call goes on when it returns: the place in the code, where the caller's slots begin, and the
/// line of the call that the caller itself was called by.
#[derive(Clone, Copy, Debug)]
pub(crate) struct Caller {
    pub(crate) pc: usize,
    pub(crate) base: u32,
    pub(crate) line: u32,
}

/// The slots of all functions that are open stand in one list, those of the present function from
/// `base` on; so a call appends, and a return cuts off.
#[derive(Drop)]
pub(crate) struct Frames {
    slots: Vec<Word>,
    base: u32,
    callers: Vec<Caller>,
}

impl Model for Frames {
    ghost use Rattle.std.specs.Prelude.{reverse};
    ghost use Rattle.task_vm.specs.Framed.{Framed, framed};

    ghost Value = { Framed };

    ghost view = { λ f. framed f.base (reverse f.callers.items) f.slots.items };
}

// Appends the slots of a function, so many, or more where its arguments are more.
fn append(all: &mut Vec<Word>, slots: u32, arguments: &[Word]) -> Result<(), Memory>
    ensures { OnOk result (all.new.items ≡ all.old.items ++ slots_of slots arguments.now) }
{
    all.extend_from_slice(arguments)?;
    let unset = (slots as usize).saturating_sub(arguments.len());
    all.resize(all.len() + unset, Word::Undef)?;
    Ok(())
}

impl Frames {
    /// The slots of main, which has these arguments.
    pub(crate) fn new(alloc: Global, slots: u32, arguments: &[Word]) -> Result<Frames, Memory>
        ensures { IfOk result (λ f. f ≡ record { slots = slots_of slots arguments.now; frames = [] }) }
    {
        let mut all = Vec::new(alloc);
        append(&mut all, slots, arguments)?;
        Ok(Frames {
            slots: all,
            base: 0,
            callers: Vec::new(alloc),
        })
    }

    /// How many calls wait for a function to return.
    pub(crate) fn depth(&self) -> usize
        ensures { result ≡ length self.now.frames }
    {
        self.callers.len()
    }

    /// The word in a slot of the present function.
    pub(crate) fn get(&self, slot: u32) -> Word
        ensures { result ≡ slice_index_or self.now.slots slot Undef }
    {
        let at = self.base as usize + slot as usize;
        match self.slots.get(at) {
            Some(word) => *word,
            None => Word::Undef,
        }
    }

    /// Sets a slot of the present function.
    pub(crate) fn set(&mut self, slot: u32, word: Word)
        ensures { self.new ≡ record self.old { slots = slice_set self.old.slots slot word } }
    {
        let at = self.base as usize + slot as usize;
        if at < self.slots.len() {
            self.slots[at] = word;
        }
    }

    /// Opens a function with so many slots and these arguments, called at a line; it goes on at a place
    /// when it returns.
    pub(crate) fn enter(
        &mut self,
        pc: usize,
        line: u32,
        slots: u32,
        arguments: &[Word],
    ) -> Result<(), Memory>
        ensures { OnOk result (self.new ≡ record { slots = slots_of slots arguments.now; frames = record { pc = pc; slots = self.old.slots; line = line } ∷ self.old.frames }) }
    {
        let Ok(base) = u32::try_from(self.slots.len()) else {
            return Err(Memory);
        };
        self.callers.push(Caller {
            pc,
            base: self.base,
            line,
        })?;
        self.base = base;
        append(&mut self.slots, slots, arguments)?;
        Ok(())
    }

    /// Closes the present function, and answers where its caller goes on, and the line of the caller's
    /// own call.
    pub(crate) fn leave(&mut self) -> Option<(usize, u32)>
        ensures some { IfSome result (λ p. self.old.frames ≡ record { pc = p.0; slots = self.new.slots; line = p.1 } ∷ self.new.frames) }
        ensures none { IfNone result ((self.old.frames ≡ []) × (self.new ≡ self.old)) }
    {
        let caller = self.callers.pop()?;
        self.slots.truncate(self.base as usize);
        self.base = caller.base;
        Some((caller.pc, caller.line))
    }
}
