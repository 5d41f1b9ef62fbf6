//! Instructions on the stack and on locals.
ghost use Rattle.std.specs.Prelude.{◌≡◌, ◌+◌, ◌<◌, ◌^◌, ◌∷◌, IfOk, slice_index_or, slice_set};
ghost use Rattle.mpc_values.specs.declared.values.Word.TheVariants.{Undef};
ghost use Rattle.mpc_values.specs.declared.calls.Call.{Call};
ghost use Rattle.c_tree.specs.Words as of_words;
ghost use Rattle.c_code.specs.Machine.{Moves, next, on_top, known_next};
ghost use Rattle.task_vm.specs.Seen.{Shows};

use crate::machine::{Machine, Step, breaks};
use crate::words::pointer_of;
use mpc_values::{Call, Fault, Memory, Word};

impl Machine {
    pub(crate) fn push(&mut self, word: Word) -> Result<Step, Memory>
        requires { self.old.pc < 2 ^ 63 }
        ensures { IfOk result (λ r. (call : Call) → Shows r call (next self.old (word ∷ self.old.stack)) self.old self.new) }
    {
        self.put(word)?;
        Ok(Step::Went)
    }

    pub(crate) fn pop(&mut self) -> Step
        requires { self.old.pc < 2 ^ 63 }
        ensures { (call : Call) → Shows result call (on_top self.old.stack (λ w ws. next self.old ws)) self.old self.new }
    {
        let Some(_) = self.stack.pop() else {
            return Step::Stuck;
        };
        self.pc += 1;
        Step::Went
    }

    pub(crate) fn duplicate(&mut self) -> Result<Step, Memory>
        requires { self.old.pc < 2 ^ 63 }
        ensures { IfOk result (λ r. (call : Call) → Shows r call (on_top self.old.stack (λ w ws. next self.old (w ∷ w ∷ ws))) self.old self.new) }
    {
        let Some(word) = self.stack.top() else {
            return Ok(Step::Stuck);
        };
        self.put(word)?;
        Ok(Step::Went)
    }

    pub(crate) fn tuck(&mut self) -> Result<Step, Memory>
        requires { self.old.pc < 2 ^ 63 }
        ensures { IfOk result (λ r. (call : Call) → Shows r call (on_top self.old.stack (λ w ws. on_top ws (λ v vs. next self.old (w ∷ v ∷ w ∷ vs)))) self.old self.new) }
    {
        let Some((below, word)) = self.stack.top_two() else {
            return Ok(Step::Stuck);
        };
        self.stack.replace_two(word);
        self.stack.push(below)?;
        self.put(word)?;
        Ok(Step::Went)
    }

    pub(crate) fn get(&mut self, slot: u32, line: u32, call: &mut Call) -> Result<Step, Memory>
        requires { self.old.pc < 2 ^ 63 }
        ensures { IfOk result (λ r. Shows r call.new (known_next self.old line (slice_index_or self.old.slots slot Undef)) self.old self.new) }
    {
        match self.frames.get(slot) {
            Word::Undef => Ok(breaks(call, Fault::Uninit, line)),
            word => {
                self.put(word)?;
                Ok(Step::Went)
            }
        }
    }

    pub(crate) fn object(&mut self, slot: u32) -> Result<Step, Memory>
        requires { self.old.pc < 2 ^ 63 }
        ensures { IfOk result (λ r. (call : Call) → Shows r call (next self.old (of_words.pointer_of (slice_index_or self.old.slots slot Undef) ∷ self.old.stack)) self.old self.new) }
    {
        let place = pointer_of(self.frames.get(slot));
        self.put(place)?;
        Ok(Step::Went)
    }

    pub(crate) fn save_param(&mut self, slot: u32) -> Result<Step, Memory>
        requires { self.old.pc < 2 ^ 63 }
        ensures { IfOk result (λ r. (call : Call) → Shows r call (next self.old (slice_index_or self.old.slots slot Undef ∷ self.old.stack)) self.old self.new) }
    {
        let word = self.frames.get(slot);
        self.put(word)?;
        Ok(Step::Went)
    }

    pub(crate) fn set(&mut self, slot: u32) -> Step
        requires { self.old.pc < 2 ^ 63 }
        ensures { (call : Call) → Shows result call (on_top self.old.stack (λ w ws. Moves (record self.old { pc = self.old.pc + 1; slots = slice_set self.old.slots slot w }))) self.old self.new }
    {
        let Some(word) = self.stack.top() else {
            return Step::Stuck;
        };
        self.frames.set(slot, word);
        self.pc += 1;
        Step::Went
    }

    pub(crate) fn unset(&mut self, slot: u32) -> Step
        requires { self.old.pc < 2 ^ 63 }
        ensures { (call : Call) → Shows result call (Moves (record self.old { pc = self.old.pc + 1; slots = slice_set self.old.slots slot Undef })) self.old self.new }
    {
        self.frames.set(slot, Word::Undef);
        self.pc += 1;
        Step::Went
    }
}
