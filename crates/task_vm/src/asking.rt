//! Instructions that ask a call.
ghost use Rattle.std.specs.Prelude.{◌≡◌, IfOk, slice_index_or};
ghost use Rattle.mpc_values.specs.declared.values.Word.TheVariants.{Undef};
ghost use Rattle.mpc_values.specs.declared.calls.Call.TheVariants as call_;
ghost use Rattle.c_tree.specs.declared.program.Width.TheVariants.{Long};
ghost use Rattle.c_tree.specs.Numbers.{number_of};
ghost use Rattle.c_tree.specs.Words as of_words;
ghost use Rattle.c_tree.specs.Execution.{object_of};
ghost use Rattle.c_code.specs.Machine.{Asks, on_top, arguments_on};
ghost use Rattle.task_vm.specs.Seen.{Shows};

use crate::machine::{Machine, Step};
use crate::printing::printed;
use crate::words::{long_of, malloc_words, object_of, pointer_of};
use c_code::Printed;
use mpc_values::{Call, Memory};

// Asks a call that has no more than its instruction.
pub(crate) fn ask(call: &mut Call, asked: Call, line: u32) -> Step
    ensures asked { result ≡ Step.Asked line }
    ensures call { call.new ≡ asked }
{
    *call = asked;
    Step::Asked(line)
}

impl Machine {
    pub(crate) fn load(&self, line: u32, call: &mut Call) -> Step
        ensures { Shows result call.new (on_top self.now.stack (λ w ws. Asks (call_.Load w) line)) self.now self.now }
    {
        let Some(place) = self.stack.top() else {
            return Step::Stuck;
        };
        ask(call, Call::Load { at: place }, line)
    }

    pub(crate) fn store(&self, line: u32, call: &mut Call) -> Step
        ensures { Shows result call.new (on_top self.now.stack (λ w ws. on_top ws (λ p ps. Asks (call_.Store p w) line))) self.now self.now }
    {
        let Some((place, word)) = self.stack.top_two() else {
            return Step::Stuck;
        };
        ask(call, Call::Store { at: place, word }, line)
    }

    pub(crate) fn malloc(&self, size: u32, line: u32, call: &mut Call) -> Step
        ensures { Shows result call.new (on_top self.now.stack (λ n ws. Asks (call_.Malloc (of_words.malloc_words size (number_of Long n))) line)) self.now self.now }
    {
        let Some(bytes) = self.stack.top() else {
            return Step::Stuck;
        };
        let words = malloc_words(size, long_of(bytes));
        ask(call, Call::Malloc { n: words }, line)
    }

    pub(crate) fn free(&self, line: u32, call: &mut Call) -> Step
        ensures { Shows result call.new (on_top self.now.stack (λ p ws. Asks (call_.Free p) line)) self.now self.now }
    {
        let Some(place) = self.stack.top() else {
            return Step::Stuck;
        };
        ask(call, Call::Free { at: place }, line)
    }

    #[inline(never)]
    pub(crate) fn print(&self, print: &Printed, line: u32, call: &mut Call) -> Result<Step, Memory>
        ensures { IfOk result (λ r. Shows r call.new (Asks (call_.Print (of_words.printed print.now.format (arguments_on print.now.count self.now.stack))) line) self.now self.now) }
    {
        let print = print.get();
        let numbers = self.stack.latest(print.count as usize);
        let text = printed(self.alloc, &print.format, numbers)?;
        Ok(ask(call, Call::Print { text }, line))
    }

    pub(crate) fn release(&self, slot: u32, line: u32, call: &mut Call) -> Step
        ensures { Shows result call.new (Asks (call_.Drop (object_of (slice_index_or self.now.slots slot Undef))) line) self.now self.now }
    {
        let obj = object_of(self.frames.get(slot));
        ask(call, Call::Drop { obj }, line)
    }

    pub(crate) fn new_param(&self, call: &mut Call) -> Step
        ensures { Shows result call.new (Asks (call_.New 1) self.now.line) self.now self.now }
    {
        ask(call, Call::New { len: 1 }, self.line)
    }

    pub(crate) fn store_param(&self, slot: u32, call: &mut Call) -> Step
        ensures { Shows result call.new (on_top self.now.stack (λ w ws. Asks (call_.Store (of_words.pointer_of (slice_index_or self.now.slots slot Undef)) w) self.now.line)) self.now self.now }
    {
        let Some(word) = self.stack.top() else {
            return Step::Stuck;
        };
        let place = pointer_of(self.frames.get(slot));
        ask(call, Call::Store { at: place, word }, self.line)
    }
}
