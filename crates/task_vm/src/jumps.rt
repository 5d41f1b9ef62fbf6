//! Instructions that go elsewhere: jumps, turns, calls and returns.
ghost use Rattle.std.specs.Prelude.{◌≡◌, ◌+◌, ◌-◌, ◌≤◌, ◌<◌, ◌^◌, ◌∷◌, Some, IfOk, OnOk, cond, nat_lt, length, drop, slice_get};
ghost use Rattle.mpc_values.specs.declared.calls.Call.{Call};
ghost use Rattle.mpc_values.specs.declared.faults.Fault.TheVariants as fault;
ghost use Rattle.c_tree.specs.Words as of_words;
ghost use Rattle.c_code.specs.Machine.{Moves, next, on_top, turned, entered, left, breaks as breaks_off, arguments_on, depth_limit};
ghost use Rattle.task_vm.specs.Seen.{Shows};

use crate::machine::{Machine, Step, breaks};
use crate::words::int_of;
use c_code::{Code, Entry};
use c_tree::words::holds;
use mpc_values::{Call, Fault, Memory, limits};

impl Machine {
    pub(crate) fn unless(&mut self, over: u32) -> Step
        requires { self.old.pc < 2 ^ 63 }
        ensures { (call : Call) → Shows result call (on_top self.old.stack (λ x ws. cond (of_words.holds x) (next self.old ws) (Moves (record self.old { pc = self.old.pc + 1 + over; stack = ws })))) self.old self.new }
    {
        let Some(word) = self.stack.pop() else {
            return Step::Stuck;
        };
        self.pc += 1;
        if !holds(word) {
            self.pc += over as usize;
        }
        Step::Went
    }

    pub(crate) fn skip(&mut self, over: u32) -> Step
        requires { self.old.pc < 2 ^ 63 }
        ensures { (call : Call) → Shows result call (Moves (record self.old { pc = self.old.pc + 1 + over })) self.old self.new }
    {
        self.pc += 1 + over as usize;
        Step::Went
    }

    pub(crate) fn again(&mut self, back: u32, line: u32, call: &mut Call) -> Step
        requires { self.old.pc < 2 ^ 63 }
        ensures { Shows result call.new (on_top self.old.stack (λ x ws. cond (of_words.holds x) (turned self.old line self.old.turns (λ left'. Moves (record self.old { pc = self.old.pc - back; stack = ws; turns = left' }))) (next self.old ws))) self.old self.new }
    {
        let Some(word) = self.stack.top() else {
            return Step::Stuck;
        };
        if !holds(word) {
            let _ = self.stack.pop();
            self.pc += 1;
            return Step::Went;
        }
        if self.turns == 0 {
            return breaks(call, Fault::Turns, line);
        }
        let _ = self.stack.pop();
        self.turns -= 1;
        self.pc = self.pc.saturating_sub(back as usize);
        Step::Went
    }

    pub(crate) fn tick(&mut self, line: u32, call: &mut Call) -> Step
        requires { self.old.pc < 2 ^ 63 }
        ensures { Shows result call.new (turned self.old line self.old.turns (λ left'. Moves (record self.old { pc = self.old.pc + 1; turns = left' }))) self.old self.new }
    {
        if self.turns == 0 {
            return breaks(call, Fault::Turns, line);
        }
        self.turns -= 1;
        self.pc += 1;
        Step::Went
    }

    // Opens a function with the arguments on the stack, where a turn is left.
    fn open(&mut self, entry: Entry, count: u32, line: u32) -> Result<(), Memory>
        requires near { self.old.pc < 2 ^ 63 }
        requires turn { 1 ≤ self.old.turns }
        ensures { OnOk result (entered self.old line (self.old.turns - 1) (arguments_on count self.old.stack) (drop count self.old.stack) (Some entry) ≡ Moves self.new) }
    {
        let arguments = self.stack.latest(count as usize);
        self.frames
            .enter(self.pc + 1, self.line, entry.slots, arguments)?;
        self.stack.drop_top(count as usize);
        self.turns -= 1;
        self.line = line;
        self.pc = entry.start as usize;
        Ok(())
    }

    pub(crate) fn enter(
        &mut self,
        code: &Code,
        function: u32,
        count: u32,
        line: u32,
        call: &mut Call,
    ) -> Result<Step, Memory>
        requires { self.old.pc < 2 ^ 63 }
        ensures { IfOk result (λ r. Shows r call.new (turned self.old line self.old.turns (λ left'.
            cond (nat_lt (length self.old.frames + 1) depth_limit)
            (entered self.old line left' (arguments_on count self.old.stack) (drop count self.old.stack) (slice_get code.now.entries function))
            (breaks_off fault.Depth line))) self.old self.new) }
    {
        if self.turns == 0 {
            return Ok(breaks(call, Fault::Turns, line));
        }
        if self.frames.depth() >= limits::MAX_DEPTH - 1 {
            return Ok(breaks(call, Fault::Depth, line));
        }
        let Some(entry) = code.entries().get(function as usize) else {
            return Ok(breaks(call, Fault::Depth, line));
        };
        self.open(*entry, count, line)?;
        Ok(Step::Went)
    }

    pub(crate) fn leave(&mut self, line: u32, call: &mut Call) -> Step
        requires { self.old.pc < 2 ^ 63 }
        ensures { Shows result call.new (on_top self.old.stack (λ w ws. left self.old w ws line self.old.frames)) self.old self.new }
    {
        let Some(word) = self.stack.top() else {
            return Step::Stuck;
        };
        let Some((pc, of_caller)) = self.frames.leave() else {
            *call = Call::Finish { code: int_of(word) };
            return Step::Asked(line);
        };
        self.pc = pc;
        self.line = of_caller;
        Step::Went
    }
}
