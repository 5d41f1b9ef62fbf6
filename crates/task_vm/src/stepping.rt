//! One step of the machine, and the answer to a call.
ghost use Rattle.std.specs.Prelude.{◌≡◌, ◌+◌, ◌<◌, ◌^◌, ◌∷◌, Some, IfOk, OnOk, drop, slice_set};
ghost use Rattle.c_tree.specs.Asking.{word_of};
ghost use Rattle.c_tree.specs.Execution.{way_of};
ghost use Rattle.c_tree.specs.Words as of_words;
ghost use Rattle.c_code.specs.Machine.{Scripting, Goes, step, script_step, resume, resume_of, go_next, way_next};
ghost use Rattle.task_vm.specs.Seen.{Shows, IsNear, IsPlaced, gone_on};

use crate::finds::word_of;
use crate::machine::{Machine, Step};
use crate::wishes::Taken;
use crate::words::{int_of, pointer_of, read_as};
use c_code::{Code, Instr};
use mpc_values::{Answer, Call, Memory, Way, Word};

impl Machine {
    // Takes a step of the script that is being taken. It stands apart, as all that is rare or long does, so that
    // the step of an instruction becomes part of the loop that takes steps.
    #[inline(never)]
    fn take_script(&mut self, call: &mut Call) -> Result<Step, Memory>
        requires { IsPlaced self.old.script self.old.pc }
        ensures { IfOk result (λ r. (s : Scripting) → self.old.script ≡ Some s → Shows r call.new (script_step self.old s s.steps) self.old self.new) }
    {
        let Some(script) = &mut self.script else {
            return Ok(Step::Stuck);
        };
        match script.step(call)? {
            Taken::Went => Ok(Step::Went),
            Taken::Asked(line) => Ok(Step::Asked(line)),
            Taken::Ended => {
                self.script = None;
                self.put(Word::Int(0))?;
                Ok(Step::Went)
            }
        }
    }

    /// Takes one step: of the script that is being taken, or of the next instruction.
    pub(crate) fn step(&mut self, code: &Code, call: &mut Call) -> Result<Step, Memory>
        requires { IsPlaced self.old.script self.old.pc }
        ensures shows { IfOk result (λ r. Shows r call.new (step code.now self.old self.old.script) self.old self.new) }
        ensures near { IfOk result (λ r. IsNear r self.old.pc) }
    {
        if self.script.is_some() {
            return self.take_script(call);
        }
        let Some(instr) = code.instrs().get(self.pc) else {
            return Ok(Step::Stuck);
        };
        self.perform(code, instr, call)
    }

    // Puts a word in place of so many of the topmost, and goes on.
    fn put_below(&mut self, count: usize, word: Word) -> Result<(), Memory>
        requires { self.old.pc < 2 ^ 63 }
        ensures { OnOk result (Goes self.new ≡ go_next self.old (word ∷ drop count self.old.stack)) }
    {
        self.stack.drop_top(count);
        self.put(word)?;
        Ok(())
    }

    // Sets a slot to the pointer that an answer gives, and goes on.
    fn set_object(&mut self, slot: u32, answer: Answer)
        requires { self.old.pc < 2 ^ 63 }
        ensures { self.new ≡ record self.old { pc = self.old.pc + 1; slots = slice_set self.old.slots slot (of_words.pointer_of (word_of answer)) } }
    {
        self.frames.set(slot, pointer_of(word_of(answer)));
        self.pc += 1;
    }

    // Goes on behind a single.
    fn go_way(&mut self, answer: Answer)
        requires { self.old.pc < 2 ^ 63 }
        ensures { Goes self.new ≡ way_next self.old (way_of answer) }
    {
        self.pc += match answer {
            Answer::Entered(Way::Run) => 1,
            Answer::Entered(Way::Hold) => 2,
            _ => 3,
        };
    }

    // What an instruction that asked makes of the answer.
    #[tactic(auto, unfolding(c_code::specs::Machine::resume_of))]
    fn take_answer(&mut self, instr: &Instr, answer: Answer) -> Result<(), Memory>
        requires { self.old.pc < 2 ^ 63 }
        ensures { OnOk result (self.new ≡ gone_on self.old (resume_of instr.now self.old answer)) }
    {
        let word = word_of(answer);
        match instr {
            Instr::Load { scalar, .. } => self.put_below(1, read_as(*scalar, word))?,
            Instr::Peek { scalar, .. } => self.put_below(0, read_as(*scalar, word))?,
            Instr::Store { .. } => {
                let stored = self.stack.top().unwrap_or(Word::Undef);
                self.put_below(2, stored)?;
            }
            Instr::Malloc { .. } => self.put_below(1, pointer_of(word))?,
            Instr::Free { .. } => self.put_below(1, Word::Int(0))?,
            Instr::Print { printed, .. } => {
                let count = printed.get().count as usize;
                self.put_below(count, Word::Int(i64::from(int_of(word))))?;
            }
            Instr::New { slot, .. } => self.set_object(*slot, answer),
            Instr::NewParam { slot } => self.set_object(*slot, answer),
            Instr::StoreParam { .. } => {
                self.stack.drop_top(1);
                self.pc += 1;
            }
            Instr::HlsEnter { .. } => self.go_way(answer),
            Instr::Return { .. } => {}
            _ => self.pc += 1,
        }
        Ok(())
    }

    /// Takes the answer to the call that is asked.
    pub(crate) fn resume(&mut self, code: &Code, answer: Answer) -> Result<(), Memory>
        ensures { OnOk result (self.new ≡ gone_on self.old (resume code.now self.old answer self.old.script)) }
    {
        if let Some(script) = &mut self.script {
            return script.resume(answer);
        }
        match code.instrs().get(self.pc) {
            Some(instr) => self.take_answer(instr, answer),
            None => Ok(()),
        }
    }
}
