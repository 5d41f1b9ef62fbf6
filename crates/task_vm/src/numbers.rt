//! Instructions on numbers, pointers and conditions.
ghost use Rattle.std.specs.Prelude.{◌≡◌, ℕ, ◌<◌, ◌^◌, List, ◌∷◌, not, cond};
ghost use Rattle.mpc_values.specs.declared.values.Word.{Word};
ghost use Rattle.mpc_values.specs.declared.values.Word.TheVariants.{Int};
ghost use Rattle.mpc_values.specs.declared.calls.Call.{Call};
ghost use Rattle.c_tree.specs.declared.program.Width.TheVariants as type_;
ghost use Rattle.c_tree.specs.Numbers.{number_of};
ghost use Rattle.c_tree.specs.Arithmetic.{operated, negated, complemented, compared};
ghost use Rattle.c_tree.specs.Words as of_words;
ghost use Rattle.c_code.specs.Machine.{Mach, next, on_top, number_next, word_next, updated_next};
ghost use Rattle.task_vm.specs.Seen.{Shows};

use crate::machine::{Machine, Step, breaks};
use crate::words::{elements, int_of, long_of, moved, number_of};
use c_tree::arithmetic::{compare, complement, compute, negate, wrap};
use c_tree::program::{Comparison, Operation, Update, Width};
use c_tree::words::{holds, same_word, truth};
use mpc_values::{Call, Fault, Word};

// The new value of a variable, from the old one and the number on the right of a computing assignment.
fn updated(update: Update, old: Word, right: Word) -> Result<Word, Fault>
    ensures { (m : Mach) (stack : List Word) (line : ℕ) → updated_next m stack line update old right ≡ word_next m stack line result }
{
    match update {
        Update::Number {
            operation,
            width,
            target,
        } => {
            let number = compute(width, operation, number_of(width, old), long_of(right))?;
            Ok(Word::Int(wrap(target, number)))
        }
        Update::Pointer { back, words } => moved(old, elements(back, words, long_of(right))),
    }
}

impl Machine {
    pub(crate) fn negate(&mut self, width: Width, line: u32, call: &mut Call) -> Step
        requires { self.old.pc < 2 ^ 63 }
        ensures { Shows result call.new (on_top self.old.stack (λ x ws. number_next self.old ws line (negated width (number_of type_.Long x)))) self.old self.new }
    {
        let Some(word) = self.stack.top() else {
            return Step::Stuck;
        };
        match negate(width, long_of(word)) {
            Ok(number) => {
                self.put_over(Word::Int(number));
                Step::Went
            }
            Err(fault) => breaks(call, fault, line),
        }
    }

    pub(crate) fn arithmetic(
        &mut self,
        width: Width,
        operation: Operation,
        line: u32,
        call: &mut Call,
    ) -> Step
        requires { self.old.pc < 2 ^ 63 }
        ensures { Shows result call.new (on_top self.old.stack (λ y ys. on_top ys (λ x ws. number_next self.old ws line (operated width operation (number_of type_.Long x) (number_of type_.Long y))))) self.old self.new }
    {
        let Some((left, right)) = self.stack.top_two() else {
            return Step::Stuck;
        };
        match compute(width, operation, long_of(left), long_of(right)) {
            Ok(number) => {
                self.put_over_two(Word::Int(number));
                Step::Went
            }
            Err(fault) => breaks(call, fault, line),
        }
    }

    pub(crate) fn update(&mut self, update: Update, line: u32, call: &mut Call) -> Step
        requires { self.old.pc < 2 ^ 63 }
        ensures { Shows result call.new (on_top self.old.stack (λ right ws. on_top ws (λ old vs. updated_next self.old vs line update old right))) self.old self.new }
    {
        let Some((old, right)) = self.stack.top_two() else {
            return Step::Stuck;
        };
        match updated(update, old, right) {
            Ok(word) => {
                self.put_over_two(word);
                Step::Went
            }
            Err(fault) => breaks(call, fault, line),
        }
    }

    pub(crate) fn offset(&mut self, back: bool, words: u32, line: u32, call: &mut Call) -> Step
        requires { self.old.pc < 2 ^ 63 }
        ensures { Shows result call.new (on_top self.old.stack (λ n ns. on_top ns (λ p ws. word_next self.old ws line (of_words.moved p (of_words.elements back words (number_of type_.Long n)))))) self.old self.new }
    {
        let Some((pointer, count)) = self.stack.top_two() else {
            return Step::Stuck;
        };
        match moved(pointer, elements(back, words, long_of(count))) {
            Ok(word) => {
                self.put_over_two(word);
                Step::Went
            }
            Err(fault) => breaks(call, fault, line),
        }
    }

    pub(crate) fn complement(&mut self) -> Step
        requires { self.old.pc < 2 ^ 63 }
        ensures { (call : Call) → Shows result call (on_top self.old.stack (λ x ws. next self.old (Int (complemented (number_of type_.Long x)) ∷ ws))) self.old self.new }
    {
        let Some(word) = self.stack.top() else {
            return Step::Stuck;
        };
        self.put_over(Word::Int(complement(long_of(word))));
        Step::Went
    }

    pub(crate) fn not(&mut self) -> Step
        requires { self.old.pc < 2 ^ 63 }
        ensures { (call : Call) → Shows result call (on_top self.old.stack (λ x ws. next self.old (of_words.truth (not (of_words.holds x)) ∷ ws))) self.old self.new }
    {
        let Some(word) = self.stack.top() else {
            return Step::Stuck;
        };
        self.put_over(truth(!holds(word)));
        Step::Went
    }

    pub(crate) fn narrow(&mut self) -> Step
        requires { self.old.pc < 2 ^ 63 }
        ensures { (call : Call) → Shows result call (on_top self.old.stack (λ x ws. next self.old (Int (number_of type_.Int x) ∷ ws))) self.old self.new }
    {
        let Some(word) = self.stack.top() else {
            return Step::Stuck;
        };
        self.put_over(Word::Int(i64::from(int_of(word))));
        Step::Went
    }

    pub(crate) fn condition(&mut self) -> Step
        requires { self.old.pc < 2 ^ 63 }
        ensures { (call : Call) → Shows result call (on_top self.old.stack (λ x ws. next self.old (of_words.truth (of_words.holds x) ∷ ws))) self.old self.new }
    {
        let Some(word) = self.stack.top() else {
            return Step::Stuck;
        };
        self.put_over(truth(holds(word)));
        Step::Went
    }

    pub(crate) fn compare(&mut self, comparison: Comparison) -> Step
        requires { self.old.pc < 2 ^ 63 }
        ensures { (call : Call) → Shows result call (on_top self.old.stack (λ y ys. on_top ys (λ x ws. next self.old (of_words.truth (compared comparison (number_of type_.Long x) (number_of type_.Long y)) ∷ ws)))) self.old self.new }
    {
        let Some((left, right)) = self.stack.top_two() else {
            return Step::Stuck;
        };
        self.put_over_two(truth(compare(comparison, long_of(left), long_of(right))));
        Step::Went
    }

    pub(crate) fn same(&mut self, wanted: bool) -> Step
        requires { self.old.pc < 2 ^ 63 }
        ensures { (call : Call) → Shows result call (on_top self.old.stack (λ y ys. on_top ys (λ x ws. next self.old (of_words.truth (cond wanted (of_words.same_word x y) (not (of_words.same_word x y))) ∷ ws)))) self.old self.new }
    {
        let Some((left, right)) = self.stack.top_two() else {
            return Step::Stuck;
        };
        let same = same_word(left, right);
        self.put_over_two(truth(if wanted { same } else { !same }));
        Step::Went
    }
}
