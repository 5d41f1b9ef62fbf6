//! What is proved of the code of a program, as contracts of functions that do nothing.
ghost use Rattle.c_tree.specs.Programs.{Program};
ghost use Rattle.c_compile.specs.Correct.{compiled, Behaves};
ghost use Rattle.c_compile.specs.Plain.{PlainAsks};

/// Behind every list of answers, the code of a program demands what the program asks next; where the
/// program is over or an answer does not fit, so does its code find.
#[tactic(auto, using(crate::proofs::Functions::behaves))]
pub fn code_asks_what_the_program_asks()
    ensures { (program : Program) → Behaves (compiled program) program }
{}

/// A program that uses no MPI function and no directive for shared variables asks only calls from `load`
/// to `finish`, behind every list of answers.
#[tactic(auto, using(crate::proofs::Plain::plain_asks))]
pub fn plain_programs_ask_plain_calls()
    ensures { PlainAsks }
{}
