//! Laws of the definitions, as contracts of functions that do nothing.
ghost use Rattle.c_types.specs.Laws.{TypingLaws};
ghost use Rattle.c_types.specs.Mains.{TypedHasMain};
ghost use Rattle.c_types.specs.Sizes.{TypedIsSized};

/// A tree has at most one typed program, or is refused in one way, and never both.
pub fn typing_laws()
    ensures { TypingLaws }
{}

/// Main is one of the functions of a typed program.
#[tactic(auto, using(crate::proofs::Mains::typed_has_main))]
pub fn typed_programs_have_a_main()
    ensures { TypedHasMain }
{}

/// A typed program has at most 4,096 static variables with at most 262,144 words together, each with as many first
/// words as its length, and at most 256 statements that share variables.
pub fn typed_programs_are_sized()
    ensures { TypedIsSized }
{}
