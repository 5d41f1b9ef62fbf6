//! Laws of the definitions, as contracts of functions that do nothing.
ghost use Rattle.c_lex.specs.Laws.{LexingLaws};

/// A source has at most one list of tokens and at most one refusal, and never both.
pub fn lexing_laws()
    ensures { LexingLaws }
{}
