//! Laws of the definitions, as contracts of functions that do nothing.
ghost use Rattle.hls_pragma.specs.Laws.{ReadingLaws};

/// The line of a pragma says at most one thing.
pub fn reading_laws()
    ensures { ReadingLaws }
{}
