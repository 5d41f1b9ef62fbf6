//! Laws of the definitions, as contracts of functions that do nothing.
ghost use Rattle.c_parse.specs.Laws.{ParsingLaws};

use hls_pragma::reading_laws;

/// The tokens of a source spell at most one tree, or are refused in one way, and never both.
pub fn parsing_laws()
    ensures { ParsingLaws }
{
    reading_laws();
}
