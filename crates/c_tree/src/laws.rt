//! Laws of the definitions, as contracts of functions that do nothing.
ghost use Rattle.c_tree.specs.NextLaws.{NextLaws};

/// What a task asks is a misfit only where some answer is not of the kind that the call asked before it
/// has, or stands behind the end; and where it is none, a call is asked behind every shorter beginning
/// of the answers.
pub fn next_laws()
    ensures { NextLaws }
{}
