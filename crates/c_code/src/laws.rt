//! Laws of the definitions, as contracts of functions that do nothing.
ghost use Rattle.c_code.specs.Laws.{DemandsOnce, BegunFollows, MovedFollows, AnsweredFollows, AskedDemanded, NeverStuck};

/// Behind a list of answers code demands one thing at most. A machine that begins follows no answers; a
/// step that leads on keeps the answers that it follows; behind an answer to its call it follows one
/// more; and what it asks is what the code demands behind the answers that it follows. Code that never
/// sticks has no state without a next step among those that a machine comes to.
pub fn machines_follow_answers()
    ensures once { DemandsOnce }
    ensures begun { BegunFollows }
    ensures moved { MovedFollows }
    ensures answered { AnsweredFollows }
    ensures demanded { AskedDemanded }
    ensures unstuck { NeverStuck }
{}
