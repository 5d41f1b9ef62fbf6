//! What is proved of commands, as the contract of a function that does nothing.
ghost use Rattle.mpc_top.specs.Outcomes.{OneOutcome};

use c_lex::lexing_laws;
use c_parse::parsing_laws;
use c_types::typing_laws;

/// What is made for some words, of the files of one store, is one text with one status; for `serial` it
/// is the report of the one run of the source's program.
pub fn a_command_has_one_outcome()
    ensures { OneOutcome }
{
    lexing_laws();
    parsing_laws();
    typing_laws();
}
