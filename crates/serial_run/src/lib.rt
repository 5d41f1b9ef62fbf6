//! The run of a program as one task, from the start of main to the end of the run.
#![tactic(auto)]

mod laws;
mod run;

pub use laws::a_program_has_one_run;
pub use run::run_serial;
