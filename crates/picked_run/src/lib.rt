//! The run of a program as several tasks on one thread: the tasks step one after the other, in the order of the picks,
//! until the run has ended.
#![tactic(auto)]

mod run;

pub use run::run_picked;
