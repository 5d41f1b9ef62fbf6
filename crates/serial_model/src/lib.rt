//! What a run is: the state of separate processes (the world), one step of one task, whole runs, and how
//! they end. The definitions stand in specs/; the functions that state laws of them are in laws.rt.
#![tactic(auto)]

mod lasts;
mod laws;
mod records;

pub use lasts::Last;
pub use laws::{legal_runs_go_on, runs_are_bounded, runs_go_on_by_one_step};
pub use records::{RunRecord, Setup};

#[cfg(test)]
mod tests;
