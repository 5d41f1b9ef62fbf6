//! The tree of a program, with types and numbered variables, and what a task that runs it asks.
//!
//! The meaning stands in specs/Next.antt: `next_of` tells, for a program and the answers that a task
//! has had so far, which call the task asks next and at which line.
#![tactic(auto)]

pub mod arithmetic;
pub mod formats;
mod laws;
pub mod mpi;
mod names;
pub mod program;
mod reading;
pub mod scripts;
pub mod syntax;
mod variables;
pub mod words;

pub use laws::next_laws;
pub use names::{Identifier, Identifiers};
pub use variables::Globals;

#[cfg(test)]
mod tests;
