//! Which task steps next in a run that one thread makes.
#![tactic(auto)]

mod finding;
mod picker;

pub use picker::Picker;
