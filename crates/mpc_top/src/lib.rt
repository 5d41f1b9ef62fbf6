//! The top call.
#![tactic(auto)]

mod command;
mod laws;
mod outputs;
mod plain;
mod refusals;
mod sources;
mod statuses;
mod top;

pub use laws::a_command_has_one_outcome;
pub use top::{Top, mpc_serial};

#[cfg(test)]
mod tests;
