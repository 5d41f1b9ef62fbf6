//! The texts of a run: its report, as the program writes it.
#![tactic(auto)]

mod reports;

pub use reports::report;

#[cfg(test)]
mod tests;
