//! The words of the command: what they stand for, by `clap` and the rules of the options.
#![tactic(auto)]

mod command;
mod numbers;
mod orders;
mod places;
mod reading;

pub use orders::{FileName, Mode, Orders, Usage};
pub use reading::read_words;

#[cfg(test)]
mod tests;
