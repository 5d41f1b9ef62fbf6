//! What MPI calls ask of their arguments, and what reductions make of numbers.
#![tactic(auto)]

mod arguments;
mod folds;

pub use arguments::{ANY_SOURCE, ANY_TAG, LAST_TAG, PROC_NULL, rank_fits, tag_fits};
pub use folds::fold;

#[cfg(test)]
mod tests;
