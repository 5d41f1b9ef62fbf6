//! The matching of messages: which posted send and which posted receive meet.
#![tactic(auto)]

mod laws;
mod matching;
mod postings;

pub use laws::matching_laws;
pub use matching::Queue;
pub use postings::Posting;

#[cfg(test)]
mod tests;
