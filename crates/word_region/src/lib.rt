//! One vector of words with holes in it: ranges are taken by first fit, released and merged.
#![tactic(auto)]

mod holes;
mod region;
mod words;

pub use region::Region;
