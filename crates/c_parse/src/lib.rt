//! The tree of a source: a parser from tokens to the tree without types.
//!
//! `parse` gives the tree that the tokens of a source spell (`Spelt` of specs/Parsed.antt), and refuses
//! them at the place that `RefusedAt` names where they spell none.
#![tactic(auto)]

mod binaries;
mod bodies;
mod cursor;
mod declarations;
mod expressions;
mod grammar;
mod laws;
mod nodes;
mod params;
mod parser;
mod primaries;
mod refusals;
pub mod signs;
mod sources;
mod statements;
mod stops;
pub mod symbols;
mod tokens;
mod types;
mod unaries;

pub use laws::parsing_laws;
pub use parser::parse;
pub use refusals::ParseRefusal;

#[cfg(test)]
mod tests;
