//! The directives that share variables: what stands behind `#pragma` in a line.
#![tactic(auto)]

mod directives;
mod items;
mod laws;
mod reader;

pub use directives::{NameSpan, Names, Pragma, PragmaRefusal};
pub use laws::reading_laws;
pub use reader::read_pragma;

#[cfg(test)]
mod tests;
