//! The tokens of a source: names, keys, numbers, texts, signs and pragmas, each with its span and
//! its place. Comments, blanks and the other directives give no token.
#![tactic(auto)]

mod bytes;
mod defines;
mod directives;
mod keys;
mod laws;
mod pieces;
mod places;
mod scan;
mod signs;
mod tokens;
mod words;

pub use keys::Key;
pub use laws::lexing_laws;
pub use scan::lex;
pub use signs::Sign;
pub use tokens::{Kind, LexRefusal, Token};

#[cfg(test)]
mod tests;
