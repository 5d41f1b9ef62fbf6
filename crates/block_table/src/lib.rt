//! The rows of live objects, found by owner and object, with the marks of messages under way on their places.
#![tactic(auto)]

mod entries;
mod grid;
mod index;
mod rows;
mod table;

pub use rows::{Mark, Row, RowKind, Span};
pub use table::Table;
