//! The live objects of all owners in one region of words, with the marks of messages under way and their copies.
//! The definitions are in specs/, and laws.rt states laws of them.
#![tactic(auto)]

mod heap;
mod laws;
mod marks;
mod places;

pub use heap::Heap;
pub use laws::{copies_are_one_by_one, heaps_show_memories, names_have_keys};
