//! The one heap of all tasks: places are named by the asking task and a pointer word, each access does what the
//! definitions of memory say or has their fault, and messages are moved inside the heap.
#![tactic(auto)]

mod access;
mod first;
mod laws;
mod messages;
mod space;
#[cfg(test)]
mod tests;

pub use laws::messages_keep_their_marks;
pub use space::Space;
