//! The memories of a run: live objects by owner and name, a map from places to words, and what each access
//! does or which fault it has while messages are under way. The definitions are in specs/, and laws.rt
//! states laws of them.
#![tactic(auto)]

mod kinds;
mod laws;

pub use kinds::{Kind, Span};
pub use laws::{
    each_object_has_its_key, each_object_has_its_words, equal_memories_read_alike,
    names_are_never_given_again, other_objects_stay, pending_places_are_barred,
    ranges_fault_in_order,
};

#[cfg(test)]
mod tests;
