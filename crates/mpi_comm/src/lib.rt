//! Communicators (MPI 3.1, section 6.4): their members by rank, and how they are made and ended.
//! The definitions are in specs/, and laws.rt states laws of them.
#![tactic(auto)]

mod comms;
mod communicators;
mod laws;
mod seen_laws;
mod splitting;

pub use comms::Comms;
pub use communicators::{Communicator, Members, Seen, View};
pub use laws::{numbers_are_never_given_again, splits_order_by_colour_and_key};
pub use seen_laws::communicators_step_alike;

#[cfg(test)]
mod tests;
