//! Requests (MPI 3.1, section 3.7): what they wait for, which places they mark, and what ends them.
//! The definitions are in specs/, and laws.rt states laws of them.
#![tactic(auto)]

mod laws;
mod own;
mod owners;
mod requests;
mod standing;
mod started;
mod table;

pub use laws::{
    completed_requests_are_active_no_more, messages_are_whole_or_refused,
    requests_are_ready_by_their_postings,
};
pub use owners::RequestId;
pub use requests::{Awaited, Carried, Request};
pub use standing::kept_requests_stand_for_requests;
pub use started::{Open, Started};
pub use table::Requests;

#[cfg(test)]
mod tests;
