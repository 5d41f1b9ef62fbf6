//! Tasks and a node that run a program together, one step after the other, until no task can go.
#![tactic(auto)]

mod rounds;
mod seats;

pub use rounds::run_to_end;
pub use seats::Seat;
