//! The node: the memory of a run and its journal. A visit does one call of a task, as the model of runs
//! says: what `Node` holds is at every moment a run of its setup.
#![tactic(auto)]

mod accesses;
mod acts;
mod laws;
mod node;
mod objects;
mod places;
mod ranges;
mod state;

pub use laws::{runs_begin_and_end, visits_leave_runs};
pub use node::{Node, Reply};

#[cfg(test)]
mod tests;
