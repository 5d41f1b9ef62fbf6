//! The node: what stands of a run, and its journal. A visit does one call of a task, as the model of runs
//! says: what `Node` holds is at every moment a run of its setup.
#![tactic(auto)]

mod act;
mod comms;
mod ends;
mod group_calls;
mod logs;
mod memory_calls;
mod node;
mod own_calls;
mod parts;
mod records;
mod starts;
mod steps;

pub use node::{Node, Reply};

#[cfg(test)]
mod tests;
