//! Machines: the cores of a node with their levels, the file that tells them, and where tasks stand.
#![tactic(auto)]

mod core_numbers;
mod machine_file;
mod machines;
mod placements;
mod refusals;
#[cfg(test)]
mod tests;

pub use core_numbers::{CoreNumbers, INSTANCE_NUMBERS};
pub use machine_file::read_machine;
pub use machines::{Machine, flat};
pub use placements::{Placement, place};
pub use refusals::{BadPlace, MachineRefusal};
