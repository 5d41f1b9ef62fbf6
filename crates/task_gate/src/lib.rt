//! A gate that hands one value to one pass at a time, in the order of their tickets.
//!
//! - What [`Gate::enter`] gives has the base of the gate's first value, begins with the history that this
//!   pass last left, and has of this pass exactly the items that this pass made, in order.
//! - What a pass gets after [`Gate::join`] begins with what each of the two last left, and has of the spent
//!   number, and of each number joined into that one before, exactly the items that those passes made.
//! - A pass that is outside holds no slot, is of no type but its own, and can lie in another gate's value.
#![tactic(auto)]

mod gates;
mod items;
mod laws;
mod passes;
mod plays;
mod steps;
mod views;
mod visits;

pub use gates::Gate;
pub use items::Item;
pub use laws::gate_laws;
pub use passes::Pass;
pub use plays::InTurn;
pub use views::{Stage, View};

#[cfg(test)]
mod tests;
