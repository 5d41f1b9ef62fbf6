//! Whose copy of a static variable a task touches, and where the variable stands in its image.
#![tactic(auto)]

mod layout;
mod levels;
mod owner_list;
mod shapes;
#[cfg(test)]
mod tests;

pub use levels::Levels;
pub use shapes::VarShape;
