//! The refusal of a tree.

/// The first rule that a tree breaks, by its number, and the line of the node that breaks it.
#[derive(Clone, Copy, Debug, PartialEq, Eq, thiserror::Error)]
#[error("line {line}: rule {rule} is broken")]
pub struct TypeRefusal {
    pub rule: u16,
    pub line: u32,
}
