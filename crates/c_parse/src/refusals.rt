//! Why a source has no tree.

/// Why the tokens of a source spell no tree (C99, sections 6.5 to 6.9). Lines and columns count from
/// 1, columns in bytes.
#[derive(Clone, Copy, Debug, PartialEq, Eq, thiserror::Error)]
pub enum ParseRefusal {
    /// The first token with which the tokens are no front of a source, or just behind the last byte.
    #[error("line {line}, column {col}: no tree goes on here")]
    Syntax { line: u32, col: u32 },
    /// The first pragma that begins as a directive for shared variables, and is none.
    #[error("line {line}: no directive for shared variables is written so")]
    Pragma { line: u32 },
}
