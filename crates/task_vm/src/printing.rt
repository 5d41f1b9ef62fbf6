//! Printed texts.
ghost use Rattle.std.specs.Prelude.{◌≡◌, IfOk};
ghost use Rattle.c_tree.specs.Words as of_words;

use crate::words::long_of;
use c_tree::formats::{Format, Piece};
use itoa::Buffer;
use mpc_values::{Memory, Text, Word};
use std::alloc::Global;

/// The bytes of a format with its numbers in decimal.
pub(crate) fn printed(alloc: Global, format: &Format, numbers: &[Word]) -> Result<Text, Memory>
    ensures { IfOk result (λ text. text ≡ of_words.printed format.now numbers.now) }
{
    let mut bytes = Vec::new(alloc);
    let mut at = 0;
    for piece in format.as_slice() {
        match piece {
            Piece::Text(text) => bytes.extend_from_slice(text.as_slice())?,
            Piece::Number => if at < numbers.len() {
                let mut buffer = Buffer::new();
                bytes.extend_from_slice(buffer.format(long_of(numbers[at])).as_bytes())?;
                at += 1;
            },
        }
    }
    Ok(Text::of(bytes))
}
