//! Formats of printed texts.
ghost use Rattle.std.specs.Prelude.{◌≡◌};

use mpc_values::Text;
use std::marker::Model;

/// A part of a printed text.
#[derive(Debug, Clone, Drop)]
pub enum Piece {
    /// Bytes as they are.
    Text(Text),
    /// The next number, in decimal.
    Number,
}

/// The parts of a printed text, in order.
#[derive(Debug, Clone, Drop)]
pub struct Format {
    pieces: Vec<Piece>,
}

impl Model for Format {
    ghost use Rattle.std.specs.Prelude.{List};
    ghost use Rattle.c_tree.specs.declared.formats.Piece.{Piece};

    ghost Value = { List Piece };

    ghost view = { λ format. format.pieces.items };
}

impl Format {
    pub fn of(pieces: Vec<Piece>) -> Format
        ensures { result ≡ pieces.items }
    {
        Format { pieces }
    }

    pub fn as_slice(&self) -> &[Piece]
        ensures { result.now ≡ self.now }
    {
        self.pieces.as_slice()
    }

    pub fn into_vec(self) -> Vec<Piece>
        ensures { result.items ≡ self }
    {
        let Format { pieces } = self;
        pieces
    }
}
