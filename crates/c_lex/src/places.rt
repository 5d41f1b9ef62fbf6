//! Places of the source, by byte, line and column.
ghost use Rattle.std.specs.Prelude.{◌≡◌, ◌+◌, ◌≤◌, length, take, drop};
ghost use Rattle.c_lex.specs.Places.{behind as place_behind};
ghost use Rattle.mpc_values.specs.declared.limits.TheConstants.{MAX_SOURCE_BYTES};

/// A place of the source: how many bytes stand before it, its line and its column.
#[derive(Clone, Copy, Debug, PartialEq, Eq)]
pub struct Place {
    pub at: usize,
    pub line: u32,
    pub col: u32,
}

/// The place behind so many bytes.
pub fn behind(src: &[u8], place: Place, len: usize) -> Place
    requires within { place.at + len ≤ length src.now }
    requires small { length src.now ≤ MAX_SOURCE_BYTES }
    requires line { place.line ≤ place.at + 1 }
    requires col { place.col ≤ place.at + 1 }
    ensures { result ≡ place_behind place (take len (drop place.at src.now)) }
{
    let mut here = place;
    for byte in &src[place.at..place.at + len] {
        here.at += 1;
        if *byte == b'\n' {
            here.line += 1;
            here.col = 1;
        } else {
            here.col += 1;
        }
    }
    here
}
