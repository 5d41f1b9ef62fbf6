//! What other crates read of a typed program.
ghost use Rattle.std.specs.Prelude.{◌≡◌, ◌<◌, ◌-◌, ◌^◌, length, min, slice_get, Some};

use crate::program::{Construct, Program};
use mpc_values::StaticVar;

/// A length as a `u32`, or the greatest one.
fn counted(len: usize) -> u32
    ensures { result ≡ min len (2 ^ 32 - 1) }
{
    u32::try_from(len).unwrap_or(u32::MAX)
}

impl Program {
    /// The static variables, by number: those of the file's scope, then the static locals.
    pub fn globals(&self) -> &[StaticVar]
        ensures { result.now ≡ self.now.variables }
    {
        self.variables.as_slice()
    }

    /// How many functions are defined.
    pub fn functions(&self) -> u32
        ensures { result ≡ min (length self.now.functions.items) (2 ^ 32 - 1) }
    {
        counted(self.functions.len())
    }

    /// How many sharing statements it has.
    pub fn constructs(&self) -> u32
        ensures { result ≡ min (length self.now.constructs) (2 ^ 32 - 1) }
    {
        counted(self.constructs.as_slice().len())
    }

    /// The sharing statement of a number, counted from 0.
    pub fn construct(&self, number: u32) -> Construct
        requires { number < length self.now.constructs }
        ensures { slice_get self.now.constructs number ≡ Some result }
    {
        self.constructs.as_slice()[number as usize]
    }

    /// The line of the source's last token that is no foreign pragma, or 1 where there is none.
    pub fn line_count(&self) -> u32
        ensures { result ≡ self.now.lines }
    {
        self.lines
    }
}
