ghost use Rattle.std.specs.Prelude.{◌≡◌, ◌<◌, IfOk, map};
ghost use Rattle.tls_levels.specs.Images.{image_number, shape_of};

use mpc_values::{Level, Memory, StaticVar};
use std::alloc::Global;

/// How many words a static variable has, and the level whose instances share it, where it has one.
#[derive(Clone, Copy, Debug, PartialEq, Eq)]
pub struct VarShape {
    pub len: u32,
    pub level: Option<Level>,
}

/// The shapes of variables, in their order.
pub(crate) fn shapes_of(alloc: Global, globals: &[StaticVar]) -> Result<Vec<VarShape>, Memory>
    ensures { IfOk result (λ list. list.items ≡ map shape_of globals.now) }
{
    let mut list = Vec::new(alloc);
    for var in globals {
        list.push(VarShape {
            len: var.len,
            level: var.level,
        })?;
    }
    Ok(list)
}

/// The kind of image that a variable of this level stands in: 0 for that of a task, and from 1 on
/// those of the levels, from the narrowest to the widest.
pub(crate) fn image_number(level: Option<Level>) -> usize
    ensures value { result ≡ image_number level }
    ensures small { result < 7 }
{
    match level {
        None => 0,
        Some(Level::Core) => 1,
        Some(Level::L1) => 2,
        Some(Level::L2) => 3,
        Some(Level::L3) => 4,
        Some(Level::Numa) => 5,
        Some(Level::Node) => 6,
    }
}
