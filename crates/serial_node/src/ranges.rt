ghost use Rattle.std.specs.Prelude.{◌≡◌, ◌+◌, ◌≤◌, IfOk, length, Some};
ghost use Rattle.mpc_values.specs.declared.owners.Owner.TheVariants.{Task};
ghost use Rattle.serial_memory.specs.Memory.{object_of};
ghost use Rattle.serial_memory.specs.Access.{range_of};
ghost use Rattle.serial_model.specs.World.{owner_of};
ghost use Rattle.serial_node.specs.Seen.{range_seen};

use crate::objects::Object;
use crate::places::Places;
use mpc_base::{Fault, Obj, Word};

/// A range of places that was found: its object, and the index of its first place.
#[derive(Clone, Copy)]
pub struct Span<'a> {
    pub obj: Obj,
    pub at: u32,
    pub object: &'a Object,
}

/// The range of so many places from the one that a word names, or NullAccess, Dangling or Bounds.
pub fn range_of(places: &Places, at: Word, count: u32) -> Result<Span<'_>, Fault>
    ensures range { range_seen result ≡ range_of (owner_of 0) places.now.memory at count }
    ensures held { IfOk result (λ span. object_of places.now.memory (Task 0) span.obj ≡ Some span.object.now) }
    ensures inside { IfOk result (λ span. span.at + count ≤ length span.object.now.words) }
{
    let Word::Ptr { obj, at } = at else {
        return Err(Fault::NullAccess);
    };
    let Some(object) = places.object(obj) else {
        return Err(Fault::Dangling);
    };
    if at as usize + count as usize <= object.words().len() {
        Ok(Span { obj, at, object })
    } else {
        Err(Fault::Bounds)
    }
}
