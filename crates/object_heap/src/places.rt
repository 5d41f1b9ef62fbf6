//! Ranges of a region for objects, of which those without words have none.
ghost use Rattle.std.specs.Prelude.{◌≡◌, ◌+◌, ◌<◌, IfOk, OnOk, OnErr};
ghost use Rattle.word_region.specs.Places.{IsHeld, IsFirstFit, Takes, Releases};
ghost use Rattle.object_heap.specs.Kept.{range_of};

use mpc_values::Memory;
use word_region::Region;

/// Takes the places of an object, the first that fit; one without words begins at 0. After want of memory the region is
/// as it was.
pub fn take_places(region: &mut Region, len: u32) -> Result<usize, Memory>
    ensures first { IfOk result (λ base. IsFirstFit region.old.cells len base) }
    ensures takes { IfOk result (λ base. Takes region.old.cells region.new.cells base len) }
    ensures ranges { OnOk result (region.new.ranges ≡ region.old.ranges + range_of len) }
    ensures err { OnErr result (region.new ≡ region.old) }
{
    if len == 0 {
        return Ok(0);
    }
    region.take(len as usize)
}

/// Gives the places of an object back.
pub fn release_places(region: &mut Region, base: usize, len: u32)
    requires taken { 0 < len → 0 < region.old.ranges }
    requires held { IsHeld region.old.cells base len }
    ensures releases { Releases region.old.cells region.new.cells base len }
    ensures ranges { region.new.ranges + range_of len ≡ region.old.ranges }
{
    if 0 < len {
        region.release(base, len as usize);
    }
}
