ghost use Rattle.std.specs.Prelude.{◌≡◌, ◌^◌, ◌<◌, length, IfOk, map};
ghost use Rattle.std.specs.List.{sum_by, range_with_len};
ghost use Rattle.tls_levels.specs.Images.{words_in, offset_in};

use crate::shapes::{VarShape, image_number};
use mpc_values::Memory;
use std::alloc::Global;

/// The offset of each variable in its image, and the length of each kind of image.
pub(crate) struct Layout {
    pub offsets: Vec<u32>,
    pub totals: Vec<u32>,
}

/// Puts variables into their images by rising number, without gaps.
pub(crate) fn lay_out(alloc: Global, shapes: &[VarShape]) -> Result<Layout, Memory>
    requires { sum_by (λ s. s.len) shapes.now < 2 ^ 32 }
    ensures offsets { IfOk result (λ l. l.offsets.items ≡ map (offset_in shapes.now) (range_with_len 0 (length shapes.now))) }
    ensures totals { IfOk result (λ l. l.totals.items ≡ map (words_in shapes.now) (range_with_len 0 7)) }
{
    let mut offsets = Vec::new(alloc);
    let mut totals = vec![in alloc; 0u32; 7]?;
    for shape in shapes {
        let kind = image_number(shape.level);
        let at = totals[kind];
        offsets.push(at)?;
        totals[kind] = at + shape.len;
    }
    Ok(Layout { offsets, totals })
}
