//! The holes of a vector of words, by rising base.
ghost use Rattle.std.specs.Prelude.{◌≡◌, ◌≢◌, true, false, ◌-◌, ◌+◌, ◌^◌, ◌<◌, ◌≤◌, length, slice_set, IfSome, IfNone, IfOk, OnOk, OnErr, vec_capacity, vec_len};
ghost use Rattle.word_region.specs.Places.{IsFirstFit, Takes};
ghost use Rattle.word_region.specs.Holes.{Lies, AreLaid, IsFirstWith, IsNoneWith, IsOutside, IsPlace, LeavesHoles, Put, hole_at, cells_of};

use crate::words::{grow, unset};
use mpc_values::{Memory, Word};

/// A range of places that nobody holds, as long as can be.
#[derive(Clone, Copy, Debug, PartialEq, Eq)]
pub struct Hole {
    pub base: usize,
    pub len: usize,
}

/// The number of the first hole that has so many places.
fn first_with(holes: &[Hole], len: usize) -> Option<usize>
    ensures found { IfSome result (λ k. IsFirstWith len holes.now k) }
    ensures none { IfNone result (IsNoneWith len holes.now) }
{
    holes.iter().position(|hole| len <= hole.len)
}

/// Takes so many places from the front of a hole.
fn shorten(holes: &mut Vec<Hole>, k: usize, len: usize, end: usize)
    requires laid { Lies 0 holes.old.items (end + 1) }
    requires there { k < length holes.old.items }
    requires some { 0 < len }
    requires fits { len ≤ (hole_at holes.old.items k).len }
    ensures leaves { LeavesHoles holes.old.items holes.new.items (hole_at holes.old.items k).base len }
    ensures laid { Lies 0 holes.new.items (end + 1) }
    ensures count { length holes.new.items ≤ length holes.old.items }
    ensures capacity { vec_capacity holes.new ≡ vec_capacity holes.old }
{
    let hole = holes[k];
    if hole.len == len {
        holes.remove(k);
    } else {
        holes[k] = Hole {
            base: hole.base + len,
            len: hole.len - len,
        };
    }
}

/// Makes a hole longer by so many places at its end.
fn lengthen(holes: &mut Vec<Hole>, k: usize, more: usize)
    requires there { k < length holes.old.items }
    requires fits { (hole_at holes.old.items k).len + more < 2 ^ 64 }
    ensures items { holes.new.items ≡ slice_set holes.old.items k (record { base = (hole_at holes.old.items k).base; len = (hole_at holes.old.items k).len + more }) }
    ensures capacity { vec_capacity holes.new ≡ vec_capacity holes.old }
{
    holes[k].len += more;
}

/// How many holes begin before a place.
fn place_of(holes: &[Hole], base: usize, end: usize) -> usize
    requires { Lies 0 holes.now (end + 1) }
    ensures { IsPlace base holes.now result }
{
    holes.partition_point(|hole| hole.base < base)
}

/// Whether the hole before this number ends at a place.
fn ends_at(holes: &[Hole], k: usize, place: usize, end: usize) -> bool
    requires laid { Lies 0 holes.now (end + 1) }
    requires within { k ≤ length holes.now }
    ensures yes { result ≡ true → (0 < k) × ((hole_at holes.now (k - 1)).base + (hole_at holes.now (k - 1)).len ≡ place) }
    ensures no { result ≡ false → 0 < k → (hole_at holes.now (k - 1)).base + (hole_at holes.now (k - 1)).len ≢ place }
{
    0 < k && holes[k - 1].base + holes[k - 1].len == place
}

/// Whether the hole of this number begins at a place.
fn begins_at(holes: &[Hole], k: usize, place: usize) -> bool
    ensures yes { result ≡ true → (k < length holes.now) × ((hole_at holes.now k).base ≡ place) }
    ensures no { result ≡ false → k < length holes.now → (hole_at holes.now k).base ≢ place }
{
    k < holes.len() && holes[k].base == place
}

/// Takes a range at the end: it begins with the hole that reaches the end, or there, and the vector grows.
fn append(words: &mut Vec<Word>, holes: &mut Vec<Hole>, len: usize) -> Result<usize, Memory>
    requires laid { AreLaid words.old.items holes.old.items }
    requires some { 0 < len }
    requires none { IsNoneWith len holes.old.items }
    ensures first { IfOk result (λ base. IsFirstFit (cells_of words.old.items holes.old.items) len base) }
    ensures takes { IfOk result (λ base. Takes (cells_of words.old.items holes.old.items) (cells_of words.new.items holes.new.items) base len) }
    ensures laid { AreLaid words.new.items holes.new.items }
    ensures count { length holes.new.items ≤ length holes.old.items }
    ensures capacity { vec_capacity holes.new ≡ vec_capacity holes.old }
    ensures err { OnErr result (words.new.items ≡ words.old.items) }
    ensures err_holes { OnErr result (holes.new.items ≡ holes.old.items) }
{
    let end = words.len();
    let count = holes.len();
    if ends_at(holes.as_slice(), count, end, end) {
        let base = holes[count - 1].base;
        grow(words, base, len)?;
        holes.truncate(count - 1);
        Ok(base)
    } else {
        grow(words, end, len)?;
        Ok(end)
    }
}

/// Takes the first range that fits.
pub fn take_range(words: &mut Vec<Word>, holes: &mut Vec<Hole>, len: usize) -> Result<usize, Memory>
    requires laid { AreLaid words.old.items holes.old.items }
    requires some { 0 < len }
    ensures first { IfOk result (λ base. IsFirstFit (cells_of words.old.items holes.old.items) len base) }
    ensures takes { IfOk result (λ base. Takes (cells_of words.old.items holes.old.items) (cells_of words.new.items holes.new.items) base len) }
    ensures laid { AreLaid words.new.items holes.new.items }
    ensures count { length holes.new.items ≤ length holes.old.items }
    ensures capacity { vec_capacity holes.new ≡ vec_capacity holes.old }
    ensures err { OnErr result (words.new.items ≡ words.old.items) }
    ensures err_holes { OnErr result (holes.new.items ≡ holes.old.items) }
{
    let Some(k) = first_with(holes.as_slice(), len) else {
        return append(words, holes, len);
    };
    let base = holes[k].base;
    let end = words.len();
    unset(words, base, len);
    shorten(holes, k, len, end);
    Ok(base)
}

/// Puts a range that is in no hole into the holes, in one with those that it touches.
pub fn add_hole(holes: &mut Vec<Hole>, base: usize, len: usize, end: usize)
    requires laid { Lies 0 holes.old.items (end + 1) }
    requires some { 0 < len }
    requires within { base + len ≤ end }
    requires outside { IsOutside holes.old.items base len }
    requires room { length holes.old.items < vec_capacity holes.old }
    ensures puts { Put holes.old.items holes.new.items base len (end + 1) }
    ensures count { length holes.new.items ≤ length holes.old.items + 1 }
    ensures capacity { vec_capacity holes.new ≡ vec_capacity holes.old }
{
    let k = place_of(holes.as_slice(), base, end);
    let before = ends_at(holes.as_slice(), k, base, end);
    let behind = begins_at(holes.as_slice(), k, base + len);
    match (before, behind) {
        (false, false) => match holes.insert(k, Hole { base, len }) {
            Ok(()) => {}
            Err(_) => unreachable!(),
        },
        (true, false) => lengthen(holes, k - 1, len),
        (false, true) => {
            let more = holes[k].len;
            holes[k] = Hole {
                base,
                len: len + more,
            };
        }
        (true, true) => {
            let next = holes.remove(k);
            lengthen(holes, k - 1, len + next.len);
        }
    }
}
