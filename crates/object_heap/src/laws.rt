//! Laws of heaps, as contracts of functions that do nothing.
ghost use Rattle.std.specs.Prelude.{◌≡◌, ◌≢◌, ◌+◌, ◌≤◌, ◌<◌, ℕ, List, ◌∷◌, ◌++◌, length, slice_get, Option, Some, None};
ghost use Rattle.mpc_values.specs.declared.values.Obj.{Obj};
ghost use Rattle.mpc_values.specs.declared.owners.Owner.{Owner};
ghost use Rattle.memory_model.specs.Memory.{Memory, Object, with_object, without};
ghost use Rattle.mpi_copy.specs.declared.Held.{Held};
ghost use Rattle.block_table.specs.declared.rows.Row.{Row};
ghost use Rattle.block_table.specs.declared.rows.Span.{Span};
ghost use Rattle.block_table.specs.Rows.{IsNamed, IsNoName, mark_at};
ghost use Rattle.object_heap.specs.Layout.{Layout, IsSound, IsSpan, row_of};
ghost use Rattle.object_heap.specs.Objects.{Shows, key_named, object_at, object_in, part, span_words, words_from};
ghost use Rattle.object_heap.specs.Marks.{mark_of};
ghost use Rattle.object_heap.specs.Copies.{AreCopies, IsOneCopy};
ghost use Rattle.object_heap.specs.Changes.{KeepsObjects, Puts};

/// A heap that holds a memory's objects holds the changed memory's after the same change.
pub fn heaps_show_memories()
    ensures given { (old new : Layout) (m : Memory) (owner : Owner) (obj : Obj) (object : Object) →
        Shows old m → Puts old new owner obj (Some object) → Shows new (with_object m owner obj object) }
    ensures ended { (old new : Layout) (m : Memory) (owner : Owner) (obj : Obj) →
        Shows old m → Puts old new owner obj None → Shows new (without m owner obj) }
    ensures kept { (old new : Layout) (m : Memory) → Shows old m → KeepsObjects old new → Shows new m }
{}

/// A row's name leads to its key, where each name has one row, and so to its object and its marks. The words of a span
/// are those of its object's places.
pub fn names_have_keys()
    ensures key { (h : Layout) (key : ℕ) (owner : Owner) (obj : Obj) → IsSound h → IsNamed h.rows key owner obj → key_named h.rows owner obj ≡ Some key }
    ensures none { (h : Layout) (owner : Owner) (obj : Obj) → IsNoName h.rows owner obj → key_named h.rows owner obj ≡ None }
    ensures object { (h : Layout) (key : ℕ) (owner : Owner) (obj : Obj) → IsSound h → IsNamed h.rows key owner obj → object_in h owner obj ≡ object_at h key }
    ensures mark { (h : Layout) (key p : ℕ) (owner : Owner) (obj : Obj) → IsSound h → IsNamed h.rows key owner obj → mark_of h owner obj p ≡ mark_at h.rows key p }
    ensures words { (h : Layout) (span : Span) (owner : Owner) (obj : Obj) → IsSound h → IsSpan h span owner obj →
        span_words h span ≡ part (object_in h owner obj) span.at span.len }
    ensures length { (h : Layout) (span : Span) (owner : Owner) (obj : Obj) → IsSpan h span owner obj → length (span_words h span) ≡ span.len }
{}

/// Each member of a list of all copies can be landed or discarded.
pub fn copies_are_one_by_one()
    ensures { (h : Layout) (before after : List Held) (held : Held) → AreCopies h (before ++ held ∷ after) → IsOneCopy h held }
{}
