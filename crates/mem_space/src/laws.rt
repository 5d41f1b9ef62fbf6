//! Laws of spaces, as contracts of functions that do nothing.
ghost use Rattle.std.specs.Prelude.{◌≡◌, Bool, true, false};
ghost use Rattle.memory_model.specs.declared.kinds.Span.{Span as Places};
ghost use Rattle.block_table.specs.declared.rows.Span.{Span};
ghost use Rattle.block_table.specs.declared.rows.Mark.{Mark};
ghost use Rattle.block_table.specs.declared.rows.Mark.TheVariants.{Free};
ghost use Rattle.object_heap.specs.Marks.{KeepsMarks};
ghost use Rattle.mem_space.specs.Spaces.{Space};
ghost use Rattle.mem_space.specs.Places.{IsMarked, Keeps, Remarks};

/// The places of a message under way have its mark as long as marks are kept, and also where other messages are marked
/// or ended which leave marks of its kind.
pub fn messages_keep_their_marks()
    ensures kept { (old new : Space) (span : Span) (test : Mark → Bool) → test Free ≡ false → Keeps old new → KeepsMarks old.heap new.heap →
        IsMarked old span test → IsMarked new span test }
    ensures others { (old new : Space) (span : Span) (places : Places) (test : Mark → Bool) (change : Mark → Mark) → test Free ≡ false →
        ((mark : Mark) → test mark ≡ true → test (change mark) ≡ true) → Remarks old new places change →
        IsMarked old span test → IsMarked new span test }
{}
