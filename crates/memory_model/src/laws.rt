//! Laws of memories and of their accesses, as contracts of functions that do nothing.
ghost use Rattle.std.specs.FinMap.Entries.{find};
ghost use Rattle.std.specs.Prelude.{◌≡◌, ◌≢◌, ◌+◌, ◌≤◌, ◌<◌, ℕ, List, [], length, slice_get, replicate, Some, None, Ok, true, false};
ghost use Rattle.mpc_values.specs.declared.values.Word.{Word};
ghost use Rattle.mpc_values.specs.declared.values.Word.TheVariants.{Undef, Null, Ptr};
ghost use Rattle.mpc_values.specs.declared.values.Obj.{Obj};
ghost use Rattle.mpc_values.specs.declared.values.Obj.TheVariants.{Dyn};
ghost use Rattle.mpc_values.specs.declared.owners.Owner.{Owner};
ghost use Rattle.mpc_values.specs.declared.owners.Owner.TheVariants.{Task};
ghost use Rattle.mpc_values.specs.declared.answers.Answer.TheVariants.{Done};
ghost use Rattle.mpc_values.specs.declared.faults.Fault.TheVariants.{NullAccess, Bounds, Dangling, PendingTouch, PendingDrop};
ghost use Rattle.memory_model.specs.Memory.{Memory, Object, IsOrdered, key_cmp, key_of, object_of, with_object, without};
ghost use Rattle.memory_model.specs.Marks.{Marks, Places, is_some_place};
ghost use Rattle.memory_model.specs.Ranges.{NoRange, Within, range_of, span_of};
ghost use Rattle.memory_model.specs.Access.{Objects, Answers, Breaks, load, store, drop};
ghost use Rattle.memory_model.specs.Names.{EveryAccess, NamesAreLeft, GivesOneName, LeavesObject, LeavesOrder};

/// An object is what it was set to, or does not live where it was taken out, and no other object changes.
pub fn each_object_has_its_words()
    ensures given { (m : Memory) (owner : Owner) (obj : Obj) (object : Object) → object_of (with_object m owner obj object) owner obj ≡ Some object }
    ensures given_others { (m : Memory) (owner other : Owner) (obj another : Obj) (object : Object) → (key_of other another ≡ key_of owner obj → ⊥) → object_of (with_object m owner obj object) other another ≡ object_of m other another }
    ensures ended { (m : Memory) (owner : Owner) (obj : Obj) → object_of (without m owner obj) owner obj ≡ None }
    ensures ended_others { (m : Memory) (owner other : Owner) (obj another : Obj) → (key_of other another ≡ key_of owner obj → ⊥) → object_of (without m owner obj) other another ≡ object_of m other another }
{}

/// Two objects are named by one key only where they are the same object of the same owner.
pub fn each_object_has_its_key()
    ensures owner { (owner other : Owner) (obj another : Obj) → key_of owner obj ≡ key_of other another → owner ≡ other }
    ensures object { (owner other : Owner) (obj another : Obj) → key_of owner obj ≡ key_of other another → obj ≡ another }
{}

/// Memories whose keys are in order are equal where they read alike, and every access leaves the keys in order.
pub fn equal_memories_read_alike()
    ensures equal { (m n : Memory) → IsOrdered m → IsOrdered n → ((key : List ℕ) → find key_cmp key m ≡ find key_cmp key n) → m ≡ n }
    ensures empty { IsOrdered [] }
    ensures given { (m : Memory) (owner : Owner) (obj : Obj) (object : Object) → IsOrdered m → IsOrdered (with_object m owner obj object) }
    ensures ended { (m : Memory) (owner : Owner) (obj : Obj) → IsOrdered m → IsOrdered (without m owner obj) }
    ensures accessed { (owner_of : Obj → Owner) (task : ℕ) (o : Objects) → IsOrdered o.memory → EveryAccess LeavesOrder owner_of task o }
{}

/// An access of a task gives one name at most, under which nothing has lived.
pub fn names_are_never_given_again()
    ensures { (owner_of : Obj → Owner) (task : ℕ) (o : Objects) → NamesAreLeft task o.made o.memory → EveryAccess (GivesOneName task o.made) owner_of task o }
{}

/// An access of a task leaves each object that is neither the task's own nor one of the copies that it touches.
pub fn other_objects_stay()
    ensures { (owner_of : Obj → Owner) (task : ℕ) (o : Objects) (owner : Owner) (obj : Obj) →
        Task task ≢ owner → ((touched : Obj) → owner_of touched ≢ owner) → EveryAccess (LeavesObject owner obj o.memory) owner_of task o }
{}

/// The faults of naming a range come in their order: no pointer, a dead object, a place outside it, a barred place. A
/// range of no places has none.
pub fn ranges_fault_in_order()
    ensures null { (owner_of : Obj → Owner) (barred : Places) (m : Memory) (count : ℕ) → range_of owner_of barred m Null count ≡ NoRange NullAccess }
    ensures dead { (owner_of : Obj → Owner) (barred : Places) (m : Memory) (obj : Obj) (at count : ℕ) →
        object_of m (owner_of obj) obj ≡ None → range_of owner_of barred m (Ptr obj at) count ≡ NoRange Dangling }
    ensures outside { (owner_of : Obj → Owner) (barred : Places) (m : Memory) (obj : Obj) (at count : ℕ) (object : Object) →
        object_of m (owner_of obj) obj ≡ Some object → length object.words < at + count → range_of owner_of barred m (Ptr obj at) count ≡ NoRange Bounds }
    ensures barred { (owner_of : Obj → Owner) (barred : Places) (m : Memory) (obj : Obj) (at count : ℕ) (object : Object) →
        object_of m (owner_of obj) obj ≡ Some object → at + count ≤ length object.words → is_some_place barred (owner_of obj) obj at count ≡ true →
        range_of owner_of barred m (Ptr obj at) count ≡ NoRange PendingTouch }
    ensures within { (owner_of : Obj → Owner) (barred : Places) (m : Memory) (obj : Obj) (at count : ℕ) (object : Object) →
        object_of m (owner_of obj) obj ≡ Some object → at + count ≤ length object.words → is_some_place barred (owner_of obj) obj at count ≡ false →
        range_of owner_of barred m (Ptr obj at) count ≡ Within (owner_of obj) obj at object }
    ensures nothing { (owner_of : Obj → Owner) (barred : Places) (m : Memory) (at : Word) → span_of owner_of barred m at 0 ≡ Ok None }
{}

/// A store may touch no place of a send or a receive under way, a load none of a receive, and no object ends that
/// has such a place (MPI 3.1, sections 3.7.2 and 3.7.3).
pub fn pending_places_are_barred()
    ensures sent { (owner_of : Obj → Owner) (marks : Marks) (o : Objects) (obj : Obj) (at : ℕ) (object : Object) (word : Word) →
        object_of o.memory (owner_of obj) obj ≡ Some object → at < length object.words → marks.sent (owner_of obj) obj at ≡ true →
        store owner_of marks o (Ptr obj at) word ≡ Breaks PendingTouch }
    ensures received { (owner_of : Obj → Owner) (marks : Marks) (o : Objects) (obj : Obj) (at : ℕ) (object : Object) (word : Word) →
        object_of o.memory (owner_of obj) obj ≡ Some object → at < length object.words → marks.received (owner_of obj) obj at ≡ true →
        store owner_of marks o (Ptr obj at) word ≡ Breaks PendingTouch }
    ensures loaded { (owner_of : Obj → Owner) (marks : Marks) (o : Objects) (obj : Obj) (at : ℕ) (object : Object) →
        object_of o.memory (owner_of obj) obj ≡ Some object → at < length object.words → marks.received (owner_of obj) obj at ≡ true →
        load owner_of marks o (Ptr obj at) ≡ Breaks PendingTouch }
    ensures lawful { (owner_of : Obj → Owner) (marks : Marks) (sent : Places) (o : Objects) (at : Word) →
        load owner_of (record { sent = sent; received = marks.received }) o at ≡ load owner_of marks o at }
    ensures dropped { (marks : Marks) (task : ℕ) (o : Objects) (made at : ℕ) (object : Object) →
        object_of o.memory (Task task) (Dyn made) ≡ Some object → at < length object.words → marks.sent (Task task) (Dyn made) at ≡ true →
        drop marks task o (Dyn made) ≡ Breaks PendingDrop }
{}
