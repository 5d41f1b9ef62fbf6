//! The static variables at the start.
ghost use Rattle.std.specs.Prelude.{◌≡◌, ◌^◌, ◌<◌, ◌≤◌, ◌++◌, ◌∷◌, [], true, length, Some, None, is_some, OnOk, IsTrue, ◌↔◌, List, All, ℕ};
ghost use Rattle.mpc_values.specs.declared.values.Obj.{Obj};
ghost use Rattle.mpc_values.specs.declared.values.Obj.TheVariants.{Glob};
ghost use Rattle.mpc_values.specs.declared.owners.Owner.{Owner};
ghost use Rattle.mpc_values.specs.declared.limits.TheConstants.{MAX_STATIC_VARIABLES};
ghost use Rattle.memory_model.specs.Memory.{Object};
ghost use Rattle.block_table.specs.Rows.{IsLive, IsNamed};
ghost use Rattle.tls_levels.specs.Owners.{owner_level};
ghost use Rattle.object_heap.specs.Objects.{object_in};
ghost use Rattle.object_heap.specs.Marks.{KeepsMarks};
ghost use Rattle.object_heap.specs.Copies.{KeepsCopies};
ghost use Rattle.object_heap.specs.Changes.{Puts};
ghost use Rattle.mem_space.specs.First.{HasFirst, first_object};

use block_table::RowKind;
use mpc_values::{Level, Memory, Obj, Owner, StaticVar, Word};
use object_heap::Heap;

/// Adds the variables of each owner's image, image by image, and in an image by rising number. Each is an object with a
/// range of its own; on an empty heap first fit puts them one behind the other.
pub(crate) fn add_images(
    heap: &mut Heap,
    globals: &[StaticVar],
    owners: &[Owner],
) -> Result<(), Memory>
    requires few { length globals.now ≤ MAX_STATIC_VARIABLES }
    requires words { All (λ var. length var.first ≡ var.len) globals.now }
    requires nothing { (owner : Owner) (obj : Obj) → object_in heap.old owner obj ≡ None }
    ensures first { OnOk result (HasFirst globals.now owners.now heap.new) }
    ensures marks { KeepsMarks heap.old heap.new }
    ensures copies { KeepsCopies heap.old heap.new }
{
    for owner in owners {
        add_image(heap, globals, *owner)?;
    }
    Ok(())
}

/// Adds the variables of one more owner's image.
fn add_image(heap: &mut Heap, globals: &[StaticVar], owner: Owner) -> Result<(), Memory>
    requires few { length globals.now ≤ MAX_STATIC_VARIABLES }
    requires words { All (λ var. length var.first ≡ var.len) globals.now }
    ensures first { (before : List Owner) → HasFirst globals.now before heap.old → OnOk result (HasFirst globals.now (before ++ owner ∷ []) heap.new) }
    ensures marks { KeepsMarks heap.old heap.new }
    ensures copies { KeepsCopies heap.old heap.new }
{
    let mut number = 0u32;
    for var in globals {
        if is_in_image(var.level, owner) {
            add_variable(heap, owner, number, var)?;
        }
        number += 1;
    }
    Ok(())
}

/// Whether a variable of this level stands in an owner's image: a task's has those without a level.
fn is_in_image(level: Option<Level>, owner: Owner) -> bool
    ensures { IsTrue result ↔ level ≡ owner_level owner }
{
    match owner {
        Owner::Task(_) => level.is_none(),
        Owner::Inst { level: of, .. } => level == Some(of),
    }
}

/// Adds an owner's copy of a variable with its first words, where it has none.
fn add_variable(heap: &mut Heap, owner: Owner, number: u32, var: &StaticVar) -> Result<(), Memory>
    requires { length var.now.first ≡ var.now.len }
    ensures absent { object_in heap.old owner (Glob number) ≡ None → OnOk result (Puts heap.old heap.new owner (Glob number) (Some (first_object var.now))) }
    ensures present { is_some (object_in heap.old owner (Glob number)) ≡ true → heap.new ≡ heap.old }
    ensures marks { KeepsMarks heap.old heap.new }
    ensures copies { KeepsCopies heap.old heap.new }
{
    let obj = Obj::Glob(number);
    if heap.find(owner, obj).is_some() {
        return Ok(());
    }
    let key = heap.add(owner, obj, RowKind::Static, var.len)?;
    fill(heap, key, var.first.as_slice());
    Ok(())
}

/// Changes all words of an object that has as many.
fn fill(heap: &mut Heap, key: usize, words: &[Word])
    requires there { IsLive heap.old.rows key (λ row. row.len ≡ length words.now) }
    requires short { length words.now < 2 ^ 32 }
    ensures puts { (owner : Owner) (obj : Obj) (object : Object) → IsNamed heap.old.rows key owner obj → object_in heap.old owner obj ≡ Some object → length object.words ≡ length words.now →
        Puts heap.old heap.new owner obj (Some (record { kind = object.kind; words = words.now })) }
    ensures marks { KeepsMarks heap.old heap.new }
    ensures copies { KeepsCopies heap.old heap.new }
{
    let mut at = 0u32;
    for word in words {
        heap.write(key, at, *word);
        at += 1;
    }
}
