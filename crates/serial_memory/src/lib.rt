//! The memories of a run: live objects by owner and name, a map from places to words, and what each access
//! does or which fault it has. The definitions stand in specs/; the functions here state laws of them.
#![tactic(auto)]

ghost use Rattle.std.specs.Prelude.{◌≡◌, ℕ, Some, None};
ghost use Rattle.mpc_values.specs.declared.values.Obj.{Obj};
ghost use Rattle.mpc_values.specs.declared.owners.Owner.{Owner};
ghost use Rattle.serial_memory.specs.Memory.{Memory, Object, key_of, object_of, with_object, without};
ghost use Rattle.serial_memory.specs.Access.{Objects};
ghost use Rattle.serial_memory.specs.Names.{NamesAreLeft, NamesLast};

mod kinds;

pub use kinds::Kind;

/// An object is what it was set to, or does not live where it was taken out, and no other object changes.
pub fn each_object_has_its_words()
    ensures given { (m : Memory) (owner : Owner) (obj : Obj) (object : Object) → object_of (with_object m owner obj object) owner obj ≡ Some object }
    ensures given_others { (m : Memory) (owner other : Owner) (obj another : Obj) (object : Object) → (key_of other another ≡ key_of owner obj → ⊥) → object_of (with_object m owner obj object) other another ≡ object_of m other another }
    ensures ended { (m : Memory) (owner : Owner) (obj : Obj) → object_of (without m owner obj) owner obj ≡ None }
    ensures ended_others { (m : Memory) (owner other : Owner) (obj another : Obj) → (key_of other another ≡ key_of owner obj → ⊥) → object_of (without m owner obj) other another ≡ object_of m other another }
{}

/// Two objects are named by one key only where they are the same object of the same owner.
pub fn each_object_has_its_key()
    ensures owner { (owner other : Owner) (obj another : Obj) → key_of owner obj ≡ key_of other another → owner ≡ other }
    ensures object { (owner other : Owner) (obj another : Obj) → key_of owner obj ≡ key_of other another → obj ≡ another }
{}

/// An access of a task gives one name at most, under which nothing has lived.
pub fn names_are_never_given_again()
    ensures { (task : ℕ) (o : Objects) → NamesAreLeft task o → NamesLast task o }
{}
