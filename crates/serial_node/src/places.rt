ghost use Rattle.std.specs.Prelude.{◌≡◌, ◌<◌, ◌≤◌, ◌+◌, ◌-◌, ◌^◌, ◌∷◌, ◌++◌, [], length, map, replicate, IfOk, OnErr, MatchOption, Option, Some, None, slice_get, slice_set};
ghost use Rattle.std.specs.Option.{option_copied};
ghost use Rattle.mpc_values.specs.declared.values.Word.TheVariants.{Undef};
ghost use Rattle.mpc_values.specs.declared.owners.Owner.TheVariants.{Task};
ghost use Rattle.mpc_values.specs.declared.values.Obj.TheVariants.{Dyn};
ghost use Rattle.serial_memory.specs.Memory.{object_of, with_object, without};
ghost use Rattle.serial_memory.specs.Access.{with_word, live_words};
ghost use Rattle.serial_model.specs.World.{first_memory};
ghost use Rattle.serial_model.specs.Go.{quota};
ghost use Rattle.serial_node.specs.Slots.{first_object, slot_at};

use crate::objects::Object;
use mpc_base::{Memory, Obj, StaticVar, Word};
use serial_memory::Kind;
use std::alloc::Global;
use std::marker::Model;

/// The live objects of a task, the number of those that it made, and their live words.
#[derive(Debug, Drop)]
pub struct Places {
    variables: Vec<Object>,
    // The object made as the k-th, counted from 0, where it lives. Names are never given again.
    made: Vec<Option<Object>>,
    live: u32,
}

impl Model for Places {
    ghost use Rattle.serial_memory.specs.Access.{Objects};
    ghost use Rattle.serial_node.specs.Coding.{objects_code};

    ghost Value = { Objects };

    ghost coded = { objects_code };

    ghost use Rattle.serial_node.specs.PlacesOf.{objects_in, CountsWords};

    ghost view = { objects_in };

    ghost invariant = { CountsWords };
}

fn first_object(alloc: Global, variable: &StaticVar) -> Result<Object, Memory>
    ensures { IfOk result (λ object. object ≡ first_object variable.now) }
{
    let words = Vec::from_slice(alloc, variable.first.as_slice())?;
    Ok(Object::of(Kind::Static, words))
}

fn first_objects(alloc: Global, variables: &[StaticVar]) -> Result<Vec<Object>, Memory>
    ensures { IfOk result (λ objects. objects.items ≡ map first_object variables.now) }
{
    let mut objects = Vec::with_capacity(alloc, variables.len())?;
    for variable in variables {
        objects.push(first_object(alloc, variable)?)?;
    }
    Ok(objects)
}

fn unset_words(alloc: Global, len: u32) -> Result<Vec<Word>, Memory>
    ensures { IfOk result (λ words. words.items ≡ replicate len Undef) }
{
    let mut words = Vec::new(alloc);
    words.resize(len as usize, Word::Undef)?;
    Ok(words)
}

fn variable_at(variables: &[Object], number: u32) -> Option<&Object>
    ensures { option_copied result ≡ slice_get variables.now number }
{
    variables.get(number as usize)
}

fn slot_at(made: &[Option<Object>], number: u32) -> Option<&Object>
    ensures { option_copied result ≡ slot_at made.now number }
{
    if number == 0 {
        return None;
    }
    match made.get(number as usize - 1) {
        None => None,
        Some(slot) => slot.as_ref(),
    }
}

fn set_variable(variables: &mut Vec<Object>, number: usize, at: usize, word: Word)
    ensures { MatchOption (slice_get variables.old.items number) (variables.new.items ≡ variables.old.items)
        (λ object. variables.new.items ≡ slice_set variables.old.items number (with_word object at word)) }
{
    if number < variables.len() {
        let object = &mut variables[number];
        object.set(at, word);
    }
}

fn set_made(made: &mut Vec<Option<Object>>, number: u32, at: usize, word: Word)
    ensures { MatchOption (slot_at made.old.items number) (made.new.items ≡ made.old.items)
        (λ object. made.new.items ≡ slice_set made.old.items (number - 1) (Some (with_word object at word))) }
{
    if number == 0 {
        return;
    }
    let place = number as usize - 1;
    if place < made.len() {
        let slot = &mut made[place];
        if let Some(object) = slot {
            object.set(at, word);
        }
    }
}

// Takes an object out of its slot, where it lives.
fn take_made(made: &mut Vec<Option<Object>>, number: u32) -> Option<Object>
    ensures taken { result ≡ slot_at made.old.items number }
    ensures left { MatchOption result (made.new.items ≡ made.old.items) (λ _. made.new.items ≡ slice_set made.old.items (number - 1) None) }
{
    if number == 0 {
        return None;
    }
    let place = number as usize - 1;
    if place < made.len() {
        made[place].take()
    } else {
        None
    }
}

impl Places {
    /// The places of a task at the start: its static variables, each with its first words.
    pub fn new(alloc: Global, variables: &[StaticVar]) -> Result<Places, Memory>
        ensures { IfOk result (λ places. places ≡ record { memory = first_memory variables.now 1; made = 0 }) }
    {
        let variables = first_objects(alloc, variables)?;
        Ok(Places {
            variables,
            made: Vec::new(alloc),
            live: 0,
        })
    }

    /// How many objects the task has made.
    pub fn made(&self) -> usize
        ensures { result ≡ self.now.made }
    {
        self.made.len()
    }

    /// The words of the task's live locals and blocks.
    pub fn live(&self) -> u32
        ensures { result ≡ live_words 0 self.now }
    {
        self.live
    }

    /// An object, where it lives.
    pub fn object(&self, obj: Obj) -> Option<&Object>
        ensures { option_copied result ≡ object_of self.now.memory (Task 0) obj }
    {
        match obj {
            Obj::Glob(number) => variable_at(self.variables.as_slice(), number),
            Obj::Dyn(number) => slot_at(self.made.as_slice(), number),
        }
    }

    /// Changes the word of a place, where it is one of a live object.
    pub fn set_word(&mut self, obj: Obj, at: usize, word: Word)
        ensures { MatchOption (object_of self.old.memory (Task 0) obj) (self.new ≡ self.old)
            (λ object. self.new ≡ record { memory = with_object self.old.memory (Task 0) obj (with_word object at word); made = self.old.made }) }
    {
        match obj {
            Obj::Glob(number) => set_variable(&mut self.variables, number as usize, at, word),
            Obj::Dyn(number) => set_made(&mut self.made, number, at, word),
        }
    }

    /// Makes an object of so many unset words, and tells its number.
    pub fn make(&mut self, alloc: Global, kind: Kind, len: u32) -> Result<u32, Memory>
        requires room { self.old.made < 2 ^ 32 - 1 }
        requires fits { live_words 0 self.old + len ≤ quota }
        ensures number { IfOk result (λ number. number ≡ self.old.made + 1) }
        ensures ok { IfOk result (λ number. self.new ≡ record { memory = with_object self.old.memory (Task 0) (Dyn number) (record { kind = kind; words = replicate len Undef }); made = number }) }
        ensures err { OnErr result (self.new ≡ self.old) }
    {
        let words = unset_words(alloc, len)?;
        self.made.push(Some(Object::of(kind, words)))?;
        self.live += len;
        Ok(self.made.len() as u32)
    }

    /// Ends an object that the task made, where it lives.
    pub fn remove(&mut self, number: u32)
        ensures { self.new ≡ record { memory = without self.old.memory (Task 0) (Dyn number); made = self.old.made } }
    {
        let Some(object) = take_made(&mut self.made, number) else {
            return;
        };
        self.live -= object.words().len() as u32;
    }
}
