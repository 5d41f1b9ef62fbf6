ghost use Rattle.std.specs.Prelude.{◌≡◌, ◌<◌, ◌≤◌, ◌+◌, ◌-◌, ◌^◌, pos, IfOk, OnErr, MatchOption, Ok};
ghost use Rattle.std.specs.Option.{option_copied};
ghost use Rattle.serial_memory.specs.Access.{Objects, given, load, store, new, malloc, drop, free, free_at, makes, live_words, is_live_block};
ghost use Rattle.serial_model.specs.World.{owner_of};
ghost use Rattle.serial_model.specs.Go.{quota};
ghost use Rattle.serial_node.specs.Seen.{access_seen};

use crate::objects::Object;
use crate::places::Places;
use crate::ranges::range_of;
use mpc_base::limits::DEFAULT_QUOTA;
use mpc_base::{Answer, Fault, Memory, Obj, Word};
use serial_memory::Kind;
use std::alloc::Global;

// What a place gives that holds this word.
fn given(word: Option<&Word>) -> Result<Answer, Fault>
    ensures { (o : Objects) → access_seen o result ≡ given o (option_copied word.entry) }
{
    match word {
        None => Err(Fault::Bounds),
        Some(Word::Undef) => Err(Fault::Uninit),
        Some(word) => Ok(Answer::Gives(*word)),
    }
}

/// The word of a place: NullAccess, Dangling, Bounds, or Uninit where it is unset.
pub fn load(places: &Places, at: Word) -> Result<Answer, Fault>
    ensures { access_seen places.now result ≡ load (owner_of 0) places.now at }
{
    let span = range_of(places, at, 1)?;
    given(span.object.words().get(span.at as usize))
}

/// Changes the word of a place: NullAccess, Dangling or Bounds.
pub fn store(places: &mut Places, at: Word, word: Word) -> Result<Answer, Fault>
    ensures access { access_seen places.new result ≡ store (owner_of 0) places.old at word }
    ensures fault { OnErr result (places.new ≡ places.old) }
{
    let span = range_of(places, at, 1)?;
    let obj = span.obj;
    let at = span.at;
    places.set_word(obj, at as usize, word);
    Ok(Answer::Done)
}

fn make(alloc: Global, places: &mut Places, kind: Kind, len: u32) -> Result<Answer, Memory>
    requires room { places.old.made < 2 ^ 32 - 1 }
    requires fits { live_words 0 places.old + len ≤ quota }
    ensures ok { IfOk result (λ answer. access_seen places.new (Ok answer) ≡ makes 0 places.old kind len) }
    ensures err { OnErr result (places.new ≡ places.old) }
{
    let number = places.make(alloc, kind, len)?;
    Ok(Answer::Gives(Word::Ptr {
        obj: Obj::Dyn(number),
        at: 0,
    }))
}

/// Makes a local of unset words, or StackFull, where it would exceed the quota.
pub fn new(alloc: Global, places: &mut Places, len: u32) -> Result<Result<Answer, Fault>, Memory>
    requires room { places.old.made < 2 ^ 32 - 1 }
    ensures ok { IfOk result (λ did. access_seen places.new did ≡ new quota 0 places.old len) }
    ensures fault { IfOk result (λ did. OnErr did (places.new ≡ places.old)) }
    ensures err { OnErr result (places.new ≡ places.old) }
{
    if u64::from(places.live()) + u64::from(len) <= u64::from(DEFAULT_QUOTA) {
        Ok(Ok(make(alloc, places, Kind::Local, len)?))
    } else {
        Ok(Err(Fault::StackFull))
    }
}

// The words that are asked for, where their number is not negative and at most the quota.
fn words_asked(n: i64) -> Option<u32>
    ensures { MatchOption result ((o : Objects) → malloc quota 0 o n ≡ access_seen o (Ok (Answer.Gives Word.Null))) (λ len. n ≡ pos len) }
{
    if n < 0 || n > i64::from(DEFAULT_QUOTA) {
        return None;
    }
    Some(n as u32)
}

/// Makes a block of unset words, or gives NULL, where the number is negative or the block would exceed the
/// quota (C99, section 7.20.3.3).
pub fn malloc(alloc: Global, places: &mut Places, n: i64) -> Result<Answer, Memory>
    requires room { places.old.made < 2 ^ 32 - 1 }
    ensures ok { IfOk result (λ answer. access_seen places.new (Ok answer) ≡ malloc quota 0 places.old n) }
    ensures err { OnErr result (places.new ≡ places.old) }
{
    let Some(len) = words_asked(n) else {
        return Ok(Answer::Gives(Word::Null));
    };
    if u64::from(places.live()) + u64::from(len) <= u64::from(DEFAULT_QUOTA) {
        make(alloc, places, Kind::Block, len)
    } else {
        Ok(Answer::Gives(Word::Null))
    }
}

/// Ends an object that the task made, or is Dangling, where none of that name lives.
pub fn drop(places: &mut Places, obj: Obj) -> Result<Answer, Fault>
    ensures access { access_seen places.new result ≡ drop 0 places.old obj }
    ensures fault { OnErr result (places.new ≡ places.old) }
{
    let Obj::Dyn(number) = obj else {
        return Err(Fault::Dangling);
    };
    if places.object(obj).is_none() {
        return Err(Fault::Dangling);
    }
    places.remove(number);
    Ok(Answer::Done)
}

fn is_live_block(object: Option<&Object>) -> bool
    ensures { result ≡ is_live_block (option_copied object.entry) }
{
    match object {
        None => false,
        Some(object) => object.kind() == Kind::Block,
    }
}

fn free_at(places: &mut Places, obj: Obj, at: u32) -> Result<Answer, Fault>
    ensures access { access_seen places.new result ≡ free_at 0 places.old obj at }
    ensures fault { OnErr result (places.new ≡ places.old) }
{
    let Obj::Dyn(number) = obj else {
        return Err(Fault::Dangling);
    };
    if at == 0 && is_live_block(places.object(obj)) {
        places.remove(number);
        return Ok(Answer::Done);
    }
    Err(Fault::Dangling)
}

/// Ends a block by its first place; NULL asks for nothing, and any other word is Dangling (C99, section
/// 7.20.3.2).
pub fn free(places: &mut Places, at: Word) -> Result<Answer, Fault>
    ensures access { access_seen places.new result ≡ free 0 places.old at }
    ensures fault { OnErr result (places.new ≡ places.old) }
{
    match at {
        Word::Null => Ok(Answer::Done),
        Word::Ptr { obj, at } => free_at(places, obj, at),
        _ => Err(Fault::Dangling),
    }
}
