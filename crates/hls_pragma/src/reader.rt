//! Reading a pragma's line.
ghost use Rattle.std.specs.Prelude.{◌≡◌, length, IfOk, IfErr, MatchOption};
ghost use Rattle.hls_pragma.specs.declared.directives.Pragma.{Pragma as Reading};
ghost use Rattle.hls_pragma.specs.Front.{begins_name as name_test, begins_hls as hls_begins, closed_of, directive_at, end_at, headed_at, is_nowait as nowait_test, level_at, listed_at, name_in as name_of, names_at, pragma_of, word_is};
ghost use Rattle.hls_pragma.specs.declared.directives.Pragma.TheVariants as pragma;
ghost use Rattle.std.specs.Option.{option_map};
ghost use Rattle.hls_pragma.specs.Reads.{Reads};
ghost use Rattle.hls_pragma.specs.Spans.{InOrder, names_of};

use crate::directives::{NameSpan, Names, Pragma, PragmaRefusal};
use crate::items::{Item, is_letter, items};
use mpc_values::{Level, Memory};
use std::alloc::Global;

// Whether a name begins with a letter or an underscore.
fn begins_name(line: &[u8], name: NameSpan) -> bool
    ensures { result ≡ name_test line.now name }
{
    name.start < line.len() && is_letter(line[name.start])
}

// Whether the word stands in the line and has this text.
fn is_word(line: &[u8], word: NameSpan, text: &str) -> bool
    ensures { result ≡ word_is line.now word text.now }
{
    word.start <= line.len()
        && word.len <= line.len() - word.start
        && &line[word.start..word.start + word.len] == text.as_bytes()
}

fn begins_hls(line: &[u8], items: &[Item]) -> bool
    ensures { result ≡ hls_begins line.now items.now }
{
    match items {
        [Item::Word(word), ..] => is_word(line, *word, "hls"),
        _ => false,
    }
}

fn level_of(line: &[u8], word: NameSpan) -> Option<Level>
    ensures { result ≡ level_at line.now word }
{
    if is_word(line, word, "core") {
        Some(Level::Core)
    } else if is_word(line, word, "l1") {
        Some(Level::L1)
    } else if is_word(line, word, "l2") {
        Some(Level::L2)
    } else if is_word(line, word, "l3") {
        Some(Level::L3)
    } else if is_word(line, word, "numa") {
        Some(Level::Numa)
    } else if is_word(line, word, "node") {
        Some(Level::Node)
    } else {
        None
    }
}

// The name that an item is.
fn name_in(line: &[u8], item: Item) -> Option<NameSpan>
    ensures { result ≡ name_of line.now item }
{
    match item {
        Item::Word(name) => if begins_name(line, name) {
            Some(name)
        } else {
            None
        },
        _ => None,
    }
}

// The names up to the closing bracket, and what stands behind it.
fn names<'a>(
    alloc: Global,
    line: &[u8],
    items: &'a [Item],
) -> Result<Option<(Names, &'a [Item])>, Memory>
    ensures { IfOk result (λ o. MatchOption o (names_at line.now items.entry.now ≡ None) (λ p. names_at line.now items.entry.now ≡ Some (p.0, p.1.now))) }
{
    let mut list = Vec::new(alloc);
    let mut rest = items;
    while let [first, sign, behind @ ..] = rest {
        match name_in(line, *first) {
            Some(name) => list.push(name)?,
            None => return Ok(None),
        }
        match *sign {
            Item::Close => return Ok(Some((Names::of(list), behind))),
            Item::Comma => rest = behind,
            _ => return Ok(None),
        }
    }
    Ok(None)
}

fn is_nowait(line: &[u8], item: Item) -> bool
    ensures { result ≡ nowait_test line.now item }
{
    match item {
        Item::Word(word) => is_word(line, word, "nowait"),
        _ => false,
    }
}

// Whether nowait stands at the end, where nothing else does.
fn end(line: &[u8], behind: &[Item]) -> Option<bool>
    ensures { result ≡ end_at line.now behind.now }
{
    match behind {
        [] => Some(false),
        [item] => if is_nowait(line, *item) {
            Some(true)
        } else {
            None
        },
        _ => None,
    }
}

fn closed(line: &[u8], word: NameSpan, names: Names) -> Option<Pragma>
    ensures { result ≡ closed_of line.now word names }
{
    if is_word(line, word, "barrier") {
        return Some(Pragma::Barrier { names });
    }
    match level_of(line, word) {
        Some(level) => Some(Pragma::Scope { level, names }),
        None => None,
    }
}

fn single(line: &[u8], names: Names, behind: &[Item]) -> Option<Pragma>
    ensures { result ≡ option_map (pragma.Single names) (end_at line.now behind.now) }
{
    match end(line, behind) {
        Some(nowait) => Some(Pragma::Single { names, nowait }),
        None => None,
    }
}

fn pragma(line: &[u8], word: NameSpan, names: Names, behind: &[Item]) -> Option<Pragma>
    ensures { result ≡ pragma_of line.now word names behind.now }
{
    if is_word(line, word, "single") {
        single(line, names, behind)
    } else if behind.is_empty() {
        closed(line, word, names)
    } else {
        None
    }
}

fn listed(
    alloc: Global,
    line: &[u8],
    word: NameSpan,
    rest: &[Item],
) -> Result<Option<Pragma>, Memory>
    ensures { IfOk result (λ o. o ≡ listed_at line.now word (names_at line.now rest.now)) }
{
    match names(alloc, line, rest)? {
        Some((names, behind)) => Ok(pragma(line, word, names, behind)),
        None => Ok(None),
    }
}

fn headed(
    alloc: Global,
    line: &[u8],
    head: Item,
    sign: Item,
    rest: &[Item],
) -> Result<Option<Pragma>, Memory>
    ensures { IfOk result (λ o. o ≡ headed_at line.now head sign rest.now) }
{
    match (head, sign) {
        (Item::Word(word), Item::Open) => listed(alloc, line, word, rest),
        _ => Ok(None),
    }
}

fn directive(alloc: Global, line: &[u8], items: &[Item]) -> Result<Option<Pragma>, Memory>
    ensures { IfOk result (λ o. o ≡ directive_at line.now items.now) }
{
    match items {
        [_, head, sign, rest @ ..] => headed(alloc, line, *head, *sign, rest),
        _ => Ok(None),
    }
}

/// What the line behind `#pragma` says. Its words stand with blanks anywhere between them: `hls`,
/// then a level, `single` or `barrier`, then names in brackets, and behind those of a `single`
/// also `nowait`. A line whose first word is not `hls` is foreign, and another one that begins
/// with it is refused. An outer error stands for want of memory.
pub fn read_pragma(alloc: Global, line: &[u8]) -> Result<Result<Pragma, PragmaRefusal>, Memory>
    ensures reads { IfOk result (λ r. IfOk r (Reads line.now)) }
    ensures only { IfOk result (λ r. IfOk r (λ p. (q : Reading) → Reads line.now q → q ≡ p)) }
    ensures refused { IfOk result (λ r. IfErr r (λ _. (q : Reading) → Reads line.now q → ⊥)) }
    ensures spans { IfOk result (λ r. IfOk r (λ p. InOrder 0 (length line.now) (names_of p))) }
{
    let items = items(alloc, line)?;
    if !begins_hls(line, items.as_slice()) {
        return Ok(Ok(Pragma::Foreign));
    }
    match directive(alloc, line, items.as_slice())? {
        Some(pragma) => Ok(Ok(pragma)),
        None => Ok(Err(PragmaRefusal)),
    }
}
