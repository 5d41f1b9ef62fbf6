//! Texts of a source, and the formats of printf (C99, sections 6.4.5 and 7.19.6.1).
ghost use Rattle.std.specs.Prelude.{◌≡◌, ℕ, List, [], ◌∷◌, ◌++◌, IfOk, OnOk, Some, false, not};
ghost use Rattle.c_types.specs.Drafts.{completed, completed_from, joined, Reads};
ghost use Rattle.c_types.specs.Formats as formats;
ghost use Rattle.c_types.specs.Formats.{Part, Byte, Conversion, pieces_of, widths_of};
ghost use Rattle.c_types.specs.Kinds.{misses, same_kind};

use crate::agreement::same_kind;
use crate::kinds::Kind;
use c_tree::formats::{Format, Piece};
use c_tree::program::Width;
use c_tree::syntax::Base;
use mpc_values::{Memory, Text};
use std::alloc::Global;
use std::mem;

const LINE_FEED: u8 = 10;

const TAB: u8 = 9;

// What stands for a byte behind a backslash.
fn escaped(byte: u8) -> u8
    ensures { result ≡ formats.escaped byte }
{
    if byte == b'n' {
        LINE_FEED
    } else if byte == b't' {
        TAB
    } else {
        byte
    }
}

// The bytes up to the closing quote, with their escapes read.
fn unescaped(alloc: Global, bytes: &[u8]) -> Result<Vec<u8>, Memory>
    ensures { IfOk result (λ r. r.items ≡ formats.unescaped false bytes.now) }
{
    let mut read = Vec::new(alloc);
    let mut pending = false;
    for byte in bytes {
        if pending {
            read.push(escaped(*byte))?;
            pending = false;
        } else if *byte == b'\\' {
            pending = true;
        } else if *byte == b'"' {
            return Ok(read);
        } else {
            read.push(*byte)?;
        }
    }
    Ok(read)
}

// The bytes that a text stands for.
fn text_bytes(alloc: Global, text: &[u8]) -> Result<Vec<u8>, Memory>
    ensures { IfOk result (λ r. r.items ≡ formats.text_bytes text.now) }
{
    match text.split_first() {
        Some((_, bytes)) => unescaped(alloc, bytes),
        None => Ok(Vec::new(alloc)),
    }
}

/// A format: its pieces, and the widths of the numbers that it prints.
#[derive(Drop)]
pub struct ReadFormat {
    pub pieces: Format,
    pub widths: Vec<Width>,
}

// How far a conversion is read: none, behind `%`, or behind `%l`.
#[derive(Clone, Copy)]
enum Begun {
    Outside,
    Percent,
    PercentL,
}

// The pieces of a format so far: the last ones are the bytes of `run`, if there are any.
#[derive(Drop)]
struct Draft {
    pieces: Vec<Piece>,
    run: Vec<u8>,
    widths: Vec<Width>,
}

impl Draft {
    fn new(alloc: Global) -> Draft
        ensures { (parts : List Part) → completed result parts ≡ (pieces_of parts, widths_of parts) }
    {
        Draft {
            pieces: Vec::new(alloc),
            run: Vec::new(alloc),
            widths: Vec::new(alloc),
        }
    }

    fn put_byte(&mut self, byte: u8) -> Result<(), Memory>
        ensures { OnOk result ((parts : List Part) →
            completed self.new parts ≡ completed self.old (Byte byte ∷ parts)) }
    {
        self.run.push(byte)?;
        Ok(())
    }

    // The run so far becomes a piece.
    fn end_run(&mut self, alloc: Global) -> Result<(), Memory>
        ensures pieces { OnOk result (self.new.pieces.items
            ≡ self.old.pieces.items ++ joined self.old.run.items []) }
        ensures run { OnOk result (self.new.run.items ≡ []) }
        ensures widths { OnOk result (self.new.widths ≡ self.old.widths) }
    {
        if !self.run.is_empty() {
            let run = mem::replace(&mut self.run, Vec::new(alloc));
            self.pieces.push(Piece::Text(Text::of(run)))?;
        }
        Ok(())
    }

    fn put_number(&mut self, alloc: Global, width: Width) -> Result<(), Memory>
        ensures { OnOk result ((parts : List Part) →
            completed self.new parts ≡ completed self.old (Conversion width ∷ parts)) }
    {
        self.end_run(alloc)?;
        self.pieces.push(Piece::Number)?;
        self.widths.push(width)?;
        Ok(())
    }

    fn finish(mut self, alloc: Global) -> Result<ReadFormat, Memory>
        ensures { IfOk result (λ r. (r.pieces, r.widths.items) ≡ completed self []) }
    {
        self.end_run(alloc)?;
        let Draft {
            pieces,
            run,
            widths,
        } = self;
        drop(run);
        Ok(ReadFormat {
            pieces: Format::of(pieces),
            widths,
        })
    }
}

// Takes the byte behind a `%`.
fn take_conversion(alloc: Global, draft: &mut Draft, byte: u8) -> Result<Option<Begun>, Memory>
    ensures { IfOk result (λ r. (bytes : List ℕ) →
        completed_from (Some Begun.Percent) (byte ∷ bytes) draft.old
        ≡ completed_from r bytes draft.new) }
{
    if byte == b'd' {
        draft.put_number(alloc, Width::Int)?;
        return Ok(Some(Begun::Outside));
    }
    if byte == b'l' {
        return Ok(Some(Begun::PercentL));
    }
    if byte == b'%' {
        draft.put_byte(byte)?;
        return Ok(Some(Begun::Outside));
    }
    Ok(None)
}

// Takes a byte of a format. There is no answer where it makes another conversion than `%d`, `%ld` and
// `%%`.
fn take(alloc: Global, draft: &mut Draft, begun: Begun, byte: u8) -> Result<Option<Begun>, Memory>
    ensures { IfOk result (λ r. (bytes : List ℕ) →
        completed_from (Some begun) (byte ∷ bytes) draft.old ≡ completed_from r bytes draft.new) }
{
    match begun {
        Begun::Outside => {
            if byte == b'%' {
                return Ok(Some(Begun::Percent));
            }
            draft.put_byte(byte)?;
            Ok(Some(Begun::Outside))
        }
        Begun::Percent => take_conversion(alloc, draft, byte),
        Begun::PercentL => {
            if byte != b'd' {
                return Ok(None);
            }
            draft.put_number(alloc, Width::Long)?;
            Ok(Some(Begun::Outside))
        }
    }
}

// The format that these bytes are, where they have no other conversion than `%d`, `%ld` and `%%`.
fn read_bytes(alloc: Global, bytes: &[u8]) -> Result<Option<ReadFormat>, Memory>
    ensures { IfOk result (λ r. Reads (formats.parts_from formats.Outside bytes.now) r) }
{
    let mut draft = Draft::new(alloc);
    let mut begun = Begun::Outside;
    for byte in bytes {
        match take(alloc, &mut draft, begun, *byte)? {
            Some(next) => begun = next,
            None => return Ok(None),
        }
    }
    match begun {
        Begun::Outside => Ok(Some(draft.finish(alloc)?)),
        _ => Ok(None),
    }
}

/// The format that a text is, where it has no other conversion than `%d`, `%ld` and `%%`.
#[tactic(auto, unfolding(crate::specs::Formats::format_parts))]
pub fn read_format(alloc: Global, text: &[u8]) -> Result<Option<ReadFormat>, Memory>
    ensures { IfOk result (λ r. Reads (formats.format_parts text.now) r) }
{
    let bytes = text_bytes(alloc, text)?;
    read_bytes(alloc, &bytes)
}

/// There is an int for each `%d` and a long for each `%ld`, in order, and no more.
pub fn are_printed(widths: &[Width], given: &[Option<Kind>]) -> bool
    ensures { result ≡ formats.are_printed widths.now given.now }
{
    if widths.len() != given.len() {
        return false;
    }
    for i in 0..widths.len() {
        if !is_printed(widths[i], given[i]) {
            return false;
        }
    }
    true
}

// The type of the number that a conversion prints.
fn printed_kind(width: Width) -> Kind
    ensures { result ≡ formats.printed_kind width }
{
    match width {
        Width::Int => Kind::Plain(Base::Int),
        Width::Long => Kind::Plain(Base::Long),
    }
}

// What is given has the type of such a number, as far as it is known.
fn is_printed(width: Width, given: Option<Kind>) -> bool
    ensures { result ≡ not (misses (same_kind (formats.printed_kind width)) given) }
{
    match given {
        Some(given) => same_kind(printed_kind(width), given),
        None => true,
    }
}
