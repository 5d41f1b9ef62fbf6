//! The words and signs of a pragma's line.
ghost use Rattle.std.specs.Prelude.{◌≡◌, ◌++◌, IfOk, OnOk};
ghost use Rattle.hls_pragma.specs.Items.{is_word_byte as word_byte, is_blank as blank, is_letter as letter, sign_of, word_of, item_of, items_of};

use crate::directives::NameSpan;
use mpc_values::Memory;
use std::alloc::Global;

/// A word or a sign of a line.
#[derive(Clone, Copy, Debug, PartialEq, Eq)]
pub enum Item {
    /// Letters, digits and underscores, as many as stand together.
    Word(NameSpan),
    Open,
    Comma,
    Close,
    /// A byte that no directive for shared variables has.
    Other,
}

pub fn is_letter(byte: u8) -> bool
    ensures { result ≡ letter byte }
{
    (97 <= byte && byte <= 122) || (65 <= byte && byte <= 90) || byte == b'_'
}

fn is_word_byte(byte: u8) -> bool
    ensures { result ≡ word_byte byte }
{
    is_letter(byte) || (48 <= byte && byte <= 57)
}

fn is_blank(byte: u8) -> bool
    ensures { result ≡ blank byte }
{
    byte == b' ' || byte == b'\t' || byte == b'\n' || byte == b'\r'
}

fn sign(byte: u8) -> Item
    ensures { result ≡ sign_of byte }
{
    if byte == b'(' {
        Item::Open
    } else if byte == b',' {
        Item::Comma
    } else if byte == b')' {
        Item::Close
    } else {
        Item::Other
    }
}

// Adds the word that ends here, where there is one.
fn flush(items: &mut Vec<Item>, start: usize, len: usize) -> Result<(), Memory>
    ensures { OnOk result (items.new.items ≡ items.old.items ++ word_of start len) }
{
    if len > 0 {
        items.push(Item::Word(NameSpan { start, len }))?;
    }
    Ok(())
}

// Adds the sign of a byte that is in no word, where it is no blank.
fn put(items: &mut Vec<Item>, byte: u8) -> Result<(), Memory>
    ensures { OnOk result (items.new.items ≡ items.old.items ++ item_of byte) }
{
    if !is_blank(byte) {
        items.push(sign(byte))?;
    }
    Ok(())
}

/// The words and signs of a line, from left to right.
pub fn items(alloc: Global, line: &[u8]) -> Result<Vec<Item>, Memory>
    ensures { IfOk result (λ v. v.items ≡ items_of 0 0 0 line.now) }
{
    let mut items = Vec::new(alloc);
    let mut start: usize = 0;
    let mut len: usize = 0;
    for (at, byte) in line.iter().enumerate() {
        if is_word_byte(*byte) {
            if len == 0 {
                start = at;
            }
            len += 1;
        } else {
            flush(&mut items, start, len)?;
            put(&mut items, *byte)?;
            len = 0;
        }
    }
    flush(&mut items, start, len)?;
    Ok(items)
}
