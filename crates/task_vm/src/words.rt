//! Words as values.
ghost use Rattle.std.specs.Prelude.{◌≡◌};
ghost use Rattle.std.specs.Int.{int_wrap, w32};
ghost use Rattle.c_tree.specs.Numbers.{number_of};
ghost use Rattle.c_tree.specs.Words as words;
ghost use Rattle.c_tree.specs.Execution.{object_of};
ghost use Rattle.c_tree.specs.declared.program.Width.TheVariants as width;

use c_tree::arithmetic::wrap;
use c_tree::program::{Scalar, Width};
use mpc_values::{Fault, Obj, Word};

/// A word read where a number of a type is due: a number wraps, and a word of another kind is 0.
pub(crate) fn number_of(width: Width, word: Word) -> i64
    ensures { result ≡ number_of width word }
{
    match word {
        Word::Int(number) => wrap(width, number),
        _ => 0,
    }
}

/// A word read where a long is due.
pub(crate) fn long_of(word: Word) -> i64
    ensures { result ≡ number_of width.Long word }
{
    match word {
        Word::Int(number) => number,
        _ => 0,
    }
}

// A number as an int: the lowest 32 bits.
fn wrap_int(number: i64) -> i32
    ensures { result ≡ int_wrap w32 number }
{
    let low = number.rem_euclid(4294967296);
    (low as u32).cast_signed()
}

/// A word read where an int is due.
pub(crate) fn int_of(word: Word) -> i32
    ensures { result ≡ number_of width.Int word }
{
    match word {
        Word::Int(number) => wrap_int(number),
        _ => 0,
    }
}

/// A word read where a pointer is due; another word is NULL.
pub(crate) fn pointer_of(word: Word) -> Word
    ensures { result ≡ words.pointer_of word }
{
    match word {
        Word::Ptr { obj, at } => Word::Ptr { obj, at },
        _ => Word::Null,
    }
}

/// A word read where a communicator is due; another word is MPI_COMM_NULL.
pub(crate) fn comm_of(word: Word) -> Word
    ensures { result ≡ words.comm_of word }
{
    match word {
        Word::Comm(comm) => Word::Comm(comm),
        _ => Word::Comm(0),
    }
}

/// A word read where a request is due; another word is MPI_REQUEST_NULL.
pub(crate) fn request_of(word: Word) -> Word
    ensures { result ≡ words.request_of word }
{
    match word {
        Word::Req(request) => Word::Req(request),
        _ => Word::Req(0),
    }
}

/// The object that a pointer points into; of another word one that no task makes.
pub(crate) fn object_of(word: Word) -> Obj
    ensures { result ≡ object_of word }
{
    match word {
        Word::Ptr { obj, .. } => obj,
        _ => Obj::Dyn(0),
    }
}

/// A word read as what is due.
pub(crate) fn read_as(scalar: Scalar, word: Word) -> Word
    ensures { result ≡ words.read_as scalar word }
{
    match scalar {
        Scalar::Number(width) => Word::Int(number_of(width, word)),
        Scalar::Pointer => pointer_of(word),
        Scalar::Comm => comm_of(word),
        Scalar::Request => request_of(word),
    }
}

/// A pointer so many words further, or back: NullAccess where the word is no pointer, Bounds where the
/// place is not from 0 to 4,294,967,295.
pub(crate) fn moved(word: Word, distance: i128) -> Result<Word, Fault>
    ensures { result ≡ words.moved word distance }
{
    match word {
        Word::Ptr { obj, at } => match u32::try_from(i128::from(at).saturating_add(distance)) {
            Ok(at) => Ok(Word::Ptr { obj, at }),
            Err(_) => Err(Fault::Bounds),
        },
        _ => Err(Fault::NullAccess),
    }
}

/// How many words so many elements of a size in words are, on or back.
pub(crate) fn elements(back: bool, size: u32, count: i64) -> i128
    ensures { result ≡ words.elements back size count }
{
    let all = i128::from(size) * i128::from(count);
    if back { 0 - all } else { all }
}

/// The words that malloc of so many bytes asks for, for elements of a size: rounded down, and -1 for a
/// negative number. Nothing is asked for elements without bytes.
pub(crate) fn malloc_words(size: u32, bytes: i64) -> i64
    ensures { result ≡ words.malloc_words size bytes }
{
    if bytes < 0 {
        return -1;
    }
    if size == 0 {
        return 0;
    }
    bytes / i64::from(size)
}
