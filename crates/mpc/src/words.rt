ghost use Rattle.std.specs.Prelude.{◌≡◌, ◌≢◌, [], drop, IfOk, IfErr, IsOkAnd, IsErr};
ghost use Rattle.std.specs.IoError.{error_kind};
ghost use Rattle.std.specs.Vec.Iter.{into_iter_items};

use mpc_base::Memory;
use std::alloc::{AllocError, Global};
use std::env::{self, Args};
use std::io::{self, ErrorKind};

/// The words behind the program's name. Where one of them is no UTF-8 there are none, which is no
/// command: such words are as faulty as unknown ones.
pub fn gather(rt: &HostRuntime) -> Result<Vec<String>, Memory> {
    words_behind_name(rt.alloc(), env::args(rt))
}

fn words_behind_name(alloc: Global, given: io::Result<Args>) -> Result<Vec<String>, Memory>
    ensures given { IfOk given (λ all. IfOk result (λ words. words.items ≡ drop 1 (into_iter_items all))) }
    ensures no_text { IfErr given (λ error. error_kind error ≢ ErrorKind.OutOfMemory → IsOkAnd result (λ words. words.items ≡ [])) }
    ensures no_memory { IfErr given (λ error. error_kind error ≡ ErrorKind.OutOfMemory → IsErr result) }
{
    match given {
        Ok(all) => Ok(behind_first(alloc, all)?),
        Err(error) if error.kind() == ErrorKind::OutOfMemory => Err(Memory),
        Err(_) => Ok(Vec::new(alloc)),
    }
}

fn behind_first(alloc: Global, all: Args) -> Result<Vec<String>, AllocError>
    ensures { IfOk result (λ words. words.items ≡ drop 1 (into_iter_items all)) }
{
    all.skip(1).collect(alloc)
}
