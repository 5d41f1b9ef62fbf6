ghost use Rattle.std.specs.Prelude.{◌≡◌, ◌≢◌, ◌↔◌, None, IfOk, IfSome, take};
ghost use Rattle.std.specs.IoError.{error_kind, raw_os_error};
ghost use Rattle.mpc_base.specs.FileAnswers.{IsWithin};
ghost use Rattle.mpc.specs.Transfers.{ReadsSource, WritesAll};

use crate::fault_count::FaultCount;
use mpc_base::{Files, ReadAnswer, WriteAnswer};
use std::alloc::Global;
use std::fs::File;
use std::io::{self, Error, ErrorKind, Read, Write};

/// The system's files. A name is a path. It tells no contents.
#[derive(Drop)]
pub struct HostFiles {
    rt: HostRuntime,
    faults: FaultCount,
}

impl HostFiles {
    /// The system's files, on which no call has failed.
    pub fn new(rt: HostRuntime) -> HostFiles
        ensures { result.faults.count ≡ 0 }
    {
        HostFiles {
            rt,
            faults: FaultCount::new(),
        }
    }
}

impl Files for HostFiles {
    ghost told = { λ _. None };

    ghost faults = { λ files. files.faults.count };

    fn read(&mut self, alloc: Global, name: &str, limit: usize) -> ReadAnswer {
        if self.faults.is_full() {
            return ReadAnswer::Failed;
        }
        let answer = open_and_read(self.rt, alloc, name, limit);
        if let ReadAnswer::Failed = answer {
            self.faults.rise();
        }
        answer
    }

    fn write(&mut self, _alloc: Global, name: &str, bytes: &[u8]) -> WriteAnswer {
        if self.faults.is_full() {
            return WriteAnswer::Failed;
        }
        let answer = create_and_fill(self.rt, name, bytes);
        if let WriteAnswer::Failed = answer {
            self.faults.rise();
        }
        answer
    }
}

fn open_and_read(rt: HostRuntime, alloc: Global, name: &str, limit: usize) -> ReadAnswer
    ensures { IsWithin limit result }
{
    match File::open(&rt, name) {
        Ok(file) => content(alloc, file, limit),
        Err(error) => why_not_opened(&error),
    }
}

fn create_and_fill(rt: HostRuntime, name: &str, bytes: &[u8]) -> WriteAnswer {
    match File::create(&rt, name) {
        Ok(mut file) => fill(&mut file, bytes),
        Err(_) => WriteAnswer::Failed,
    }
}

// A name that the system does not know is no fault; each other refusal is one.
fn why_not_opened(error: &Error) -> ReadAnswer
    ensures missing { (result ≡ ReadAnswer.Missing) ↔ (error_kind error.now ≡ ErrorKind.NotFound) }
    ensures failed { (result ≡ ReadAnswer.Failed) ↔ (error_kind error.now ≢ ErrorKind.NotFound) }
{
    if error.kind() == ErrorKind::NotFound {
        ReadAnswer::Missing
    } else {
        ReadAnswer::Failed
    }
}

/// Reads a source to its end, unless it holds more bytes than the limit.
pub fn content<R: Read + Drop>(alloc: Global, source: R, limit: usize) -> ReadAnswer
    ensures { ReadsSource (R.remaining source) limit result }
{
    match first_bytes(alloc, source, (limit as u64).saturating_add(1)) {
        Ok(bytes) if bytes.len() > limit => ReadAnswer::TooLong,
        Ok(bytes) => ReadAnswer::Bytes(bytes),
        Err(error) => why_not_read(&error),
    }
}

fn first_bytes<R: Read + Drop>(alloc: Global, source: R, most: u64) -> io::Result<Vec<u8>>
    ensures { IfOk result (λ bytes. IfSome (R.remaining source) (λ all. bytes.items ≡ take most all)) }
{
    let mut bytes = Vec::new(alloc);
    source.take(most).read_to_end(&mut bytes)?;
    Ok(bytes)
}

// The system's own want of memory has a number of the system's and is a fault.
fn why_not_read(error: &Error) -> ReadAnswer
    ensures memory { (result ≡ ReadAnswer.Memory) ↔ ((error_kind error.now ≡ ErrorKind.OutOfMemory) × (raw_os_error error.now ≡ None)) }
    ensures failed { (result ≡ ReadAnswer.Failed) ↔ ¬ ((error_kind error.now ≡ ErrorKind.OutOfMemory) × (raw_os_error error.now ≡ None)) }
{
    if error.kind() == ErrorKind::OutOfMemory && error.raw_os_error().is_none() {
        ReadAnswer::Memory
    } else {
        ReadAnswer::Failed
    }
}

/// Writes all of the bytes, or fails.
pub fn fill<W: Write>(file: &mut W, bytes: &[u8]) -> WriteAnswer
    ensures { WritesAll (W.contents file.old) (W.contents file.new) bytes.now result }
{
    match file.write_all(bytes) {
        Ok(()) => WriteAnswer::Written,
        Err(_) => WriteAnswer::Failed,
    }
}
