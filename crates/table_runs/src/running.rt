//! One call of the top call, over files and a sink in memory.

use mpc_base::{MemFiles, MemSink, Memory};
use mpc_top::mpc_serial;
use std::alloc::Global;
use std::collections::BTreeMap;

/// The status of a call, and what it wrote.
#[derive(Drop)]
pub struct Answer {
    pub status: u8,
    pub text: Vec<u8>,
}

/// What the top call answers to a mode and a source.
pub fn answer_to(alloc: Global, mode: &str, source: &[u8]) -> Result<Answer, Memory> {
    let mut words = Vec::new(alloc);
    words.push(String::from_str(alloc, mode)?)?;
    words.push(String::from_str(alloc, "row.c")?)?;
    let mut stored = BTreeMap::new(alloc);
    stored.insert(
        String::from_str(alloc, "row.c")?,
        Vec::from_slice(alloc, source)?,
    )?;
    let mut files = MemFiles::new(stored, Vec::new(alloc));
    let mut sink = MemSink::new(alloc, 1_000, 2_000_000, Vec::new(alloc))?;
    let top = mpc_serial(alloc, words.as_slice(), &mut files, &mut sink);
    let text = Vec::from_slice(alloc, sink.bytes())?;
    Ok(Answer {
        status: top.status,
        text,
    })
}
