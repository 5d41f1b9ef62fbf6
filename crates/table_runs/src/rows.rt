//! The rows of the tables, read from files beside the program.

use anyhow::{Result, anyhow};
use std::alloc::{AllocError, Global};
use std::fs;

/// A source, with the status and the text that are due.
#[derive(Drop)]
pub struct Row {
    pub name: String,
    pub status: u8,
    pub text: Vec<u8>,
    pub source: Vec<u8>,
}

/// The rows of `refusals.tsv`: status, line and source, parted by tabs.
pub fn refusals(rt: HostRuntime) -> Result<Vec<Row>> {
    let table = fs::read_to_string(&rt, "refusals.tsv")?;
    let mut rows = Vec::new(rt.alloc());
    for line in table.lines() {
        if let Some((status, line, source)) = columns(line) {
            rows.push(refusal(rt.alloc(), status, line, source)?)?;
        }
    }
    Ok(rows)
}

/// The rows of `runs.tsv`: name and status, parted by a tab. The source and the report stand in files of that name.
pub fn runs(rt: HostRuntime) -> Result<Vec<Row>> {
    let table = fs::read_to_string(&rt, "runs.tsv")?;
    let mut rows = Vec::new(rt.alloc());
    for line in table.lines() {
        if line.starts_with('#') {
            continue;
        }
        if let Some((name, status)) = line.split_once('\t') {
            rows.push(run(rt, name, status)?)?;
        }
    }
    Ok(rows)
}

// The three columns of a line that is no comment.
fn columns(line: &str) -> Option<(&str, &str, &str)> {
    if line.starts_with('#') {
        return None;
    }
    let (status, rest) = line.split_once('\t')?;
    let (text, source) = rest.split_once('\t')?;
    Some((status, text, source))
}

fn status_of(column: &str) -> Result<u8> {
    match column.parse::<u8>() {
        Ok(status) => Ok(status),
        Err(_) => Err(anyhow!("a status is no number")),
    }
}

fn refusal(alloc: Global, status: &str, line: &str, source: &str) -> Result<Row> {
    let mut text = Vec::from_slice(alloc, line.as_bytes())?;
    text.push(b'\n')?;
    Ok(Row {
        name: String::from_str(alloc, source)?,
        status: status_of(status)?,
        text,
        source: unescaped(alloc, source.as_bytes())?,
    })
}

fn run(rt: HostRuntime, name: &str, status: &str) -> Result<Row> {
    let alloc = rt.alloc();
    let source = format!(in alloc; "{name}.c")?;
    let report = format!(in alloc; "{name}.report")?;
    Ok(Row {
        name: String::from_str(alloc, name)?,
        status: status_of(status)?,
        text: fs::read(&rt, report.as_str())?,
        source: fs::read(&rt, source.as_str())?,
    })
}

// The bytes that a source's column stands for: \n a line feed, \t a tab, \\ a backslash.
fn unescaped(alloc: Global, column: &[u8]) -> std::result::Result<Vec<u8>, AllocError> {
    let mut bytes = Vec::new(alloc);
    let mut escaped = false;
    for byte in column {
        let byte = *byte;
        if escaped {
            escaped = false;
            bytes.push(match byte {
                b'n' => b'\n',
                b't' => b'\t',
                other => other,
            })?;
        } else if byte == b'\\' {
            escaped = true;
        } else {
            bytes.push(byte)?;
        }
    }
    Ok(bytes)
}
