//! Holds the top call against tables that were worked out apart from it: what `check` answers to sources, and what
//! `serial` writes of programs of one task. It prints each row that differs, and how many agree.
#![tactic(auto)]

mod rows;
mod running;

use crate::rows::{Row, refusals, runs};
use crate::running::answer_to;
use anyhow::{Result, anyhow};

fn main(rt: HostRuntime) -> Result<()> {
    let sources = refusals(rt)?;
    let agreed = compare(rt, "check", sources.as_slice())?;
    println!(rt; "check: {agreed} of {} rows agree", sources.len())?;
    let programs = runs(rt)?;
    let agreed = compare(rt, "serial", programs.as_slice())?;
    println!(rt; "serial: {agreed} of {} rows agree", programs.len())?;
    Ok(())
}

// How many rows are answered in this mode as they say. Each other one is printed.
fn compare(rt: HostRuntime, mode: &str, rows: &[Row]) -> Result<usize> {
    let mut agreed = 0usize;
    for row in rows {
        let Ok(answer) = answer_to(rt.alloc(), mode, row.source.as_slice()) else {
            return Err(anyhow!("memory was wanted and not found"));
        };
        if answer.status == row.status && answer.text.as_slice() == row.text.as_slice() {
            agreed = agreed.saturating_add(1);
        } else {
            let written = String::from_utf8_lossy(rt.alloc(), answer.text.as_slice())?;
            println!(rt;
                "{}: status {}, {written}",
                row.name.as_str(),
                answer.status
            )?;
        }
    }
    Ok(agreed)
}
