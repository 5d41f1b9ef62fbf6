//! The crates of the heap at work: worked cases of them as tests, and a program that does what a benchmark times.
#![tactic(auto)]

mod marks;
mod objects;
mod ranges;
mod spaces;
#[cfg(test)]
mod tests;
mod work;

use crate::work::{Work, done};
use anyhow::{Context, Result, anyhow};
use std::env;

/// What is done without words: each kind of work a little.
const SAMPLES: [(Work, usize, usize); 4] = [
    (Work::Stack, 10, 100),
    (Work::Random, 10, 100),
    (Work::Access, 10, 100),
    (Work::Space, 10, 100),
];

fn main(rt: HostRuntime) -> Result<()> {
    let mut words = env::args(&rt)?;
    words.next();
    let Some(kind) = words.next() else {
        for (work, count, rounds) in SAMPLES {
            tell(rt, work, count, rounds)?;
        }
        return Ok(());
    };
    let work = work_of(kind.as_str()).context("the work is stack, random, access or space")?;
    let count = number(words.next())?;
    let rounds = number(words.next())?;
    tell(rt, work, count, rounds)
}

/// Does the work and prints what it came to.
fn tell(rt: HostRuntime, work: Work, count: usize, rounds: usize) -> Result<()> {
    let Ok((first, second)) = done(rt.alloc(), work, count, rounds) else {
        return Err(anyhow!("memory was wanted and not found"));
    };
    match work {
        Work::Stack => println!(rt;
            "stack of {count}, {rounds} rounds: {first} of {second} places are held"
        )?,
        Work::Random => println!(rt;
            "random of {count}, {rounds} rounds: {first} of {second} places are held"
        )?,
        Work::Access => println!(rt;
            "access of {count}, {rounds} rounds: {first} loads and {second} stores"
        )?,
        Work::Space => println!(rt;
            "space of {count}, {rounds} rounds: {first} loads and {second} stores"
        )?,
    }
    Ok(())
}

/// The kind of work that a word names.
fn work_of(word: &str) -> Option<Work> {
    match word {
        "stack" => Some(Work::Stack),
        "random" => Some(Work::Random),
        "access" => Some(Work::Access),
        "space" => Some(Work::Space),
        _ => None,
    }
}

/// The number that a word is.
fn number(word: Option<String>) -> Result<usize> {
    let word = word.context("a kind of work wants a number of ranges and one of rounds")?;
    Ok(word.as_str().parse::<usize>()?)
}
