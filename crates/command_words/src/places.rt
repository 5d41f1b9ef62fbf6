//! The value of `--place`.
ghost use Rattle.std.specs.Prelude.{◌≡◌, IfOk, option_map};
ghost use Rattle.std.specs.Option.{option_map};
ghost use Rattle.command_words.specs.Lists.{listed};
ghost use Rattle.command_words.specs.Numbers.{number_between};
ghost use Rattle.command_words.specs.Standing.{place_in};

use crate::numbers::number_between;
use mpc_values::{Cores, Memory};
use std::alloc::Global;
use topology::Placement;

// The number of a core in a list.
fn core_number(text: &str) -> Option<u32>
    ensures { result ≡ number_between 0 255 text.now }
{
    match number_between(text, 0, 255) {
        Some(number) => Some(number as u32),
        None => None,
    }
}

// The numbers of a list that are joined by commas, if each is one of a core.
fn listed(alloc: Global, text: &str) -> Result<Option<Cores>, Memory>
    ensures { IfOk result (λ cores. cores ≡ listed text.now) }
{
    let mut cores = Vec::new(alloc);
    let mut rest = text;
    while let Some((first, more)) = rest.split_once(',') {
        let Some(core) = core_number(first) else {
            return Ok(None);
        };
        cores.push(core)?;
        rest = more;
    }
    let Some(core) = core_number(rest) else {
        return Ok(None);
    };
    cores.push(core)?;
    Ok(Some(Cores::of(cores)))
}

/// The placement of a word: `compact`, `scatter`, or core numbers joined by commas.
pub fn place_in(alloc: Global, text: &str) -> Result<Option<Placement>, Memory>
    ensures { IfOk result (λ place. place ≡ place_in text.now) }
{
    if text == "compact" {
        return Ok(Some(Placement::Compact));
    }
    if text == "scatter" {
        return Ok(Some(Placement::Scatter));
    }
    match listed(alloc, text)? {
        Some(cores) => Ok(Some(Placement::Listed(cores))),
        None => Ok(None),
    }
}
