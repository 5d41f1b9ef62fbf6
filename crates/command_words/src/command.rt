//! The command, as `clap` reads its words.
ghost use Rattle.std.specs.Prelude.{◌≡◌, IfOk, false};
ghost use Rattle.clap.specs.Words.{app_of, rule_of};
ghost use Rattle.command_words.specs.Words.{command, flag, option, with_bounds, with_tasks, with_two_words, word};

use clap::{Arg, ArgAction, Command};
use mpc_values::Memory;
use std::alloc::Global;

fn word<'a>(alloc: Global, name: &'a str) -> Arg<'a>
    ensures rule { rule_of result ≡ word name.entry.now }
    ensures local { result.global ≡ false }
{
    Arg::new(alloc, name).required(true).action(ArgAction::Set)
}

fn option<'a>(alloc: Global, name: &'a str) -> Arg<'a>
    ensures rule { rule_of result ≡ option name.entry.now }
    ensures local { result.global ≡ false }
{
    Arg::new(alloc, name).long(name).action(ArgAction::Set)
}

fn flag<'a>(alloc: Global, name: &'a str) -> Arg<'a>
    ensures rule { rule_of result ≡ flag name.entry.now }
    ensures local { result.global ≡ false }
{
    Arg::new(alloc, name).long(name).action(ArgAction::SetTrue)
}

fn with_two_words<'a>(alloc: Global) -> Result<Command<'a>, Memory>
    ensures { IfOk result (λ c. app_of c ≡ with_two_words) }
{
    let program = Command::new(alloc, "mpc").no_binary_name(true);
    Ok(
        program
            .arg(word(alloc, "mode"))?
            .arg(word(alloc, "subject"))?,
    )
}

fn with_tasks<'a>(alloc: Global) -> Result<Command<'a>, Memory>
    ensures { IfOk result (λ c. app_of c ≡ with_tasks) }
{
    let command = with_two_words(alloc)?
        .arg(option(alloc, "tasks"))?
        .arg(option(alloc, "machine"))?
        .arg(option(alloc, "place"))?;
    Ok(command)
}

fn with_bounds<'a>(alloc: Global) -> Result<Command<'a>, Memory>
    ensures { IfOk result (λ c. app_of c ≡ with_bounds) }
{
    let command = with_tasks(alloc)?
        .arg(option(alloc, "eager"))?
        .arg(option(alloc, "quota"))?
        .arg(option(alloc, "calls"))?;
    Ok(command)
}

/// The command with its words and options.
pub fn command<'a>(alloc: Global) -> Result<Command<'a>, Memory>
    ensures { IfOk result (λ c. app_of c ≡ command) }
{
    let command = with_bounds(alloc)?
        .arg(option(alloc, "seed"))?
        .arg(option(alloc, "journal"))?
        .arg(flag(alloc, "matches"))?
        .arg(flag(alloc, "emit"))?;
    Ok(command)
}
