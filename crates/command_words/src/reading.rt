//! Reading the words of the command.
ghost use Rattle.std.specs.Prelude.{◌≡◌, ◌^◌, ◌-◌, ℕ, IfOk, IfErr, IfSome, IfNone, codes, map, option_map, string_bytes};
ghost use Rattle.clap.specs.Words.{found_of, rows_of};
ghost use Rattle.command_words.specs.declared.orders.Orders.{Orders};
ghost use Rattle.command_words.specs.Words.{value_of, is_given, is_on};
ghost use Rattle.command_words.specs.Standing.{AreOrders, Stands, has_run_option, has_what_it_needs, keeps_to, mode_in, mode_of, number_if_given, number_or, place_of};
ghost use Rattle.command_words.specs.Bounded.{AreBounds};
ghost use Rattle.command_words.specs.declared.reading.Bounds.{Bounds};

use crate::command::command;
use crate::numbers::number_between;
use crate::orders::{FileName, Mode, Orders, Usage};
use crate::places::place_in;
use clap::ArgMatches;
use clap::error::ErrorKind;
use mpc_values::Memory;
use mpc_values::limits::{
    DEFAULT_CALLS, DEFAULT_EAGER, DEFAULT_QUOTA, MAX_CALLS, MAX_EAGER, MAX_QUOTA, MAX_TASKS,
};
use std::alloc::Global;
use topology::Placement;

// The value of a word or an option, where it was given.
fn value<'a>(found: &ArgMatches<'a>, name: &str) -> Option<&'a str>
    ensures { option_map (λ text. text.now) result ≡ value_of (rows_of (found_of found.now)) name.now }
{
    found.get_str(name)
}

fn is_given(found: &ArgMatches, name: &str) -> bool
    ensures { result ≡ is_given (rows_of (found_of found.now)) name.now }
{
    value(found, name).is_some()
}

// A flag was given.
fn is_on(found: &ArgMatches, name: &str) -> bool
    ensures { result ≡ is_on (rows_of (found_of found.now)) name.now }
{
    match value(found, name) {
        Some(text) => text == "true",
        None => false,
    }
}

// A number in a range, where it was given, and else its default.
fn number_or(found: &ArgMatches, name: &str, default: u32, low: u32, high: u32) -> Option<u32>
    ensures { result ≡ number_or default low high (value_of (rows_of (found_of found.now)) name.now) }
{
    match value(found, name) {
        Some(text) => match number_between(text, u64::from(low), u64::from(high)) {
            Some(number) => Some(number as u32),
            None => None,
        },
        None => Some(default),
    }
}

// A number that has no default; the outer `None` is one that is no number.
fn number_if_given(found: &ArgMatches, name: &str) -> Option<Option<u64>>
    ensures { result ≡ number_if_given (2 ^ 64 - 1) (value_of (rows_of (found_of found.now)) name.now) }
{
    match value(found, name) {
        Some(text) => match number_between(text, 0, u64::MAX) {
            Some(number) => Some(Some(number)),
            None => None,
        },
        None => Some(None),
    }
}

fn mode_in(text: &str) -> Option<Mode>
    ensures { result ≡ mode_in text.now }
{
    if text == "check" {
        Some(Mode::Check)
    } else if text == "run" {
        Some(Mode::Run)
    } else if text == "serial" {
        Some(Mode::Serial)
    } else if text == "replay" {
        Some(Mode::Replay)
    } else if text == "gen" {
        Some(Mode::Gen)
    } else {
        None
    }
}

fn mode_of(found: &ArgMatches) -> Option<Mode>
    ensures { result ≡ mode_of (value_of (rows_of (found_of found.now)) (codes "mode")) }
{
    match value(found, "mode") {
        Some(text) => mode_in(text),
        None => None,
    }
}

fn place_of(alloc: Global, found: &ArgMatches) -> Result<Option<Placement>, Memory>
    ensures { IfOk result (λ place. place ≡ place_of (value_of (rows_of (found_of found.now)) (codes "place"))) }
{
    match value(found, "place") {
        Some(text) => place_in(alloc, text),
        None => Ok(Some(Placement::Compact)),
    }
}

// A file's name, where it was given.
fn name_of(alloc: Global, found: &ArgMatches, name: &str) -> Result<Option<FileName>, Memory>
    ensures { IfOk result (λ file. file ≡ value_of (rows_of (found_of found.now)) name.now) }
{
    match value(found, name) {
        Some(text) => Ok(Some(FileName::of(String::from_str(alloc, text)?))),
        None => Ok(None),
    }
}

// One of the options was given that only the modes take which run a program.
fn has_run_option(found: &ArgMatches) -> bool
    ensures { result ≡ has_run_option (rows_of (found_of found.now)) }
{
    is_given(found, "machine")
        || (is_given(found, "place")
            || (is_given(found, "eager")
                || (is_given(found, "quota")
                    || (is_given(found, "calls")
                        || (is_given(found, "journal") || is_on(found, "matches"))))))
}

// Each option that was given is one of the mode's.
fn keeps_to(mode: Mode, found: &ArgMatches) -> bool
    ensures { result ≡ keeps_to mode (rows_of (found_of found.now)) }
{
    (mode.runs() || !has_run_option(found))
        && (((mode.runs() || mode.is_gen()) || !is_given(found, "tasks"))
            && ((mode.is_serial() || !is_given(found, "seed"))
                && (mode.is_gen() || !is_on(found, "emit"))))
}

// A replay has a journal, and `gen` a number for its subject.
fn has_what_it_needs(mode: Mode, found: &ArgMatches) -> bool
    ensures { result ≡ has_what_it_needs mode (rows_of (found_of found.now)) }
{
    (!mode.is_replay() || is_given(found, "journal"))
        && (!mode.is_gen() || number_if_given(found, "subject").is_some())
}

// How much a run may have of each.
struct Bounds {
    tasks: u32,
    eager: u32,
    quota: u32,
    calls: u32,
}

fn bounds_in(found: &ArgMatches) -> Option<Bounds>
    ensures some { IfSome result (AreBounds (rows_of (found_of found.now))) }
    ensures none { IfNone result ((b : Bounds) → AreBounds (rows_of (found_of found.now)) b → ⊥) }
{
    let tasks = number_or(found, "tasks", 1, 1, MAX_TASKS)?;
    let eager = number_or(found, "eager", DEFAULT_EAGER, 0, MAX_EAGER)?;
    let quota = number_or(found, "quota", DEFAULT_QUOTA, 0, MAX_QUOTA)?;
    let calls = number_or(found, "calls", DEFAULT_CALLS, 1, MAX_CALLS)?;
    if u64::from(tasks) * u64::from(calls) <= u64::from(MAX_CALLS) {
        Some(Bounds {
            tasks,
            eager,
            quota,
            calls,
        })
    } else {
        None
    }
}

// What was found stands for these orders, if for any.
fn orders_in(alloc: Global, found: &ArgMatches) -> Result<Result<Orders, Usage>, Memory>
    ensures stands { IfOk result (λ r. IfOk r (AreOrders (rows_of (found_of found.now)))) }
    ensures usage { IfOk result (λ r. IfErr r (λ _. (o : Orders) → AreOrders (rows_of (found_of found.now)) o → ⊥)) }
{
    let Some(mode) = mode_of(found) else {
        return Ok(Err(Usage));
    };
    if !keeps_to(mode, found) || !has_what_it_needs(mode, found) {
        return Ok(Err(Usage));
    }
    let Some(
        Bounds {
            tasks,
            eager,
            quota,
            calls,
        },
    ) = bounds_in(found)
    else {
        return Ok(Err(Usage));
    };
    let Some(seed) = number_if_given(found, "seed") else {
        return Ok(Err(Usage));
    };
    let Some(place) = place_of(alloc, found)? else {
        return Ok(Err(Usage));
    };
    let Some(subject) = name_of(alloc, found, "subject")? else {
        return Ok(Err(Usage));
    };
    Ok(Ok(Orders {
        mode,
        subject,
        tasks,
        machine: name_of(alloc, found, "machine")?,
        place,
        eager,
        quota,
        calls,
        seed,
        journal: name_of(alloc, found, "journal")?,
        matches: is_on(found, "matches"),
        emit: is_on(found, "emit"),
    }))
}

/// The orders that the words after the program's name stand for. `Usage` comes exactly where they stand for none:
/// where `clap` refuses them, or a rule of the options is broken (docs/COMMAND.md).
pub fn read_words(alloc: Global, words: &[String]) -> Result<Result<Orders, Usage>, Memory>
    ensures stands { IfOk result (λ r. IfOk r (Stands (map string_bytes words.now))) }
    ensures usage { IfOk result (λ r. IfErr r (λ _. (o : Orders) → Stands (map string_bytes words.now) o → ⊥)) }
{
    match command(alloc)?.try_get_matches_from(words) {
        Ok(found) => orders_in(alloc, &found),
        Err(error) if error.kind() == ErrorKind::OutOfMemory => Err(Memory),
        Err(_) => Ok(Err(Usage)),
    }
}
