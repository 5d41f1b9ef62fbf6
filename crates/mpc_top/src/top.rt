//! The top call: from the command's words to the text that is written and the status.
ghost use Rattle.std.specs.Prelude.{◌≡◌, ◌≢◌, ◌≤◌, ◌↔◌, ℕ, Option, length, map, string_bytes, None, Some, IfOk, IfErr, IfSome, IsSome, ◌⊎◌, true};
ghost use Rattle.mpc_base.specs.Causes.{Rose};
ghost use Rattle.mpc_base.specs.Told.{content_of};
ghost use Rattle.mpc_values.specs.declared.limits.TheConstants.{MAX_SOURCE_BYTES};
ghost use Rattle.c_tree.specs.ProgramOf.{program_of};
ghost use Rattle.c_compile.specs.Correct.{HasMain};
ghost use Rattle.c_compile.specs.Plain.{is_plain};
ghost use Rattle.mpc_top.specs.Command.{NamesSource, NamesNone};
ghost use Rattle.mpc_top.specs.Sources.{Refuses, RefusesContent, refusal_line, accepted_line};
ghost use Rattle.mpc_top.specs.RunStatuses.{made_status, IsStatusOf};
ghost use Rattle.mpc_top.specs.Answers.{ToldSource, WroteLine, IsDone, IsCutShort, IsRefused, IsGood, RunsSource, IsMade, is_status, usage_line, read_fault_line};
ghost use Rattle.mpc_top.specs.Refusals.{Holds, MadeOf, RunOf, line_for, Closes, Showed, WasShort, SourceAnswered, Answered};
ghost use Rattle.mpc_top.specs.declared.command.Mode.{Mode};
ghost use Rattle.mpc_top.specs.declared.sources.SourceRefusal.{SourceRefusal};

use crate::command::{Mode, source_named};
use crate::outputs::write_all;
use crate::plain::is_plain;
use crate::refusals::Refusal;
use crate::sources::{SourceRefusal, accept, accepted_text};
use crate::statuses::status_of;
use c_lex::lexing_laws;
use c_parse::parsing_laws;
use c_tree::program::Program;
use c_types::{typed_programs_have_a_main, typing_laws};
use journal::report;
use mpc_base::limits::MAX_SOURCE_BYTES;
use mpc_base::{Files, Memory, ReadAnswer, Sink};
use serial_model::{RunRecord, Setup};
use serial_run::run_serial;
use std::alloc::Global;

/// The exit status, and the record of the run where one was made.
#[derive(Debug, Drop)]
pub struct Top {
    pub status: u8,
    pub kept: Option<RunRecord>,
}

// What a mode writes, its status, and the record of the run where one was made.
#[derive(Drop)]
struct Made {
    text: Vec<u8>,
    status: u8,
    kept: Option<RunRecord>,
}

// The source's bytes.
fn read_source<F: Files>(
    alloc: Global,
    words: &[String],
    mode: Mode,
    name: &str,
    files: &mut F,
) -> Result<Vec<u8>, Refusal>
    requires named { NamesSource (map string_bytes words.now) mode name.now }
    ensures told { F.told files.new ≡ F.told files.old }
    ensures calm { IfOk result (λ src. Rose (F.faults files.old) (F.faults files.new) → ⊥) }
    ensures short { IfOk result (λ src. length src.items ≤ MAX_SOURCE_BYTES) }
    ensures content { IfOk result (λ src. IfSome (F.told files.old) (λ store. content_of store name.now ≡ Some src.items)) }
    ensures refused { IfErr result (λ refusal. Holds refusal (map string_bytes words.now) (F.told files.old) (F.faults files.old) (F.faults files.new)) }
{
    match files.read(alloc, name, MAX_SOURCE_BYTES) {
        ReadAnswer::Bytes(src) => Ok(src),
        ReadAnswer::Missing => Err(Refusal::Source(SourceRefusal::Missing)),
        ReadAnswer::TooLong => Err(Refusal::Source(SourceRefusal::TooLong)),
        ReadAnswer::Failed => Err(Refusal::ReadFault),
        ReadAnswer::Memory => Err(Refusal::Memory),
    }
}

// The line of an accepted source.
fn check_text(alloc: Global, program: &Program) -> Result<Made, Memory>
    ensures text { IfOk result (λ made. made.text.items ≡ accepted_line (program_of program.now)) }
    ensures status { IfOk result (λ made. made.status ≡ made_status made.kept) }
    ensures kept { IfOk result (λ made. made.kept ≡ None) }
{
    let line = accepted_text(alloc, program)?;
    Ok(Made {
        text: line.into_bytes(),
        status: 0,
        kept: None,
    })
}

// The report of a plain program's run, and the run's record.
fn serial_text(alloc: Global, program: Program) -> Result<Made, Memory>
    requires main { HasMain (program_of program) }
    requires plain { is_plain (program_of program) ≡ true }
    ensures run { IfOk result (λ made. RunOf (program_of program) made.text.items made.kept) }
    ensures status { IfOk result (λ made. made.status ≡ made_status made.kept) }
{
    let run = run_serial(alloc, Setup { program })?;
    let text = report(alloc, &run)?;
    let status = status_of(&run);
    Ok(Made {
        text,
        status,
        kept: Some(run),
    })
}

// What a mode makes of a source, or why the source is refused.
fn make(alloc: Global, mode: Mode, src: &[u8]) -> Result<Result<Made, SourceRefusal>, Memory>
    requires small { length src.now ≤ MAX_SOURCE_BYTES }
    ensures made { IfOk result (λ r. IfOk r (λ made. MadeOf mode src.now made.text.items made.kept)) }
    ensures status { IfOk result (λ r. IfOk r (λ made. made.status ≡ made_status made.kept)) }
    ensures refused { IfOk result (λ r. IfErr r (λ refusal. RefusesContent mode refusal src.now)) }
{
    let program = match accept(alloc, src)? {
        Ok(program) => program,
        Err(refusal) => return Ok(Err(refusal)),
    };
    match mode {
        Mode::Check => Ok(Ok(check_text(alloc, &program)?)),
        Mode::Serial => {
            if !is_plain(&program) {
                return Ok(Err(SourceRefusal::NotBuilt));
            }
            typed_programs_have_a_main();
            Ok(Ok(serial_text(alloc, program)?))
        }
    }
}

fn short() -> Top
    ensures status { result.status ≡ 10 }
    ensures kept { result.kept ≡ None }
{
    Top {
        status: 10,
        kept: None,
    }
}

// Writes a line in place of a report.
fn close<K: Sink>(out: &mut K, refusal: Refusal, line: &[u8]) -> Top
    requires { line.now ≡ line_for refusal }
    ensures { Closes refusal result.status result.kept (K.taken out.old) (K.taken out.new) (K.faults out.old) (K.faults out.new) }
{
    let _written = write_all(out, line);
    Top {
        status: refusal.status(),
        kept: None,
    }
}

fn refuse<K: Sink>(alloc: Global, out: &mut K, refusal: Refusal) -> Top
    ensures { Closes refusal result.status result.kept (K.taken out.old) (K.taken out.new) (K.faults out.old) (K.faults out.new)
        ⊎ WasShort result.status result.kept (K.taken out.old) (K.taken out.new) }
{
    match refusal {
        Refusal::Memory => short(),
        Refusal::Usage => close(out, refusal, b"mpc: usage\n"),
        Refusal::ReadFault => close(out, refusal, b"mpc: cannot read source\n"),
        Refusal::Source(reason) => match reason.line(alloc) {
            Ok(line) => close(out, refusal, line.as_bytes()),
            Err(_) => short(),
        },
    }
}

// Writes a text, and tells the status: its own, or 8.
fn show<K: Sink>(out: &mut K, text: &[u8], status: u8) -> u8
    ensures { Showed status result text.now (K.taken out.old) (K.taken out.new) (K.faults out.old) (K.faults out.new) }
{
    match write_all(out, text) {
        Ok(()) => status,
        Err(_) => 8,
    }
}

// What is done with a source that was read.
fn answer_source<K: Sink>(alloc: Global, mode: Mode, src: &[u8], out: &mut K) -> Top
    requires small { length src.now ≤ MAX_SOURCE_BYTES }
    ensures { SourceAnswered mode src.now result.status result.kept (K.taken out.old) (K.taken out.new) (K.faults out.old) (K.faults out.new) }
{
    match make(alloc, mode, src) {
        Err(_) => short(),
        Ok(Err(refusal)) => refuse(alloc, out, Refusal::Source(refusal)),
        Ok(Ok(made)) => {
            let status = show(out, made.text.as_slice(), made.status);
            Top {
                status,
                kept: made.kept,
            }
        }
    }
}

// The whole call, as a refusal, a text that was shown, or want of memory.
fn answer<F: Files, K: Sink>(alloc: Global, words: &[String], files: &mut F, out: &mut K) -> Top
    ensures told { F.told files.new ≡ F.told files.old }
    ensures answered { Answered (map string_bytes words.now) (F.told files.old) (F.faults files.old) (F.faults files.new) result.status result.kept (K.taken out.old) (K.taken out.new) (K.faults out.old) (K.faults out.new) }
{
    let Some((mode, name)) = source_named(words) else {
        return close(out, Refusal::Usage, b"mpc: usage\n");
    };
    match read_source(alloc, words, mode, name, files) {
        Ok(src) => answer_source(alloc, mode, src.as_slice(), out),
        Err(refusal) => refuse(alloc, out, refusal),
    }
}

/// Does what the program does for the words behind its name: `check` or `serial`, and a file name that
/// does not begin with a dash. It reads the source and checks it. For `check` it writes what was
/// accepted; for `serial` it runs the program as one task, and writes the report.
///
/// The status is 0 where that was done, and for `serial` 1 where the exit code of main is not 0, and 2
/// where a fault ended the run; 5 where there is no such file, the source is refused, or its program
/// uses an MPI function or shares a variable; 6 for other words; 7 where the read failed; 8 where the
/// sink failed in the text; and 10, with nothing written, where memory was wanted and not found. With 5,
/// 6 and 7 a line stands in place of the text. The run's record is kept with 0, 1, 2 and 8.
pub fn mpc_serial<F: Files, K: Sink>(
    alloc: Global,
    words: &[String],
    files: &mut F,
    out: &mut K,
) -> Top
    ensures done { result.status ≤ 2 → IsDone (map string_bytes words.now) (F.told files.old) result.status result.kept (K.taken out.old) (K.taken out.new) }
    ensures run { IfSome result.kept (λ run. result.status ≢ 8 → IsStatusOf run result.status) }
    ensures write_fault { result.status ≡ 8 → IsCutShort (map string_bytes words.now) (F.told files.old) result.kept (K.taken out.old) (K.taken out.new) }
    ensures sink_failed { result.status ≡ 8 → Rose (K.faults out.old) (K.faults out.new) }
    ensures usage { (result.status ≡ 6) ↔ NamesNone (map string_bytes words.now) }
    ensures usage_line { result.status ≡ 6 → WroteLine usage_line (K.taken out.old) (K.taken out.new) (K.faults out.old) (K.faults out.new) }
    ensures read_fault { result.status ≡ 7 → Rose (F.faults files.old) (F.faults files.new) }
    ensures read_fault_line { result.status ≡ 7 → WroteLine read_fault_line (K.taken out.old) (K.taken out.new) (K.faults out.old) (K.faults out.new) }
    ensures refused { result.status ≡ 5 → IsRefused (map string_bytes words.now) (F.told files.old) (K.taken out.old) (K.taken out.new) (K.faults out.old) (K.faults out.new) }
    ensures refused_calmly { result.status ≡ 5 → Rose (F.faults files.old) (F.faults files.new) → ⊥ }
    ensures refuses { (mode : Mode) (refusal : SourceRefusal) → ToldSource (map string_bytes words.now) mode (F.told files.old) (Refuses mode refusal) → (Rose (F.faults files.old) (F.faults files.new) → ⊥) → result.status ≢ 10
        → (result.status ≡ 5) × WroteLine (refusal_line refusal) (K.taken out.old) (K.taken out.new) (K.faults out.old) (K.faults out.new) }
    ensures complete { (mode : Mode) → ToldSource (map string_bytes words.now) mode (F.told files.old) (IsGood mode) → (Rose (F.faults files.old) (F.faults files.new) → ⊥)
        → (Rose (K.faults out.old) (K.faults out.new) → ⊥) → result.status ≢ 10 → result.status ≡ made_status result.kept }
    ensures memory { result.status ≡ 10 → K.taken out.new ≡ K.taken out.old }
    ensures kept { IsSome result.kept ↔ (RunsSource (map string_bytes words.now) × IsMade result.status) }
    ensures statuses { is_status result.status ≡ true }
    ensures files { F.told files.new ≡ F.told files.old }
{
    lexing_laws();
    parsing_laws();
    typing_laws();
    answer(alloc, words, files, out)
}
