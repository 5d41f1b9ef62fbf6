//! A table of sources, played call by call.
ghost use Rattle.std.specs.Prelude.{◌≡◌, true, false, IfSome, IfOk};
ghost use Rattle.std.specs.Bool.{OnTrue};
ghost use Rattle.task_vm.specs.Tasks.{IsAsking};
ghost use Rattle.c_tree.specs.ProgramOf.{program_of};
ghost use Rattle.c_compile.specs.Correct.{HasMain};

use crate::answering::answer_of;
use crate::fitting::{ends, fits};
use crate::showing::shown;
use c_compile::compile;
use c_lex::lex;
use c_parse::parse;
use c_tree::program::Program;
use c_types::check;
use mpc_values::{Answer, Call};
use std::alloc::Global;
use std::process::Abort;
use std::sync::Arc;
use std::test::Fail;
use task_vm::{Task, Want};

/// A source, and what its task asks: for each call its line, its name and its fields, and behind ` > ` what it
/// is answered. The last call has no answer.
pub type Row = (&'static str, &'static [&'static str]);

// The typed program of a source.
fn typed(rt: &impl Abort, alloc: Global, source: &str) -> Result<Program, Fail> {
    let bytes = source.as_bytes();
    assert!(rt; bytes.len() <= 1_048_576);
    let Ok(tokens) = lex(alloc, bytes)? else {
        panic!(rt; "no tokens: {source}");
    };
    let Ok(tree) = parse(alloc, bytes, tokens.as_slice())? else {
        panic!(rt; "no tree: {source}");
    };
    match check(alloc, &tree)? {
        Ok(program) => Ok(program),
        Err(refusal) => {
            let rule = refusal.rule;
            panic!(rt; "rule {rule}: {source}")
        }
    }
}

fn has_main(program: &Program) -> bool
    ensures { OnTrue result (HasMain (program_of program.now)) }
{
    (program.main as usize) < program.functions.len()
}

// A task at the beginning of a source's program.
fn begun(rt: &impl Abort, alloc: Global, source: &str) -> Result<Task, Fail>
    ensures { IfOk result (λ task. task.over ≡ false) }
{
    let program = typed(rt, alloc, source)?;
    assert!(rt; has_main(&program));
    let code = compile(alloc, &program)?;
    Ok(Task::new(alloc, Arc::new(alloc, code)?)?)
}

// The call that a task comes to, and its line.
fn next_call(task: &mut Task) -> Option<(Call, u32)>
    requires { task.old.over ≡ false }
    ensures asks { IfSome result (λ p. IsAsking task.new p.0 p.1) }
    ensures asked { IfSome result (λ _. task.new.asked ≡ true) }
    ensures goes { task.new.over ≡ false }
{
    match task.advance() {
        Ok(want) => match want {
            Want::Ask { call, line } => Some((call, line)),
        },
        Err(_) => None,
    }
}

// Gives an answer, where it fits a call that does not end the task.
fn answered(task: &mut Task, call: &Call, line: u32, answer: Answer) -> bool
    requires asks { IsAsking task.old call.now line }
    requires asked { task.old.asked ≡ true }
    requires goes { task.old.over ≡ false }
    ensures goes { task.new.over ≡ false }
{
    if ends(call) || !fits(call, &answer) {
        return false;
    }
    task.give(answer);
    true
}

// Advances to the next call, which is to be this one, and gives the answer, where there is one.
fn step(
    rt: &impl Abort,
    alloc: Global,
    task: &mut Task,
    source: &str,
    wanted: &str,
) -> Result<(), Fail>
    requires { task.old.over ≡ false }
    ensures { task.new.over ≡ false }
{
    let Some((call, line)) = next_call(task) else {
        panic!(rt; "short of memory");
    };
    let found = shown(alloc, line, &call)?;
    let Some((asked, answer)) = wanted.split_once(" > ") else {
        assert_eq!(rt; found.as_str(), wanted, "{source}");
        return Ok(());
    };
    assert_eq!(rt; found.as_str(), asked, "{source}");
    let Some(answer) = answer_of(answer) else {
        panic!(rt; "no answer: {wanted}");
    };
    if !answered(task, &call, line, answer) {
        panic!(rt; "an answer of another kind: {wanted}");
    }
    Ok(())
}

fn play_one(rt: &impl Abort, alloc: Global, source: &str, steps: &[&str]) -> Result<(), Fail> {
    let mut task = begun(rt, alloc, source)?;
    for wanted in steps {
        step(rt, alloc, &mut task, source, wanted)?;
    }
    Ok(())
}

/// Plays each row of a table, with these lines before its source, and panics at the first call that is not as it
/// is written.
pub fn play_in(rt: &impl Abort, alloc: Global, before: &str, rows: &[Row]) -> Result<(), Fail> {
    for (behind, steps) in rows {
        let source = format!(in alloc; "{before}{behind}")?;
        play_one(rt, alloc, source.as_str(), steps)?;
    }
    Ok(())
}

/// Plays each row of a table as a source of its own.
pub fn play(rt: &impl Abort, alloc: Global, rows: &[Row]) -> Result<(), Fail> {
    play_in(rt, alloc, "", rows)
}
