//! The code of statements.
ghost use Rattle.std.specs.Prelude.{◌≡◌, ◌+◌, ◌≤◌, ◌<◌, ℕ, List, false, MatchOption, ◌∷◌, [], ◌++◌, length, reverse, drop, ◌-◌, Option, OnOk};
ghost use Rattle.c_tree.specs.ProgramOf.{maybe_of, stmt_of, stmts_of};
ghost use Rattle.c_compile.specs.Compiled.{test_code, step_code, return_code, drops, loop_code, do_code, Place, body_of, item_code, stmt_code, items_code};
ghost use Rattle.c_code.specs.declared.instr.Instr.TheVariants as i;
ghost use Rattle.c_code.specs.declared.instr.Instr.{Instr};
ghost use Rattle.c_tree.specs.Programs as p;
ghost use Rattle.c_compile.specs.Standing.{Standing, Fits, place_of, with_opened, declared, is_local, closing, tail_of, opened_place};

use crate::emitter::Emitter;
use crate::expression_code::put_expression;
use crate::surroundings::Surroundings;
use c_code::Instr;
use c_tree::program::{Ending, Expr, Stmt};
use mpc_values::{Memory, Word};

// A condition, which always holds where there is none.
fn put_test(out: &mut Emitter, line: u32, test: &Option<Expr>) -> Result<(), Memory>
    ensures { OnOk result (out.new ≡ test_code line (maybe_of test.now) ++ out.old) }
{
    match test {
        None => out.put(Instr::Push(Word::Int(1))),
        Some(test) => put_expression(out, line, test),
    }
}

// The step of a `for`, where there is one.
fn put_step(out: &mut Emitter, line: u32, step: &Option<Expr>) -> Result<(), Memory>
    ensures { OnOk result (out.new ≡ step_code line (maybe_of step.now) ++ out.old) }
{
    match step {
        None => Ok(()),
        Some(step) => {
            out.put(Instr::Pop)?;
            put_expression(out, line, step)
        }
    }
}

// The value of a return, which is 0 where there is none.
fn put_returned(out: &mut Emitter, line: u32, value: &Option<Expr>) -> Result<(), Memory>
    ensures { OnOk result (out.new ≡ return_code line (maybe_of value.now) ++ out.old) }
{
    match value {
        None => out.put(Instr::Push(Word::Int(0))),
        Some(value) => put_expression(out, line, value),
    }
}

// Drops locals in memory, the last one first.
fn put_drops(out: &mut Emitter, line: u32, slots: &[u32]) -> Result<(), Memory>
    ensures { OnOk result (out.new ≡ drops line (reverse slots.now) ++ out.old) }
{
    for slot in slots {
        out.put(Instr::Release { slot: *slot, line })?;
    }
    Ok(())
}

// Control leaves the function with a value that is on the stack.
fn put_return(out: &mut Emitter, around: &Surroundings, line: u32) -> Result<(), Memory>
    ensures { OnOk result (out.new ≡ drops line (reverse around.now.opened) ++ i.Return line ∷ out.old) }
{
    out.put(Instr::Return { line })?;
    put_drops(out, line, around.in_function())
}

// Control leaves what stands in the loop round it, to where so many instructions were made.
fn put_jump(out: &mut Emitter, around: &Surroundings, line: u32, to: usize) -> Result<(), Memory>
    requires within { around.now.outside ≤ length around.now.opened }
    requires behind { to ≤ length out.old }
    ensures { OnOk result (out.new ≡ drops line (reverse (drop around.now.outside around.now.opened)) ++ i.Skip (length out.old - to) ∷ out.old) }
{
    let passed = out.since(to)?;
    out.put(Instr::Skip(passed))?;
    put_drops(out, line, around.in_loop())
}

// The declaration of a local in memory.
#[derive(Clone, Copy)]
struct Local {
    line: u32,
    slot: u32,
    words: u32,
}

// The local in memory that an item of a block declares.
fn declared_local(item: &Stmt) -> Option<Local>
    ensures { MatchOption result (is_local (stmt_of item.now) ≡ false) (λ l. stmt_of item.now ≡ p.New l.line l.slot l.words) }
{
    match item {
        Stmt::New(line, slot, words) => Some(Local {
            line: *line,
            slot: *slot,
            words: *words,
        }),
        Stmt::Eval(_, _)
        | Stmt::Unset(_)
        | Stmt::Block(_, _)
        | Stmt::If(_, _, _, _)
        | Stmt::While(_, _, _)
        | Stmt::DoWhile(_, _, _)
        | Stmt::For(_, _, _, _)
        | Stmt::Return(_, _)
        | Stmt::Break(_)
        | Stmt::Continue(_)
        | Stmt::Single(_, _, _, _)
        | Stmt::Barrier(_, _) => None,
    }
}

// The drop of what an item declares, which is opened.
fn put_drop_of(
    out: &mut Emitter,
    around: &mut Surroundings,
    item: &Stmt,
    end: u32,
) -> Result<(), Memory>
    ensures code { OnOk result (out.new ≡ closing end (declared (p.Then (stmt_of item.now) p.Done)) ++ out.old) }
    ensures opened { OnOk result (around.new ≡ with_opened around.old (declared (p.Then (stmt_of item.now) p.Done))) }
{
    match declared_local(item) {
        Some(local) => {
            let slot = local.slot;
            out.put(Instr::Release { slot, line: end })?;
            around.open(slot)?;
            Ok(())
        }
        None => Ok(()),
    }
}

// The drops at the end of a block, whose locals in memory are opened.
fn put_closing(
    out: &mut Emitter,
    around: &mut Surroundings,
    items: &[Stmt],
    end: u32,
) -> Result<(), Memory>
    ensures code { OnOk result (out.new ≡ closing end (declared (stmts_of items.now)) ++ out.old) }
    ensures opened { OnOk result (around.new ≡ with_opened around.old (declared (stmts_of items.now))) }
{
    for item in items {
        put_drop_of(out, around, item, end)?;
    }
    Ok(())
}

// What stands at the end of a block, before its drops: of a function's block its end, and else nothing.
fn put_ending(
    out: &mut Emitter,
    around: &Surroundings,
    ending: Option<Ending>,
    end: u32,
) -> Result<(), Memory>
    ensures { OnOk result (out.new ≡ tail_of ending end (place_of around.now (length out.old)) ++ out.old) }
{
    match ending {
        None | Some(Ending::Void) => Ok(()),
        Some(Ending::Zero) => {
            put_return(out, around, end)?;
            out.put(Instr::Push(Word::Int(0)))
        }
        Some(Ending::Missing) => out.put(Instr::Missing { line: end }),
    }
}

// The jump back at the end of a loop whose condition comes first, and the jump over its body, in the
// place of the one that was put behind so many instructions. The condition begins behind `turn` of them.
fn close_loop(out: &mut Emitter, line: u32, end: usize, turn: usize) -> Result<(), Memory>
    requires end { end < length out.old }
    requires turn { turn ≤ length out.old }
    ensures with_step { (test step body rest : List Instr) → out.old ≡ body ++ (step ++ (test ++ i.Again 0 line ∷ rest)) → length rest ≡ end → turn ≡ length (test ++ i.Again 0 line ∷ rest)
        → OnOk result (out.new ≡ loop_code line test step body ++ rest) }
    ensures without_step { (test body rest : List Instr) → out.old ≡ body ++ (test ++ i.Again 0 line ∷ rest) → length rest ≡ end → turn ≡ length (test ++ i.Again 0 line ∷ rest)
        → OnOk result (out.new ≡ loop_code line test [] body ++ rest) }
{
    let back = out.since(end)? - 1;
    let passed = out.since(turn)?;
    out.mend(end, Instr::Again { back, line });
    out.put(Instr::Skip(passed))?;
    Ok(())
}

// The same of a loop whose condition comes behind its body.
fn close_do(out: &mut Emitter, line: u32, end: usize) -> Result<(), Memory>
    requires end { end < length out.old }
    ensures { (test body rest : List Instr) → out.old ≡ body ++ (test ++ i.Again 0 line ∷ rest) → length rest ≡ end → OnOk result (out.new ≡ do_code line test body ++ rest) }
{
    let back = out.since(end)? - 1;
    out.mend(end, Instr::Again { back, line });
    out.put(Instr::Tick { line })?;
    Ok(())
}

// A loop's body, where the loop ends behind so many instructions, and its next turn begins here.
#[cycle(statement)]
fn put_body(
    out: &mut Emitter,
    around: &mut Surroundings,
    body: &Stmt,
    end: usize,
) -> Result<(), Memory>
    requires end { end ≤ length out.old }
    ensures code { OnOk result (out.new ≡ stmt_code (stmt_of body.now) (body_of (length out.old - end) 0 (place_of around.old (length out.old))) ++ out.old) }
    ensures around { OnOk result (around.new ≡ around.old) }
{
    let outer = around.enter(end, out.made());
    put_statement(out, around, body)?;
    around.leave(outer);
    Ok(())
}

// An item of a block, whose local in memory, if it declares one, is the last that is opened.
#[cycle(statement)]
fn put_item(out: &mut Emitter, around: &mut Surroundings, item: &Stmt) -> Result<(), Memory>
    requires fits { Fits around.old (length out.old) }
    ensures { (s : Standing) (end : ℕ) (rest : Place → List Instr) (behind : List Instr) → Fits s (length behind) → around.old ≡ with_opened s (declared (p.Then (stmt_of item.now) p.Done))
        → out.old ≡ rest (opened_place (declared (p.Then (stmt_of item.now) p.Done)) (place_of s (length behind))) ++ (closing end (declared (p.Then (stmt_of item.now) p.Done)) ++ behind)
        → OnOk result ((out.new ≡ item_code (place_of s (length behind)) end (stmt_of item.now) (stmt_code (stmt_of item.now)) rest ++ behind) × (around.new ≡ s)) }
{
    match declared_local(item) {
        Some(Local { line, slot, words }) => {
            around.close();
            out.put(Instr::New { slot, words, line })?;
            Ok(())
        }
        None => {
            put_statement(out, around, item)?;
            Ok(())
        }
    }
}

// What a block's items do, one after another, with what stands at the block's end.
#[cycle(statement)]
pub fn put_items(
    out: &mut Emitter,
    around: &mut Surroundings,
    items: &[Stmt],
    end: u32,
    ending: Option<Ending>,
) -> Result<(), Memory>
    requires fits { Fits around.old (length out.old) }
    ensures code { OnOk result (out.new ≡ items_code end (tail_of ending end) (stmts_of items.now) (place_of around.old (length out.old)) ++ out.old) }
    ensures around { OnOk result (around.new ≡ around.old) }
{
    put_closing(out, around, items, end)?;
    put_ending(out, around, ending, end)?;
    let mut left = items.len();
    while left > 0 {
        left -= 1;
        put_item(out, around, &items[left])?;
    }
    Ok(())
}

/// The code of a statement that stands in these surroundings (C99, section 6.8).
#[cycle(statement)]
pub fn put_statement(out: &mut Emitter, around: &mut Surroundings, s: &Stmt) -> Result<(), Memory>
    requires fits { Fits around.old (length out.old) }
    ensures code { OnOk result (out.new ≡ stmt_code (stmt_of s.now) (place_of around.old (length out.old)) ++ out.old) }
    ensures around { OnOk result (around.new ≡ around.old) }
{
    match s {
        Stmt::Eval(line, value) => {
            out.put(Instr::Pop)?;
            put_expression(out, *line, value)?;
            Ok(())
        }
        Stmt::Unset(slot) => {
            out.put(Instr::Unset { slot: *slot })?;
            Ok(())
        }
        Stmt::New(line, slot, words) => {
            let (line, slot, words) = (*line, *slot, *words);
            out.put(Instr::New { slot, words, line })?;
            Ok(())
        }
        Stmt::Block(items, end) => {
            let items = items.as_slice();
            put_items(out, around, items, *end, None)?;
            Ok(())
        }
        Stmt::If(line, test, body, other) => {
            let end = out.made();
            put_statement(out, around, other)?;
            let passed = out.since(end)?;
            let behind = out.made();
            out.put(Instr::Skip(passed))?;
            put_statement(out, around, body)?;
            let passed = out.since(behind)?;
            out.put(Instr::Unless(passed))?;
            put_expression(out, *line, test)?;
            Ok(())
        }
        Stmt::While(line, test, body) => {
            let line = *line;
            let end = out.made();
            out.put(Instr::Again { back: 0, line })?;
            put_expression(out, line, test)?;
            let turn = out.made();
            put_body(out, around, body, end)?;
            close_loop(out, line, end, turn)?;
            Ok(())
        }
        Stmt::DoWhile(line, body, test) => {
            let line = *line;
            let end = out.made();
            out.put(Instr::Again { back: 0, line })?;
            put_expression(out, line, test)?;
            put_body(out, around, body, end)?;
            close_do(out, line, end)?;
            Ok(())
        }
        Stmt::For(line, test, step, body) => {
            let line = *line;
            let end = out.made();
            out.put(Instr::Again { back: 0, line })?;
            put_test(out, line, test)?;
            let turn = out.made();
            put_step(out, line, step)?;
            put_body(out, around, body, end)?;
            close_loop(out, line, end, turn)?;
            Ok(())
        }
        Stmt::Return(line, value) => {
            put_return(out, around, *line)?;
            put_returned(out, *line, value)?;
            Ok(())
        }
        Stmt::Break(line) => {
            put_jump(out, around, *line, around.exit())?;
            Ok(())
        }
        Stmt::Continue(line) => {
            put_jump(out, around, *line, around.again())?;
            Ok(())
        }
        Stmt::Single(line, construct, _, body) => {
            let (line, construct) = (*line, *construct);
            let end = out.made();
            out.put(Instr::HlsExit { construct, line })?;
            put_statement(out, around, body)?;
            let passed = out.since(end)?;
            out.put(Instr::Skip(passed))?;
            out.put(Instr::HlsWait { construct, line })?;
            out.put(Instr::Skip(2))?;
            out.put(Instr::HlsEnter { construct, line })?;
            Ok(())
        }
        Stmt::Barrier(line, construct) => {
            let (line, construct) = (*line, *construct);
            out.put(Instr::HlsBarWait { construct, line })?;
            out.put(Instr::HlsBar { construct, line })?;
            Ok(())
        }
    }
}
