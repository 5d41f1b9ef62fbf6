//! What is handed back of a run.
ghost use Rattle.std.specs.Prelude.{◌≡◌, ◌≢◌, ◌<◌, ◌^◌, ℕ, length, map, None, IfOk};
ghost use Rattle.mpc_base.specs.declared.journals.End.TheVariants as ended;
ghost use Rattle.memory_model.specs.Memory.{Memory as Memories};
ghost use Rattle.object_heap.specs.Objects.{Shows};
ghost use Rattle.run_model.specs.Records.{MapsAgree};
ghost use Rattle.run_model.specs.Ranks.{rank_state, unfinished_state, blocked_at};
ghost use Rattle.node_core.specs.HandedBack.{end_of, ends_from, map_row_of};

use crate::parts::TaskPart;
use block_table::Row;
use mem_space::Space;
use mpc_base::{End, MapRow, MapRows, Memory, RankEnd, RankState, Text, Words};
use run_model::{Ask, Course};
use std::alloc::Global;

/// A rank that is blocked at its noted call.
fn blocked_at(noted: &Option<Ask>) -> RankState
    ensures { result ≡ blocked_at noted.now }
{
    match noted {
        None => RankState::Stopped,
        Some(ask) => RankState::Blocked {
            call: ask.call.number(),
            line: ask.line,
        },
    }
}

/// A rank that has not finished, by the end of the run.
fn unfinished_state(task: u32, noted: &Option<Ask>, end: End) -> RankState
    ensures { result ≡ unfinished_state task noted.now end }
{
    match end {
        End::Fault {
            task: who,
            fault,
            line,
        } if who == task => RankState::Fault { fault, line },
        End::Abort {
            task: who,
            code,
            line,
        } if who == task => RankState::Aborted { code, line },
        End::Stuck => blocked_at(noted),
        _ => RankState::Stopped,
    }
}

/// A rank by its exit code and the end of the run.
fn rank_state(task: u32, course: &Course, end: End) -> RankState
    ensures { result ≡ rank_state task course.now course.now.exit end }
{
    match course.exit {
        Some(code) => RankState::Exit(code),
        None => unfinished_state(task, &course.noted, end),
    }
}

/// A rank with all its output.
fn rank_end(task: u32, part: TaskPart, end: End) -> RankEnd
    ensures { result ≡ end_of task end part }
{
    let state = rank_state(task, &part.course, end);
    RankEnd {
        state,
        output: Text::of(part.own.output),
    }
}

/// The end of each rank.
pub(crate) fn rank_ends(
    alloc: Global,
    tasks: Vec<TaskPart>,
    end: End,
) -> Result<Vec<RankEnd>, Memory>
    requires few { length tasks.items < 2 ^ 32 }
    ensures { IfOk result (λ ranks. ranks.items ≡ ends_from 0 end tasks.items) }
{
    let mut ranks = Vec::with_capacity(alloc, tasks.len())?;
    let mut task = 0;
    for part in tasks {
        ranks.push(rank_end(task, part, end))?;
        task += 1;
    }
    Ok(ranks)
}

fn map_row_of(row: &Row) -> MapRow
    ensures { result ≡ map_row_of row.now }
{
    MapRow {
        owner: row.owner,
        obj: row.obj,
        base: row.base,
        len: row.len,
    }
}

/// Where each live object lies.
pub(crate) fn map_rows(alloc: Global, rows: &[Row]) -> Result<Vec<MapRow>, Memory>
    ensures { IfOk result (λ all. all.items ≡ map map_row_of rows.now) }
{
    let all = rows.iter().map(map_row_of).collect(alloc)?;
    Ok(all)
}

/// Where the objects lie, and the words, where all ranks finished; else none.
#[derive(Drop)]
pub(crate) struct Mapped {
    pub map: Option<MapRows>,
    pub words: Option<Words>,
}

/// The map and the words of a space, where the run ended so that they are handed back.
pub(crate) fn map_of(alloc: Global, space: Space, end: End) -> Result<Mapped, Memory>
    ensures finished { IfOk result (λ both. end ≡ ended.Finished → (m : Memories) → Shows space.heap m → MapsAgree both.map both.words m) }
    ensures others { IfOk result (λ both. end ≢ ended.Finished → (both.map ≡ None) × (both.words ≡ None)) }
{
    match end {
        End::Finished => {
            let rows = space.rows()?;
            let map = map_rows(alloc, rows.as_slice())?;
            let words = space.words();
            Ok(Mapped {
                map: Some(MapRows::of(map)),
                words: Some(Words::of(words)),
            })
        }
        _ => Ok(Mapped {
            map: None,
            words: None,
        }),
    }
}
