//! Rows and marks that are changed where the conditions of the calls allow it.
ghost use Rattle.std.specs.Prelude.{◌≡◌, ℕ, ◌<◌, ◌≤◌, true, is_some};
ghost use Rattle.block_table.specs.Rows.{live, mark_at};
ghost use Rattle.heap_runs.specs.Marks.{may};

use block_table::{Mark, Row, Table};
use mpc_values::{Memory, Obj, Owner};

/// What a message does to the marks of its places, when it is posted and when it ends.
#[derive(Clone, Copy, Debug, PartialEq, Eq)]
pub enum Act {
    Send,
    Receive,
    EndSend,
    EndReceive,
}

/// Adds a row and gives its key, where no row has its name.
pub fn add(table: &mut Table, row: Row) -> Result<Option<usize>, Memory> {
    match table.find(row.owner, row.obj) {
        Some(_) => Ok(None),
        None => Ok(Some(table.add_row(row)?)),
    }
}

/// Takes the row of an object out, where there is one and its places are free.
pub fn close(table: &mut Table, owner: Owner, obj: Obj) -> Option<Row> {
    let key = table.find(owner, obj)?;
    if table.clear(key) {
        Some(table.close_row(key))
    } else {
        None
    }
}

/// The row of an object, where it has one.
pub fn row_of(table: &Table, owner: Owner, obj: Obj) -> Option<Row> {
    let key = table.find(owner, obj)?;
    Some(table.row(key))
}

/// The mark of a place of an object, where it has a row.
pub fn mark_of(table: &Table, owner: Owner, obj: Obj, at: u32) -> Option<Mark> {
    let key = table.find(owner, obj)?;
    Some(table.mark(key, at))
}

/// Does this at some places of an object, where it has them and each allows it. Tells whether it did.
pub fn change(table: &mut Table, owner: Owner, obj: Obj, act: Act, at: u32, len: u32) -> bool {
    let Some(key) = table.find(owner, obj) else {
        return false;
    };
    let Some(end) = at.checked_add(len) else {
        return false;
    };
    if table.row(key).len < end || !may_all(table, key, at, end, act) {
        return false;
    }
    match act {
        Act::Send => table.mark_send(key, at, len),
        Act::Receive => table.mark_recv(key, at, len),
        Act::EndSend => table.unmark_send(key, at, len),
        Act::EndReceive => table.unmark_recv(key, at, len),
    }
    true
}

/// Whether this may be done at each place up to another one.
fn may_all(table: &Table, key: usize, at: u32, end: u32, act: Act) -> bool
    requires { is_some (live table.now key) ≡ true }
    ensures { result ≡ true → (p : ℕ) → at ≤ p → p < end → may act (mark_at table.now key p) ≡ true }
{
    for p in at..end {
        if !may(act, table.mark(key, p)) {
            return false;
        }
    }
    true
}

/// Whether this may be done at a place with this mark.
fn may(act: Act, mark: Mark) -> bool
    ensures { result ≡ may act mark }
{
    match (act, mark) {
        (Act::Send, Mark::Free) => true,
        (Act::Send, Mark::Sends(n)) => n < u32::MAX,
        (Act::Receive, Mark::Free) => true,
        (Act::EndSend, Mark::Sends(_)) => true,
        (Act::EndReceive, Mark::Receive) => true,
        _ => false,
    }
}
