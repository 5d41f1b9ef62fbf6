//! Tests of the marks of some places.
ghost use Rattle.std.specs.Prelude.{◌≡◌, ◌+◌, ◌≤◌, not, true, is_some};
ghost use Rattle.std.specs.List.{list_any, range_with_len};
ghost use Rattle.block_table.specs.Rows.{live, IsLive, mark_at, is_free, is_receive};

use block_table::{Mark, Table};

/// Whether a receive has one of some places of a live key's row.
pub fn some_received(table: &Table, key: usize, at: u32, len: u32) -> bool
    requires live { is_some (live table.now key) ≡ true }
    requires within { IsLive table.now key (λ row. at + len ≤ row.len) }
    ensures { result ≡ list_any (λ p. is_receive (mark_at table.now key p)) (range_with_len at len) }
{
    let places = table.row(key).len;
    prove!(len <= places - at);
    (at..at + len).any(|place| is_receive(table.mark(key, place)))
}

/// Whether a message has one of some places of a live key's row.
pub fn some_marked(table: &Table, key: usize, at: u32, len: u32) -> bool
    requires live { is_some (live table.now key) ≡ true }
    requires within { IsLive table.now key (λ row. at + len ≤ row.len) }
    ensures { result ≡ list_any (λ p. not (is_free (mark_at table.now key p))) (range_with_len at len) }
{
    let places = table.row(key).len;
    prove!(len <= places - at);
    (at..at + len).any(|place| !is_free(table.mark(key, place)))
}

fn is_receive(mark: Mark) -> bool
    ensures { result ≡ is_receive mark }
{
    matches!(mark, Mark::Receive)
}

fn is_free(mark: Mark) -> bool
    ensures { result ≡ is_free mark }
{
    matches!(mark, Mark::Free)
}
