//! A row with the marks of its places.
ghost use Rattle.std.specs.Prelude.{◌≡◌, ℕ, ◌+◌, ◌≤◌, ◌↔◌, IsTrue, length, slice_index_or, true, vec_capacity};
ghost use Rattle.block_table.specs.declared.rows.Mark.TheVariants.{Free};
ghost use Rattle.block_table.specs.Rows.{is_free, is_send, may_send, with_send, without_send, with_receive, without_receive};
ghost use Rattle.block_table.specs.Lists.{Changed, AllAre};

use crate::rows::{Mark, Row};

/// A row, and the mark of each place, or nothing while all are free. There is room for all marks.
#[derive(Debug, Drop)]
pub struct Entry {
    pub row: Row,
    pub marks: Vec<Mark>,
}

impl Entry {
    ghost use Rattle.block_table.specs.Entries.{IsRoomy, Remarked, marks_of};

    /// Writes all marks down. It takes no memory, since there is room.
    fn write_out(&mut self)
        requires { IsRoomy self.old }
        ensures row { self.new.row ≡ self.old.row }
        ensures marks { marks_of self.new ≡ marks_of self.old }
        ensures all { length self.new.marks.items ≡ self.old.row.len }
        ensures items { self.new.marks.items ≡ marks_of self.old }
        ensures room { self.new.row.len ≤ vec_capacity self.new.marks }
    {
        let len = self.row.len as usize;
        if self.marks.is_empty() {
            match self.marks.resize(len, Mark::Free) {
                Ok(()) => {}
                Err(_) => unreachable!(),
            }
        }
    }

    /// Counts one send more at each place of a range.
    pub fn mark_send(&mut self, at: u32, len: u32)
        requires roomy { IsRoomy self.old }
        requires within { at + len ≤ self.old.row.len }
        requires may { AllAre (marks_of self.old) at len may_send }
        ensures { Remarked self.old self.new at len with_send }
    {
        self.write_out();
        raise_sends(self.marks.as_mut_slice(), at as usize, len as usize);
    }

    /// Counts one send less at each place of a range.
    pub fn unmark_send(&mut self, at: u32, len: u32)
        requires roomy { IsRoomy self.old }
        requires within { at + len ≤ self.old.row.len }
        ensures { Remarked self.old self.new at len without_send }
    {
        self.write_out();
        lower_sends(self.marks.as_mut_slice(), at as usize, len as usize);
    }

    /// Marks each place of a range as that of a receive.
    pub fn mark_recv(&mut self, at: u32, len: u32)
        requires roomy { IsRoomy self.old }
        requires within { at + len ≤ self.old.row.len }
        ensures { Remarked self.old self.new at len with_receive }
    {
        self.write_out();
        mark_all(
            self.marks.as_mut_slice(),
            at as usize,
            len as usize,
            Mark::Receive,
        );
    }

    /// Frees each place of a range.
    pub fn unmark_recv(&mut self, at: u32, len: u32)
        requires roomy { IsRoomy self.old }
        requires within { at + len ≤ self.old.row.len }
        ensures { Remarked self.old self.new at len without_receive }
    {
        self.write_out();
        mark_all(
            self.marks.as_mut_slice(),
            at as usize,
            len as usize,
            Mark::Free,
        );
    }

    /// The mark of a place.
    pub fn mark(&self, at: u32) -> Mark
        ensures { result ≡ slice_index_or (marks_of self.now) at Free }
    {
        match self.marks.get(at as usize) {
            Some(mark) => *mark,
            None => Mark::Free,
        }
    }

    /// Whether all places are free.
    pub fn is_clear(&self) -> bool
        ensures { IsTrue result ↔ ((p : ℕ) → is_free (slice_index_or (marks_of self.now) p Free) ≡ true) }
    {
        all_free(self.marks.as_slice())
    }
}

/// Whether all marks are free.
pub fn all_free(marks: &[Mark]) -> bool
    ensures { IsTrue result ↔ AllAre marks.now 0 (length marks.now) is_free }
{
    marks.iter().all(|mark| *mark == Mark::Free)
}

/// Counts one send more at each place of a range.
pub fn raise_sends(marks: &mut [Mark], at: usize, len: usize)
    requires within { at + len ≤ length marks.old }
    requires may { AllAre marks.old at len may_send }
    ensures { Changed marks.old marks.new at len with_send }
{
    for p in at..at + len {
        marks[p] = one_more(marks[p]);
    }
}

/// Counts one send less at each place of a range.
pub fn lower_sends(marks: &mut [Mark], at: usize, len: usize)
    requires within { at + len ≤ length marks.old }
    ensures { Changed marks.old marks.new at len without_send }
{
    for p in at..at + len {
        marks[p] = one_less(marks[p]);
    }
}

/// Marks each place of a range alike.
pub fn mark_all(marks: &mut [Mark], at: usize, len: usize, mark: Mark)
    requires within { at + len ≤ length marks.old }
    ensures { Changed marks.old marks.new at len (λ _. mark) }
{
    for p in at..at + len {
        marks[p] = mark;
    }
}

fn one_more(mark: Mark) -> Mark
    requires { may_send mark ≡ true }
    ensures { result ≡ with_send mark }
{
    match mark {
        Mark::Free => Mark::Sends(1),
        Mark::Sends(n) => Mark::Sends(n + 1),
        Mark::Receive => Mark::Receive,
    }
}

fn one_less(mark: Mark) -> Mark
    ensures { result ≡ without_send mark }
{
    match mark {
        Mark::Free => Mark::Free,
        Mark::Sends(n) => {
            if 1 < n {
                Mark::Sends(n - 1)
            } else {
                Mark::Free
            }
        }
        Mark::Receive => Mark::Receive,
    }
}
