//! What is kept of a communicator, and what a member sees of it.
ghost use Rattle.std.specs.Prelude.{◌≡◌, ◌≤◌, length};

use std::marker::Model;

/// The tasks of a communicator by rank, at most 256.
#[derive(Debug, Drop)]
pub struct Members {
    list: Vec<u32>,
}

impl Model for Members {
    ghost use Rattle.std.specs.Prelude.{List, ℕ, ◌≤◌, length};

    ghost Value = { List ℕ };

    ghost view = { λ members. members.list.items };

    ghost invariant = { λ members. length members.list.items ≤ 256 };
}

impl Members {
    /// Of at most 256 tasks.
    pub fn of(list: Vec<u32>) -> Members
        requires few { length list.items ≤ 256 }
        ensures { result ≡ list.items }
    {
        Members { list }
    }

    pub fn as_slice(&self) -> &[u32]
        ensures tasks { result.now ≡ self.now }
        ensures few { length self.now ≤ 256 }
    {
        self.list.as_slice()
    }
}

/// What is kept of a communicator (MPI 3.1, section 6.4): its tasks by rank, and whether it lives. A freed one keeps its
/// tasks, since a call that was made before may still ask for a rank.
#[derive(Debug, Drop)]
pub struct Seen {
    pub members: Members,
    pub lives: bool,
}

/// A communicator (MPI 3.1, section 6.4): its tasks by rank, whether it lives, and which meeting of
/// which communicator made it. Those of MPI_COMM_WORLD are 0: nothing made it.
#[derive(Debug, Drop)]
pub struct Communicator {
    pub members: Members,
    pub lives: bool,
    pub parent: u32,
    pub meeting: u32,
}

/// What a member sees of a communicator: its number, the member's rank, and how many members it has.
#[derive(Clone, Copy, Debug, PartialEq, Eq)]
pub struct View {
    pub comm: u32,
    pub rank: u32,
    pub size: u32,
}
