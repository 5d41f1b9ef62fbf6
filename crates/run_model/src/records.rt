//! What a run is set up from, and what is handed back of it.

use c_tree::program::Program;
use mpc_base::{End, Journal, MapRows, RankEnds};
use mpc_values::{Cores, Words};
use topology::Machine;

/// What a run is set up from. The number of tasks is the number of `cores`, which has the core of each task by rising
/// task number.
#[derive(Debug, Drop)]
pub struct Setup {
    pub program: Program,
    pub machine: Machine,
    pub cores: Cores,
    /// The most words of a message that a standard send may keep for itself, 0 to 65,536.
    pub eager: u32,
    /// The most words of a task's live locals and blocks, 0 to 1,048,576.
    pub quota: u32,
    /// The most entries of a task in the journal, 1 to 16,000,000.
    pub calls: u32,
}

/// What is handed back of a run: its setup, its journal, how it ended, and the end of each rank. Where all ranks
/// finished, `map` says where each live object is among the `words`.
#[derive(Debug, Drop)]
pub struct RunRecord {
    pub setup: Setup,
    pub journal: Journal,
    pub end: End,
    pub ranks: RankEnds,
    pub map: Option<MapRows>,
    pub words: Option<Words>,
}
