use c_tree::program::Program;
use mpc_base::{End, Journal, RankEnds};

/// What a run is set up from.
#[derive(Debug, Drop)]
pub struct Setup {
    pub program: Program,
}

/// A run that has ended: its setup, its journal, how it ended, and the end of each rank.
#[derive(Debug, Drop)]
pub struct RunRecord {
    pub setup: Setup,
    pub journal: Journal,
    pub end: End,
    pub ranks: RankEnds,
}
