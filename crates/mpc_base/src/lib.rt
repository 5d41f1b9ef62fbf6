//! What the runtime shares: the journal and how a run ends, the traits through which a run meets the
//! outside, and jobs on threads. It hands on the names of the values below it.
#![tactic(auto)]

mod asks;
mod byte_sink;
mod fail_list;
mod file_store;
mod histories;
mod jobs;
mod journals;
mod late_spawner;
mod listed_spawner;
mod mem_files;
mod mem_sink;
mod paces;
mod picks;
mod spawners;
mod thread_spawner;

pub use asks::{Asked, Begun, Choice, Chosen, Event, NoThread, Noted, Runs};
pub use byte_sink::Sink;
pub use file_store::{Files, ReadAnswer, WriteAnswer};
pub use histories::Traced;
pub use jobs::{Job, Started};
pub use journals::{
    End, Entries, Entry, Journal, MapRow, MapRows, Out, RankEnd, RankEnds, RankState,
};
pub use late_spawner::LateSpawner;
pub use listed_spawner::ListedSpawner;
pub use mem_files::MemFiles;
pub use mem_sink::MemSink;
pub use mpc_values::{
    Answer, Call, Coll, CollKind, Cores, Datatype, Failed, Fault, Level, Memory, Obj, Op, Owner,
    StaticVar, Status, Text, Way, Word, Words, limits,
};
pub use paces::{FreePace, Pace};
pub use picks::Picks;
pub use spawners::Spawner;
pub use thread_spawner::ThreadSpawner;

#[cfg(test)]
mod outside_tests;
#[cfg(test)]
mod tests;
