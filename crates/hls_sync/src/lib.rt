//! Meetings at the constructs of shared variables: the `single` and `barrier` directives. The definitions
//! are in specs/Meetings.antt and specs/Ways.antt, and laws.rt states laws of them. `HlsSync` answers by them:
//! specs/Shown.antt says which arrivals and exits its tables stand for.
#![tactic(auto)]

mod instances;
mod laws;
mod seats;
mod syncs;
mod visits;

pub use laws::{blocks_run_once_in_each_instance, rows_make_a_site, tasks_wait_for_their_instance};
pub use syncs::HlsSync;
pub use visits::{HlsRow, Visit};

#[cfg(test)]
mod tests;
