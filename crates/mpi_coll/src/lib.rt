//! Collective calls (MPI 3.1, chapter 5): how members meet, and what each of them gets. The definitions
//! are in specs/, and laws.rt states laws of them.
#![tactic(auto)]

mod arrivals;
mod comparing;
mod concluding;
mod gatherings;
mod laws;
mod meetings;
mod reducing;
mod results;
mod rooms;
mod shares;
mod standing;
mod steps;

pub use arrivals::Arrival;
pub use laws::{
    arguments_are_looked_at_where_they_count, members_get_their_results, members_meet_in_turn,
};
pub use meetings::Meetings;
pub use standing::standing_tables_meet_the_conditions;
pub use steps::tables_follow_the_arrivals;

#[cfg(test)]
mod meeting_tests;
#[cfg(test)]
mod tests;
