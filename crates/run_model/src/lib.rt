//! What a run is: the world of separate processes that share only their declared variables, one step of one task, whole
//! runs, and how they end. The definitions are in specs/, and laws.rt states laws of them.
#![tactic(auto)]

mod laws;
mod offers;
mod progress;
mod records;

pub use laws::{
    answers_are_those_of_own_entries, beginnings_of_legal_runs_are_legal,
    ended_runs_and_blocked_tasks_stay, legal_runs_go_on, messages_arrive_once_and_in_order,
    messages_arrive_whole, numbers_are_bounded_by_entries, numbers_are_never_given_again,
    processes_are_separate, runs_are_bounded, runs_go_on_by_one_step, steps_are_of_their_tasks,
    tasks_never_misfit, telling_runs,
};
pub use offers::{Asked, Offer};
pub use progress::{Ask, Course, Last, Phase};
pub use records::{RunRecord, Setup};

#[cfg(test)]
mod tests;
