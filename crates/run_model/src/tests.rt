//! The laws, called once.

use crate::{
    answers_are_those_of_own_entries, beginnings_of_legal_runs_are_legal,
    ended_runs_and_blocked_tasks_stay, legal_runs_go_on, messages_arrive_once_and_in_order,
    messages_arrive_whole, numbers_are_bounded_by_entries, numbers_are_never_given_again,
    processes_are_separate, runs_are_bounded, runs_go_on_by_one_step, steps_are_of_their_tasks,
    tasks_never_misfit, telling_runs,
};
use std::test::*;

#[test]
fn laws_are_called(_rt: HostRuntime) -> Result<(), Fail> {
    runs_go_on_by_one_step();
    legal_runs_go_on();
    beginnings_of_legal_runs_are_legal();
    steps_are_of_their_tasks();
    answers_are_those_of_own_entries();
    runs_are_bounded();
    ended_runs_and_blocked_tasks_stay();
    tasks_never_misfit();
    processes_are_separate();
    messages_arrive_once_and_in_order();
    messages_arrive_whole();
    numbers_are_never_given_again();
    numbers_are_bounded_by_entries();
    telling_runs();
    Ok(())
}
