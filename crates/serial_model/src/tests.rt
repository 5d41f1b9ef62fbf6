//! The laws, each called once.

use crate::{legal_runs_go_on, runs_are_bounded, runs_go_on_by_one_step};
use std::test::*;

#[test]
fn laws_are_called(_rt: HostRuntime) {
    runs_go_on_by_one_step();
    legal_runs_go_on();
    runs_are_bounded();
}
