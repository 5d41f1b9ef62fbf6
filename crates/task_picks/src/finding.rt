//! Which tasks of a node can go.
ghost use Rattle.std.specs.Prelude.{◌≡◌, ◌-◌, None, IfSome, length, filter, find, slice_get};
ghost use Rattle.std.specs.List.{range_with_len};
ghost use Rattle.run_model.specs.Setup.{setup_of, tasks_of};
ghost use Rattle.run_model.specs.Choice.{from_task};
ghost use Rattle.task_picks.specs.Picked.{goes, CanGo};

use node_core::Node;

/// The first task of a range that can go.
fn first_in(node: &Node, from: u32, to: u32) -> Option<u32>
    requires running { node.now.stop ≡ None }
    ensures first { result ≡ find (goes node.now) (range_with_len from (to - from)) }
    ensures can { IfSome result (CanGo node.now) }
{
    for task in from..to {
        if node.can_go(task) {
            return Some(task);
        }
    }
    None
}

/// The next task that can go, in rising number from one on and cyclically.
pub(crate) fn in_turn(node: &Node, next: u32) -> Option<u32>
    requires running { node.now.stop ≡ None }
    ensures first { result ≡ find (goes node.now) (from_task (setup_of node.now.setup) next) }
    ensures can { IfSome result (CanGo node.now) }
{
    match first_in(node, next, node.tasks()) {
        Some(task) => Some(task),
        None => first_in(node, 0, next),
    }
}

/// How many tasks can go.
pub(crate) fn count(node: &Node) -> u32
    requires running { node.now.stop ≡ None }
    ensures { result ≡ length (filter (goes node.now) (range_with_len 0 (tasks_of (setup_of node.now.setup)))) }
{
    let tasks = node.tasks();
    let mut found = 0;
    for task in 0..tasks {
        if node.can_go(task) {
            found += 1;
        }
    }
    found
}

/// The task of a place, counted from 0, among those that can go.
pub(crate) fn nth(node: &Node, place: u32) -> Option<u32>
    requires running { node.now.stop ≡ None }
    ensures place { result ≡ slice_get (filter (goes node.now) (range_with_len 0 (tasks_of (setup_of node.now.setup)))) place }
    ensures can { IfSome result (CanGo node.now) }
{
    let tasks = node.tasks();
    let mut left = place;
    for task in 0..tasks {
        if node.can_go(task) {
            if left == 0 {
                return Some(task);
            }
            left -= 1;
        }
    }
    None
}
