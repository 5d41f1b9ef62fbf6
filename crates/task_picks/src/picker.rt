//! The picking of a serial run.
ghost use Rattle.std.specs.Prelude.{◌≡◌, None, IfOk, IfSome};
ghost use Rattle.run_model.specs.Choice.{first_picker};
ghost use Rattle.task_picks.specs.Picked.{picker_of, Picked, CanGo, Drawn, Listing};

use crate::finding::{count, in_turn, nth};
use mpc_base::{Memory, Picks};
use node_core::Node;
use rand_core::SeedableRng;
use rand_core::utils::NextWord;
use rand_pcg::Pcg32;
use std::alloc::Global;

/// How far the picking of a run has come.
#[derive(Drop)]
pub enum Picker {
    /// The next task that can go, in rising number from this one on and cyclically.
    InTurn {
        next: u32,
    },
    /// The task among those that can go which the next word of a generator names.
    ByWords {
        generator: Pcg32,
    },
    /// The listed tasks from a place of the list on, and then in turn.
    FromList {
        list: Vec<u32>,
        place: usize,
        next: u32,
    },
}

impl Picker {
    /// The picking before the first step.
    pub fn new(alloc: Global, picks: &Picks) -> Result<Picker, Memory>
        ensures { IfOk result (λ picker. picker_of picker ≡ first_picker picks.now) }
    {
        match picks {
            Picks::RoundRobin => Ok(Picker::InTurn { next: 0 }),
            Picks::Seeded(seed) => Ok(Picker::ByWords {
                generator: Pcg32::seed_from_u64(*seed),
            }),
            Picks::Listed(tasks) => Ok(Picker::FromList {
                list: Vec::from_slice(alloc, tasks.as_slice())?,
                place: 0,
                next: 0,
            }),
        }
    }

    /// The task that steps next, or none where no task can go. The node was not stopped.
    pub fn next(&mut self, node: &Node) -> Option<u32>
        requires running { node.now.stop ≡ None }
        ensures picked { Picked node.now (picker_of self.old) (picker_of self.new) result }
        ensures can { IfSome result (CanGo node.now) }
    {
        let tasks = node.tasks();
        match self {
            Picker::InTurn { next } => {
                let task = in_turn(node, *next)?;
                prove!(task < tasks);
                *next = task + 1;
                Some(task)
            }
            Picker::ByWords { generator } => by_word(node, generator),
            Picker::FromList { list, place, next } => {
                if let Some(task) = listed(node, list.as_slice(), place) {
                    prove!(task < tasks);
                    *next = task + 1;
                    return Some(task);
                }
                let task = in_turn(node, *next)?;
                prove!(task < tasks);
                *self = Picker::InTurn { next: task + 1 };
                Some(task)
            }
        }
    }
}

/// One of the tasks that can go, by the next word.
fn by_word(node: &Node, generator: &mut Pcg32) -> Option<u32>
    requires running { node.now.stop ≡ None }
    ensures drawn { Drawn node.now generator.old generator.new result }
    ensures can { IfSome result (CanGo node.now) }
{
    let going = count(node);
    if going == 0 {
        return None;
    }
    let word = generator.next_word();
    nth(node, word % going)
}

/// The first listed task from a place on that can go. The place is then the one after it.
fn listed(node: &Node, tasks: &[u32], place: &mut usize) -> Option<u32>
    requires running { node.now.stop ≡ None }
    ensures { Listing node.now tasks.now place.old place.new result }
{
    while *place < tasks.len() {
        let task = tasks[*place];
        *place += 1;
        if node.can_go(task) {
            return Some(task);
        }
    }
    None
}
