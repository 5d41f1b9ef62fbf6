//! The state at the start of a run.
ghost use Rattle.std.specs.Prelude.{◌≡◌, ◌≤◌, length, All, IfOk};
ghost use Rattle.run_model.specs.Setup.{setup_of};
ghost use Rattle.run_model.specs.Valid.{Valid};
ghost use Rattle.run_model.specs.Start.{start, first_core};
ghost use Rattle.node_core.specs.Stands.{Stands, SpaceStands, IsSpaceOf};
ghost use Rattle.node_core.specs.Starts.{IsFirst};
ghost use Rattle.node_core.specs.Steps.{AllFit};

use crate::parts::{Matching, OwnPart, Shared, State, TaskPart};
use mem_space::Space;
use memory_model::each_object_has_its_key;
use mpc_base::Memory;
use mpi_comm::Comms;
use run_model::{Course, Phase, Setup};
use std::alloc::Global;

/// A task's part at the start.
fn first_part(alloc: Global) -> TaskPart
    ensures { IsFirst result }
{
    TaskPart {
        own: OwnPart {
            output: Vec::new(alloc),
            phase: Phase::Before,
        },
        course: Course {
            entries: 0,
            noted: None,
            exit: None,
        },
    }
}

fn first_parts(alloc: Global, tasks: u32) -> Result<Vec<TaskPart>, Memory>
    ensures count { IfOk result (λ parts. length parts.items ≡ tasks) }
    ensures first { IfOk result (λ parts. All IsFirst parts.items) }
{
    let mut parts = Vec::with_capacity(alloc, tasks as usize)?;
    for _task in 0..tasks {
        parts.push(first_part(alloc))?;
    }
    Ok(parts)
}

/// The space at the start: each owner's image of the static variables, with their first words.
fn first_space(alloc: Global, setup: &Setup) -> Result<Space, Memory>
    requires valid { Valid (setup_of setup.now) }
    ensures set { IfOk result (IsSpaceOf (setup_of setup.now)) }
    ensures stands { IfOk result (SpaceStands (first_core (setup_of setup.now))) }
{
    each_object_has_its_key();
    let globals = setup.program.globals();
    let cores = setup.cores.as_slice();
    let space = Space::new(alloc, globals, &setup.machine, cores, setup.quota)?;
    Ok(space)
}

impl State {
    /// The state at the start of a run.
    pub fn new(alloc: Global, setup: &Setup) -> Result<State, Memory>
        requires valid { Valid (setup_of setup.now) }
        ensures stands { IfOk result (Stands (start (setup_of setup.now))) }
        ensures set { IfOk result (λ state. IsSpaceOf (setup_of setup.now) state.shared.space) }
        ensures noted { IfOk result (λ state. AllFit state.tasks.items) }
    {
        let tasks = setup.cores.as_slice().len() as u32;
        let parts = first_parts(alloc, tasks)?;
        let comms = Comms::new(alloc, tasks)?;
        Ok(State {
            shared: Shared {
                space: first_space(alloc, setup)?,
                matching: Matching { comms },
            },
            tasks: parts,
            last: None,
        })
    }
}
