//! Two instances of construct 7, tasks 0 and 2 and tasks 1 and 3, call by call; and the laws, called once.
ghost use Rattle.std.specs.Prelude.{◌≡◌, ◌<◌, IfOk};
ghost use Rattle.hls_sync.specs.Cases.{rows};
ghost use Rattle.hls_sync.specs.Syncs.{rows_of};

use crate::{
    HlsRow, HlsSync, blocks_run_once_in_each_instance, rows_make_a_site,
    tasks_wait_for_their_instance,
};
use mpc_values::{Memory, Way};
use std::alloc::Global;
use std::process::Abort;
use std::test::Fail;

const ROWS: [HlsRow; 4] = [
    HlsRow {
        construct: 7,
        task: 0,
        inst: 0,
    },
    HlsRow {
        construct: 7,
        task: 1,
        inst: 1,
    },
    HlsRow {
        construct: 7,
        task: 2,
        inst: 0,
    },
    HlsRow {
        construct: 7,
        task: 3,
        inst: 1,
    },
];

/// A call, and what it answers.
#[derive(Clone, Copy, Debug)]
enum Call {
    Enter(Way),
    EnterNowait(Way),
    MayGo(bool),
    Exit,
    Arrive,
    MayLeave(bool),
}

fn tables(alloc: Global) -> Result<HlsSync, Memory>
    ensures { IfOk result (λ s. rows_of s ≡ rows) }
{
    HlsSync::new(alloc, &ROWS)
}

fn ask<R: Abort>(rt: &R, syncs: &mut HlsSync, task: u32, call: Call)
    requires rows { rows_of syncs.old ≡ rows }
    requires task { task < 4 }
    ensures { rows_of syncs.new ≡ rows }
{
    let inst = task % 2;
    match call {
        Call::Enter(way) => {
            let answer = syncs.enter(7, inst, task);
            assert_eq!(rt; answer, way, "task {task}");
        }
        Call::EnterNowait(way) => {
            let answer = syncs.enter_nowait(7, inst, task);
            assert_eq!(rt; answer, way, "task {task}");
        }
        Call::MayGo(may) => {
            let answer = syncs.may_go(7, inst, task);
            assert_eq!(rt; answer, may, "task {task}");
        }
        Call::Exit => syncs.exit(7, inst, task),
        Call::Arrive => syncs.arrive_bar(7, inst, task),
        Call::MayLeave(may) => {
            let answer = syncs.may_leave_bar(7, inst, task);
            assert_eq!(rt; answer, may, "task {task}");
        }
    }
}

/// Makes the calls one after another on new tables.
fn calls<R: AllocGlobal + Abort>(rt: &R, steps: &[(u32, Call)]) -> Result<(), Memory> {
    let mut syncs = tables(rt.alloc())?;
    for (task, call) in steps {
        assert!(rt; *task < 4);
        ask(rt, &mut syncs, *task, *call);
    }
    Ok(())
}

#[test]
fn a_single_runs_on_the_last_task_of_each_instance(rt: HostRuntime) -> Result<(), Fail> {
    calls(
        &rt,
        &[
            (0, Call::MayGo(true)),
            (0, Call::Enter(Way::Hold)),
            (1, Call::Enter(Way::Hold)),
            (3, Call::Enter(Way::Run)),
            (0, Call::MayGo(false)),
            (1, Call::MayGo(false)),
            (2, Call::Enter(Way::Run)),
            (0, Call::MayGo(false)),
            (2, Call::Exit),
            (0, Call::MayGo(true)),
            (1, Call::MayGo(false)),
            (3, Call::Exit),
            (1, Call::MayGo(true)),
        ],
    )?;
    Ok(())
}

#[test]
fn an_exit_ends_a_meeting_of_its_own_task(rt: HostRuntime) -> Result<(), Fail> {
    calls(
        &rt,
        &[
            (0, Call::Enter(Way::Hold)),
            (2, Call::Enter(Way::Run)),
            (2, Call::Enter(Way::Hold)),
            (0, Call::MayGo(false)),
            (2, Call::Exit),
            (0, Call::MayGo(true)),
            (0, Call::Enter(Way::Run)),
            (2, Call::MayGo(false)),
            (2, Call::Exit),
            (2, Call::MayGo(false)),
            (0, Call::Exit),
            (2, Call::MayGo(true)),
        ],
    )?;
    Ok(())
}

#[test]
fn a_nowait_runs_on_the_first_task_of_each_meeting(rt: HostRuntime) -> Result<(), Fail> {
    // Task 0 comes three times before task 2 does.
    calls(
        &rt,
        &[
            (0, Call::EnterNowait(Way::Run)),
            (0, Call::Exit),
            (0, Call::EnterNowait(Way::Run)),
            (0, Call::Exit),
            (0, Call::EnterNowait(Way::Run)),
            (0, Call::Exit),
            (2, Call::EnterNowait(Way::Skip)),
            (1, Call::EnterNowait(Way::Run)),
            (2, Call::EnterNowait(Way::Skip)),
            (2, Call::EnterNowait(Way::Skip)),
            (2, Call::EnterNowait(Way::Run)),
            (0, Call::EnterNowait(Way::Skip)),
            (3, Call::EnterNowait(Way::Skip)),
        ],
    )?;
    Ok(())
}

#[test]
fn a_barrier_waits_for_its_instance(rt: HostRuntime) -> Result<(), Fail> {
    calls(
        &rt,
        &[
            (0, Call::MayLeave(true)),
            (0, Call::Arrive),
            (0, Call::MayLeave(false)),
            (1, Call::Arrive),
            (0, Call::MayLeave(false)),
            (2, Call::Arrive),
            (2, Call::MayLeave(true)),
            (2, Call::Arrive),
            (2, Call::MayLeave(false)),
            (0, Call::MayLeave(true)),
            (1, Call::MayLeave(false)),
            (3, Call::Arrive),
            (1, Call::MayLeave(true)),
        ],
    )?;
    Ok(())
}

#[test]
fn laws_are_called(_rt: HostRuntime) -> Result<(), Fail> {
    blocks_run_once_in_each_instance();
    tasks_wait_for_their_instance();
    rows_make_a_site();
    Ok(())
}
