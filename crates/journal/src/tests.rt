//! Reports, worked out by hand.
ghost use Rattle.std.specs.Prelude.{◌≡◌, ◌≢◌, IfOk};

use crate::report;
use c_tree::Globals;
use c_tree::program::{Constructs, Program};
use mpc_base::{End, Entries, Fault, Journal, Memory, RankEnd, RankEnds, RankState, Text};
use serial_model::{RunRecord, Setup};
use std::alloc::Global;
use std::test::*;

fn record(alloc: Global, ranks: &[(RankState, &[u8])], end: End) -> Result<RunRecord, Memory>
    ensures { IfOk result (λ run. run.end ≡ end) }
{
    let mut list = Vec::new(alloc);
    for (state, output) in ranks {
        list.push(RankEnd {
            state: *state,
            output: Text::of(Vec::from_slice(alloc, output)?),
        })?;
    }
    Ok(RunRecord {
        setup: Setup {
            program: Program {
                variables: Globals::of(Vec::new(alloc)),
                functions: Vec::new(alloc),
                main: 0,
                constructs: Constructs::of(Vec::new(alloc)),
                lines: 1,
            },
        },
        journal: Journal {
            tasks: 1,
            entries: Entries::of(Vec::new(alloc)),
        },
        end,
        ranks: RankEnds::of(list),
    })
}

fn report_of_run(alloc: Global, ranks: &[(RankState, &[u8])], end: End) -> Result<Vec<u8>, Memory>
    requires going { end ≢ End.Going }
    requires memory { end ≢ End.NoMemory }
{
    let run = record(alloc, ranks, end)?;
    report(alloc, &run)
}

#[test]
fn report_of_one_rank_has_52_bytes(rt: HostRuntime) -> Result<(), Fail> {
    let text = report_of_run(rt.alloc(), &[(RankState::Exit(0), b"2\n")], End::Finished)?;
    assert_eq!(rt; text.len(), 52);
    assert_eq!(rt;
        text.as_slice(),
        b"== rank 0: exit 0, 2 bytes ==\n2\n== run: finished ==\n".as_slice()
    );
    Ok(())
}

#[test]
fn outputs_are_closed_by_a_line_feed(rt: HostRuntime) -> Result<(), Fail> {
    let rows: [(i32, &[u8], &[u8]); 5] = [
        (
            0,
            b"",
            b"== rank 0: exit 0, 0 bytes ==\n== run: finished ==\n",
        ),
        (
            1,
            b"2",
            b"== rank 0: exit 1, 1 bytes ==\n2\n== run: finished ==\n",
        ),
        (
            -7,
            b"\n",
            b"== rank 0: exit -7, 1 bytes ==\n\n== run: finished ==\n",
        ),
        (
            12,
            b"a\nb",
            b"== rank 0: exit 12, 3 bytes ==\na\nb\n== run: finished ==\n",
        ),
        (
            0,
            b"a\n\n",
            b"== rank 0: exit 0, 3 bytes ==\na\n\n== run: finished ==\n",
        ),
    ];
    for (code, output, want) in rows.iter() {
        let text = report_of_run(
            rt.alloc(),
            &[(RankState::Exit(*code), *output)],
            End::Finished,
        )?;
        assert_eq!(rt; text.as_slice(), *want);
    }
    Ok(())
}

#[test]
fn fault_stops_the_other_rank(rt: HostRuntime) -> Result<(), Fail> {
    let fault = RankState::Fault {
        fault: Fault::Bounds,
        line: 15,
    };
    let text = report_of_run(
        rt.alloc(),
        &[(RankState::Stopped, b"so far"), (fault, b"")],
        End::Fault {
            task: 1,
            fault: Fault::Bounds,
            line: 15,
        },
    )?;
    let want =
        b"== rank 0: stopped, 6 bytes ==\nso far\n== rank 1: fault Bounds at line 15, 0 bytes ==\n== run: fault in rank 1 ==\n";
    assert_eq!(rt; text.as_slice(), want.as_slice());
    Ok(())
}

#[test]
fn blocked_ranks_name_their_calls(rt: HostRuntime) -> Result<(), Fail> {
    let leaves = RankState::Blocked { call: 23, line: 9 };
    let text = report_of_run(
        rt.alloc(),
        &[(leaves, b""), (RankState::Exit(0), b"done")],
        End::Stuck,
    )?;
    let want =
        b"== rank 0: blocked in leave at line 9, 0 bytes ==\n== rank 1: exit 0, 4 bytes ==\ndone\n== run: stuck ==\n";
    assert_eq!(rt; text.as_slice(), want.as_slice());
    Ok(())
}

#[test]
fn abort_and_want_of_a_thread_end_the_report(rt: HostRuntime) -> Result<(), Fail> {
    let aborts = RankState::Aborted { code: -9, line: 12 };
    let abort = End::Abort {
        task: 1,
        code: -9,
        line: 12,
    };
    let text = report_of_run(
        rt.alloc(),
        &[(RankState::Stopped, b""), (aborts, b"")],
        abort,
    )?;
    let want =
        b"== rank 0: stopped, 0 bytes ==\n== rank 1: aborted -9 at line 12, 0 bytes ==\n== run: aborted by rank 1 ==\n";
    assert_eq!(rt; text.as_slice(), want.as_slice());
    let text = report_of_run(rt.alloc(), &[(RankState::Stopped, b"")], End::NoThread)?;
    let want = b"== rank 0: stopped, 0 bytes ==\n== run: no thread ==\n";
    assert_eq!(rt; text.as_slice(), want.as_slice());
    Ok(())
}
