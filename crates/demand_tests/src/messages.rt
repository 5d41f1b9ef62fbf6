//! Messages: what sends, receives and probes ask.
use crate::mpi_frame::FRAME;
use crate::playing::{Row, play_in};
use std::test::Fail;

const SENDS: [Row; 7] = [
    (
        "return MPI_Send(a, 4, MPI_INT, 1, 7, MPI_COMM_WORLD); }",
        &[
            "7 send g0+0 4 Int 1 7 c1 > p 3 1 0 0",
            "7 complete r3 > s -1 -1 0",
            "7 finish 0",
        ],
    ),
    (
        "return MPI_Ssend(b + 2, 3, MPI_LONG, 0, 9, MPI_COMM_WORLD); }",
        &[
            "7 send g2+2 3 Long 0 9 c1 sync > p 1 1 2 3",
            "7 complete r1 > s -1 -1 0",
            "7 finish 0",
        ],
    ),
    (
        "return MPI_Isend(a, 1, MPI_INT, 1, 0, MPI_COMM_WORLD, &q[1]); }",
        &[
            "7 send g0+0 1 Int 1 0 c1 > p 5 1 0 0",
            "7 store g3+1 r5 > ok",
            "7 finish 0",
        ],
    ),
    (
        "return MPI_Issend(NULL, 0, MPI_LONG, MPI_PROC_NULL, 0, c, q); }",
        &[
            "7 load g5+0 > c4",
            "7 send null 0 Long -2 0 c4 sync > p 6 0 0 0",
            "7 store g3+0 r6 > ok",
            "7 finish 0",
        ],
    ),
    // All arguments are evaluated first, from left to right.
    (
        "MPI_Send(&a[n], n, MPI_INT, n, n, c); }",
        &[
            "7 load g1+0 > i1",
            "7 load g1+0 > i2",
            "7 load g1+0 > i3",
            "7 load g1+0 > i4",
            "7 load g5+0 > c2",
            "7 send g0+1 2 Int 3 4 c2 > p 1 1 0 0",
            "7 complete r1 > s -1 -1 0",
            "7 finish 0",
        ],
    ),
    (
        "MPI_Send(a, n, MPI_INT, 1 / 0, n, c); }",
        &["7 load g1+0 > i1", "7 broke Divide"],
    ),
    // A long wraps where an int is due.
    (
        "MPI_Send(a, 4294967298, MPI_INT, -4294967297, 2147483648, MPI_COMM_NULL); }",
        &["7 send g0+0 2 Int -1 -2147483648 c0"],
    ),
];

#[test]
fn sends_are_posted_and_completed(rt: HostRuntime) -> Result<(), Fail> {
    play_in(&rt, rt.alloc(), FRAME, &SENDS)
}

const RECEIVES: [Row; 7] = [
    (
        "return MPI_Irecv(a, 1, MPI_INT, MPI_ANY_SOURCE, MPI_ANY_TAG, MPI_COMM_WORLD, q + 1); }",
        &[
            "7 recv g0+0 1 Int -1 -1 c1 > p 2 1 0 0",
            "7 store g3+1 r2 > ok",
            "7 finish 0",
        ],
    ),
    (
        "return MPI_Recv(b, 2, MPI_LONG, 3, 4, MPI_COMM_WORLD, &s[1]); }",
        &[
            "7 recv g2+0 2 Long 3 4 c1 > p 1 2 1 2",
            "7 complete r1 > s 3 4 2",
            "7 store g4+3 i3 > ok",
            "7 store g4+4 i4 > ok",
            "7 store g4+5 i2 > ok",
            "7 finish 0",
        ],
    ),
    (
        "return MPI_Recv(a, 2, MPI_INT, 3, 4, MPI_COMM_WORLD, MPI_STATUS_IGNORE); }",
        &[
            "7 recv g0+0 2 Int 3 4 c1 > p 1 2 1 2",
            "7 complete r1 > s 3 4 2",
            "7 finish 0",
        ],
    ),
    // A status at NULL: the first store is a call, and to go on from NULL is a fault of the task.
    (
        "return MPI_Recv(a, 2, MPI_INT, 3, 4, MPI_COMM_WORLD, NULL); }",
        &[
            "7 recv g0+0 2 Int 3 4 c1 > p 1 2 1 2",
            "7 complete r1 > s 3 4 2",
            "7 store null i3 > ok",
            "7 broke NullAccess",
        ],
    ),
    (
        "return MPI_Sendrecv(a, 1, MPI_INT, 1, 2, b, 3, MPI_LONG, 4, 5, MPI_COMM_WORLD, s); }",
        &[
            "7 recv g2+0 3 Long 4 5 c1 > p 1 1 0 0",
            "7 send g0+0 1 Int 1 2 c1 > p 2 2 0 0",
            "7 complete r2 > s -1 -1 0",
            "7 complete r1 > s 4 5 3",
            "7 store g4+0 i4 > ok",
            "7 store g4+1 i5 > ok",
            "7 store g4+2 i3 > ok",
            "7 finish 0",
        ],
    ),
    (
        "return MPI_Sendrecv(b, 1, MPI_LONG, 1, 2, a, 3, MPI_INT, 4, 5, c, MPI_STATUS_IGNORE); }",
        &[
            "7 load g5+0 > c2",
            "7 recv g0+0 3 Int 4 5 c2 > p 7 1 0 0",
            "7 send g2+0 1 Long 1 2 c2 > p 8 2 0 0",
            "7 complete r8 > s -1 -1 0",
            "7 complete r7 > s 4 5 3",
            "7 finish 0",
        ],
    ),
    // All calls have the line of the statement's first token.
    (
        "MPI_Status t;
n =
MPI_Recv(a, 1, MPI_INT, 0, 0,
  MPI_COMM_WORLD, &t);
return t.MPI_SOURCE; }",
        &[
            "7 new 3 > d1+0",
            "8 recv g0+0 1 Int 0 0 c1 > p 1 2 1 1",
            "8 complete r1 > s 0 0 1",
            "8 store d1+0 i0 > ok",
            "8 store d1+1 i0 > ok",
            "8 store d1+2 i1 > ok",
            "8 store g1+0 i0 > ok",
            "11 load d1+0 > i6",
            "11 drop d1 > ok",
            "11 finish 6",
        ],
    ),
];

#[test]
fn receives_are_posted_completed_and_told(rt: HostRuntime) -> Result<(), Fail> {
    play_in(&rt, rt.alloc(), FRAME, &RECEIVES)
}

const PROBES: [Row; 7] = [
    (
        "return MPI_Probe(1, 2, MPI_COMM_WORLD, s); }",
        &[
            "7 probe 1 2 c1 > s 1 2 3",
            "7 store g4+0 i1 > ok",
            "7 store g4+1 i2 > ok",
            "7 store g4+2 i3 > ok",
            "7 finish 0",
        ],
    ),
    (
        "return MPI_Probe(MPI_ANY_SOURCE, MPI_ANY_TAG, MPI_COMM_WORLD, MPI_STATUS_IGNORE); }",
        &["7 probe -1 -1 c1 > s 1 2 3", "7 finish 0"],
    ),
    (
        "return MPI_Iprobe(1, 2, MPI_COMM_WORLD, &n, s); }",
        &[
            "7 iprobe 1 2 c1 > f 1 2 3",
            "7 store g1+0 i1 > ok",
            "7 store g4+0 i1 > ok",
            "7 store g4+1 i2 > ok",
            "7 store g4+2 i3 > ok",
            "7 finish 0",
        ],
    ),
    (
        "return MPI_Iprobe(1, 2, MPI_COMM_WORLD, &n, s); }",
        &["7 iprobe 1 2 c1 > f", "7 store g1+0 i0 > ok", "7 finish 0"],
    ),
    (
        "return MPI_Iprobe(1, 2, MPI_COMM_WORLD, &n, MPI_STATUS_IGNORE); }",
        &[
            "7 iprobe 1 2 c1 > f 1 2 3",
            "7 store g1+0 i1 > ok",
            "7 finish 0",
        ],
    ),
    (
        "return MPI_Get_count(&s[1], MPI_INT, &n); }",
        &["7 load g4+5 > i9", "7 store g1+0 i9 > ok", "7 finish 0"],
    ),
    (
        "return MPI_Get_count(NULL, MPI_LONG, &n); }",
        &["7 broke NullAccess"],
    ),
];

#[test]
fn probes_tell_of_a_message(rt: HostRuntime) -> Result<(), Fail> {
    play_in(&rt, rt.alloc(), FRAME, &PROBES)
}
