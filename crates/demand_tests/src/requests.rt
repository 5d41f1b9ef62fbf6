//! Requests: what the completing functions ask.
use crate::mpi_frame::FRAME;
use crate::playing::{Row, play_in};
use std::test::Fail;

const ONE: [Row; 7] = [
    (
        "return MPI_Wait(q, &s[0]); }",
        &[
            "7 load g3+0 > r4",
            "7 complete r4 > s 1 2 3",
            "7 store g3+0 r0 > ok",
            "7 store g4+0 i1 > ok",
            "7 store g4+1 i2 > ok",
            "7 store g4+2 i3 > ok",
            "7 finish 0",
        ],
    ),
    (
        "return MPI_Wait(&q[1], MPI_STATUS_IGNORE); }",
        &[
            "7 load g3+1 > r0",
            "7 complete r0 > s -1 -1 0",
            "7 store g3+1 r0 > ok",
            "7 finish 0",
        ],
    ),
    // A set flag: the request, the flag, the status.
    (
        "return MPI_Test(&q[1], &n, s); }",
        &[
            "7 load g3+1 > r2",
            "7 test r2 > f 1 2 3",
            "7 store g3+1 r0 > ok",
            "7 store g1+0 i1 > ok",
            "7 store g4+0 i1 > ok",
            "7 store g4+1 i2 > ok",
            "7 store g4+2 i3 > ok",
            "7 finish 0",
        ],
    ),
    // An unset flag: the flag alone.
    (
        "return MPI_Test(&q[1], &n, s); }",
        &[
            "7 load g3+1 > r2",
            "7 test r2 > f",
            "7 store g1+0 i0 > ok",
            "7 finish 0",
        ],
    ),
    (
        "return MPI_Test(q, &n, MPI_STATUS_IGNORE); }",
        &[
            "7 load g3+0 > r0",
            "7 test r0 > f -1 -1 0",
            "7 store g3+0 r0 > ok",
            "7 store g1+0 i1 > ok",
            "7 finish 0",
        ],
    ),
    // A local request is in memory where its address is taken, and a pointer to one may be NULL.
    (
        "MPI_Request r = MPI_REQUEST_NULL;
MPI_Wait(&r, MPI_STATUS_IGNORE);
return r == MPI_REQUEST_NULL; }",
        &[
            "7 new 1 > d1+0",
            "7 store d1+0 r0 > ok",
            "8 load d1+0 > r0",
            "8 complete r0 > s -1 -1 0",
            "8 store d1+0 r0 > ok",
            "9 load d1+0 > r0",
            "9 drop d1 > ok",
            "9 finish 1",
        ],
    ),
    ("return MPI_Wait(NULL, s); }", &["7 load null"]),
];

#[test]
fn a_request_is_loaded_completed_and_set_to_null(rt: HostRuntime) -> Result<(), Fail> {
    play_in(&rt, rt.alloc(), FRAME, &ONE)
}

const ALL: [Row; 7] = [
    (
        "return MPI_Waitall(2, q, s); }",
        &[
            "7 load g3+0 > r1",
            "7 complete r1 > s 1 2 3",
            "7 store g3+0 r0 > ok",
            "7 store g4+0 i1 > ok",
            "7 store g4+1 i2 > ok",
            "7 store g4+2 i3 > ok",
            "7 load g3+1 > r2",
            "7 complete r2 > s 4 5 6",
            "7 store g3+1 r0 > ok",
            "7 store g4+3 i4 > ok",
            "7 store g4+4 i5 > ok",
            "7 store g4+5 i6 > ok",
            "7 finish 0",
        ],
    ),
    (
        "return MPI_Waitall(2, q, MPI_STATUSES_IGNORE); }",
        &[
            "7 load g3+0 > r1",
            "7 complete r1 > s 1 2 3",
            "7 store g3+0 r0 > ok",
            "7 load g3+1 > r2",
            "7 complete r2 > s 4 5 6",
            "7 store g3+1 r0 > ok",
            "7 finish 0",
        ],
    ),
    ("return MPI_Waitall(0, NULL, NULL); }", &["7 finish 0"]),
    // The arguments are evaluated before a negative count is a fault.
    (
        "return MPI_Waitall(-1, q + n, s); }",
        &["7 load g1+0 > i1", "7 broke BadCount"],
    ),
    // To go on in an array at NULL is a fault of the task, also at its first element.
    (
        "return MPI_Waitall(1, NULL, MPI_STATUSES_IGNORE); }",
        &["7 broke NullAccess"],
    ),
    (
        "return MPI_Waitall(1, q, NULL); }",
        &[
            "7 load g3+0 > r1",
            "7 complete r1 > s 1 2 3",
            "7 store g3+0 r0 > ok",
            "7 broke NullAccess",
        ],
    ),
    // A long wraps where an int is due.
    (
        "return MPI_Waitall(4294967297, q + 1, MPI_STATUS_IGNORE); }",
        &[
            "7 load g3+1 > r1",
            "7 complete r1 > s 1 2 3",
            "7 store g3+1 r0 > ok",
            "7 finish 0",
        ],
    ),
];

#[test]
fn waitall_does_for_each_what_wait_does(rt: HostRuntime) -> Result<(), Fail> {
    play_in(&rt, rt.alloc(), FRAME, &ALL)
}

const ANY: [Row; 6] = [
    (
        "return MPI_Waitany(2, q, &n, s); }",
        &[
            "7 load g3+0 > r1",
            "7 load g3+1 > r2",
            "7 any r1 r2 > a 1 4 5 6",
            "7 store g3+1 r0 > ok",
            "7 store g1+0 i1 > ok",
            "7 store g4+0 i4 > ok",
            "7 store g4+1 i5 > ok",
            "7 store g4+2 i6 > ok",
            "7 finish 0",
        ],
    ),
    (
        "return MPI_Waitany(2, q, &n, MPI_STATUS_IGNORE); }",
        &[
            "7 load g3+0 > r3",
            "7 load g3+1 > r0",
            "7 any r3 r0 > a 0 4 5 6",
            "7 store g3+0 r0 > ok",
            "7 store g1+0 i0 > ok",
            "7 finish 0",
        ],
    ),
    // A negative index: the index and the empty status are stored all the same.
    (
        "return MPI_Waitany(2, q, &n, s); }",
        &[
            "7 load g3+0 > r0",
            "7 load g3+1 > r0",
            "7 any r0 r0 > a -3 -1 -1 0",
            "7 store g1+0 i-3 > ok",
            "7 store g4+0 i-1 > ok",
            "7 store g4+1 i-1 > ok",
            "7 store g4+2 i0 > ok",
            "7 finish 0",
        ],
    ),
    (
        "return MPI_Waitany(0, NULL, &n, MPI_STATUS_IGNORE); }",
        &[
            "7 any > a -3 -1 -1 0",
            "7 store g1+0 i-3 > ok",
            "7 finish 0",
        ],
    ),
    (
        "return MPI_Waitany(n, q, &n, s); }",
        &["7 load g1+0 > i-2", "7 broke BadCount"],
    ),
    (
        "return MPI_Waitany(1, NULL, &n, s); }",
        &["7 broke NullAccess"],
    ),
];

#[test]
fn waitany_loads_all_and_stores_one(rt: HostRuntime) -> Result<(), Fail> {
    play_in(&rt, rt.alloc(), FRAME, &ANY)
}
