//! The environment, communicators and collective calls. An `arrive` is written with its kind, communicator, root,
//! operation, datatype, two counts, two buffers, colour and key.
use crate::mpi_frame::FRAME;
use crate::playing::{Row, play_in};
use std::test::Fail;

const ENVIRONMENT: [Row; 4] = [
    (
        "return MPI_Init(NULL, NULL); }",
        &["7 init > ok", "7 finish 0"],
    ),
    (
        "return MPI_Finalize(); }",
        &["7 finalize > ok", "7 finish 0"],
    ),
    ("MPI_Abort(MPI_COMM_WORLD, 3); }", &["7 abort c1 3"]),
    (
        "MPI_Abort(c, 4294967295); }",
        &["7 load g5+0 > c2", "7 abort c2 -1"],
    ),
];

#[test]
fn the_environment_is_one_call_each(rt: HostRuntime) -> Result<(), Fail> {
    play_in(&rt, rt.alloc(), FRAME, &ENVIRONMENT)
}

const COMMUNICATORS: [Row; 7] = [
    (
        "return MPI_Comm_rank(MPI_COMM_WORLD, &n); }",
        &["7 rank c1 > i2", "7 store g1+0 i2 > ok", "7 finish 0"],
    ),
    (
        "return MPI_Comm_size(c, a + 3); }",
        &[
            "7 load g5+0 > c2",
            "7 size c2 > i4",
            "7 store g0+3 i4 > ok",
            "7 finish 0",
        ],
    ),
    (
        "return MPI_Comm_rank(MPI_COMM_NULL, NULL); }",
        &["7 rank c0 > i0", "7 store null i0"],
    ),
    (
        "return MPI_Comm_dup(MPI_COMM_WORLD, &c); }",
        &[
            "7 arrive Dup c1 0 Sum Int 0 0 null null 0 0 > ok",
            "7 leave c1 > c2",
            "7 store g5+0 c2 > ok",
            "7 finish 0",
        ],
    ),
    (
        "return MPI_Comm_split(MPI_COMM_WORLD, 6, -5, &c); }",
        &[
            "7 arrive Split c1 0 Sum Int 0 0 null null 6 -5 > ok",
            "7 leave c1 > c3",
            "7 store g5+0 c3 > ok",
            "7 finish 0",
        ],
    ),
    (
        "return MPI_Comm_split(c, MPI_UNDEFINED, n, &c); }",
        &[
            "7 load g5+0 > c4",
            "7 load g1+0 > i1",
            "7 arrive Split c4 0 Sum Int 0 0 null null -3 1 > ok",
            "7 leave c4 > c0",
            "7 store g5+0 c0 > ok",
            "7 finish 0",
        ],
    ),
    (
        "return MPI_Comm_free(&c); }",
        &[
            "7 load g5+0 > c2",
            "7 arrive Free c2 0 Sum Int 0 0 null null 0 0 > ok",
            "7 leave c2 > ok",
            "7 store g5+0 c0 > ok",
            "7 finish 0",
        ],
    ),
];

#[test]
fn communicators_are_made_and_freed_by_all_members(rt: HostRuntime) -> Result<(), Fail> {
    play_in(&rt, rt.alloc(), FRAME, &COMMUNICATORS)
}

const COLLECTIVES: [Row; 12] = [
    (
        "return MPI_Barrier(MPI_COMM_WORLD); }",
        &[
            "7 arrive Barrier c1 0 Sum Int 0 0 null null 0 0 > ok",
            "7 leave c1 > ok",
            "7 finish 0",
        ],
    ),
    // A broadcast's buffer is what its root gives and what the others get.
    (
        "return MPI_Bcast(a, 2, MPI_INT, 1, MPI_COMM_WORLD); }",
        &[
            "7 arrive Bcast c1 1 Sum Int 2 0 g0+0 g0+0 0 0 > ok",
            "7 leave c1 > ok",
            "7 finish 0",
        ],
    ),
    (
        "return MPI_Reduce(a, &n, 1, MPI_INT, MPI_MAX, 2, MPI_COMM_WORLD); }",
        &[
            "7 arrive Reduce c1 2 Max Int 1 0 g0+0 g1+0 0 0 > ok",
            "7 leave c1 > ok",
            "7 finish 0",
        ],
    ),
    (
        "return MPI_Allreduce(b, b + 4, 3, MPI_LONG, MPI_BXOR, MPI_COMM_WORLD); }",
        &[
            "7 arrive Allreduce c1 0 Bxor Long 3 0 g2+0 g2+4 0 0 > ok",
            "7 leave c1 > ok",
            "7 finish 0",
        ],
    ),
    (
        "return MPI_Scan(a, &n, 1, MPI_INT, MPI_LAND, c); }",
        &[
            "7 load g5+0 > c2",
            "7 arrive Scan c2 0 Land Int 1 0 g0+0 g1+0 0 0 > ok",
            "7 leave c2 > ok",
            "7 finish 0",
        ],
    ),
    (
        "return MPI_Exscan(a, NULL, 1, MPI_INT, MPI_PROD, MPI_COMM_WORLD); }",
        &[
            "7 arrive Exscan c1 0 Prod Int 1 0 g0+0 null 0 0 > ok",
            "7 leave c1 > ok",
            "7 finish 0",
        ],
    ),
    (
        "return MPI_Gather(a, 1, MPI_INT, a + 4, 2, MPI_INT, 3, MPI_COMM_WORLD); }",
        &[
            "7 arrive Gather c1 3 Sum Int 1 2 g0+0 g0+4 0 0 > ok",
            "7 leave c1 > ok",
            "7 finish 0",
        ],
    ),
    (
        "return MPI_Allgather(b, 1, MPI_LONG, b + 4, 2, MPI_LONG, MPI_COMM_WORLD); }",
        &[
            "7 arrive Allgather c1 0 Sum Long 1 2 g2+0 g2+4 0 0 > ok",
            "7 leave c1 > ok",
            "7 finish 0",
        ],
    ),
    (
        "return MPI_Scatter(a, 1, MPI_INT, a + 4, 2, MPI_INT, 3, MPI_COMM_WORLD); }",
        &[
            "7 arrive Scatter c1 3 Sum Int 1 2 g0+0 g0+4 0 0 > ok",
            "7 leave c1 > ok",
            "7 finish 0",
        ],
    ),
    (
        "return MPI_Alltoall(a, -1, MPI_INT, a + 4, 2, MPI_INT, MPI_COMM_WORLD); }",
        &[
            "7 arrive Alltoall c1 0 Sum Int -1 2 g0+0 g0+4 0 0 > ok",
            "7 leave c1 > ok",
            "7 finish 0",
        ],
    ),
    // A communicator that the task keeps asks nothing, and the value is an int like others.
    (
        "MPI_Comm w = MPI_COMM_WORLD;
if (w != MPI_COMM_NULL)
  n = MPI_Barrier(w) + 1;
w = MPI_COMM_NULL;
MPI_Barrier(w); }",
        &[
            "9 arrive Barrier c1 0 Sum Int 0 0 null null 0 0 > ok",
            "9 leave c1 > ok",
            "9 store g1+0 i1 > ok",
            "11 arrive Barrier c0 0 Sum Int 0 0 null null 0 0",
        ],
    ),
    // The arguments are evaluated in their order.
    (
        "MPI_Reduce(&a[n], &b[n] == NULL ? NULL : a, n, MPI_INT, MPI_SUM, n, c); }",
        &[
            "7 load g1+0 > i1",
            "7 load g1+0 > i2",
            "7 load g1+0 > i3",
            "7 load g1+0 > i4",
            "7 load g5+0 > c1",
            "7 arrive Reduce c1 4 Sum Int 3 0 g0+1 g0+0 0 0",
        ],
    ),
];

#[test]
fn collective_calls_arrive_and_leave(rt: HostRuntime) -> Result<(), Fail> {
    play_in(&rt, rt.alloc(), FRAME, &COLLECTIVES)
}

const OPERATIONS: [Row; 10] = [
    (
        "MPI_Allreduce(a, &n, 1, MPI_INT, MPI_MAX, MPI_COMM_WORLD); }",
        &["7 arrive Allreduce c1 0 Max Int 1 0 g0+0 g1+0 0 0"],
    ),
    (
        "MPI_Allreduce(a, &n, 1, MPI_INT, MPI_MIN, MPI_COMM_WORLD); }",
        &["7 arrive Allreduce c1 0 Min Int 1 0 g0+0 g1+0 0 0"],
    ),
    (
        "MPI_Allreduce(a, &n, 1, MPI_INT, MPI_SUM, MPI_COMM_WORLD); }",
        &["7 arrive Allreduce c1 0 Sum Int 1 0 g0+0 g1+0 0 0"],
    ),
    (
        "MPI_Allreduce(a, &n, 1, MPI_INT, MPI_PROD, MPI_COMM_WORLD); }",
        &["7 arrive Allreduce c1 0 Prod Int 1 0 g0+0 g1+0 0 0"],
    ),
    (
        "MPI_Allreduce(a, &n, 1, MPI_INT, MPI_LAND, MPI_COMM_WORLD); }",
        &["7 arrive Allreduce c1 0 Land Int 1 0 g0+0 g1+0 0 0"],
    ),
    (
        "MPI_Allreduce(a, &n, 1, MPI_INT, MPI_BAND, MPI_COMM_WORLD); }",
        &["7 arrive Allreduce c1 0 Band Int 1 0 g0+0 g1+0 0 0"],
    ),
    (
        "MPI_Allreduce(a, &n, 1, MPI_INT, MPI_LOR, MPI_COMM_WORLD); }",
        &["7 arrive Allreduce c1 0 Lor Int 1 0 g0+0 g1+0 0 0"],
    ),
    (
        "MPI_Allreduce(a, &n, 1, MPI_INT, MPI_BOR, MPI_COMM_WORLD); }",
        &["7 arrive Allreduce c1 0 Bor Int 1 0 g0+0 g1+0 0 0"],
    ),
    (
        "MPI_Allreduce(a, &n, 1, MPI_INT, MPI_LXOR, MPI_COMM_WORLD); }",
        &["7 arrive Allreduce c1 0 Lxor Int 1 0 g0+0 g1+0 0 0"],
    ),
    (
        "MPI_Allreduce(a, &n, 1, MPI_INT, MPI_BXOR, MPI_COMM_WORLD); }",
        &["7 arrive Allreduce c1 0 Bxor Int 1 0 g0+0 g1+0 0 0"],
    ),
];

#[test]
fn operations_go_by_their_names(rt: HostRuntime) -> Result<(), Fail> {
    play_in(&rt, rt.alloc(), FRAME, &OPERATIONS)
}
