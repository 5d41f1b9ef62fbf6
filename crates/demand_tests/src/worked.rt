//! Whole short programs.
use crate::playing::{Row, play};
use std::test::Fail;

const ROWS: [Row; 4] = [
    (
        "int x; int main(void){ x = 2; printf(\"%d\\n\", x); return 0; }",
        &[
            "1 store g0+0 i2 > ok",
            "1 load g0+0 > i2",
            "1 print \"2\\n\" > i2",
            "1 finish 0",
        ],
    ),
    // Without a return main answers 0, on the line of its closing brace.
    (
        "int main(void) {\n  printf(\"a\");\n}\n",
        &["2 print \"a\" > i1", "3 finish 0"],
    ),
    // argc is 1.
    (
        "int main(int argc, char **argv) {\n  return argc + 6;\n}\n",
        &["2 finish 7"],
    ),
    (
        "int main(int n, char *v[]) {\n  if (n == 1)\n    return n;\n}\n",
        &["3 finish 1"],
    ),
];

// One task sends to itself, receives and waits: the calls of a program in the frame that MPI asks for.
const SENDS_TO_ITSELF: Row = (
    "#include <mpi.h>
#include <stdio.h>
int a; int b;
int main(int argc, char **argv) {
  int r;
  MPI_Status s;
  MPI_Init(&argc, &argv);
  MPI_Comm_rank(MPI_COMM_WORLD, &r);
  MPI_Request q; MPI_Isend(&a, 1, MPI_INT, 0, 0, MPI_COMM_WORLD, &q); MPI_Recv(&b, 1, MPI_INT, 0, 0, MPI_COMM_WORLD, &s); MPI_Wait(&q, &s);
  MPI_Finalize();
  return 0;
}
",
    &[
        "5 new 1 > d1+0",
        "6 new 3 > d2+0",
        "7 init > ok",
        "8 rank c1 > i0",
        "8 store d1+0 i0 > ok",
        "9 new 1 > d3+0",
        "9 send g0+0 1 Int 0 0 c1 > p 1 1 0 0",
        "9 store d3+0 r1 > ok",
        "9 recv g1+0 1 Int 0 0 c1 > p 2 2 1 1",
        "9 complete r2 > s 0 0 1",
        "9 store d2+0 i0 > ok",
        "9 store d2+1 i0 > ok",
        "9 store d2+2 i1 > ok",
        "9 load d3+0 > r1",
        "9 complete r1 > s -1 -1 0",
        "9 store d3+0 r0 > ok",
        "9 store d2+0 i-1 > ok",
        "9 store d2+1 i-1 > ok",
        "9 store d2+2 i0 > ok",
        "10 finalize > ok",
        "11 drop d3 > ok",
        "11 drop d2 > ok",
        "11 drop d1 > ok",
        "11 finish 0",
    ],
);

// A block that the first task frees, and reads behind two barriers.
const READS_A_FREED_BLOCK: Row = (
    "#include <mpi.h>
#include <stdio.h>

int main(int argc, char **argv) {
  int r;
  MPI_Status s;
  MPI_Init(&argc, &argv);
  MPI_Comm_rank(MPI_COMM_WORLD, &r);
  int *p = malloc(40); p[0] = 1;
  if (r == 0) free(p);
  MPI_Barrier(MPI_COMM_WORLD);
  if (r == 1) { p = malloc(40); p[0] = 5; }
  MPI_Barrier(MPI_COMM_WORLD);
  printf(\"%d\\n\", p[0]);
  MPI_Finalize();
  return 0;
}
",
    &[
        "5 new 1 > d1+0",
        "6 new 3 > d2+0",
        "7 init > ok",
        "8 rank c1 > i0",
        "8 store d1+0 i0 > ok",
        "9 malloc 10 > d3+0",
        "9 store d3+0 i1 > ok",
        "10 load d1+0 > i0",
        "10 free d3+0 > ok",
        "11 arrive Barrier c1 0 Sum Int 0 0 null null 0 0 > ok",
        "11 leave c1 > ok",
        "12 load d1+0 > i0",
        "13 arrive Barrier c1 0 Sum Int 0 0 null null 0 0 > ok",
        "13 leave c1 > ok",
        "14 load d3+0",
    ],
);

// The beginning of a halo exchange with a shared table, as the third of eight tasks.
const EXCHANGES_A_HALO: Row = (
    "#include <mpi.h>
#include <stdio.h>
#define N 4
int w[3];
#pragma hls node(w)
int x[N + 2];
int y[N + 2];
void step(void) {
  int i;
  for (i = 1; i <= N; i++) y[i] = w[0] * x[i - 1] + w[1] * x[i] + w[2] * x[i + 1];
  for (i = 1; i <= N; i++) x[i] = y[i];
}
int main(int argc, char *argv[]) {
  int r, n, i, k, mine, all;
  MPI_Request q[4];
  MPI_Init(&argc, &argv);
  MPI_Comm_rank(MPI_COMM_WORLD, &r);
  MPI_Comm_size(MPI_COMM_WORLD, &n);
#pragma hls single(w)
  { w[0] = 1; w[1] = 2; w[2] = 1; }
  for (i = 1; i <= N; i++) x[i] = r;
  for (k = 1; k <= 2; k++) {
    MPI_Irecv(&x[0], 1, MPI_INT, (r + n - 1) % n, 1, MPI_COMM_WORLD, &q[0]);
    MPI_Irecv(&x[N + 1], 1, MPI_INT, (r + 1) % n, 2, MPI_COMM_WORLD, &q[1]);
    MPI_Isend(&x[1], 1, MPI_INT, (r + n - 1) % n, 2, MPI_COMM_WORLD, &q[2]);
    MPI_Isend(&x[N], 1, MPI_INT, (r + 1) % n, 1, MPI_COMM_WORLD, &q[3]);
    MPI_Waitall(4, q, MPI_STATUSES_IGNORE);
    step();
    mine = 0;
    for (i = 1; i <= N; i++) mine += x[i];
    MPI_Allreduce(&mine, &all, 1, MPI_INT, MPI_SUM, MPI_COMM_WORLD);
    printf(\"sweep %d: sum %d, first %d\\n\", k, all, x[1]);
  }
  MPI_Finalize();
  return 0;
}
",
    &[
        "14 new 1 > d1+0",
        "14 new 1 > d2+0",
        "14 new 1 > d3+0",
        "14 new 1 > d4+0",
        "15 new 4 > d5+0",
        "16 init > ok",
        "17 rank c1 > i2",
        "17 store d1+0 i2 > ok",
        "18 size c1 > i8",
        "18 store d2+0 i8 > ok",
        "19 enter 0 > run",
        "20 store g0+0 i1 > ok",
        "20 store g0+1 i2 > ok",
        "20 store g0+2 i1 > ok",
        "19 exit 0 > ok",
        "21 load d1+0 > i2",
        "21 store g1+1 i2 > ok",
        "21 load d1+0 > i2",
        "21 store g1+2 i2 > ok",
        "21 load d1+0 > i2",
        "21 store g1+3 i2 > ok",
        "21 load d1+0 > i2",
        "21 store g1+4 i2 > ok",
        "23 load d1+0 > i2",
        "23 load d2+0 > i8",
        "23 load d2+0 > i8",
        "23 recv g1+0 1 Int 1 1 c1 > p 1 1 0 0",
        "23 store d5+0 r1 > ok",
        "24 load d1+0 > i2",
        "24 load d2+0 > i8",
        "24 recv g1+5 1 Int 3 2 c1",
    ],
);

const PROGRAMS: [Row; 3] = [SENDS_TO_ITSELF, READS_A_FREED_BLOCK, EXCHANGES_A_HALO];

#[test]
fn mpi_programs_ask_in_order(rt: HostRuntime) -> Result<(), Fail> {
    play(&rt, rt.alloc(), &PROGRAMS)
}

#[test]
fn short_programs_ask_in_order(rt: HostRuntime) -> Result<(), Fail> {
    play(&rt, rt.alloc(), &ROWS)
}
