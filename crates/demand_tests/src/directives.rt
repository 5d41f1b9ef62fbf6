//! The statements single, single nowait and barrier, on the lines of their pragmas.
use crate::playing::{Row, play_in};
use std::test::Fail;

// The sources behind these lines begin at line 4.
const BEFORE: &str = "int t, u;\n#pragma hls node(t)\n#pragma hls core(u)\n";

const SINGLES: [Row; 7] = [
    // The task that runs the block drops its locals and leaves.
    (
        "int main(void) {
#pragma hls single(t)
  {
    int a[1];
    t = 1;
  }
  return 0;
}",
        &[
            "5 enter 0 > run",
            "7 new 1 > d1+0",
            "8 store g0+0 i1 > ok",
            "9 drop d1 > ok",
            "5 exit 0 > ok",
            "10 finish 0",
        ],
    ),
    // One that holds waits for it.
    (
        "int main(void) {
#pragma hls single(t)
  {
    t = 1;
  }
}",
        &["5 enter 0 > hold", "5 await 0 > ok", "9 finish 0"],
    ),
    (
        "int main(void) {
  #pragma hls single ( t ) nowait
  {
    t = 1;
  }
}",
        &[
            "5 enter 0 > run",
            "7 store g0+0 i1 > ok",
            "5 exit 0 > ok",
            "9 finish 0",
        ],
    ),
    // One that skips goes on.
    (
        "int main(void) {
#pragma hls single(t) nowait
  {
    t = 1;
  }
  return 2;
}",
        &["5 enter 0 > skip", "9 finish 2"],
    ),
    // The block comes again with each turn of a loop, and may have loops of its own.
    (
        "int main(void) {
  for (int i = 0; i < 3; i++) {
#pragma hls single(t)
    {
      while (1)
        break;
    }
  }
}",
        &[
            "6 enter 0 > run",
            "6 exit 0 > ok",
            "6 enter 0 > hold",
            "6 await 0 > ok",
            "6 enter 0 > run",
            "6 exit 0 > ok",
            "12 finish 0",
        ],
    ),
    // Statements are numbered in source order, across functions.
    (
        "void f(void) {
#pragma hls single(u) nowait
  { }
}
int main(void) {
#pragma hls barrier(t)
  if (t)
#pragma hls single(t)
    {
      f();
    }
  f();
}",
        &[
            "9 bar 1 > ok",
            "9 barwait 1 > ok",
            "10 load g0+0 > i1",
            "11 enter 2 > run",
            "5 enter 0 > run",
            "5 exit 0 > ok",
            "11 exit 2 > ok",
            "5 enter 0 > skip",
            "16 finish 0",
        ],
    ),
    // A fault in the block comes before the exit.
    (
        "int main(void) {
#pragma hls single(t)
  {
    t = 1 / 0;
  }
}",
        &["5 enter 0 > run", "7 broke Divide"],
    ),
];

#[test]
fn a_single_is_run_by_one_task(rt: HostRuntime) -> Result<(), Fail> {
    play_in(&rt, rt.alloc(), BEFORE, &SINGLES)
}

const BARRIERS: [Row; 2] = [
    (
        "int main(void) {
#pragma hls barrier(t, u)
  return 0;
}",
        &["5 bar 0 > ok", "5 barwait 0 > ok", "6 finish 0"],
    ),
    (
        "int main(void) {
  do
    #pragma hls barrier (u)
  while (t);
#pragma hls barrier(t)
}",
        &[
            "6 bar 0 > ok",
            "6 barwait 0 > ok",
            "5 load g0+0 > i1",
            "6 bar 0 > ok",
            "6 barwait 0 > ok",
            "5 load g0+0 > i0",
            "8 bar 1 > ok",
            "8 barwait 1 > ok",
            "9 finish 0",
        ],
    ),
];

#[test]
fn a_barrier_arrives_and_waits(rt: HostRuntime) -> Result<(), Fail> {
    play_in(&rt, rt.alloc(), BEFORE, &BARRIERS)
}
