//! Locals in memory: when they are made and dropped, and at which lines.
use crate::playing::{Row, play};
use std::test::Fail;

const BLOCKS: [Row; 8] = [
    // At a block's end the latest is dropped first, on the line of the closing brace; at a return on its line.
    (
        "int main(void) {
  int a; int b;
  &a; &b;
  {
    int c; int d;
    &c; &d;
  }
  return 0;
}",
        &[
            "2 new 1 > d1+0",
            "2 new 1 > d2+0",
            "5 new 1 > d3+0",
            "5 new 1 > d4+0",
            "7 drop d4 > ok",
            "7 drop d3 > ok",
            "8 drop d2 > ok",
            "8 drop d1 > ok",
            "8 finish 0",
        ],
    ),
    // The line of a declaration is that of its first token.
    (
        "int main(void) {
  int a,
    b[5];
  &a;
  MPI_Status s;
  long c[2];
}",
        &[
            "2 new 1 > d1+0",
            "2 new 5 > d2+0",
            "5 new 3 > d3+0",
            "6 new 2 > d4+0",
            "7 drop d4 > ok",
            "7 drop d3 > ok",
            "7 drop d2 > ok",
            "7 drop d1 > ok",
            "7 finish 0",
        ],
    ),
    // break leaves two blocks.
    (
        "int main(void) {
  while (1) {
    int a;
    &a;
    {
      int b;
      &b;
      break;
    }
  }
  return 0;
}",
        &[
            "3 new 1 > d1+0",
            "6 new 1 > d2+0",
            "8 drop d2 > ok",
            "8 drop d1 > ok",
            "11 finish 0",
        ],
    ),
    // continue leaves the body, and each turn has objects of its own.
    (
        "int main(void) {
  int i = 0;
  while (i < 2) {
    int a;
    &a;
    i++;
    if (i == 1)
      continue;
    a = 9;
  }
}",
        &[
            "4 new 1 > d1+0",
            "8 drop d1 > ok",
            "4 new 1 > d2+0",
            "9 store d2+0 i9 > ok",
            "10 drop d2 > ok",
            "11 finish 0",
        ],
    ),
    // continue in a do goes to its condition.
    (
        "int main(void) {
  int i = 0;
  do {
    int a[1];
    continue;
  } while (i++ < 1);
  return i;
}",
        &[
            "4 new 1 > d1+0",
            "5 drop d1 > ok",
            "4 new 1 > d2+0",
            "5 drop d2 > ok",
            "7 finish 2",
        ],
    ),
    // return computes its value first.
    (
        "int f(void) {
  int a;
  &a;
  a = 4;
  {
    int b[2];
    return a;
  }
}
int main(void) {
  return f();
}",
        &[
            "2 new 1 > d1+0",
            "4 store d1+0 i4 > ok",
            "6 new 2 > d2+0",
            "7 load d1+0 > i4",
            "7 drop d2 > ok",
            "7 drop d1 > ok",
            "11 finish 4",
        ],
    ),
    (
        "int main(void) {
  int a;
  &a;
  a = 5;
  return
    a + 1;
}",
        &[
            "2 new 1 > d1+0",
            "4 store d1+0 i5 > ok",
            "5 load d1+0 > i5",
            "5 drop d1 > ok",
            "5 finish 6",
        ],
    ),
    // A function without a value drops on the line of its closing brace.
    (
        "void f(void) {
  int a[1];
}
int main(void) {
  f();
  f();
}",
        &[
            "2 new 1 > d1+0",
            "3 drop d1 > ok",
            "2 new 1 > d2+0",
            "3 drop d2 > ok",
            "7 finish 0",
        ],
    ),
];

#[test]
fn locals_are_dropped_where_control_leaves_their_block(rt: HostRuntime) -> Result<(), Fail> {
    play(&rt, rt.alloc(), &BLOCKS)
}

const HEADS: [Row; 7] = [
    // The declaration has its own line; the condition, the step and the drop have that of the for.
    (
        "int main(void) {
  for (
      int i = 0;
      i < 2;
      i++) {
    &i;
    if (i == 1)
      break;
  }
  return 0;
}",
        &[
            "3 new 1 > d1+0",
            "3 store d1+0 i0 > ok",
            "2 load d1+0 > i0",
            "7 load d1+0 > i0",
            "2 load d1+0 > i0",
            "2 store d1+0 i1 > ok",
            "2 load d1+0 > i1",
            "7 load d1+0 > i1",
            "2 drop d1 > ok",
            "10 finish 0",
        ],
    ),
    // So have calls of functions: what a call makes at its entry has the line of what calls it.
    (
        "int f(int a) { &a; return a; }
int main(void) {
  for (
      int i =
        f(0);
      f(i) < 1;
      i = f(1))
    ;
}",
        &[
            "4 new 1 > d1+0",
            "4 store d1+0 i0 > ok",
            "1 load d1+0 > i0",
            "1 drop d1 > ok",
            "3 new 1 > d2+0",
            "3 store d2+0 i0 > ok",
            "1 load d2+0 > i0",
            "1 drop d2 > ok",
            "3 new 1 > d3+0",
            "3 store d3+0 i1 > ok",
            "1 load d3+0 > i1",
            "1 drop d3 > ok",
            "3 new 1 > d4+0",
            "3 store d4+0 i1 > ok",
            "1 load d4+0 > i1",
            "1 drop d4 > ok",
            "9 finish 0",
        ],
    ),
    // The condition fails.
    (
        "int main(void) {
  int n = 1;
  for (
    int i[2]; n;
    n--)
    i[n] = 7;
  return 0;
}",
        &[
            "4 new 2 > d1+0",
            "6 store d1+1 i7 > ok",
            "3 drop d1 > ok",
            "7 finish 0",
        ],
    ),
    (
        "int main(void) {
  for (int i[1];;) {
    int a[1];
    break;
  }
  return 0;
}",
        &[
            "2 new 1 > d1+0",
            "3 new 1 > d2+0",
            "4 drop d2 > ok",
            "2 drop d1 > ok",
            "6 finish 0",
        ],
    ),
    // continue leaves the body alone.
    (
        "int main(void) {
  int n = 0;
  for (int i[1]; n < 2; n++) {
    int a[1];
    continue;
  }
  return 0;
}",
        &[
            "3 new 1 > d1+0",
            "4 new 1 > d2+0",
            "5 drop d2 > ok",
            "4 new 1 > d3+0",
            "5 drop d3 > ok",
            "3 drop d1 > ok",
            "7 finish 0",
        ],
    ),
    // return drops the head's variable too, on its own line.
    (
        "int main(void) {
  for (int i[1];;) {
    int a[1];
    return 3;
  }
}",
        &[
            "2 new 1 > d1+0",
            "3 new 1 > d2+0",
            "4 drop d2 > ok",
            "4 drop d1 > ok",
            "4 finish 3",
        ],
    ),
    // break leaves the inner loop alone.
    (
        "int main(void) {
  for (int i[1];;) {
    int a[1];
    while (1) {
      int b[1];
      break;
    }
    return 0;
  }
}",
        &[
            "2 new 1 > d1+0",
            "3 new 1 > d2+0",
            "5 new 1 > d3+0",
            "6 drop d3 > ok",
            "8 drop d2 > ok",
            "8 drop d1 > ok",
            "8 finish 0",
        ],
    ),
];

#[test]
fn the_variable_of_a_for_head_lives_as_long_as_the_statement(rt: HostRuntime) -> Result<(), Fail> {
    play(&rt, rt.alloc(), &HEADS)
}

const LOOPS: [Row; 4] = [
    (
        "int x;
int main(void) {
  for (
      x = 0;
      x < 1;
      x = 1)
    ;
  return 0;
}",
        &[
            "3 store g0+0 i0 > ok",
            "3 load g0+0 > i0",
            "3 store g0+0 i1 > ok",
            "3 load g0+0 > i1",
            "8 finish 0",
        ],
    ),
    (
        "int x;
int main(void) {
  do
    x = 0;
  while (
    x);
  return 0;
}",
        &["4 store g0+0 i0 > ok", "3 load g0+0 > i0", "7 finish 0"],
    ),
    (
        "int x;
int main(void) {
  if (
      x)
    x = 1;
  else
    x = 2;
  while (
      x)
    x = 0;
}",
        &[
            "3 load g0+0 > i0",
            "7 store g0+0 i2 > ok",
            "8 load g0+0 > i2",
            "10 store g0+0 i0 > ok",
            "8 load g0+0 > i0",
            "11 finish 0",
        ],
    ),
    // continue in a for goes to its step.
    (
        "int x;
int main(void) {
  for (;;
      x = 1) {
    if (x)
      break;
    continue;
  }
}",
        &[
            "5 load g0+0 > i0",
            "3 store g0+0 i1 > ok",
            "5 load g0+0 > i1",
            "9 finish 0",
        ],
    ),
];

#[test]
fn conditions_and_steps_have_the_line_of_their_statement(rt: HostRuntime) -> Result<(), Fail> {
    play(&rt, rt.alloc(), &LOOPS)
}

const IN_MEMORY: [Row; 7] = [
    // Where a name is an operand of & anywhere, also in parentheses, and also where that is never reached.
    (
        "int main(void) {
  int x = 2;
  if (0)
    &(x);
  return x;
}",
        &[
            "2 new 1 > d1+0",
            "2 store d1+0 i2 > ok",
            "5 load d1+0 > i2",
            "5 drop d1 > ok",
            "5 finish 2",
        ],
    ),
    // It is the inner variable that has its address taken.
    (
        "int main(void) {
  int x = 1;
  {
    int x;
    &x;
  }
  return x;
}",
        &["4 new 1 > d1+0", "6 drop d1 > ok", "7 finish 1"],
    ),
    // & of an element keeps the pointer where it is.
    (
        "int x;
int main(void) {
  int *p = &x;
  *&p[0] = 3;
}",
        &["4 store g0+0 i3 > ok", "5 finish 0"],
    ),
    // The object is made before its first value is computed.
    (
        "int f(void) {
  printf(\"f\");
  return 3;
}
int main(void) {
  int x = f(), y = x;
  &x;
  return y;
}",
        &[
            "6 new 1 > d1+0",
            "2 print \"f\" > i1",
            "6 store d1+0 i3 > ok",
            "6 load d1+0 > i3",
            "8 drop d1 > ok",
            "8 finish 3",
        ],
    ),
    // A static local is made by no call. Its number is behind those of the file's variables.
    (
        "int f(void) {
  static int n = 4;
  return n++;
}
int g;
int main(void) {
  f();
  g = 1;
}",
        &[
            "3 load g1+0 > i4",
            "3 store g1+0 i5 > ok",
            "8 store g0+0 i1 > ok",
            "9 finish 0",
        ],
    ),
    // The arguments of MPI_Init ask nothing.
    (
        "int main(int argc, char **argv) {
  MPI_Init(&argc, &argv);
  return argc;
}",
        &["2 init > ok", "3 finish 1"],
    ),
    // A declaration that is met again has no value.
    (
        "int main(void) {
  int n = 0;
  while (n < 2) {
    int a;
    if (n == 1)
      return a;
    a = 5;
    n++;
  }
}",
        &["6 broke Uninit"],
    ),
];

#[test]
fn locals_are_in_memory_where_their_address_is_taken(rt: HostRuntime) -> Result<(), Fail> {
    play(&rt, rt.alloc(), &IN_MEMORY)
}

const PARAMETERS: [Row; 5] = [
    // Each is made and stored at the calling statement's line, and dropped behind the body's locals.
    (
        "int f(int a, int b, int c) {
  int d[2];
  &c; &a;
  return b;
}
int main(void) {
  return f(1, 2, 3);
}",
        &[
            "7 new 1 > d1+0",
            "7 store d1+0 i1 > ok",
            "7 new 1 > d2+0",
            "7 store d2+0 i3 > ok",
            "2 new 2 > d3+0",
            "4 drop d3 > ok",
            "4 drop d2 > ok",
            "4 drop d1 > ok",
            "7 finish 2",
        ],
    ),
    (
        "long x;
void f(long *p, long n) {
  *p = n;
  p = &n;
}
int main(void) {
  f(&x,
    8);
}",
        &[
            "7 new 1 > d1+0",
            "7 store d1+0 i8 > ok",
            "3 load d1+0 > i8",
            "3 store g0+0 i8 > ok",
            "5 drop d1 > ok",
            "9 finish 0",
        ],
    ),
    // An array as a parameter is a pointer.
    (
        "int f(int a[]) {
  return a[1];
}
int main(void) {
  int t[2];
  t[1] = 6;
  return f(t);
}",
        &[
            "5 new 2 > d1+0",
            "6 store d1+1 i6 > ok",
            "2 load d1+1 > i6",
            "7 drop d1 > ok",
            "7 finish 6",
        ],
    ),
    // A return without a value drops on its line, the end of the block on that of its brace.
    (
        "void f(int n) {
  if (n)
    return;
  &n;
}
int main(void) {
  f(1);
  f(0);
}",
        &[
            "7 new 1 > d1+0",
            "7 store d1+0 i1 > ok",
            "2 load d1+0 > i1",
            "3 drop d1 > ok",
            "8 new 1 > d2+0",
            "8 store d2+0 i0 > ok",
            "2 load d2+0 > i0",
            "5 drop d2 > ok",
            "9 finish 0",
        ],
    ),
    // return leaves a block and the function's parameters.
    (
        "int f(int a) {
  &a;
  while (1) {
    int b[1];
    return a = 3;
  }
}
int main(void) {
  f(0);
}",
        &[
            "9 new 1 > d1+0",
            "9 store d1+0 i0 > ok",
            "4 new 1 > d2+0",
            "5 store d1+0 i3 > ok",
            "5 drop d2 > ok",
            "5 drop d1 > ok",
            "10 finish 0",
        ],
    ),
];

#[test]
fn parameters_in_memory_are_made_at_the_call(rt: HostRuntime) -> Result<(), Fail> {
    play(&rt, rt.alloc(), &PARAMETERS)
}
