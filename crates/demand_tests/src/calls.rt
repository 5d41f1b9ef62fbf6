//! Functions that call each other: the lines of what they ask, and faults before a call.
use crate::playing::{Row, play};
use std::test::Fail;

const NESTED: [Row; 6] = [
    // What a function asks has the lines of its own statements.
    (
        r#"int g(int a) {
  printf("g");
  return a + 1;
}
int f(int a) {
  int b = g(a);
  printf("f");
  return b;
}
int main(void) {
  printf("%d\n",
         f(g(1)));
  return 0;
}"#,
        &[
            r#"2 print "g" > i1"#,
            r#"2 print "g" > i1"#,
            r#"7 print "f" > i1"#,
            r#"11 print "3\n" > i2"#,
            "13 finish 0",
        ],
    ),
    // The calling statement may be a declaration, a condition or a return.
    (
        "int f(int a) {
  &a;
  return a;
}
int g(void) {
  return
    f(7);
}
int main(void) {
  int x =
    f(5);
  if (
      f(0))
    ;
  while (
      f(0))
    ;
  return x + g();
}",
        &[
            "10 new 1 > d1+0",
            "10 store d1+0 i5 > ok",
            "3 load d1+0 > i5",
            "3 drop d1 > ok",
            "12 new 1 > d2+0",
            "12 store d2+0 i0 > ok",
            "3 load d2+0 > i0",
            "3 drop d2 > ok",
            "15 new 1 > d3+0",
            "15 store d3+0 i0 > ok",
            "3 load d3+0 > i0",
            "3 drop d3 > ok",
            "6 new 1 > d4+0",
            "6 store d4+0 i7 > ok",
            "3 load d4+0 > i7",
            "3 drop d4 > ok",
            "18 finish 12",
        ],
    ),
    // Arguments are evaluated from left to right.
    (
        "int x, y;
int f(int a, int b) {
  return a - b;
}
int main(void) {
  return f(x, f(y, x = 3));
}",
        &[
            "6 load g0+0 > i10",
            "6 load g1+0 > i5",
            "6 store g0+0 i3 > ok",
            "6 finish 8",
        ],
    ),
    // Each call of a function has locals of its own.
    (
        "int f(int n) {
  int a[1];
  if (n > 0)
    f(n - 1);
  return n;
}
int main(void) {
  return f(1);
}",
        &[
            "2 new 1 > d1+0",
            "2 new 1 > d2+0",
            "5 drop d2 > ok",
            "5 drop d1 > ok",
            "8 finish 1",
        ],
    ),
    (
        "int x;
void f(int n) {
  if (n)
    return;
  x = 1;
}
int main(void) {
  f(1);
  f(0);
}",
        &["5 store g0+0 i1 > ok", "10 finish 0"],
    ),
    // A main that is called returns 0 at its end.
    (
        "int x;
int main(void) {
  if (x++ == 0)
    return main() + 5;
}",
        &[
            "3 load g0+0 > i0",
            "3 store g0+0 i1 > ok",
            "3 load g0+0 > i1",
            "3 store g0+0 i2 > ok",
            "4 finish 5",
        ],
    ),
];

#[test]
fn calls_have_the_lines_of_the_innermost_statement(rt: HostRuntime) -> Result<(), Fail> {
    play(&rt, rt.alloc(), &NESTED)
}

const FAULTS: [Row; 14] = [
    (
        r#"int x;
int main(void) {
  printf("%d", 2147483647 + x);
}"#,
        &["3 load g0+0 > i1", "3 broke Overflow"],
    ),
    (
        r#"int x;
int main(void) {
  printf("%d %d", x, 1 / 0);
}"#,
        &["3 load g0+0 > i1", "3 broke Divide"],
    ),
    (
        "int x;
int f(int a) {
  return x;
}
int main(void) {
  f(1 % x);
}",
        &["6 load g0+0 > i0", "6 broke Divide"],
    ),
    (
        "int x;
int f(int a, int b) {
  return x;
}
int main(void) {
  return
    f(x = 3, 1 << 32);
}",
        &["6 store g0+0 i3 > ok", "6 broke Shift"],
    ),
    (
        "int main(void) {
  MPI_Abort(MPI_COMM_WORLD, 1 / 0);
}",
        &["2 broke Divide"],
    ),
    (
        "int a[4];
int main(void) {
  MPI_Comm_rank(MPI_COMM_WORLD, &a[-1]);
}",
        &["3 broke Bounds"],
    ),
    (
        "int main(void) {
  int *p = malloc(1 / 0);
}",
        &["2 broke Divide"],
    ),
    (
        "int main(void) {
  int *p = NULL;
  free(p + 1);
}",
        &["3 broke NullAccess"],
    ),
    (
        "int f(int a) {
  return a;
}
int main(void) {
  int u;
  f(u);
}",
        &["6 broke Uninit"],
    ),
    // A value that is due is missing at the closing brace, before the drops.
    (
        "int f(void) {
  int a[1];
}
int main(void) {
  f();
}",
        &["2 new 1 > d1+0", "3 broke Uninit"],
    ),
    // The step of a place: the fault comes behind the load.
    (
        "int x;
int main(void) {
  x++;
}",
        &["3 load g0+0 > i2147483647", "3 broke Overflow"],
    ),
    (
        "int x;
int main(void) {
  --x;
}",
        &["3 load g0+0 > i-2147483648", "3 broke Overflow"],
    ),
    (
        "int main(void) {
  int i = 2147483647;
  i++;
}",
        &["3 broke Overflow"],
    ),
    // What comes behind a fault is never asked, and the drops are not either.
    (
        "int x;
int main(void) {
  int a[1];
  x = (x = 1) / (x = 0);
}",
        &[
            "3 new 1 > d1+0",
            "4 store g0+0 i1 > ok",
            "4 store g0+0 i0 > ok",
            "4 broke Divide",
        ],
    ),
];

#[test]
fn a_fault_in_an_argument_comes_before_the_call(rt: HostRuntime) -> Result<(), Fail> {
    play(&rt, rt.alloc(), &FAULTS)
}
