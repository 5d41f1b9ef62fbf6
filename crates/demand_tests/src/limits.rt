//! The bounds on turns and on the depth of calls.
use crate::playing::{Row, play};
use std::test::Fail;

// A loop that asks nothing is passed by one advance. Each of these has a test, and so a time, of its own.
const NO_END: [Row; 1] = [("int main(void) {\n  while (1);\n}", &["2 broke Turns"])];

#[test]
fn a_loop_without_end_is_a_fault(rt: HostRuntime) -> Result<(), Fail> {
    play(&rt, rt.alloc(), &NO_END)
}

// The 10,000,000th turn is made, and the next one is a fault, at the statement that calls. A loop whose condition
// fails at once makes no turn.
const LAST_TURN: [Row; 1] = [(
    r#"void f(void) {
  printf("f");
}
int main(void) {
  for (int i = 0; i < 9999999; i++)
    ;
  while (0)
    ;
  f();
  printf("%d",
    1) +
    main();
}"#,
    &[
        r#"2 print "f" > i1"#,
        r#"10 print "1" > i1"#,
        "10 broke Turns",
    ],
)];

#[test]
fn a_task_makes_ten_million_turns(rt: HostRuntime) -> Result<(), Fail> {
    play(&rt, rt.alloc(), &LAST_TURN)
}

// A call that would be too many and too deep is too many.
const BOTH: [Row; 1] = [(
    r#"int f(int n) {
  if (n == 0)
    return 0;
  return f(n - 1);
}
int main(void) {
  int i = 0;
  do
    i++;
  while (i < 9998977);
  printf("a");
  return f(1023);
}"#,
    &[r#"11 print "a" > i1"#, "4 broke Turns"],
)];

#[test]
fn turns_are_looked_at_before_depth(rt: HostRuntime) -> Result<(), Fail> {
    play(&rt, rt.alloc(), &BOTH)
}

const DEPTHS: [Row; 2] = [
    // main is at depth 1, and 1,024 is the greatest.
    (
        r#"int f(int n) {
  if (n == 0)
    return 7;
  return
    f(n - 1);
}
int main(void) {
  printf("%d", f(1022));
  printf("%d", f(1023));
}"#,
        &[r#"8 print "7" > i1"#, "4 broke Depth"],
    ),
    // The arguments come first.
    (
        r#"int x;
void f(int n) {
  if (n < 1023)
    f(n + 1);
  else
    f(x);
}
int main(void) {
  f(1);
}"#,
        &["6 load g0+0 > i1", "6 broke Depth"],
    ),
];

#[test]
fn calls_nest_to_a_depth(rt: HostRuntime) -> Result<(), Fail> {
    play(&rt, rt.alloc(), &DEPTHS)
}
