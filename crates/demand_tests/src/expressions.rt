//! What expressions evaluate, and in which order.
use crate::playing::{Row, play, play_in};
use std::test::Fail;

// The sources behind these lines begin at line 3.
const BEFORE: &str = "int x, y, a[4];\nint main(void) {\n";

const CONDITIONS: [Row; 10] = [
    ("return x && y; }", &["3 load g0+0 > i0", "3 finish 0"]),
    (
        "return x && y; }",
        &["3 load g0+0 > i2", "3 load g1+0 > i3", "3 finish 1"],
    ),
    (
        "return x && y; }",
        &["3 load g0+0 > i2", "3 load g1+0 > i0", "3 finish 0"],
    ),
    ("return x || y; }", &["3 load g0+0 > i2", "3 finish 1"]),
    (
        "return x || y; }",
        &["3 load g0+0 > i0", "3 load g1+0 > i3", "3 finish 1"],
    ),
    (
        "return x || y; }",
        &["3 load g0+0 > i0", "3 load g1+0 > i0", "3 finish 0"],
    ),
    (
        "return x ? y : a[1]; }",
        &["3 load g0+0 > i-1", "3 load g1+0 > i8", "3 finish 8"],
    ),
    (
        "return x ? y : a[1]; }",
        &["3 load g0+0 > i0", "3 load g2+1 > i9", "3 finish 9"],
    ),
    // A fault in what is not evaluated never comes.
    (
        "int u; return 0 && 1 / 0 || (1 || u) && (1 ? 7 : u); }",
        &["3 finish 1"],
    ),
    // A pointer is true where it is not NULL.
    (
        "int *p = a; if (p && !NULL) p = NULL; while (p) ; return p ? 1 : 2; }",
        &["3 finish 2"],
    ),
];

#[test]
fn conditions_evaluate_only_what_c_evaluates(rt: HostRuntime) -> Result<(), Fail> {
    play_in(&rt, rt.alloc(), BEFORE, &CONDITIONS)
}

const ASSIGNMENTS: [Row; 10] = [
    // The left place, for a computing one its load, then the right side, then the store.
    (
        r#"int a[4], x;
int f(void) { printf("f"); return 2; }
int g(void) { printf("g"); return 5; }
int main(void) {
  a[f()] = g();
  a[f()] += g();
  x += x = 3;
  return x = a[f()];
}"#,
        &[
            r#"2 print "f" > i1"#,
            r#"3 print "g" > i1"#,
            "5 store g0+2 i5 > ok",
            r#"2 print "f" > i1"#,
            "6 load g0+2 > i5",
            r#"3 print "g" > i1"#,
            "6 store g0+2 i10 > ok",
            "7 load g1+0 > i1",
            "7 store g1+0 i3 > ok",
            "7 store g1+0 i4 > ok",
            r#"2 print "f" > i1"#,
            "8 load g0+2 > i10",
            "8 store g1+0 i10 > ok",
            "8 finish 10",
        ],
    ),
    (
        "int a[4], x, *p;
int main(void) {
  p[x] = x;
  p[x++] += x;
  x = x++;
}",
        &[
            "3 load g2+0 > g0+1",
            "3 load g1+0 > i2",
            "3 load g1+0 > i2",
            "3 store g0+3 i2 > ok",
            "4 load g2+0 > g0+1",
            "4 load g1+0 > i1",
            "4 store g1+0 i2 > ok",
            "4 load g0+2 > i5",
            "4 load g1+0 > i2",
            "4 store g0+2 i7 > ok",
            "5 load g1+0 > i2",
            "5 store g1+0 i3 > ok",
            "5 store g1+0 i2 > ok",
            "6 finish 0",
        ],
    ),
    (
        "int a[4];
int main(void) {
  int i = 1;
  a[i] = i++;
  a[i] += i;
}",
        &[
            "4 store g0+1 i1 > ok",
            "5 load g0+2 > i3",
            "5 store g0+2 i5 > ok",
            "6 finish 0",
        ],
    ),
    // A fault of the left place comes before the right side, and one of the store behind it.
    (
        r#"int f(void) { printf("f"); return 2; }
int main(void) {
  int *p = NULL;
  *p = f();
}"#,
        &[r#"1 print "f" > i1"#, "4 store null i2"],
    ),
    (
        r#"int f(void) { printf("f"); return 2; }
int main(void) {
  int *p = NULL;
  p[0] = f();
}"#,
        &["4 broke NullAccess"],
    ),
    // A fault on the right side comes behind the load.
    (
        "int x;
int main(void) {
  x -= 1 / 0;
}",
        &["3 load g0+0 > i5", "3 broke Divide"],
    ),
    // A local that the task keeps is read before the right side too.
    (
        "int main(void) {
  int x = 1;
  x += (x = 5);
  return x;
}",
        &["4 finish 6"],
    ),
    (
        "int main(void) {
  int x;
  x += (x = 5);
  return x;
}",
        &["3 broke Uninit"],
    ),
    // A local stands in its own initializer.
    (
        "int main(void) {
  int x =
    x;
}",
        &["2 broke Uninit"],
    ),
    // Several assignments in one evaluate the places from left to right.
    (
        r#"int a[4];
int f(int n) { printf("%d", n); return n; }
int main(void) {
  a[f(1)] = a[f(2)] = f(3);
}"#,
        &[
            r#"2 print "1" > i1"#,
            r#"2 print "2" > i1"#,
            r#"2 print "3" > i1"#,
            "4 store g0+2 i3 > ok",
            "4 store g0+1 i3 > ok",
            "5 finish 0",
        ],
    ),
];

#[test]
fn assignments_evaluate_the_left_place_first(rt: HostRuntime) -> Result<(), Fail> {
    play(&rt, rt.alloc(), &ASSIGNMENTS)
}

const STEPS: [Row; 4] = [
    // Behind a place ++ and -- have the old value, before it the new one.
    (
        r#"printf("%d %d %d %d", x++, ++x, x--, --x); }"#,
        &[
            "3 load g0+0 > i5",
            "3 store g0+0 i6 > ok",
            "3 load g0+0 > i6",
            "3 store g0+0 i7 > ok",
            "3 load g0+0 > i7",
            "3 store g0+0 i6 > ok",
            "3 load g0+0 > i6",
            "3 store g0+0 i5 > ok",
            r#"3 print "5 7 7 5" > i7"#,
            "3 finish 0",
        ],
    ),
    (
        r#"int i = 5; printf("%d %d %d %d", i++, ++i, i--, --i); }"#,
        &[r#"3 print "5 7 7 5" > i7"#, "3 finish 0"],
    ),
    ("int i; i++; }", &["3 broke Uninit"]),
    // The place is evaluated once.
    (
        "a[x]++; }",
        &[
            "3 load g0+0 > i3",
            "3 load g2+3 > i8",
            "3 store g2+3 i9 > ok",
            "3 finish 0",
        ],
    ),
];

#[test]
fn steps_load_and_store(rt: HostRuntime) -> Result<(), Fail> {
    play_in(&rt, rt.alloc(), BEFORE, &STEPS)
}

const POINTERS: [Row; 14] = [
    (
        "int a[4];
int main(void) {
  int *p = a;
  *p++ = 1;
  *++p = 2;
  p -= 2;
  *(p + 3) = 3;
  p[1] = 4;
  *(p + 3 - 1) = 5;
  p--;
}",
        &[
            "4 store g0+0 i1 > ok",
            "5 store g0+2 i2 > ok",
            "7 store g0+3 i3 > ok",
            "8 store g0+1 i4 > ok",
            "9 store g0+2 i5 > ok",
            "10 broke Bounds",
        ],
    ),
    // A pointer in memory is loaded and stored.
    (
        "int a[4], *p = NULL;
int main(void) {
  p = a + 1;
  *p++ = *--p;
}",
        &[
            "3 store g1+0 g0+1 > ok",
            "4 load g1+0 > g0+1",
            "4 store g1+0 g0+2 > ok",
            "4 load g1+0 > g0+2",
            "4 store g1+0 g0+1 > ok",
            "4 load g0+1 > i6",
            "4 store g0+1 i6 > ok",
            "5 finish 0",
        ],
    ),
    // To go on from NULL is a fault of the task; to go to NULL itself is a call.
    (
        "int main(void) {
  int *p = NULL;
  return p[0];
}",
        &["3 broke NullAccess"],
    ),
    (
        "int main(void) {
  int *p = NULL;
  return *p;
}",
        &["3 load null"],
    ),
    (
        "int main(void) {
  int *p = NULL;
  p - 0;
}",
        &["3 broke NullAccess"],
    ),
    (
        "int main(void) {
  int *p = NULL;
  p++;
}",
        &["3 broke NullAccess"],
    ),
    (
        "int *p;
int main(void) {
  p += 1;
}",
        &["3 load g0+0 > null", "3 broke NullAccess"],
    ),
    // A place below 0 is a fault of the task; one behind the object is a call.
    (
        "int a[4];
int main(void) {
  return a[-1];
}",
        &["3 broke Bounds"],
    ),
    (
        "int a[4];
int main(void) {
  return a[4];
}",
        &["3 load g0+4"],
    ),
    // So is one above 4,294,967,295.
    (
        "int a[4];
int main(void) {
  return *(a + 4294967295);
}",
        &["3 load g0+4294967295"],
    ),
    (
        "int a[4];
int main(void) {
  return *(a + 4294967295 + 1);
}",
        &["3 broke Bounds"],
    ),
    (
        "int a[4];
int main(void) {
  a - 9223372036854775807;
}",
        &["3 broke Bounds"],
    ),
    // An element of MPI_Status has three words.
    (
        "MPI_Status t[2];
int f(MPI_Status s[]) {
  return s[1].MPI_TAG + (*s).MPI_SOURCE;
}
int main(void) {
  return f(t);
}",
        &["3 load g0+4 > i1", "3 load g0+0 > i2", "6 finish 3"],
    ),
    (
        "int main(void) {
  MPI_Status s[2], t;
  return s[1].MPI_TAG - s[1].MPI_SOURCE + t.MPI_TAG + (*s).MPI_SOURCE;
}",
        &[
            "2 new 6 > d1+0",
            "2 new 3 > d2+0",
            "3 load d1+4 > i9",
            "3 load d1+3 > i2",
            "3 load d2+1 > i1",
            "3 load d1+0 > i4",
            "3 drop d2 > ok",
            "3 drop d1 > ok",
            "3 finish 12",
        ],
    ),
];

#[test]
fn pointers_go_on_by_elements(rt: HostRuntime) -> Result<(), Fail> {
    play(&rt, rt.alloc(), &POINTERS)
}

const STATEMENTS: [Row; 7] = [
    ("x; }", &["3 load g0+0 > i1", "3 finish 0"]),
    ("*&a[2]; }", &["3 load g2+2 > i1", "3 finish 0"]),
    ("a; a + 1; &x; ; { } }", &["3 finish 0"]),
    (
        "MPI_Status s; s; }",
        &["3 new 3 > d1+0", "3 drop d1 > ok", "3 finish 0"],
    ),
    ("int u; u; }", &["3 broke Uninit"]),
    ("int *p; *p = 1; }", &["3 broke Uninit"]),
    (
        "x + y; }",
        &["3 load g0+0 > i1", "3 load g1+0 > i2", "3 finish 0"],
    ),
];

#[test]
fn statements_of_an_expression_evaluate_it(rt: HostRuntime) -> Result<(), Fail> {
    play_in(&rt, rt.alloc(), BEFORE, &STATEMENTS)
}
