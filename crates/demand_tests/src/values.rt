//! Numbers: what operations give, where they fault, and how a long becomes an int.
use crate::playing::{Row, play, play_in};
use std::test::Fail;

const OPERATIONS: [Row; 6] = [
    // Division truncates, a remainder has the sign of the left side, and shifts to the right round down.
    (
        r#"int main(void) {
  printf("%d %d %d %d", -7 / 2, 7 / -2, -7 % 2, 7 % -2);
  printf("%d %d %d %ld", -5 >> 1, 5 >> 1, -1 >> 31, 1L >> 63);
  printf("%d %d %ld", 1 << 30, -1 << 31, 1L << 62);
  printf("%d %d %d %d", ~5, 6 ^ 3, 6 & 3, 6 | 3);
}"#,
        &[
            r#"2 print "-3 -3 -1 1" > i10"#,
            r#"3 print "-3 2 -1 0" > i9"#,
            r#"4 print "1073741824 -2147483648 4611686018427387904" > i42"#,
            r#"5 print "-6 5 2 7" > i8"#,
            "6 finish 0",
        ],
    ),
    // An operation with a long is of long; a shift has the type of its left side.
    (
        r#"int main(void) {
  printf("%ld %ld", 2147483647 + 1L, 65536L * 65536);
  printf("%ld %ld", 2147483648, 0x7fffffffffffffff);
  printf("%ld %ld", sizeof(int), sizeof(long));
  printf("%d %ld", 1 << 2L, 1L << 2);
  printf("%ld", -9223372036854775807 - 1);
}"#,
        &[
            r#"2 print "2147483648 4294967296" > i21"#,
            r#"3 print "2147483648 9223372036854775807" > i30"#,
            r#"4 print "4 8" > i3"#,
            r#"5 print "4 4" > i3"#,
            r#"6 print "-9223372036854775808" > i20"#,
            "7 finish 0",
        ],
    ),
    // Comparisons and conditions give 0 or 1.
    (
        r#"int main(void) {
  int *p = NULL;
  printf("%d%d%d%d%d%d", 1 < 2, 2 > 1, 1 <= 1, 1 >= 2, 1 == 2, 1 != 2);
  printf("%d%d%d%d", !5, !0, 5 && 6, 0 || 7);
  printf("%d%d%d%d", !p, p == NULL, p != NULL, p && 1);
  printf("%d", MPI_COMM_WORLD == MPI_COMM_NULL);
  printf("%d%d", -1 < 0L, 4294967296 > 1);
}"#,
        &[
            r#"3 print "111001" > i6"#,
            r#"4 print "0111" > i4"#,
            r#"5 print "1100" > i4"#,
            r#"6 print "0" > i1"#,
            r#"7 print "11" > i2"#,
            "8 finish 0",
        ],
    ),
    // Signs bind as in C, and equal ones to the left.
    (
        r#"int main(void) {
  printf("%d %d %d", 1 + 2 * 3 << 1 & 12 | 1, 2 - 3 - 4, 100 / 10 / 5);
  printf("%d %d %d", 1 || 0 && 0, 1 ^ 1 == 1, - 2 * - 3);
  printf("%d %d", 0 ? 1 : 1 ? 2 : 3, !0 == 1);
}"#,
        &[
            r#"2 print "13 -5 2" > i7"#,
            r#"3 print "1 0 6" > i5"#,
            r#"4 print "2 1" > i3"#,
            "5 finish 0",
        ],
    ),
    // The constants of MPI.
    (
        r#"int main(void) {
  printf("%d %d %d", MPI_SUCCESS, MPI_ANY_SOURCE, MPI_ANY_TAG);
  printf("%d %d", MPI_PROC_NULL, MPI_UNDEFINED);
}"#,
        &[
            r#"2 print "0 -1 -1" > i7"#,
            r#"3 print "-2 -3" > i5"#,
            "4 finish 0",
        ],
    ),
    // The computing signs.
    (
        r#"int main(void) {
  int i = 7;
  i += 5; i -= 2; i *= 3; i /= 4; i %= 5;
  printf("%d", i);
  i <<= 3; i >>= 1; i |= 3; i &= 6; i ^= 5;
  printf("%d", i);
}"#,
        &[r#"4 print "2" > i1"#, r#"6 print "7" > i1"#, "7 finish 0"],
    ),
];

#[test]
fn operations_give_what_c_gives(rt: HostRuntime) -> Result<(), Fail> {
    play(&rt, rt.alloc(), &OPERATIONS)
}

// Expressions behind `int i = 1, least = -2147483647 - 1; long big = 9223372036854775807;`, and the fault.
const FAULTS: [Row; 27] = [
    ("2147483647 + i; }", &["1 broke Overflow"]),
    ("least - i; }", &["1 broke Overflow"]),
    ("65536 * 32768; }", &["1 broke Overflow"]),
    ("-least; }", &["1 broke Overflow"]),
    ("least / -1; }", &["1 broke Overflow"]),
    ("least % -1; }", &["1 broke Overflow"]),
    ("i << 31; }", &["1 broke Overflow"]),
    ("-3 << 30; }", &["1 broke Overflow"]),
    ("big + i; }", &["1 broke Overflow"]),
    ("-big - 2; }", &["1 broke Overflow"]),
    ("big * 2; }", &["1 broke Overflow"]),
    ("-(-big - 1); }", &["1 broke Overflow"]),
    ("(-big - 1) / -1; }", &["1 broke Overflow"]),
    ("1L << 63; }", &["1 broke Overflow"]),
    ("i / 0; }", &["1 broke Divide"]),
    ("i % 0; }", &["1 broke Divide"]),
    ("least / 0L; }", &["1 broke Divide"]),
    ("i << 32; }", &["1 broke Shift"]),
    ("i << -1; }", &["1 broke Shift"]),
    ("0 >> 32; }", &["1 broke Shift"]),
    ("i << 4294967296; }", &["1 broke Shift"]),
    ("1L >> 64; }", &["1 broke Shift"]),
    ("i += 2147483647; }", &["1 broke Overflow"]),
    ("i += big; }", &["1 broke Overflow"]),
    ("i <<= 40; }", &["1 broke Shift"]),
    ("least--; }", &["1 broke Overflow"]),
    ("++big; }", &["1 broke Overflow"]),
];

const BEFORE: &str =
    "int main(void) { int i = 1, least = -2147483647 - 1; long big = 9223372036854775807; ";

#[test]
fn results_outside_their_type_are_faults(rt: HostRuntime) -> Result<(), Fail> {
    play_in(&rt, rt.alloc(), BEFORE, &FAULTS)
}

const NARROWING: [Row; 7] = [
    // Storing, and initializing: the value of an assignment is what was stored.
    (
        "int x;
long y;
int main(void) {
  y = x = 4294967298;
  x = 2147483648;
  x = -2147483649;
  int i = 4294967299, j;
  j = 8589934591;
  y = i + j;
  y = (i = 4294967297) + 4294967296;
}",
        &[
            "4 store g0+0 i2 > ok",
            "4 store g1+0 i2 > ok",
            "5 store g0+0 i-2147483648 > ok",
            "6 store g0+0 i2147483647 > ok",
            "9 store g1+0 i2 > ok",
            "10 store g1+0 i4294967297 > ok",
            "11 finish 0",
        ],
    ),
    // A computing assignment computes in long, and then wraps.
    (
        "int x;
int main(void) {
  int i = 2147483647;
  x = i += 1L;
  x += 4294967296;
}",
        &[
            "4 store g0+0 i-2147483648 > ok",
            "5 load g0+0 > i5",
            "5 store g0+0 i5 > ok",
            "6 finish 0",
        ],
    ),
    // Passing, to a parameter in memory too, and returning.
    (
        r#"int f(int a) {
  return a;
}
int g(int a) {
  &a;
  return 4294967300;
}
int main(void) {
  printf("%d", f(4294967299));
  printf("%d", g(-4294967299));
}"#,
        &[
            r#"9 print "3" > i1"#,
            "10 new 1 > d1+0",
            "10 store d1+0 i-3 > ok",
            "6 drop d1 > ok",
            r#"10 print "4" > i1"#,
            "11 finish 0",
        ],
    ),
    ("int main(void) { return 4294967301; }", &["1 finish 5"]),
    (
        "int main(void) { return 1 ? 4294967298 : 0; }",
        &["1 finish 2"],
    ),
    (
        "int main(void) { return (int)(long)4294967302L; }",
        &["1 finish 6"],
    ),
    (
        "int main(void) { return (int)2147483648 + 1; }",
        &["1 finish -2147483647"],
    ),
];

#[test]
fn a_long_wraps_where_an_int_is_due(rt: HostRuntime) -> Result<(), Fail> {
    play(&rt, rt.alloc(), &NARROWING)
}
