//! printf, malloc and free.
use crate::playing::{Row, play, play_in};
use std::test::Fail;

// The sources behind these lines begin at line 3.
const BEFORE: &str = "int x;\nint main(void) {\n";

const PRINTS: [Row; 8] = [
    (
        r#"return printf("%d%%\n", -7); }"#,
        &[r#"3 print "-7%\n" > i4"#, "3 finish 4"],
    ),
    (
        r#"return printf("ab%ldc\n", 12345678901); }"#,
        &[r#"3 print "ab12345678901c\n" > i15"#, "3 finish 15"],
    ),
    (
        r#"printf("a\tb\\c\"d\n"); }"#,
        &[r#"3 print "a\tb\\c\"d\n" > i8"#, "3 finish 0"],
    ),
    (
        r#"return printf(""); }"#,
        &[r#"3 print "" > i0"#, "3 finish 0"],
    ),
    // The arguments are evaluated first, and one call writes them all.
    (
        r#"printf("%d,%ld,%d", x, 0L, x); }"#,
        &[
            "3 load g0+0 > i0",
            "3 load g0+0 > i-2147483648",
            r#"3 print "0,0,-2147483648" > i15"#,
            "3 finish 0",
        ],
    ),
    (
        r#"printf("%d\n", printf("%d", printf("abc"))); }"#,
        &[
            r#"3 print "abc" > i3"#,
            r#"3 print "3" > i1"#,
            r#"3 print "1\n" > i2"#,
            "3 finish 0",
        ],
    ),
    // Its value is the number that the call gives.
    (
        r#"x = printf("ab") + 1; }"#,
        &[r#"3 print "ab" > i2"#, "3 store g0+0 i3 > ok", "3 finish 0"],
    ),
    (
        r#"if (printf("%d%d", 1, 2) == 2) return 5; }"#,
        &[r#"3 print "12" > i2"#, "3 finish 5"],
    ),
];

#[test]
fn printf_makes_one_print(rt: HostRuntime) -> Result<(), Fail> {
    play_in(&rt, rt.alloc(), BEFORE, &PRINTS)
}

const BLOCKS: [Row; 3] = [
    // The words are the bytes divided by the size of the target's elements, rounded down.
    (
        "long *p;
int main(void) {
  int *q = malloc(7);
  p = malloc(20);
  q[0] = 1;
  free(p);
  free(q);
  q = malloc(3);
  p = (long *)malloc(sizeof(long) * 5);
  q = malloc(0);
}",
        &[
            "3 malloc 1 > d1+0",
            "4 malloc 2 > d2+0",
            "4 store g0+0 d2+0 > ok",
            "5 store d1+0 i1 > ok",
            "6 load g0+0 > d2+0",
            "6 free d2+0 > ok",
            "7 free d1+0 > ok",
            "8 malloc 0 > d3+0",
            "9 malloc 5 > d4+0",
            "9 store g0+0 d4+0 > ok",
            "10 malloc 0 > d5+0",
            "11 finish 0",
        ],
    ),
    // A negative number of bytes asks for -1 words.
    (
        "int x;
int main(void) {
  int *q = malloc(x);
  if (q == NULL)
    q = (int *)malloc(-9223372036854775807 - 1);
  long *p = malloc(-7);
  return q != NULL || p == NULL;
}",
        &[
            "3 load g0+0 > i-1",
            "3 malloc -1 > null",
            "5 malloc -1 > null",
            "6 malloc -1 > null",
            "7 finish 1",
        ],
    ),
    // Any pointer may be freed, and the run finds what is no block.
    (
        "int x;
int main(void) {
  int *q = malloc(9223372036854775807);
  free(NULL);
  free(q + 1);
  free(&x);
}",
        &[
            "3 malloc 2305843009213693951 > d1+0",
            "4 free null > ok",
            "5 free d1+1 > ok",
            "6 free g0+0 > ok",
            "7 finish 0",
        ],
    ),
];

#[test]
fn malloc_asks_for_words(rt: HostRuntime) -> Result<(), Fail> {
    play(&rt, rt.alloc(), &BLOCKS)
}
