//! Sources, and the first rule that each breaks.

use super::{Verdict, answered};
use std::test::*;

// For each rule sources that break it, with the line, and sources that come close and do not.
const SOURCES: [(&str, Verdict); 128] = [
    // Rule 1: a proper main is defined.
    ("int f(void) { return 0; }", Verdict::Rule(1, 1)),
    ("\n\nlong main(void) { return 0; }", Verdict::Rule(1, 1)),
    ("int main(int argc) { return 0; }", Verdict::Rule(1, 1)),
    ("int main(void);", Verdict::Rule(1, 1)),
    (
        "int x = y;\nint f(void) { return x[0]; }",
        Verdict::Rule(1, 1),
    ),
    (
        "int main(int n, char *v[]) { return 0; }",
        Verdict::Accepted(1, 0, 0),
    ),
    ("int main() { return 0; }", Verdict::Accepted(1, 0, 0)),
    // Rule 2: names are declared once in a scope.
    (
        "int a;\nint a;\nint main(void) { return 0; }",
        Verdict::Rule(2, 2),
    ),
    (
        "int main(void) { int a,\n b, a; return 0; }",
        Verdict::Rule(2, 2),
    ),
    (
        "int f(int x) { int x; return 0; }\nint main(void) { return 0; }",
        Verdict::Rule(2, 1),
    ),
    (
        "int f(int a);\nint f(long a) { return 0; }\nint main(void) { return 0; }",
        Verdict::Rule(2, 2),
    ),
    (
        "int f(int a);\nstatic\nint f(long a) { return 0; }\nint main(void) { return 0; }",
        Verdict::Rule(2, 2),
    ),
    (
        "int f(void) { return 0; }\nint f(void) { return 1; }\nint main(void) { return 0; }",
        Verdict::Rule(2, 2),
    ),
    (
        "int f;\nint f(void);\nint main(void) { return 0; }",
        Verdict::Rule(2, 2),
    ),
    (
        "int f(int a);\nstatic int f(int b);\nint f(int c) { return c; }\nint f(int d);\nint main(void) { int a; { int a; } return 0; }",
        Verdict::Accepted(2, 0, 0),
    ),
    (
        "int f(int *a);\nint f(int a[]) { return 0; }\nint g();\nint g(void) { return 1; }\nint main(void) { return 0; }",
        Verdict::Accepted(3, 0, 0),
    ),
    // Rule 3: names are declared before they are used, and used as what they are.
    (
        "int main(void) { \n x = 1; return 0; }",
        Verdict::Rule(3, 2),
    ),
    ("int main(void) { return y; }", Verdict::Rule(3, 1)),
    (
        "int f(void) { return 0; }\nint main(void) { return f; }",
        Verdict::Rule(3, 2),
    ),
    ("int main(void) { return g(); }", Verdict::Rule(3, 1)),
    ("int main(void) { return MPI_INT; }", Verdict::Rule(3, 1)),
    ("int main(void) { return z; }\nint z;", Verdict::Rule(3, 1)),
    (
        "int main(void) { MPI_STATUS_IGNORE; return 0; }",
        Verdict::Rule(3, 1),
    ),
    (
        "int main(void) { int x; x(); return 0; }",
        Verdict::Rule(3, 1),
    ),
    (
        "int x;\nint main(void) { { int x; x = 1; } return x; }",
        Verdict::Accepted(1, 1, 0),
    ),
    (
        "int main(void) { int x = x; return x; }",
        Verdict::Accepted(1, 0, 0),
    ),
    // Rule 4: known names are not declared.
    (
        "int MPI_Send;\nint main(void) { return 0; }",
        Verdict::Rule(4, 1),
    ),
    (
        "int main(void) { \n int printf; return 0; }",
        Verdict::Rule(4, 2),
    ),
    (
        "int f(int malloc) { return 0; }\nint main(void) { return 0; }",
        Verdict::Rule(4, 1),
    ),
    (
        "int free(int a) { return 0; }\nint main(void) { return 0; }",
        Verdict::Rule(4, 1),
    ),
    (
        "int NULL;\nint main(void) { return 0; }",
        Verdict::Rule(4, 1),
    ),
    (
        "int MPI_Wtime, MPI_SOURCE, MPI_Message;\nint main(void) { return 0; }",
        Verdict::Accepted(1, 3, 0),
    ),
    // Rule 5: lengths are constants in their limits, and so are static words.
    (
        "int a[0];\nint main(void) { return 0; }",
        Verdict::Rule(5, 1),
    ),
    (
        "int n;\nint a[n];\nint main(void) { return 0; }",
        Verdict::Rule(5, 2),
    ),
    (
        "int a[1048577];\nint main(void) { return 0; }",
        Verdict::Rule(5, 1),
    ),
    (
        "int a[1 / 0];\nint main(void) { return 0; }",
        Verdict::Rule(5, 1),
    ),
    (
        "int a[262144];\nint b;\nint main(void) { return 0; }",
        Verdict::Rule(5, 2),
    ),
    (
        "int a[NULL];\nint main(void) { return 0; }",
        Verdict::Rule(5, 1),
    ),
    (
        "int a[262142];\nMPI_Status s;\nint main(void) { return 0; }",
        Verdict::Rule(5, 2),
    ),
    (
        "int a[262144];\nint main(void) { return 0; }",
        Verdict::Accepted(1, 1, 0),
    ),
    (
        "int main(void) { int a[1048576]; return 0; }",
        Verdict::Accepted(1, 0, 0),
    ),
    (
        "int a[1 + 2 * 3 - (4 > 3)];\nint b[sizeof(long)];\nint main(void) { return 0; }",
        Verdict::Accepted(1, 2, 0),
    ),
    // Rule 6: static initializers are constants of their type.
    (
        "int a = b;\nint main(void) { return 0; }",
        Verdict::Rule(6, 1),
    ),
    (
        "int a[2] = {1, 2, 3};\nint main(void) { return 0; }",
        Verdict::Rule(6, 1),
    ),
    (
        "int *p = 0;\nint main(void) { return 0; }",
        Verdict::Rule(6, 1),
    ),
    (
        "int a = 1 / 0;\nint main(void) { return 0; }",
        Verdict::Rule(6, 1),
    ),
    (
        "int x;\nint *p = &x;\nint main(void) { return 0; }",
        Verdict::Rule(6, 2),
    ),
    (
        "int a = {1};\nint main(void) { return 0; }",
        Verdict::Rule(6, 1),
    ),
    (
        "int main(void) { \n static int a = 1, b = a; return 0; }",
        Verdict::Rule(6, 2),
    ),
    (
        "int c = 0 && x;\nint main(void) { return 0; }",
        Verdict::Rule(6, 1),
    ),
    (
        "int a[2] = 1;\nint main(void) { return 0; }",
        Verdict::Rule(6, 1),
    ),
    (
        "int a = \"x\";\nint main(void) { return 0; }",
        Verdict::Rule(6, 1),
    ),
    (
        "int a = 2147483647 + 1;\nint main(void) { return 0; }",
        Verdict::Rule(6, 1),
    ),
    (
        "int a[3] = {1, 2};\nint *p = NULL;\nint c = 0 && 1 / 0;\nMPI_Comm w = MPI_COMM_WORLD;\nlong l = sizeof(int) * 3L;\nint d = MPI_ANY_TAG ? 1 : 2 << 40;\nint main(void) { return 0; }",
        Verdict::Accepted(1, 6, 0),
    ),
    // Rule 7: arrays and statuses that are not static have no initializer.
    (
        "int main(void) { int a[2] = {1, 2}; return 0; }",
        Verdict::Rule(7, 1),
    ),
    (
        "int main(void) { \n MPI_Status s, t = s; return 0; }",
        Verdict::Rule(7, 2),
    ),
    (
        "int main(void) { static int a[2] = {1, 2}; int b = 1; return a[0] + b; }",
        Verdict::Accepted(1, 1, 0),
    ),
    // Rule 8: types that arrays, parameters and answers do not have.
    (
        "MPI_Comm c[2];\nint main(void) { return 0; }",
        Verdict::Rule(8, 1),
    ),
    (
        "int f(MPI_Request r) { return 0; }\nint main(void) { return 0; }",
        Verdict::Rule(8, 1),
    ),
    (
        "MPI_Comm f(void) { return MPI_COMM_WORLD; }\nint main(void) { return 0; }",
        Verdict::Rule(8, 1),
    ),
    (
        "int f(int a,\n MPI_Comm c[]) { return 0; }\nint main(void) { return 0; }",
        Verdict::Rule(8, 2),
    ),
    (
        "MPI_Status f(void);\nint main(void) { return 0; }",
        Verdict::Rule(8, 1),
    ),
    (
        "int f(MPI_Comm c, MPI_Request q[], MPI_Status s[]) { return 0; }\nint main(void) { return 0; }",
        Verdict::Accepted(2, 0, 0),
    ),
    // Rule 9: operands of arithmetic are numbers, and sizeof has a size.
    (
        "int main(void) { int *p; return 1 * p; }",
        Verdict::Rule(9, 1),
    ),
    (
        "int main(void) { \n int a[2]; a[NULL]; return 0; }",
        Verdict::Rule(9, 2),
    ),
    (
        "int main(void) { sizeof(MPI_Comm); return 0; }",
        Verdict::Rule(9, 1),
    ),
    (
        "int main(void) { (int)NULL; return 0; }",
        Verdict::Rule(9, 1),
    ),
    (
        "int main(void) { -MPI_COMM_WORLD; return 0; }",
        Verdict::Rule(9, 1),
    ),
    (
        "int main(void) { 1 << NULL; return 0; }",
        Verdict::Rule(9, 1),
    ),
    (
        "int main(void) { (MPI_Comm)1; return 0; }",
        Verdict::Rule(9, 1),
    ),
    (
        "int main(void) { int *p; p = NULL; p *= 2; return 0; }",
        Verdict::Rule(9, 1),
    ),
    (
        "int main(void) { MPI_COMM_WORLD + 1; return 0; }",
        Verdict::Rule(9, 1),
    ),
    (
        "int main(void) { long l; l = 3; return (int)(l << 2) + -~+1; }",
        Verdict::Accepted(1, 0, 0),
    ),
    // Rule 10: sums with pointers have the pointer on the left of a number.
    (
        "int main(void) { int *p; p = NULL; p += p; return 0; }",
        Verdict::Rule(10, 1),
    ),
    (
        "int main(void) { \n int *p; p = NULL;\n p = 1 + p; return 0; }",
        Verdict::Rule(10, 3),
    ),
    (
        "int main(void) { NULL + 1; return 0; }",
        Verdict::Rule(10, 1),
    ),
    (
        "int main(void) { int *p; int i; p = NULL; i = p - p; return 0; }",
        Verdict::Rule(10, 1),
    ),
    (
        "int main(void) { int *p; p = NULL; p + MPI_COMM_WORLD; return 0; }",
        Verdict::Rule(10, 1),
    ),
    (
        "int main(void) { int a; a = 1; \n a = 1 +\n NULL; return 0; }",
        Verdict::Rule(10, 2),
    ),
    (
        "int main(void) { int a[3]; int *p; p = a + 1; p = p - 1L; p += 2; p++; return *p; }",
        Verdict::Accepted(1, 0, 0),
    ),
    // Rule 11: what == compares.
    (
        "int main(void) { int *p; p = NULL; return p == 0; }",
        Verdict::Rule(11, 1),
    ),
    (
        "int main(void) { long *p; int *q; p = NULL; q = NULL;\n p != q; return 0; }",
        Verdict::Rule(11, 2),
    ),
    (
        "int main(void) { MPI_COMM_WORLD == MPI_REQUEST_NULL; return 0; }",
        Verdict::Rule(11, 1),
    ),
    (
        "int main(void) { MPI_Status s; s == s; return 0; }",
        Verdict::Rule(11, 1),
    ),
    (
        "int main(void) { int *p; p = NULL; return (p == NULL) + (NULL == NULL) + (MPI_COMM_WORLD != MPI_COMM_NULL) + (1 == 1L); }",
        Verdict::Accepted(1, 0, 0),
    ),
    // Rule 12: orders compare numbers.
    (
        "int main(void) { int *p; p = NULL; p < p; return 0; }",
        Verdict::Rule(12, 1),
    ),
    (
        "int main(void) { \n MPI_COMM_WORLD >= 1; return 0; }",
        Verdict::Rule(12, 2),
    ),
    (
        "int main(void) { return (1 < 2L) + (3 >= 2); }",
        Verdict::Accepted(1, 0, 0),
    ),
    // Rule 13: conditions are numbers or pointers.
    (
        "int main(void) { \n if (\n MPI_COMM_WORLD) return 1; return 0; }",
        Verdict::Rule(13, 2),
    ),
    (
        "int main(void) { !MPI_COMM_WORLD; return 0; }",
        Verdict::Rule(13, 1),
    ),
    (
        "int main(void) { \n do ;\n while (MPI_REQUEST_NULL); return 0; }",
        Verdict::Rule(13, 2),
    ),
    (
        "int main(void) { for (; MPI_COMM_WORLD; ) ; return 0; }",
        Verdict::Rule(13, 1),
    ),
    (
        "int main(void) { MPI_COMM_WORLD ? 1 : 2; return 0; }",
        Verdict::Rule(13, 1),
    ),
    (
        "int main(void) { 1 || MPI_COMM_WORLD; return 0; }",
        Verdict::Rule(13, 1),
    ),
    (
        "int main(void) { int *p; p = NULL; if (p && !NULL || 1L) return 1; while (p) ; return p ? 1 : 0; }",
        Verdict::Accepted(1, 0, 0),
    ),
    // Rule 14: the sides of ?: are alike.
    (
        "int main(void) { int *p; p = NULL; 1 ? p : 0; return 0; }",
        Verdict::Rule(14, 1),
    ),
    (
        "int main(void) { \n 1 ? MPI_COMM_WORLD : 1; return 0; }",
        Verdict::Rule(14, 2),
    ),
    (
        "void f(void) { }\nint main(void) { int *p; p = 1 ? NULL : p; 1 ? f() : f(); return 1 ? 2 : 3L; }",
        Verdict::Accepted(2, 0, 0),
    ),
    // Rule 15: what is assigned, and to what.
    (
        "int main(void) { int *p; p = 0; return 0; }",
        Verdict::Rule(15, 1),
    ),
    (
        "int main(void) { int a[2]; int b[2]; a = b; return 0; }",
        Verdict::Rule(15, 1),
    ),
    (
        "int main(void) { int\n *p = 0; return 0; }",
        Verdict::Rule(15, 2),
    ),
    ("int main(void) { 1 = 2; return 0; }", Verdict::Rule(15, 1)),
    (
        "int f(void) { return 0; }\nint main(void) { f = 1; return 0; }",
        Verdict::Rule(15, 2),
    ),
    (
        "int main(void) { MPI_Status s, t; s = t; return 0; }",
        Verdict::Rule(15, 1),
    ),
    (
        "int main(void) { MPI_Status s; s.MPI_TAG = 1; return 0; }",
        Verdict::Rule(15, 1),
    ),
    (
        "int main(void) { int a = NULL; return 0; }",
        Verdict::Rule(15, 1),
    ),
    (
        "int main(void) { int a = {1}; return 0; }",
        Verdict::Rule(15, 1),
    ),
    (
        "int main(void) { int *p; p = (long *)malloc(8); return 0; }",
        Verdict::Rule(15, 1),
    ),
    (
        "void f(MPI_Request q[]) {\n q = (int *)malloc(8); }\nint main(void) { return 0; }",
        Verdict::Rule(15, 2),
    ),
    (
        "int main(void) { long l; int i; int *p; MPI_Comm c; i = 1; l = i; i = l; p = NULL; c = MPI_COMM_WORLD; (i) = 2; *p = 1; p[0] = 1; return 0; }",
        Verdict::Accepted(1, 0, 0),
    ),
    // Rule 16: what ++ and -- move.
    (
        "int main(void) { MPI_Comm c; c++; return 0; }",
        Verdict::Rule(16, 1),
    ),
    ("int main(void) { \n 1++; return 0; }", Verdict::Rule(16, 2)),
    (
        "int main(void) { int a[2]; ++a; return 0; }",
        Verdict::Rule(16, 1),
    ),
    (
        "int main(void) { MPI_Status s; s.MPI_TAG--; return 0; }",
        Verdict::Rule(16, 1),
    ),
    (
        "int main(void) { int *p; long l; int a[2]; p = a; l = 1; p++; --p; l++; a[0]--; ++*p; return 0; }",
        Verdict::Accepted(1, 0, 0),
    ),
    // Rule 17: what has an address.
    (
        "int main(void) { int *p; p = NULL; &p; return 0; }",
        Verdict::Rule(17, 1),
    ),
    ("int main(void) { \n &1; return 0; }", Verdict::Rule(17, 2)),
    (
        "int main(void) { int a[2]; &a; return 0; }",
        Verdict::Rule(17, 1),
    ),
    (
        "int main(void) { MPI_Status s; &s.MPI_TAG; return 0; }",
        Verdict::Rule(17, 1),
    ),
    (
        "int main(int argc, char **argv) { &argv; return 0; }",
        Verdict::Rule(17, 1),
    ),
    (
        "int main(void) { int x; MPI_Comm c; MPI_Request r; MPI_Status s; int a[2]; &x; &c; &r; &s; &a[1]; &*&x; return 0; }",
        Verdict::Accepted(1, 0, 0),
    ),
    // Rule 18: what has elements.
    (
        "int main(void) { int x; *x; return 0; }",
        Verdict::Rule(18, 1),
    ),
    (
        "int main(void) { int x;\n x[0]; return 0; }",
        Verdict::Rule(18, 2),
    ),
    ("int main(void) { *NULL; return 0; }", Verdict::Rule(18, 1)),
    (
        "int main(void) { int a[2]; int *p; p = a; *a; a[0]; *(p + 1); return 0; }",
        Verdict::Accepted(1, 0, 0),
    ),
    // Rule 19: the fields of a status.
    (
        "int main(void) { MPI_Status s; s.MPI_ERROR; return 0; }",
        Verdict::Rule(19, 1),
    ),
    (
        "int main(void) { int x;\n x.MPI_TAG; return 0; }",
        Verdict::Rule(19, 2),
    ),
    (
        "int main(void) { MPI_Status s, t[2]; s.MPI_SOURCE + s.MPI_TAG + t[1].MPI_TAG; return 0; }",
        Verdict::Accepted(1, 0, 0),
    ),
];

#[test]
fn sources_break_the_rules_that_the_table_names(rt: HostRuntime) -> Result<(), Fail> {
    for (source, verdict) in &SOURCES {
        assert_eq!(rt; answered(rt.alloc(), source)?, *verdict, "{source}");
    }
    Ok(())
}
