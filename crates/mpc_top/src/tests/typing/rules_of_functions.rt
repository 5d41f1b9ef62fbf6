//! Sources of functions, calls and directives, and several broken rules in one source.

use super::{Verdict, answered};
use std::test::*;

// As in the other table of rules.
const SOURCES: [(&str, Verdict); 95] = [
    // Rule 20: arguments agree with parameters.
    (
        "int f(int a) { return a; }\nint main(void) {\n return f(); }",
        Verdict::Rule(20, 3),
    ),
    (
        "int f(int a) { return a; }\nint main(void) { f(1, 2); return 0; }",
        Verdict::Rule(20, 2),
    ),
    (
        "int f(int a) { return a; }\nint main(void) { f(NULL); return 0; }",
        Verdict::Rule(20, 2),
    ),
    (
        "int main(int argc, char **argv) {\n return main(1, NULL); }",
        Verdict::Rule(20, 2),
    ),
    (
        "int f(int a, long *b) { return a; }\nint main(void) { f(1L, NULL); main(); return 0; }",
        Verdict::Accepted(2, 0, 0),
    ),
    // Rule 21: called functions are defined.
    (
        "int f(void);\nint main(void) {\n return f(); }",
        Verdict::Rule(21, 3),
    ),
    (
        "long g(int a);\nint main(void) { g(1); return 0; }",
        Verdict::Rule(21, 2),
    ),
    (
        "int f(void);\nint main(void) { return f(); }\nint f(void) { return 1; }",
        Verdict::Accepted(2, 0, 0),
    ),
    // Rule 22: what a return gives.
    (
        "void f(void) { return 1; }\nint main(void) { return 0; }",
        Verdict::Rule(22, 1),
    ),
    ("int main(void) {\n return; }", Verdict::Rule(22, 2)),
    (
        "int *f(void) { return 0; }\nint main(void) { return 0; }",
        Verdict::Rule(22, 1),
    ),
    (
        "void f(void) { return; }\nlong g(void) { return 1; }\nint *h(void) { return NULL; }\nint main(void) { return 0; }",
        Verdict::Accepted(4, 0, 0),
    ),
    // Rule 23: break and continue stand in loops.
    ("int main(void) { break; return 0; }", Verdict::Rule(23, 1)),
    (
        "int main(void) { \n if (1) continue; return 0; }",
        Verdict::Rule(23, 2),
    ),
    (
        "int main(void) { while (1) break; do continue; while (0); for (;;) { if (1) break; } return 0; }",
        Verdict::Accepted(1, 0, 0),
    ),
    // Rule 24: printf has a format and its numbers.
    (
        "int main(void) { printf(\"%d\", 1L); return 0; }",
        Verdict::Rule(24, 1),
    ),
    (
        "int main(void) { printf(); return 0; }",
        Verdict::Rule(24, 1),
    ),
    (
        "int main(void) { printf(\"%x\", 1); return 0; }",
        Verdict::Rule(24, 1),
    ),
    (
        "int main(void) { printf(\"%d\"); return 0; }",
        Verdict::Rule(24, 1),
    ),
    (
        "int main(void) { printf(\"a\", 1); return 0; }",
        Verdict::Rule(24, 1),
    ),
    (
        "int main(void) { printf(1); return 0; }",
        Verdict::Rule(24, 1),
    ),
    (
        "int main(void) { printf(\"%ld\", 1); return 0; }",
        Verdict::Rule(24, 1),
    ),
    (
        "int main(void) { printf(\"%\"); return 0; }",
        Verdict::Rule(24, 1),
    ),
    (
        "int main(void) { printf(\"%d\", sizeof(int)); return 0; }",
        Verdict::Rule(24, 1),
    ),
    (
        "int main(void) { \n printf(\"%d %ld\", 1, 2); return 0; }",
        Verdict::Rule(24, 2),
    ),
    (
        "int main(void) { printf(\"%d %ld %%\\n\", 1, 2L); printf((\"x\")); return 0; }",
        Verdict::Accepted(1, 0, 0),
    ),
    // Rule 25: malloc, free and casts to pointers.
    (
        "int main(void) { int a; a = malloc(4); return 0; }",
        Verdict::Rule(25, 1),
    ),
    (
        "int main(void) { malloc(4); return 0; }",
        Verdict::Rule(25, 1),
    ),
    (
        "int main(void) { int *p; p = (int *)p; return 0; }",
        Verdict::Rule(25, 1),
    ),
    (
        "int main(void) { int *p;\n p = malloc(NULL); return 0; }",
        Verdict::Rule(25, 2),
    ),
    (
        "int main(void) { free(1); return 0; }",
        Verdict::Rule(25, 1),
    ),
    (
        "int *f(void) { return malloc(4); }\nint main(void) { return 0; }",
        Verdict::Rule(25, 1),
    ),
    (
        "int main(void) { int *p; p = malloc(); return 0; }",
        Verdict::Rule(25, 1),
    ),
    (
        "int main(void) { int *p; p += malloc(4); return 0; }",
        Verdict::Rule(25, 1),
    ),
    ("int main(void) { free(); return 0; }", Verdict::Rule(25, 1)),
    (
        "int main(void) { int *p; long *q = (long *)malloc(8L); p = malloc(4); free(p); free(NULL); p = (malloc(4)); free(q); return 0; }",
        Verdict::Accepted(1, 0, 0),
    ),
    // Such a parameter is a pointer to elements without a size.
    (
        "void f(MPI_Request q[]) {\n q = malloc(8); }\nint main(void) { return 0; }",
        Verdict::Rule(25, 2),
    ),
    // Rule 26: the arguments of MPI functions, and texts.
    (
        "int main(void) { int a;\n MPI_Send(&a, 1, MPI_DOUBLE, 0, 0, MPI_COMM_WORLD); return 0; }",
        Verdict::Rule(26, 2),
    ),
    (
        "int main(void) { MPI_Barrier(); return 0; }",
        Verdict::Rule(26, 1),
    ),
    (
        "int main(void) { int a = \"x\"; return 0; }",
        Verdict::Rule(26, 1),
    ),
    (
        "int main(void) { MPI_Init(1); return 0; }",
        Verdict::Rule(26, 1),
    ),
    (
        "int main(void) { MPI_Comm_rank(1, NULL); return 0; }",
        Verdict::Rule(26, 1),
    ),
    (
        "int main(void) { int n;\n MPI_Get_count(MPI_STATUS_IGNORE, MPI_INT, &n); return 0; }",
        Verdict::Rule(26, 2),
    ),
    (
        "int main(void) { printf(\"%d\", \"b\"); return 0; }",
        Verdict::Rule(26, 1),
    ),
    (
        "int main(void) { int a; MPI_Allreduce(&a, &a, 1, MPI_INT, 1, MPI_COMM_WORLD); return 0; }",
        Verdict::Rule(26, 1),
    ),
    (
        "int main(void) { MPI_Barrier(MPI_INT); return 0; }",
        Verdict::Rule(26, 1),
    ),
    (
        "int main(void) { MPI_Send(NULL, NULL, MPI_INT, 0, 0, MPI_COMM_WORLD); return 0; }",
        Verdict::Rule(26, 1),
    ),
    (
        "int main(void) { MPI_Barrier(MPI_COMM_WORLD); MPI_Comm_rank(MPI_COMM_WORLD, NULL); MPI_Waitall(0, NULL, MPI_STATUS_IGNORE); MPI_Send(NULL, 1L, (MPI_INT), 0, 0, MPI_COMM_WORLD); return 0; }",
        Verdict::Accepted(1, 0, 0),
    ),
    // Rule 27: buffers and datatypes agree.
    (
        "int main(void) { long l; MPI_Send(&l, 1, MPI_INT, 0, 0, MPI_COMM_WORLD); return 0; }",
        Verdict::Rule(27, 1),
    ),
    (
        "int main(void) { int a;\n MPI_Gather(&a, 1, MPI_INT, NULL, 1, MPI_LONG, 0, MPI_COMM_WORLD); return 0; }",
        Verdict::Rule(27, 2),
    ),
    (
        "int main(void) { MPI_Send(1, 1, MPI_INT, 0, 0, MPI_COMM_WORLD); return 0; }",
        Verdict::Rule(27, 1),
    ),
    (
        "int main(void) { int a; long l; MPI_Sendrecv(&a, 1, MPI_INT, 0, 0, &l, 1, MPI_LONG, 0, 0, MPI_COMM_WORLD, MPI_STATUS_IGNORE); return 0; }",
        Verdict::Accepted(1, 0, 0),
    ),
    // Rule 28: MPI_Init's arguments.
    (
        "int main(void) { MPI_Init(1, 2); return 0; }",
        Verdict::Rule(28, 1),
    ),
    (
        "int main(int argc, char **argv) { MPI_Init(&argc, NULL); return 0; }",
        Verdict::Rule(28, 1),
    ),
    (
        "int main(int argc, char **argv) { int argc2; {\n int argc; MPI_Init(&argc, &argv); } return 0; }",
        Verdict::Rule(28, 2),
    ),
    (
        "int main(void) { MPI_Init(NULL, NULL); return 0; }",
        Verdict::Accepted(1, 0, 0),
    ),
    (
        "int main(int n, char *v[]) { MPI_Init(&n, &v); return 0; }",
        Verdict::Accepted(1, 0, 0),
    ),
    // Rule 29: argc and argv.
    (
        "int main(int argc, char **argv) { argc = 1; return 0; }",
        Verdict::Rule(29, 1),
    ),
    (
        "int main(int argc, char **argv) { argc++; return 0; }",
        Verdict::Rule(29, 1),
    ),
    (
        "int main(int argc, char **argv) { &argc; return 0; }",
        Verdict::Rule(29, 1),
    ),
    (
        "int main(int argc, char **argv) { argv; return 0; }",
        Verdict::Rule(29, 1),
    ),
    (
        "int main(int argc, char **argv) { --argc; return 0; }",
        Verdict::Rule(29, 1),
    ),
    (
        "int main(int argc, char **argv) { argc += 2; return 0; }",
        Verdict::Rule(29, 1),
    ),
    (
        "int f(int a,\n char **v) { return 0; }\nint main(void) { return 0; }",
        Verdict::Rule(29, 2),
    ),
    (
        "int main(int argc, char **argv) { return argc + 1; }",
        Verdict::Accepted(1, 0, 0),
    ),
    // Rule 30: directives that give variables a level.
    (
        "int a;\n#pragma hls numa(a)\n#pragma hls node(a)\nint main(void) { return 0; }",
        Verdict::Rule(30, 3),
    ),
    (
        "int a;\nint main(void) { return 0; }\n#pragma hls node(a)",
        Verdict::Rule(30, 3),
    ),
    (
        "int a;\n#pragma hls node(a, a)\nint main(void) { return 0; }",
        Verdict::Rule(30, 2),
    ),
    (
        "#pragma hls node(a)\nint a;\nint main(void) { return 0; }",
        Verdict::Rule(30, 1),
    ),
    (
        "MPI_Comm c;\n#pragma hls node(c)\nint main(void) { return 0; }",
        Verdict::Rule(30, 2),
    ),
    (
        "#pragma hls node(int)\nint main(void) { return 0; }",
        Verdict::Rule(30, 1),
    ),
    (
        "int *p;\n#pragma hls node(p)\nint main(void) { return 0; }",
        Verdict::Rule(30, 2),
    ),
    (
        "int a, b[3];\nlong l;\nint f(int x);\n#pragma hls numa(a, b)\n#pragma hls core(l)\nint main(void) { return 0; }",
        Verdict::Accepted(1, 3, 3),
    ),
    (
        "int a;\n#pragma hls numa(a)\nint main(void) { return 0; }",
        Verdict::Accepted(1, 1, 1),
    ),
    (
        "int a;\n#pragma omp parallel\nint main(void) { return 0; }",
        Verdict::Accepted(1, 1, 0),
    ),
    // Rule 31: the variables of singles and barriers.
    (
        "int a, b, c;\n#pragma hls node(a)\n#pragma hls numa(b)\nint main(void) {\n#pragma hls single(c)\n{ }\nreturn 0; }",
        Verdict::Rule(31, 5),
    ),
    (
        "int a, b, c;\n#pragma hls node(a)\n#pragma hls numa(b)\nint main(void) {\n#pragma hls single(a, b)\n{ }\nreturn 0; }",
        Verdict::Rule(31, 5),
    ),
    (
        "int a, b, c;\n#pragma hls node(a)\n#pragma hls numa(b)\nint main(void) {\n#pragma hls barrier(c)\nreturn 0; }",
        Verdict::Rule(31, 5),
    ),
    (
        "int a, b, c;\n#pragma hls node(a)\n#pragma hls numa(b)\nint main(void) {\n#pragma hls barrier(a, d)\nreturn 0; }",
        Verdict::Rule(31, 5),
    ),
    (
        "int a, b, c;\n#pragma hls node(a)\n#pragma hls numa(b)\nint main(void) {\n#pragma hls single(a)\n{ }\n#pragma hls single(b) nowait\n{ }\n#pragma hls barrier(a, b)\nreturn 0; }",
        Verdict::Accepted(1, 3, 2),
    ),
    // Rule 32: the block of a single.
    (
        "int a, b, c;\n#pragma hls node(a)\n#pragma hls numa(b)\nint main(void) {\n#pragma hls single(a)\n{ return 0; }\nreturn 0; }",
        Verdict::Rule(32, 5),
    ),
    (
        "int a, b, c;\n#pragma hls node(a)\n#pragma hls numa(b)\nint main(void) {\nwhile (1) {\n#pragma hls single(a)\n{ break; }\n}\nreturn 0; }",
        Verdict::Rule(32, 6),
    ),
    (
        "int a, b, c;\n#pragma hls node(a)\n#pragma hls numa(b)\nint main(void) {\n#pragma hls single(a)\n{\n#pragma hls barrier(a)\n}\nreturn 0; }",
        Verdict::Rule(32, 5),
    ),
    (
        "int a, b, c;\n#pragma hls node(a)\n#pragma hls numa(b)\nint main(void) {\n#pragma hls single(a)\n{ break; }\nreturn 0; }",
        Verdict::Rule(23, 6),
    ),
    (
        "int a, b, c;\n#pragma hls node(a)\n#pragma hls numa(b)\nint main(void) {\n#pragma hls single(a)\n{ while (1) break; }\nreturn 0; }",
        Verdict::Accepted(1, 3, 2),
    ),
    // Two rules at one node, at an outer and an inner node, and at two places.
    (
        "int MPI_Send[0] = 1;\nint main(void) { return 0; }",
        Verdict::Rule(4, 1),
    ),
    (
        "int a;\nint a[0];\nint main(void) { return 0; }",
        Verdict::Rule(2, 2),
    ),
    (
        "int main(void) { MPI_COMM_WORLD\n && undeclared; return 0; }",
        Verdict::Rule(13, 1),
    ),
    (
        "int main(void) { \n x;\n *1; return 0; }",
        Verdict::Rule(3, 2),
    ),
    (
        "int main(void) { \n 1 = 2;\n x; return 0; }",
        Verdict::Rule(15, 2),
    ),
    (
        "int main(void) { undeclared * NULL; return 0; }",
        Verdict::Rule(9, 1),
    ),
    (
        "int main(void) { undeclared + 1; return 0; }",
        Verdict::Rule(3, 1),
    ),
    (
        "int main(void) { 1 + (NULL * 2); return 0; }",
        Verdict::Rule(9, 1),
    ),
    (
        "int f(int a) { return a; }\nint main(void) { f(x, y); return 0; }",
        Verdict::Rule(20, 2),
    ),
    (
        "void f(void) { return x; }\nint main(void) { return 0; }",
        Verdict::Rule(22, 1),
    ),
];

#[test]
fn functions_calls_and_directives_break_the_rules_that_the_table_names(
    rt: HostRuntime,
) -> Result<(), Fail> {
    for (source, verdict) in &SOURCES {
        assert_eq!(rt; answered(rt.alloc(), source)?, *verdict, "{source}");
    }
    Ok(())
}
