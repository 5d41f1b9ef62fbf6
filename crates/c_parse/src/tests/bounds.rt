//! The bounds on depth and on the tokens of an expression, and whole programs.
use super::{Verdict, answered};
use mpc_values::Memory;
use std::alloc::Global;
use std::test::Fail;

// The parts one behind the other: what opens so many times, the middle, what closes as often.
fn nested(
    alloc: Global,
    ends: (&str, &str),
    parts: (&str, &str),
    count: u32,
    middle: &str,
) -> Result<String, Memory> {
    let mut src = String::from_str(alloc, ends.0)?;
    for _ in 0..count {
        src.push_str(parts.0)?;
    }
    src.push_str(middle)?;
    for _ in 0..count {
        src.push_str(parts.1)?;
    }
    src.push_str(ends.1)?;
    Ok(src)
}

#[test]
fn depth_128_and_no_deeper(rt: HostRuntime) -> Result<(), Fail> {
    // Ends, parts, what stands in the middle, the greatest count, and for one more the column.
    let cases = [
        (
            ("int main(void) { int x; x = ", "; return 0; }"),
            ("(", ")"),
            "1",
            62,
            92,
        ),
        (("int f(void) ", ""), ("{", "}"), ";", 128, 141),
        (("int f(void) ", ""), ("{", "}"), "0;", 127, 141),
        (("int f(void) { ", " }"), ("!", ""), "a;", 126, 141),
        (("int f(void) { ", " }"), ("- ", ""), "a;", 126, 267),
        (("int f(void) { ", "; }"), ("f(", ")"), "a", 63, 142),
        (("int f(void) { ", "; }"), ("a[", "]"), "0", 63, 142),
        (("int f(void) { ", "; }"), ("(int)", ""), "a", 126, 645),
        (("int f(void) { ", " }"), ("if(a)", ""), ";", 126, 648),
        (("int f(void) { ", " }"), ("while(a)", ""), ";", 126, 1029),
        (("int f(void) { ", " }"), ("for(;;)", ""), ";", 127, 904),
        (
            ("int f(void) { ", " }"),
            ("do ", "while(a);"),
            ";",
            126,
            403,
        ),
        (("int a = ", ";"), ("(", ")"), "1", 63, 73),
    ];
    for (ends, parts, middle, most, col) in cases {
        let fits = nested(rt.alloc(), ends, parts, most, middle)?;
        assert_eq!(rt;
            answered(rt.alloc(), fits.as_str())?,
            Verdict::Tree,
            "{most} {}",
            parts.0
        );
        let deeper = nested(rt.alloc(), ends, parts, most.saturating_add(1), middle)?;
        assert_eq!(rt;
            answered(rt.alloc(), deeper.as_str())?,
            Verdict::Syntax(1, col),
            "{}",
            parts.0
        );
    }
    Ok(())
}

#[test]
fn an_expression_of_1024_tokens_and_of_no_more(rt: HostRuntime) -> Result<(), Fail> {
    // The ends, how often `+a` stands between them, and the answer.
    let cases = [
        (("int f(void) { -a", "; }"), 511, Verdict::Tree),
        (("int f(void) { if (-a", ") ; }"), 511, Verdict::Tree),
        (
            ("int f(void) { -a\n#pragma omp x\n", "; }"),
            511,
            Verdict::Tree,
        ),
        (("int a[-a", "];"), 511, Verdict::Tree),
        (("int f(void) { a", "; }"), 512, Verdict::Syntax(1, 1039)),
        (
            ("int f(void) { return a", "; }"),
            512,
            Verdict::Syntax(1, 1046),
        ),
        (
            ("int f(void) { for (;;a", ") ; }"),
            512,
            Verdict::Syntax(1, 1046),
        ),
        (("int f(void) { f(a", "); }"), 511, Verdict::Syntax(1, 1039)),
        (("int f(void) { a", " b; }"), 600, Verdict::Syntax(1, 1039)),
        (("int f(void) { a b", "; }"), 600, Verdict::Syntax(1, 17)),
        (
            ("int f(void) { a", "\n#pragma hls x\n; }"),
            512,
            Verdict::Syntax(1, 1039),
        ),
        (
            ("int f(void) { a", "\n#pragma hls x\n; }"),
            511,
            Verdict::Pragma(2),
        ),
        (("int a = a", ";"), 512, Verdict::Syntax(1, 1033)),
        (("int a[a", "];"), 512, Verdict::Syntax(1, 1031)),
        (("int a[1] = {a", "};"), 512, Verdict::Syntax(1, 1037)),
        (("int a[2] = {a, a", "};"), 511, Verdict::Tree),
    ];
    for (ends, count, want) in cases {
        let src = nested(rt.alloc(), ends, ("+a", ""), count, "")?;
        assert_eq!(rt;
            answered(rt.alloc(), src.as_str())?,
            want,
            "{} {count}",
            ends.0
        );
    }
    Ok(())
}

#[test]
fn sources_of_the_greatest_size(rt: HostRuntime) -> Result<(), Fail> {
    let cases = [
        (
            ("int f(void) { ", ""),
            "(",
            1_048_562,
            Verdict::Syntax(1, 78),
        ),
        (("int a = ", ""), "1+", 524_284, Verdict::Syntax(1, 1033)),
        (("int f(void) {", "}"), ";", 1_048_562, Verdict::Tree),
        (("int a", ";"), ",a", 524_285, Verdict::Tree),
    ];
    for (ends, part, count, want) in cases {
        let src = nested(rt.alloc(), ends, (part, ""), count, "")?;
        assert_eq!(rt;
            answered(rt.alloc(), src.as_str())?,
            want,
            "{} {part}",
            ends.0
        );
    }
    Ok(())
}

#[test]
fn whole_programs(rt: HostRuntime) -> Result<(), Fail> {
    let stencil =
        "#include <mpi.h>\n#include <stdio.h>\n#define N 4\nint w[3];\n#pragma hls node(w)\nint x[N + 2];\nint y[N + 2];\nvoid step(void) {\n  int i;\n  for (i = 1; i <= N; i++) y[i] = w[0] * x[i - 1] + w[1] * x[i] + w[2] * x[i + 1];\n  for (i = 1; i <= N; i++) x[i] = y[i];\n}\nint main(int argc, char *argv[]) {\n  int r, n, i, k, mine, all;\n  MPI_Request q[4];\n  MPI_Init(&argc, &argv);\n  MPI_Comm_rank(MPI_COMM_WORLD, &r);\n  MPI_Comm_size(MPI_COMM_WORLD, &n);\n#pragma hls single(w)\n  { w[0] = 1; w[1] = 2; w[2] = 1; }\n  for (i = 1; i <= N; i++) x[i] = r;\n  for (k = 1; k <= 2; k++) {\n    MPI_Irecv(&x[0], 1, MPI_INT, (r + n - 1) % n, 1, MPI_COMM_WORLD, &q[0]);\n    MPI_Irecv(&x[N + 1], 1, MPI_INT, (r + 1) % n, 2, MPI_COMM_WORLD, &q[1]);\n    MPI_Isend(&x[1], 1, MPI_INT, (r + n - 1) % n, 2, MPI_COMM_WORLD, &q[2]);\n    MPI_Isend(&x[N], 1, MPI_INT, (r + 1) % n, 1, MPI_COMM_WORLD, &q[3]);\n    MPI_Waitall(4, q, MPI_STATUSES_IGNORE);\n    step();\n    mine = 0;\n    for (i = 1; i <= N; i++) mine += x[i];\n    MPI_Allreduce(&mine, &all, 1, MPI_INT, MPI_SUM, MPI_COMM_WORLD);\n    printf(\"sweep %d: sum %d, first %d\\n\", k, all, x[1]);\n  }\n  MPI_Finalize();\n  return 0;\n}\n";
    let ring =
        "#include <mpi.h>\n#include <stdio.h>\n#define ROUNDS 20\n#define CELLS 8\nint t[CELLS];\n#pragma hls node(t)\nint x[CELLS];\nint y[CELLS];\nint f0(int a) {\n  a = (a * 3 + 7) & 65535;\n  return a;\n}\nint f1(int a) {\n  a = (a * 5 + 1) & 65535;\n  return a;\n}\nint main(int argc, char **argv) {\n  int r, n, i, k, sum, all;\n  MPI_Status s;\n  MPI_Init(&argc, &argv);\n  MPI_Comm_rank(MPI_COMM_WORLD, &r);\n  MPI_Comm_size(MPI_COMM_WORLD, &n);\n#pragma hls single(t)\n  {\n    for (i = 0; i < CELLS; i++) t[i] = f0(i);\n  }\n  for (i = 0; i < CELLS; i++) x[i] = (t[i] + r) & 65535;\n  for (k = 0; k < ROUNDS; k++) {\n    MPI_Sendrecv(x, CELLS, MPI_INT, (r + 1) % n, 1, y, CELLS, MPI_INT, (r + n - 1) % n, 1, MPI_COMM_WORLD, &s);\n    for (i = 0; i < CELLS; i++) x[i] = y[i];\n    for (i = 0; i < CELLS; i++) x[i] = f0(x[i]);\n    for (i = 0; i < CELLS; i++) x[i] = f1(x[i]);\n    sum = 0;\n    for (i = 0; i < CELLS; i++) sum = (sum + x[i]) & 65535;\n    MPI_Allreduce(&sum, &all, 1, MPI_INT, MPI_MAX, MPI_COMM_WORLD);\n  }\n  printf(\"%d\\n\", all);\n  MPI_Finalize();\n  return 0;\n}\n";
    assert_eq!(rt; answered(rt.alloc(), stencil)?, Verdict::Tree);
    assert_eq!(rt; answered(rt.alloc(), ring)?, Verdict::Tree);
    Ok(())
}
