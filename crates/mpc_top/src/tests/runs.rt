//! Programs of one task, with the report and the status of their runs, worked out by hand.
use super::answered;
use std::test::Fail;

#[test]
fn programs_report_what_they_print_and_return(rt: HostRuntime) -> Result<(), Fail> {
    let rows = [
        (
            "int main(void){ return 0; }",
            0,
            "== rank 0: exit 0, 0 bytes ==\n== run: finished ==\n",
        ),
        (
            "int x; int main(void){ x = 2 / 1; printf(\"%d\\n\", x); return 0; }",
            0,
            "== rank 0: exit 0, 2 bytes ==\n2\n== run: finished ==\n",
        ),
        (
            "int main(void) { int a = 0; int b = 0 && (1 / a); long c = 3000000000; int d = c; printf(\"%d %d %d\\n\", b, -7 / 2, d); return 3; }",
            1,
            "== rank 0: exit 3, 17 bytes ==\n0 -3 -1294967296\n== run: finished ==\n",
        ),
        (
            "int f(int n) { return n == 0 ? 0 : 1 + f(n - 1); } int main(void) { return f(1022); }",
            1,
            "== rank 0: exit 1022, 0 bytes ==\n== run: finished ==\n",
        ),
        (
            "/* none set */ int a; int b;\nint main(void) {\n  printf(\"<%d>\", b);\n}\n",
            0,
            "== rank 0: exit 0, 3 bytes ==\n<0>\n== run: finished ==\n",
        ),
        (
            "int a; int b; int main(void){ b = 2147483647; a = 1; a = 7; printf(\"%d\\t\", a); printf(\"%d\\n\", b); return 0; }",
            0,
            "== rank 0: exit 0, 13 bytes ==\n7\t2147483647\n== run: finished ==\n",
        ),
        (
            "int n; int main(void){ n = 0; printf(\"\\\"%d\\\\%%\", n); return -1; }",
            1,
            "== rank 0: exit -1, 4 bytes ==\n\"0\\%\n== run: finished ==\n",
        ),
        (
            "int s(int n) { static int t[2] = {1, 2}; t[0] += n; return t[0]; } int main(void) { int i; for (i = 0; i < 3; i++) { if (i == 1) continue; printf(\"%d \", s(i)); } return 0; }",
            0,
            "== rank 0: exit 0, 4 bytes ==\n1 3 \n== run: finished ==\n",
        ),
        (
            "int main(int argc, char *argv[]) { int *p = malloc(12); int i; for (i = 0; i < 3; i++) p[i] = i * i; printf(\"%d %d\", argc, p[2]); free(p); return 0; }",
            0,
            "== rank 0: exit 0, 3 bytes ==\n1 4\n== run: finished ==\n",
        ),
        (
            "int main(void) { int a[65536]; a[65535] = 0; return a[65535]; }",
            0,
            "== rank 0: exit 0, 0 bytes ==\n== run: finished ==\n",
        ),
    ];
    for (source, wanted, report) in &rows {
        let (status, taken) = answered(rt.alloc(), "serial", source)?;
        assert_eq!(rt; taken.as_slice(), report.as_bytes(), "{source}");
        assert_eq!(rt; status, *wanted, "{source}");
    }
    Ok(())
}

#[test]
fn faults_end_the_run_at_their_line(rt: HostRuntime) -> Result<(), Fail> {
    let rows = [
        (
            "int main(void) { int a = -2147483647 - 1; return a / -1; }",
            "fault Overflow at line 1",
        ),
        (
            "int x; int main(void){ x = 2147483647; x = x + 1; return 0; }",
            "fault Overflow at line 1",
        ),
        (
            "int main(void) {\n  int z = 0;\n  return 1 / z;\n}\n",
            "fault Divide at line 3",
        ),
        (
            "int main(void) {\n  int n = 32;\n  return 1 << n;\n}\n",
            "fault Shift at line 3",
        ),
        (
            "int main(void) {\n  int a;\n\n  return a;\n}\n",
            "fault Uninit at line 4",
        ),
        (
            "int main(void) {\n  int *p = NULL;\n  return *p;\n}\n",
            "fault NullAccess at line 3",
        ),
        (
            "int a[2];\nint main(void) {\n  int i = 2;\n  a[i] = 1;\n  return 0;\n}\n",
            "fault Bounds at line 4",
        ),
        (
            "int main(void) {\n  int *p = malloc(4);\n  free(p);\n  *p = 1;\n  return 0;\n}\n",
            "fault Dangling at line 4",
        ),
        (
            "int f(int n) { return n == 0 ? 0 : 1 + f(n - 1); } int main(void) { return f(1023); }",
            "fault Depth at line 1",
        ),
        (
            "int main(void) {\n  int a[65537];\n  return 0;\n}\n",
            "fault StackFull at line 2",
        ),
    ];
    for (source, state) in &rows {
        let (status, taken) = answered(rt.alloc(), "serial", source)?;
        let report = format!(in rt.alloc();
            "== rank 0: {state}, 0 bytes ==\n== run: fault in rank 0 ==\n"
        )?;
        assert_eq!(rt; taken.as_slice(), report.as_bytes(), "{source}");
        assert_eq!(rt; status, 2, "{source}");
    }
    Ok(())
}

#[test]
fn a_loop_without_calls_is_stopped(rt: HostRuntime) -> Result<(), Fail> {
    let (status, taken) = answered(rt.alloc(), "serial", "int main(void) { while (1); }")?;
    let report = "== rank 0: fault Turns at line 1, 0 bytes ==\n== run: fault in rank 0 ==\n";
    assert_eq!(rt; taken.as_slice(), report.as_bytes());
    assert_eq!(rt; status, 2);
    Ok(())
}

// Whether a text begins with a line and ends with the line of a run's end.
fn is_between(text: &[u8], first: &str, last: &str) -> bool {
    text.starts_with(first.as_bytes()) && text.ends_with(last.as_bytes())
}

#[test]
fn output_and_calls_have_their_limits(rt: HostRuntime) -> Result<(), Fail> {
    // a line of 64 bytes is printed 16,384 times, which is 1,048,576 bytes
    let rows = [
        (
            "int main(void) { while (1) printf(\"x\\n\"); }",
            2,
            "== rank 0: fault Calls at line 1, 500000 bytes ==\nx\nx\n",
            "\nx\n== run: fault in rank 0 ==\n",
            500_000,
        ),
        (
            "int main(void) { int i; for (i = 0; i < 16384; i++) printf(\"123456789 123456789 123456789 123456789 123456789 123456789 123\\n\"); return 0; }",
            0,
            "== rank 0: exit 0, 1048576 bytes ==\n123456789 ",
            " 123\n== run: finished ==\n",
            1_048_576,
        ),
        (
            "int main(void) { int i; for (i = 0; i < 16384; i++) printf(\"123456789 123456789 123456789 123456789 123456789 123456789 123\\n\");\n printf(\"4\"); return 0; }",
            2,
            "== rank 0: fault OutputFull at line 2, 1048576 bytes ==\n123456789 ",
            " 123\n== run: fault in rank 0 ==\n",
            1_048_576,
        ),
    ];
    for (source, wanted, first, last, bytes) in &rows {
        let (status, taken) = answered(rt.alloc(), "serial", source)?;
        assert!(rt; is_between(taken.as_slice(), first, last), "{source}");
        assert!(rt; *bytes < taken.as_slice().len() as u64);
        assert_eq!(rt; status, *wanted, "{source}");
    }
    Ok(())
}
