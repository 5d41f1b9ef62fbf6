//! Commands, sources, files and sinks, with what they are answered, worked out by hand.
mod runs;
mod typing;

use crate::{Top, mpc_serial};
use mpc_base::{Answer, MemFiles, MemSink, Memory, Out, Word};
use std::alloc::Global;
use std::collections::BTreeMap;
use std::test::Fail;

const FIRST: &str = "int x; int main(void){ x = 2; printf(\"%d\\n\", x); return 0; }";

const REPORT: &str = "== rank 0: exit 0, 2 bytes ==\n2\n== run: finished ==\n";

fn list_of(alloc: Global, words: &[&str]) -> Result<Vec<String>, Memory> {
    let mut list = Vec::new(alloc);
    for word in words {
        list.push(String::from_str(alloc, word)?)?;
    }
    Ok(list)
}

// A store that has one file, named a.c, where it has a content.
fn files_of(alloc: Global, content: Option<&str>, fails: &[u64]) -> Result<MemFiles, Memory> {
    let mut files = BTreeMap::new(alloc);
    if let Some(content) = content {
        let name = String::from_str(alloc, "a.c")?;
        files.insert(name, Vec::from_slice(alloc, content.as_bytes())?)?;
    }
    Ok(MemFiles::new(files, Vec::from_slice(alloc, fails)?))
}

fn sink_of(alloc: Global, step: usize, fails: &[u64]) -> Result<MemSink, Memory> {
    let step = step.max(1);
    MemSink::new(alloc, step, 2_000_000, Vec::from_slice(alloc, fails)?)
}

// What a command does, and what the sink has taken then.
#[derive(Drop)]
struct Done {
    top: Top,
    sink: MemSink,
}

fn serial(
    alloc: Global,
    words: &[&str],
    content: Option<&str>,
    read_fails: &[u64],
    step: usize,
    write_fails: &[u64],
) -> Result<Done, Memory> {
    let words = list_of(alloc, words)?;
    let mut files = files_of(alloc, content, read_fails)?;
    let mut sink = sink_of(alloc, step, write_fails)?;
    let top = mpc_serial(alloc, words.as_slice(), &mut files, &mut sink);
    Ok(Done { top, sink })
}

#[test]
fn the_first_program_prints_its_number(rt: HostRuntime) -> Result<(), Fail> {
    let Done { top, sink } = serial(rt.alloc(), &["serial", "a.c"], Some(FIRST), &[], 100, &[])?;
    let Top { status, kept } = top;
    assert_eq!(rt; status, 0);
    assert_eq!(rt; sink.bytes(), REPORT.as_bytes());
    assert_eq!(rt; sink.bytes().len(), 52);
    let Some(run) = kept else {
        panic!(rt; "no record was kept");
    };
    let answers = [
        (2, Answer::Done),
        (1, Answer::Gives(Word::Int(2))),
        (7, Answer::Gives(Word::Int(2))),
        (9, Answer::Gives(Word::Int(0))),
    ];
    let entries = run.journal.entries.as_slice();
    assert_eq!(rt; entries.len(), 4);
    for (entry, (call, answer)) in entries.iter().zip(answers.iter()) {
        assert_eq!(rt; entry.task, 0);
        assert_eq!(rt; entry.line, 1);
        assert_eq!(rt; entry.call, *call);
        assert_eq!(rt; entry.out, Out::Did(*answer));
    }
    Ok(())
}

// A command, the content of its file, the reads and writes that fail, and what it is answered.
#[derive(Drop)]
struct Row {
    words: &'static [&'static str],
    content: Option<&'static str>,
    read_fails: &'static [u64],
    step: usize,
    write_fails: &'static [u64],
    status: u8,
    taken: &'static str,
}

const COMMAND: &[&str] = &["serial", "a.c"];

fn words_row(words: &'static [&'static str]) -> Row {
    Row {
        words,
        content: Some(FIRST),
        read_fails: &[],
        step: 100,
        write_fails: &[],
        status: 6,
        taken: "mpc: usage\n",
    }
}

fn has_taken(sink: &MemSink, text: &str) -> bool {
    sink.bytes() == text.as_bytes()
}

#[test]
fn each_status_has_its_cause(rt: HostRuntime) -> Result<(), Fail> {
    let plain = Row {
        words: COMMAND,
        content: Some(FIRST),
        read_fails: &[],
        step: 100,
        write_fails: &[],
        status: 0,
        taken: REPORT,
    };
    let rows = [
        words_row(&[]),
        words_row(&["serial"]),
        words_row(&["run", "a.c"]),
        words_row(&["serial", "-x"]),
        words_row(&["a.c", "serial"]),
        words_row(&["serial", "a.c", "more"]),
        Row {
            content: None,
            status: 5,
            taken: "mpc: source: missing\n",
            ..plain
        },
        Row {
            read_fails: &[0],
            status: 7,
            taken: "mpc: cannot read source\n",
            ..plain
        },
        Row {
            content: Some(""),
            write_fails: &[0],
            status: 5,
            taken: "",
            ..plain
        },
        Row {
            step: 10,
            write_fails: &[1],
            status: 8,
            taken: "== rank 0:",
            ..plain
        },
        Row { step: 7, ..plain },
    ];
    for row in &rows {
        let done = serial(
            rt.alloc(),
            row.words,
            row.content,
            row.read_fails,
            row.step,
            row.write_fails,
        )?;
        assert_eq!(rt;
            done.top.status,
            row.status,
            "a row that ends with {}",
            row.taken
        );
        assert!(rt; has_taken(&done.sink, row.taken));
        assert_eq!(rt; done.top.kept.is_some(), row.status == 0 || row.status == 8);
    }
    Ok(())
}

#[test]
fn a_sink_that_fails_at_any_byte_has_the_bytes_before_it(rt: HostRuntime) -> Result<(), Fail> {
    for (failing, _byte) in REPORT.as_bytes().iter().enumerate() {
        let fails = [failing as u64];
        let done = serial(rt.alloc(), COMMAND, Some(FIRST), &[], 1, &fails)?;
        assert_eq!(rt; done.top.status, 8);
        let (taken, _rest) = REPORT.as_bytes().split_at(failing);
        assert_eq!(rt; done.sink.bytes(), taken);
        assert!(rt; done.top.kept.is_some());
    }
    Ok(())
}

// What a source is answered in a mode: the status, and what the sink takes.
fn answered(alloc: Global, mode: &str, source: &str) -> Result<(u8, Vec<u8>), Memory> {
    let done = serial(alloc, &[mode, "a.c"], Some(source), &[], 100, &[])?;
    Ok((done.top.status, Vec::from_slice(alloc, done.sink.bytes())?))
}

#[test]
fn programs_that_use_mpi_or_share_are_not_built(rt: HostRuntime) -> Result<(), Fail> {
    let sources = [
        "int main(void) { MPI_Init(NULL, NULL); MPI_Finalize(); return 0; }",
        "int main(void) { int r; if (0) { while (1) MPI_Comm_rank(MPI_COMM_WORLD, &r); } return 0; }",
        "int f(void) { for (;; MPI_Finalize()) return 0; } int main(void) { return 0; }",
        "int main(void) { do { if (1) ; else MPI_Barrier(MPI_COMM_WORLD); } while (0); return 0; }",
        "int a;\n#pragma hls numa(a)\nint main(void) { return 0; }\n",
        "int a;\n#pragma hls node(a)\nint main(void) {\n#pragma hls barrier(a)\n  return 0; }\n",
        SWEEPS,
    ];
    for source in &sources {
        let (status, taken) = answered(rt.alloc(), "serial", source)?;
        assert_eq!(rt;
            taken.as_slice(),
            "mpc: source: not built\n".as_bytes(),
            "{source}"
        );
        assert_eq!(rt; status, 5);
        let (status, taken) = answered(rt.alloc(), "check", source)?;
        assert_eq!(rt; status, 0, "{source}");
        assert!(rt; taken.as_slice().starts_with(b"accepted: "));
    }
    Ok(())
}

#[test]
fn refused_sources_say_why_and_where(rt: HostRuntime) -> Result<(), Fail> {
    let rows = [
        ("", "mpc: source: line 1: rule 1\n"),
        (
            "int main(void){ return 0;",
            "mpc: source: line 1, column 26: syntax\n",
        ),
        (
            "int main(void){ return 0@; }",
            "mpc: source: line 1, column 25: lex\n",
        ),
        ("int x = ; @\n", "mpc: source: line 1, column 11: lex\n"),
        (
            "int x; int main(void){ return 0; } @",
            "mpc: source: line 1, column 36: lex\n",
        ),
        (
            "int x; int main(void){ return 0; } ;",
            "mpc: source: line 1, column 36: syntax\n",
        ),
        (
            "int a;\n#pragma hls socket(a)\nint main(void) { return 0; }\n",
            "mpc: source: line 2: pragma\n",
        ),
        (
            "int a;\n#pragma hls numa(a)\n#pragma hls node(a)\nint main(void) { return 0; }\n",
            "mpc: source: line 3: rule 30\n",
        ),
        (
            "int x; int x; int main(void){ return 0; }",
            "mpc: source: line 1: rule 2\n",
        ),
        (
            "int x; int main(void){ printf(\"%d\", y); return 0; }",
            "mpc: source: line 1: rule 3\n",
        ),
        (
            "int x;\nint main(void){\n  printf(\"%d %d\", x);\n  return 0; }",
            "mpc: source: line 3: rule 24\n",
        ),
        (
            "int printf; int main(void){ return 0; }",
            "mpc: source: line 1: rule 4\n",
        ),
        (
            "int MPI_Init; int main(void){ return 0; }",
            "mpc: source: line 1: rule 4\n",
        ),
    ];
    for (source, line) in &rows {
        for mode in ["check", "serial"] {
            let (status, taken) = answered(rt.alloc(), mode, source)?;
            assert_eq!(rt; taken.as_slice(), line.as_bytes(), "{source}");
            assert_eq!(rt; status, 5);
        }
    }
    Ok(())
}

const SWEEPS: &str =
    "#include <mpi.h>\n#include <stdio.h>\n#define N 4\nint w[3];\n#pragma hls node(w)\nint x[N + 2];\nint y[N + 2];\nvoid step(void) {\n  int i;\n  for (i = 1; i <= N; i++) y[i] = w[0] * x[i - 1] + w[1] * x[i] + w[2] * x[i + 1];\n  for (i = 1; i <= N; i++) x[i] = y[i];\n}\nint main(int argc, char *argv[]) {\n  int r, n, i, k, mine, all;\n  MPI_Request q[4];\n  MPI_Init(&argc, &argv);\n  MPI_Comm_rank(MPI_COMM_WORLD, &r);\n  MPI_Comm_size(MPI_COMM_WORLD, &n);\n#pragma hls single(w)\n  { w[0] = 1; w[1] = 2; w[2] = 1; }\n  for (i = 1; i <= N; i++) x[i] = r;\n  for (k = 1; k <= 2; k++) {\n    MPI_Irecv(&x[0], 1, MPI_INT, (r + n - 1) % n, 1, MPI_COMM_WORLD, &q[0]);\n    MPI_Irecv(&x[N + 1], 1, MPI_INT, (r + 1) % n, 2, MPI_COMM_WORLD, &q[1]);\n    MPI_Isend(&x[1], 1, MPI_INT, (r + n - 1) % n, 2, MPI_COMM_WORLD, &q[2]);\n    MPI_Isend(&x[N], 1, MPI_INT, (r + 1) % n, 1, MPI_COMM_WORLD, &q[3]);\n    MPI_Waitall(4, q, MPI_STATUSES_IGNORE);\n    step();\n    mine = 0;\n    for (i = 1; i <= N; i++) mine += x[i];\n    MPI_Allreduce(&mine, &all, 1, MPI_INT, MPI_SUM, MPI_COMM_WORLD);\n    printf(\"sweep %d: sum %d, first %d\\n\", k, all, x[1]);\n  }\n  MPI_Finalize();\n  return 0;\n}\n";

#[test]
fn accepted_sources_are_counted(rt: HostRuntime) -> Result<(), Fail> {
    let rows = [
        (FIRST, "accepted: 1 functions, 1 globals, 0 shared\n"),
        (SWEEPS, "accepted: 2 functions, 3 globals, 1 shared\n"),
        (
            "int a;\n#pragma hls numa(a)\nint main(void) { return 0; }\n",
            "accepted: 1 functions, 1 globals, 1 shared\n",
        ),
        (
            "int a;\n#pragma omp parallel\nint main(void) { return 0; }\n",
            "accepted: 1 functions, 1 globals, 0 shared\n",
        ),
        (
            "int f(int n); int f(int n) { static int s[2] = {1, 2}; return s[n]; } int main(void) { return f(1); }",
            "accepted: 2 functions, 1 globals, 0 shared\n",
        ),
    ];
    for (source, line) in &rows {
        let (status, taken) = answered(rt.alloc(), "check", source)?;
        assert_eq!(rt; taken.as_slice(), line.as_bytes(), "{source}");
        assert_eq!(rt; status, 0);
    }
    Ok(())
}

#[test]
fn a_source_of_too_many_bytes_is_too_long(rt: HostRuntime) -> Result<(), Fail> {
    let alloc = rt.alloc();
    let mut source = String::from_str(alloc, "int main(void) { return 0; }")?;
    // 28 bytes, and behind them lines up to the limit
    for _ in 0..1_048_548 {
        source.push('\n')?;
    }
    let (status, taken) = answered(alloc, "check", source.as_str())?;
    assert_eq!(rt;
        taken.as_slice(),
        b"accepted: 1 functions, 0 globals, 0 shared\n".as_slice()
    );
    assert_eq!(rt; status, 0);
    source.push('\n')?;
    let (status, taken) = answered(alloc, "check", source.as_str())?;
    assert_eq!(rt; taken.as_slice(), b"mpc: source: too long\n".as_slice());
    assert_eq!(rt; status, 5);
    Ok(())
}
