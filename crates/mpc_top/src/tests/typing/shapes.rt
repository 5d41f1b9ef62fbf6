//! What typed programs have: numbers of variables and functions, levels of constructs, and typed forms.

use super::{Verdict, answered, read};
use c_tree::program::{Callee, Ending, Expr, HlsKind, Stmt};
use mpc_base::{Level, Word};
use std::test::*;

const PARTS: &str = "int f(void);
int t[2] = {5};
long u;
#pragma hls numa(t)
#pragma hls node(u)
int first(void) { static int s = 7; return s; }
int main(void) {
#pragma hls single(t) nowait
{ u = f() + first(); }
#pragma hls barrier(u, t)
printf(\"%d%% of %ld\\n\", t[0], u);
return 0;
}
int f(void) { return 1; }
";

#[test]
fn a_program_has_its_parts_by_number(rt: HostRuntime) -> Result<(), Fail> {
    let Ok(program) = read(rt.alloc(), PARTS)? else {
        panic!(rt; "refused");
    };
    let variables = program.globals();
    assert_eq!(rt; variables.len(), 3);
    for (number, (len, level, first)) in [
        (
            2,
            Some(Level::Numa),
            [Word::Int(5), Word::Int(0)].as_slice(),
        ),
        (1, Some(Level::Node), [Word::Int(0)].as_slice()),
        (1, None, [Word::Int(7)].as_slice()),
    ]
    .iter()
    .enumerate()
    {
        let Some(variable) = variables.get(number) else {
            panic!(rt; "no variable {number}");
        };
        assert_eq!(rt; variable.len, *len);
        assert_eq!(rt; variable.level, *level);
        assert_eq!(rt; variable.first.as_slice(), *first);
    }
    assert_eq!(rt; program.functions(), 3);
    assert_eq!(rt; program.main, 1);
    assert_eq!(rt; program.line_count(), 14);
    let constructs = program.constructs.as_slice();
    assert_eq!(rt; constructs.len(), 2);
    assert_eq!(rt; constructs[0].kind, HlsKind::Nowait);
    assert_eq!(rt; constructs[0].level, Level::Numa);
    assert_eq!(rt; constructs[1].kind, HlsKind::Barrier);
    assert_eq!(rt; constructs[1].level, Level::Node);
    Ok(())
}

const FORMS: &str = "int f(int a, int *b) {
  long l = a;
  MPI_Status s;
  *b = l;
  a += l;
  return f(s.MPI_TAG, &a);
}
int main(void) { return 0; }
";

#[test]
fn conversions_and_places_are_written_out(rt: HostRuntime) -> Result<(), Fail> {
    let Ok(program) = read(rt.alloc(), FORMS)? else {
        panic!(rt; "refused");
    };
    let [f, main] = program.functions.as_slice() else {
        panic!(rt; "another number of functions");
    };
    assert_eq!(rt; f.params.as_slice(), [true, false].as_slice());
    assert_eq!(rt; f.slots, 4);
    assert_eq!(rt; f.ending, Ending::Missing);
    assert_eq!(rt; f.end_line, 7);
    assert_eq!(rt; main.ending, Ending::Zero);
    let [unset, set, new, store, update, answer] = f.body.as_slice() else {
        panic!(rt; "another number of statements");
    };
    assert!(rt; matches!(unset, Stmt::Unset(2)));
    assert!(rt; matches!(set, Stmt::Eval(2, Expr::SetLocal(2, _))));
    assert!(rt; matches!(new, Stmt::New(3, 3, 3)));
    match store {
        Stmt::Eval(4, Expr::Store(place, value)) => {
            assert!(rt; matches!(**place, Expr::Local(1)));
            assert!(rt; matches!(**value, Expr::Narrow(_)));
        }
        _ => panic!(rt; "another store"),
    }
    assert!(rt; matches!(update, Stmt::Eval(5, Expr::UpdateStore(_, _, _))));
    match answer {
        Stmt::Return(6, Some(Expr::Apply(Callee::Function(0), arguments))) => {
            assert_eq!(rt; arguments.len(), 2);
            assert!(rt; matches!(arguments[0], Expr::Load(_, _)));
            assert!(rt; matches!(arguments[1], Expr::Object(0)));
        }
        _ => panic!(rt; "another answer"),
    }
    Ok(())
}

const GENERATED: &str = "#include <mpi.h>
#include <stdio.h>
#define ROUNDS 20
#define CELLS 8
int t[CELLS];
#pragma hls node(t)
int x[CELLS];
int y[CELLS];
int f0(int a) {
  a = (a * 17 + 3) & 65535;
  return a;
}
int f1(int a) {
  a = (a * 999 + 0) & 65535;
  return a;
}
int main(int argc, char **argv) {
  int r, n, i, k, sum, all;
  MPI_Status s;
  MPI_Init(&argc, &argv);
  MPI_Comm_rank(MPI_COMM_WORLD, &r);
  MPI_Comm_size(MPI_COMM_WORLD, &n);
#pragma hls single(t)
  {
    for (i = 0; i < CELLS; i++) t[i] = f0(i);
  }
  for (i = 0; i < CELLS; i++) x[i] = (t[i] + r) & 65535;
  for (k = 0; k < ROUNDS; k++) {
    MPI_Sendrecv(x, CELLS, MPI_INT, (r + 1) % n, 1, y, CELLS, MPI_INT, (r + n - 1) % n, 1, MPI_COMM_WORLD, &s);
    for (i = 0; i < CELLS; i++) x[i] = y[i];
    for (i = 0; i < CELLS; i++) x[i] = f0(x[i]);
    for (i = 0; i < CELLS; i++) x[i] = f1(x[i]);
    sum = 0;
    for (i = 0; i < CELLS; i++) sum = (sum + x[i]) & 65535;
    MPI_Allreduce(&sum, &all, 1, MPI_INT, MPI_MAX, MPI_COMM_WORLD);
  }
  printf(\"%d\\n\", all);
  MPI_Finalize();
  return 0;
}
";

#[test]
fn a_program_of_rounds_is_accepted(rt: HostRuntime) -> Result<(), Fail> {
    assert_eq!(rt;
        answered(rt.alloc(), GENERATED)?,
        Verdict::Accepted(3, 3, 1)
    );
    Ok(())
}
