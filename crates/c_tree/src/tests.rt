//! The variables of a program, in order of their numbers, and MPI functions by their names.

use crate::Globals;
use crate::mpi::{MPI_FUNCTIONS, MpiFunction};
use crate::program::{Construct, Constructs, HlsKind, Program};
use mpc_values::{Level, StaticVar, Word, Words};
use std::test::*;

#[test]
fn globals_hold_their_variables(rt: HostRuntime) -> Result<(), Fail> {
    let alloc = rt.alloc();
    let plain = StaticVar {
        len: 1,
        level: None,
        first: Words::of(vec![in alloc; Word::Int(7)]?),
    };
    let shared = StaticVar {
        len: 2000,
        level: Some(Level::Numa),
        first: Words::of(Vec::new(alloc)),
    };
    let variables = Globals::of(vec![in alloc; plain, shared]?);
    assert_eq!(rt; variables.as_slice().len(), 2);
    for (number, (len, level, first)) in [
        (1, None, [Word::Int(7)].as_slice()),
        (2000, Some(Level::Numa), [].as_slice()),
    ]
    .iter()
    .enumerate()
    {
        let Some(variable) = variables.as_slice().get(number) else {
            panic!(rt; "no variable {number}");
        };
        assert_eq!(rt; variable.len, *len);
        assert_eq!(rt; variable.level, *level);
        assert_eq!(rt; variable.first.as_slice(), *first);
    }
    assert_eq!(rt; variables.into_vec().len(), 2);
    Ok(())
}

#[test]
fn a_typed_program_tells_its_parts(rt: HostRuntime) -> Result<(), Fail> {
    let alloc = rt.alloc();
    let shared = StaticVar {
        len: 3,
        level: Some(Level::Core),
        first: Words::of(Vec::new(alloc)),
    };
    let barrier = Construct {
        kind: HlsKind::Barrier,
        level: Level::Core,
    };
    let program = Program {
        variables: Globals::of(vec![in alloc; shared]?),
        functions: Vec::new(alloc),
        main: 0,
        constructs: Constructs::of(vec![in alloc; barrier]?),
        lines: 12,
    };
    assert_eq!(rt; program.globals().len(), 1);
    assert_eq!(rt; program.functions(), 0);
    assert_eq!(rt; program.line_count(), 12);
    assert_eq!(rt; program.constructs(), 1);
    assert_eq!(rt; program.constructs.as_slice().len(), 1);
    assert_eq!(rt; program.construct(0), barrier);
    Ok(())
}

#[test]
fn mpi_functions_are_found_by_their_whole_names(rt: HostRuntime) {
    for function in &MPI_FUNCTIONS {
        let name = function.name().as_bytes();
        assert_eq!(rt; MpiFunction::named(name), Some(*function));
    }
    for other in [
        "",
        "MPI_",
        "MPI_Ini",
        "MPI_Init_",
        "mpi_init",
        "MPI_Wtime",
        "MPI_INT",
    ] {
        assert_eq!(rt; MpiFunction::named(other.as_bytes()), None, "{other}");
    }
}
