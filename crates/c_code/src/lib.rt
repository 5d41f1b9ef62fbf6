//! Flat code of programs: small instructions on a stack of words, and what code demands.
//!
//! `specs/Machine.antt` says what each instruction does by itself, and `specs/Demands.antt` what code
//! demands next behind a list of answers. `specs/Following.antt` says what a machine has come to behind
//! answers, and that the code of a program never sticks.
#![tactic(auto)]

mod code;
mod instr;
mod laws;
mod printing;

pub use code::{Code, Entry};
pub use instr::Instr;
pub use laws::machines_follow_answers;
pub use printing::{Printed, Printing};
