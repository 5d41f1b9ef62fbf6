//! From typed programs to flat code.
//!
//! `specs/Compiled.antt` says which code a program has, and `specs/Correct.antt` what it is for code to
//! behave as a program.
#![tactic(auto)]

mod compiling;
mod emitter;
mod expression_code;
mod function_code;
mod laws;
mod statement_code;
mod surroundings;

pub use compiling::compile;
pub use laws::{code_asks_what_the_program_asks, plain_programs_ask_plain_calls};
