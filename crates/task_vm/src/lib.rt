//! The task machine: it runs the code of a program to its next call, and takes the answer.
//!
//! - `Task::new` begins a task that has had no answer.
//! - `Task::advance` takes steps up to the next call, which is what the code demands behind the answers
//!   that the task has had. It always comes to one, or is short of memory, and stays short then.
//! - `Task::give` takes the answer to that call.
//!
//! A task keeps a machine as `c_code` defines it (`specs/Tasks.antt`), and each of its steps is one of
//! those definitions. Steps that ask nothing take no memory but for the stack's growth.
#![tactic(auto)]

mod arguments;
mod asking;
mod finds;
mod frames;
mod instructions;
mod jumps;
mod locals;
mod machine;
mod numbers;
mod printing;
mod scripts;
mod stack;
mod states;
mod stepping;
mod task;
mod wishes;
mod words;

pub use states::Want;
pub use task::Task;

#[cfg(test)]
mod tests;
