//! The rules of typing: the typed program of a tree, or the first rule that the tree breaks.
#![tactic(auto)]

mod addresses;
mod agreement;
mod arguments;
mod branches;
mod call_nodes;
mod calls;
mod constants;
mod declarations;
mod directives;
mod escapes;
mod expressions;
mod formats;
mod functions;
mod kinds;
mod known_names;
mod making;
mod meanings;
mod names;
mod nodes;
mod outcomes;
mod program_laws;
mod refusals;
mod rules;
mod scopes;
mod shapes;
mod sharing;
mod signatures;
mod simple_statements;
mod statements;
mod units;
mod variables;

pub use program_laws::{typed_programs_are_sized, typed_programs_have_a_main, typing_laws};
pub use refusals::TypeRefusal;
pub use units::check;
