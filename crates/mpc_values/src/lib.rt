//! The values of a run, on which the language and the runtime stand alike: words and objects, owners and
//! levels, static variables, calls with their answers and faults, small list types, and every limit.
#![tactic(auto)]

mod answers;
mod calls;
mod collectives;
mod failures;
mod faults;
pub mod limits;
mod lists;
mod owners;
mod values;

pub use answers::{Answer, Status, Way};
pub use calls::Call;
pub use collectives::{Coll, CollKind};
pub use failures::{Failed, Memory};
pub use faults::Fault;
pub use lists::{Cores, Text, Words};
pub use owners::{Level, Owner, StaticVar};
pub use values::{Datatype, Obj, Op, Word};

#[cfg(test)]
mod tests;
