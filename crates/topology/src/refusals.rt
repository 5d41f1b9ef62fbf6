ghost use Rattle.std.specs.Prelude.{◌≡◌};
ghost use Rattle.topology.specs.Refusals.{refusal_name};

use thiserror::Error;

/// Why a file tells no machine. Where several rules are broken, the first one in the order of
/// `read_machine` names the refusal.
#[derive(Clone, Copy, Debug, PartialEq, Eq, Error)]
pub enum MachineRefusal {
    #[error("NotToml")]
    NotToml,
    #[error("BadField")]
    BadField,
    #[error("NoCores")]
    NoCores,
    #[error("TooManyCores")]
    TooManyCores,
    #[error("NotNested")]
    NotNested,
}

impl MachineRefusal {
    /// The refusal's name, as it is printed.
    pub fn name(&self) -> &'static str
        ensures { result.now ≡ refusal_name self.now }
    {
        match self {
            MachineRefusal::NotToml => "NotToml",
            MachineRefusal::BadField => "BadField",
            MachineRefusal::NoCores => "NoCores",
            MachineRefusal::TooManyCores => "TooManyCores",
            MachineRefusal::NotNested => "NotNested",
        }
    }
}

/// A list that places no tasks: it has another length than the number of tasks, or names a core that
/// is not there.
#[derive(Clone, Copy, Debug, PartialEq, Eq)]
pub struct BadPlace;
