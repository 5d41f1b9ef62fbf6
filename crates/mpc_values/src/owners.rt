use crate::lists::Words;

/// A level of the machine, from the narrowest to the widest.
#[derive(Clone, Copy, Debug, PartialEq, Eq, PartialOrd, Ord)]
pub enum Level {
    Core,
    L1,
    L2,
    L3,
    Numa,
    Node,
}

/// Who has a copy of an object: a task, or an instance of a level.
#[derive(Clone, Copy, Debug, PartialEq, Eq, PartialOrd, Ord)]
pub enum Owner {
    /// The task of this number.
    Task(u32),
    /// The instance of a level, by its number among those of the level.
    Inst { level: Level, id: u32 },
}

/// A static variable: how many words it has, the level whose instances share it, where it has one,
/// and the words that it begins with.
#[derive(Debug, Clone, Drop)]
pub struct StaticVar {
    pub len: u32,
    pub level: Option<Level>,
    pub first: Words,
}
