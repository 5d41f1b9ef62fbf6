/// The instances of a level have numbers below this one: each is a byte of the machine file.
pub const INSTANCE_NUMBERS: u32 = 256;

/// The numbers of the instances that a core is in, level by level.
#[derive(Clone, Copy, Debug, PartialEq, Eq)]
pub struct CoreNumbers {
    pub numa: u8,
    pub l3: u8,
    pub l2: u8,
    pub l1: u8,
}
