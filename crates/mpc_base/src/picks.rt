use mpc_values::Cores;

/// Which task goes next in a run that one thread makes.
#[derive(Debug, Clone, Drop)]
pub enum Picks {
    /// The next task that can go, in rising number from the one after the last that went.
    RoundRobin,
    /// The task that the next word of a generator of this seed picks, among those that can go.
    Seeded(u64),
    /// The listed tasks that can go, one after the other, and then as round robin.
    Listed(Cores),
}
