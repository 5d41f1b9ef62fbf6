use crate::items::Item;
use std::collections::LinkedList;

/// Where a pass is. Waiting, it has a ticket. Inside, it has its ticket, the history that it got, and
/// whether the slot is in its hand.
pub enum Stage {
    Outside,
    Waits(u64),
    Inside(u64, LinkedList<(u64, Item)>, bool),
}

/// What a pass knows, in proofs alone: no value of it is made, and its numbers have no bound.
pub struct View {
    /// The base of the gate's first value.
    pub base: Item,
    /// Its shares of the right to wait, of which the gate has 2 to the 32. A pass keeps at least one.
    pub parts: u64,
    /// Whether it makes the passes. It owns every number from `next` on.
    pub makes: bool,
    pub next: u64,
    /// Its own number with the history that it last left, and behind them those of the passes that were
    /// joined into it.
    pub claims: LinkedList<(u64, LinkedList<(u64, Item)>)>,
    pub stage: Stage,
}
