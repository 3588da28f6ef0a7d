//! What became of one connection of a relay.
use span_io::Items;

/// What became of one connection of a relay.
#[derive(Drop)]
pub struct Round {
    /// Of each good request whether the text of its body was kept.
    pub outcomes: Items<bool>,
    /// How many bodies left after it.
    pub gone: u64,
}
