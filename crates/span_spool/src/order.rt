//! The orders that a keeper takes.
use crate::kept::Kept;
use span_io::{Blob, Form, Items};

/// What a keeper is asked for.
#[derive(Drop)]
pub enum Order {
    /// To keep a body of this form.
    Keep(Form, Blob),
    /// For a copy of the first body.
    First,
    /// To drop the first body, if it has this number.
    Drop(u64),
}

/// What a keeper answered to an order.
#[derive(Drop)]
pub enum Reply {
    /// The body is kept, under this number.
    Kept(u64),
    /// There is no room for another body.
    Full,
    /// There is no number for another body.
    Spent,
    /// A copy of the first body, if there is one.
    First(Option<Kept>),
    /// Whether the first body was dropped.
    Dropped(bool),
}

/// Where a list of orders stopped.
#[derive(Drop)]
pub struct Halted {
    /// How many orders took effect, the first ones of the list.
    pub done: u64,
    /// Their replies.
    pub replies: Items<Reply>,
    /// Whether the keeper failed at the next order. Else memory was wanted.
    pub failed: bool,
}
