//! A body that a spool keeps.
use span_io::{Blob, Form};

/// A body that was accepted, with its number and the form of its spans.
#[derive(Drop)]
pub struct Kept {
    pub number: u64,
    pub form: Form,
    pub body: Blob,
}
