//! What was left out on reading.
use crate::place::Place;
use span_io::Text;

/// What was left out of a unit as it was read.
#[derive(Clone, Copy, PartialEq, Eq)]
pub enum RemarkKind {
    /// A key stood more than once, and its last value was kept.
    EqualKey,
    /// A link whose trace or span identifier is zero was left out.
    LinkDropped,
    /// A tag that the form reserves was left out, since nothing in a trace holds it.
    TagDropped,
}

/// A remark on what was read.
#[derive(Drop)]
pub struct Remark {
    pub place: Place,
    pub kind: RemarkKind,
    /// The key of the attribute or tag, where there is one.
    pub key: Text,
}
