//! What is known of the next frame.
use crate::cause::Cause;

/// What is known of the next frame of a binary form once some bytes are there.
#[derive(Clone, Copy, PartialEq, Eq)]
pub enum Step {
    /// More bytes are needed.
    Need,
    /// The frame ends with so many first bytes.
    Unit(usize),
    /// No frame within the limit comes of the bytes.
    Refused(Cause),
}
