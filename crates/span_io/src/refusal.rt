//! Where an input was refused, and why.
use crate::cause::Cause;

/// Why an input has no reading: the unit that it stands in, counted from 1, or 0 for the input as a
/// whole, and the cause.
#[derive(Clone, Copy, Debug, PartialEq, Eq)]
pub struct Refusal {
    pub unit: u64,
    pub cause: Cause,
}
