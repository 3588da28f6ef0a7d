//! A fault of the target, and where it was found.
use trace_model::Fault;

/// A fault of the target, and the number of the unit whose group has it, from 1.
#[derive(Drop)]
pub struct TargetFault {
    pub unit: u64,
    pub fault: Fault,
}
