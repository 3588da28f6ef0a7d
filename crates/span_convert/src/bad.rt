//! Why an input has no text in the target form.
use crate::target_fault::TargetFault;
use span_io::Refusal;

/// Why an input has no text in the target form.
#[derive(Drop)]
pub enum Bad {
    Refused(Refusal),
    Faulted(TargetFault),
    OutOfMemory,
}
