//! Why a unit has no text in the target form.
use crate::target_fault::TargetFault;
use span_io::Refusal;

/// What a converter refused, or its target can't hold.
#[derive(Clone, Copy)]
pub enum Why<'a> {
    Nothing,
    Refusal(&'a Refusal),
    Fault(&'a TargetFault),
}
