/// Whether a trace is to be recorded, as its caller decided.
#[derive(Clone, Copy, PartialEq, Eq)]
pub enum Sampling {
    /// Nothing was said (B3 alone).
    Absent,
    No,
    Yes,
    /// Recorded whatever samplers say (B3, `uber-trace-id`).
    Debug,
}
