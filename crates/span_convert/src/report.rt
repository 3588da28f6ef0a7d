//! What a converter reports of an input.
use span_io::Form;

/// What is reported of an input.
#[derive(Clone, Copy, PartialEq, Eq)]
pub enum Report {
    /// A line for each loss of a move to the form, and then how many there are.
    Losses(Form),
    /// A line for each span.
    Show,
    /// A line for each remark on what was read, and then how many units, spans and remarks there are.
    Check,
}
