//! The identifiers of a context.
use span_ids::{SpanId, TraceId};

/// The identifiers of a context: of its trace, of the span that calls, and of that span's parent,
/// where it is told.
#[derive(Clone, Copy, PartialEq, Eq)]
pub struct Ids {
    pub trace: TraceId,
    pub span: SpanId,
    pub parent: Option<SpanId>,
}
