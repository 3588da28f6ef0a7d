//! A run of spans that stand in one scope.
use span_io::Text;
use trace_model::Attrs;

/// The resource of a span, and the name and version of its scope. Spans one after the other of one run
/// stand in one scope.
#[derive(Drop)]
pub struct Run {
    pub resource: Attrs,
    pub name: Text,
    pub version: Text,
}
