//! Groups and scopes of spans.
use crate::span::Span;
use crate::value::Attrs;
use span_io::{Items, Text};

/// Spans of one instrumentation scope (OTLP `ScopeSpans` with its `InstrumentationScope`).
#[derive(Drop)]
pub struct Scope {
    pub name: Text,
    pub version: Text,
    pub attributes: Attrs,
    /// The number of attributes that were dropped.
    pub dropped: u32,
    pub schema_url: Text,
    pub spans: Items<Span>,
}

/// Spans of one resource (OTLP `ResourceSpans` with its `Resource`). A trace is a list of groups.
#[derive(Drop)]
pub struct Group {
    pub resource: Attrs,
    /// The number of attributes that were dropped.
    pub dropped: u32,
    pub schema_url: Text,
    pub scopes: Items<Scope>,
}
