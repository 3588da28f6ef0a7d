//! A span of Jaeger, with its references and logs.
use crate::tag::Tag;
use span_ids::{Nanos, SpanId, TraceId};
use span_io::{Items, Text};

/// A span that this one follows or is a child of (jaeger.thrift `SpanRef`).
#[derive(Clone, Copy, PartialEq, Eq)]
pub struct SpanRef {
    /// CHILD_OF, else FOLLOWS_FROM.
    pub child_of: bool,
    pub trace: TraceId,
    pub span: SpanId,
}

/// Something that happened in a span (jaeger.thrift `Log`).
#[derive(Drop)]
pub struct Log {
    pub time: Nanos,
    pub fields: Items<Tag>,
}

/// A span (jaeger.thrift `Span`).
#[derive(Drop)]
pub struct JSpan {
    pub trace: TraceId,
    pub id: SpanId,
    pub parent: Option<SpanId>,
    pub name: Text,
    pub references: Items<SpanRef>,
    /// The number of references to no span, which aren't kept: their trace or span id is zero.
    pub invalid_refs: u32,
    pub flags: i32,
    pub start: Nanos,
    pub end: Nanos,
    pub tags: Items<Tag>,
    pub logs: Items<Log>,
}
