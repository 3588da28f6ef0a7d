//! A span of Zipkin, with its endpoints and annotations.
use span_ids::{Nanos, SpanId, TraceId};
use span_io::{Items, Text};

/// What a span does for its callers (Zipkin v2 `kind`).
#[derive(Clone, Copy, PartialEq, Eq)]
pub enum ZKind {
    Absent,
    Client,
    Server,
    Producer,
    Consumer,
}

/// A node of the network (Zipkin v2 `Endpoint`). An empty text and the port 0 are absent.
#[derive(Drop)]
pub struct Endpoint {
    pub service: Text,
    pub ipv4: Text,
    pub ipv6: Text,
    pub port: u16,
}

/// A span of Zipkin v2.
#[derive(Drop)]
pub struct ZSpan {
    pub trace: TraceId,
    pub id: SpanId,
    pub parent: Option<SpanId>,
    pub name: Text,
    pub kind: ZKind,
    /// In whole microseconds, as the end.
    pub start: Nanos,
    pub end: Nanos,
    pub debug: bool,
    pub shared: bool,
    pub local: Endpoint,
    pub remote: Endpoint,
    pub annotations: Items<(Nanos, Text)>,
    /// Rising by the bytes of the key.
    pub tags: Items<(Text, Text)>,
}
