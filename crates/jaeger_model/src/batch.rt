//! A batch of Jaeger.
use crate::span::JSpan;
use crate::tag::Tag;
use span_io::{Items, Text};

/// A process and its spans (jaeger.thrift `Batch`).
#[derive(Drop)]
pub struct Batch {
    pub service: Text,
    pub tags: Items<Tag>,
    pub spans: Items<JSpan>,
}
