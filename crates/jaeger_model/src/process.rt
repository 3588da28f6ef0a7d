//! The process of a batch.
use crate::tag::Tag;
use span_io::{Items, Text};

/// What recorded the spans of a batch (jaeger.thrift `Process`).
#[derive(Drop)]
pub(crate) struct Process {
    pub service: Text,
    pub tags: Items<Tag>,
}
