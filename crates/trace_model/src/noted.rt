//! What was read, and what is noted beside it.
use crate::value::{Attrs, Value};
use span_io::{Items, Text};

/// What bytes mean, with what is noted beside it: keys that stand more than once, or remarks.
#[derive(Drop)]
pub struct Noted<A, N> {
    pub means: A,
    pub notes: N,
}

/// A key and its value (OTLP `KeyValue`), with the keys that stand more than once inside the value.
#[derive(Drop)]
pub struct KeyValue {
    pub key: Text,
    pub value: Noted<Value, Items<Text>>,
}

/// What stands in a link beside its identifiers (OTLP `Span.Link`).
#[derive(Drop)]
pub struct LinkParts {
    pub state: Text,
    pub attributes: Attrs,
    /// The keys that stand more than once in the attributes.
    pub keys: Items<Text>,
    /// The number of attributes that were dropped.
    pub dropped: u32,
    pub flags: u32,
}

/// What an `InstrumentationScope` gives to the spans of its scope.
#[derive(Drop)]
pub struct InstrumentationScope {
    pub name: Text,
    pub version: Text,
    pub attributes: Attrs,
    /// The number of attributes that were dropped.
    pub dropped: u32,
}

/// What a `Resource` gives to its group.
#[derive(Drop)]
pub struct Resource {
    pub attributes: Attrs,
    /// The number of attributes that were dropped.
    pub dropped: u32,
}
