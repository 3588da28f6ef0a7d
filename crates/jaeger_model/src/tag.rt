//! A tag of Jaeger, and its value.
use span_io::{Bytes, Text};

/// What a tag holds, by its `vType` (jaeger.thrift `TagType`). A double is kept as its eight bytes, the most significant
/// first.
#[derive(Drop)]
pub enum TagValue {
    Text(Text),
    Eight([u8; 8]),
    Truth(bool),
    Number(i64),
    Bytes(Bytes),
}

/// A key and its value (jaeger.thrift `Tag`).
#[derive(Drop)]
pub struct Tag {
    pub key: Text,
    pub value: TagValue,
}
