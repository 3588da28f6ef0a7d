//! Writing messages of OTLP as protobuf: one canonical text for each.
mod elements;
mod enclosed;
mod fields;
mod groups;
mod parts;
mod spans;
mod values;

pub use groups::write_group;
