//! Reading messages of OTLP from protobuf, with the cause of the first offence.
mod attributes;
mod event;
mod group;
mod instrumentation_scope;
mod link;
mod message;
mod plain;
mod resource;
mod rows;
mod scope;
mod span;
mod status;
mod value;
mod value_rows;

pub use group::read_group;
