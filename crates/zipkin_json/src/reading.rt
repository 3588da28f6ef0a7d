//! Reading spans of Zipkin from JSON, with the cause of the first offence.
mod annotation;
mod endpoint;
mod identifiers;
mod input;
mod members;
mod spans;
mod tags;

pub use input::{read_spans, read_text};
