//! Spans of Zipkin v2 as JSON: reading them, with the cause of the first offence, and writing them.
#![tactic(auto)]

pub mod laws;
mod proper;
mod reading;
mod span;
mod writing;

pub use proper::proper_span;
pub use reading::{read_spans, read_text};
pub use span::{Endpoint, ZKind, ZSpan};
pub use writing::write_span;
