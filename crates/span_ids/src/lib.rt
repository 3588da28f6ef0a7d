//! Identifiers and times of spans.
#![tactic(auto)]

mod bad_id;
mod hex_text;
pub mod laws;
mod nanos;
mod proper;
mod span_id;
mod trace_id;

pub use bad_id::BadId;
pub use hex_text::IdRule;
pub use nanos::Nanos;
pub use proper::proper_parent;
pub use span_id::SpanId;
pub use trace_id::TraceId;
