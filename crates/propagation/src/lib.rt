//! Trace context in the headers of requests: W3C Trace Context, B3 and Jaeger's `uber-trace-id`.
#![tactic(auto)]

mod b3;
mod context;
mod digits;
mod found;
mod header_cause;
mod header_form;
mod headers;
mod ids;
pub mod laws;
mod letters;
mod lines;
mod members;
mod multi;
mod no_ids;
mod sampling;
mod traceparent;
mod tracestate;
mod uber;
mod writing;

pub use b3::{read_b3, write_b3};
pub use context::Context;
pub use header_cause::HeaderCause;
pub use header_form::HeaderForm;
pub use headers::read_headers;
pub use ids::Ids;
pub use no_ids::NoIds;
pub use sampling::Sampling;
pub use traceparent::{read_traceparent, write_traceparent};
pub use tracestate::read_tracestate;
pub use uber::{read_uber, write_uber};
pub use writing::write_headers;
