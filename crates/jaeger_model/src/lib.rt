//! Jaeger batches (jaeger.thrift): a process and its spans, read and written over any Thrift protocol.
#![tactic(auto)]

mod batch;
pub mod laws;
mod process;
mod proper;
mod reading;
mod span;
mod tag;
mod writing;
pub mod written_laws;

pub use batch::Batch;
pub use proper::proper_batch;
pub use reading::read_batch;
pub use span::{JSpan, Log, SpanRef};
pub use tag::{Tag, TagValue};
pub use writing::{proper_sizes, write_batch};
