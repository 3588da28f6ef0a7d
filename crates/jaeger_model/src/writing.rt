//! Writing batches of Jaeger as Thrift: one canonical text for each.
mod batches;
mod fields;
mod sizes;
mod spans;
mod structures;
mod tags;

pub use batches::write_batch;
pub use sizes::proper_sizes;
