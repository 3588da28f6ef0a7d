//! Reading batches of Jaeger over any Thrift protocol, with the cause of the first offence.
mod batch;
mod identifiers;
mod leaves;
mod lists;
mod log;
mod message;
mod process;
mod reference;
mod references;
mod rows;
mod span;
mod tag;

pub use batch::read_batch;
