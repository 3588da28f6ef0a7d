//! Batches of Jaeger as groups of a trace, and back, by the OpenTelemetry exporter page for Jaeger.
#![tactic(auto)]

mod columns;
mod faults;
pub mod laws;
mod losing;
mod reading;
mod writing;

pub use faults::fault_of_group;
pub use losing::losses;
pub use reading::group_of_batch;
pub use writing::batch_of_group;
