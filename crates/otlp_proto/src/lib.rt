//! Messages of OTLP as protobuf: reading them, with the cause of the first offence, and writing them.
#![tactic(auto)]

pub mod laws;
mod reading;
mod writing;

pub use reading::read_group;
pub use writing::write_group;
