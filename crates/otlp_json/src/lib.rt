//! Groups of spans in OTLP/JSON: reading them, with the remarks on them and the cause of the first
//! offence, and writing them.
#![tactic(auto)]

pub mod laws;
mod reading;
mod writing;

pub use reading::{read_groups, read_text};
pub use writing::{fault_of_group, write_group};
