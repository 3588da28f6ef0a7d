//! Spans of Zipkin as groups of a trace, and back, by the OpenTelemetry exporter page for Zipkin.
#![tactic(auto)]

mod columns;
mod count_texts;
mod faults;
mod groups;
mod keys;
pub mod laws;
mod losing;
mod own;
mod reading;
mod run;
mod writing;

pub use faults::fault_of_group;
pub use groups::groups_of_spans;
pub use losing::{last_run, losses};
pub use reading::triple_of_span;
pub use run::Run;
pub use writing::spans_of_group;
