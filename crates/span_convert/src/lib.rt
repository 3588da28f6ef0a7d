//! Conversion of traces from one form to another, and reports of them, in pieces or in one call.
#![tactic(auto)]

mod all;
mod bad;
mod batch_file;
mod batch_writer;
mod check_writer;
mod document;
mod group_file;
mod growing_sink;
mod intake;
pub mod laws;
mod losing;
mod loss_writer;
pub mod move_laws;
mod one_batch;
mod pen;
mod progress;
mod report;
mod request;
mod show_writer;
mod span_file;
mod stop;
mod tally;
mod target_fault;
mod unit_pen;
mod units;
mod walk;
mod walker;
mod why;
mod written;

pub use all::convert_all;
pub use bad::Bad;
pub use one_batch::convert_batch;
pub use report::Report;
pub use span_io::{Form, Limits, Refusal};
pub use stop::Stop;
pub use tally::Tally;
pub use target_fault::TargetFault;
pub use walker::{Converter, Reporter, Walker};
pub use why::Why;
pub use written::Written;
