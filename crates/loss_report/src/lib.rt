//! The lines of reports: what a move to another form loses, remarks on what was read, and the spans of
//! a trace.
#![tactic(auto)]

mod losses;
mod pieces;
mod remarks;
mod spans;

pub use losses::{loss_count_line, loss_line};
pub use remarks::{counts_line, remark_line};
pub use spans::show_line;
