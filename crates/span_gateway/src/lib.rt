//! Serving connections whose clients post spans: each body is converted to one form, and its text is the answer.
#![tactic(auto)]

mod answering;
mod converting;
pub mod laws;
mod serve;

pub use conn_service::{Ended, ServeFault};
pub use serve::serve_connection;
