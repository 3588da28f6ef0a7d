//! The Thrift compact protocol: how each part of a text is spelled, read and written.
#![tactic(auto)]

mod compact;
pub mod laws;
mod reading;
mod type_codes;
mod writing;

pub use compact::Compact;
