//! The Thrift binary protocol: how each part of a text is spelled, read and written.
#![tactic(auto)]

mod binary;
pub mod laws;
mod reading;
mod type_codes;

pub use binary::Binary;
