//! The gauge: a trace that is made by numbers alone, by which sizes and speeds are told.
#![tactic(auto)]

mod group;
pub mod laws;
mod size;
mod span;

pub use group::{groups_of, write_gauge_group};
pub use size::gauge_size;
