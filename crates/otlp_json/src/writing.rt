//! Writing groups as OTLP/JSON: one canonical text for each.
mod doubles;
mod elements;
mod groups;
mod members;
mod parts;
mod spans;
mod values;

pub use doubles::fault_of_group;
pub use groups::write_group;
