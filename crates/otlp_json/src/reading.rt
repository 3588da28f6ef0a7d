//! Reading groups of OTLP/JSON, with the remarks on them and the cause of the first offence.
mod attributes;
mod event;
mod events;
mod group;
mod groups;
mod identifiers;
mod input;
mod instrumentation_scope;
mod link;
mod links;
mod lists;
mod numbers;
mod resource;
mod scope;
mod scopes;
mod span;
mod spans;
mod standing;
mod status;
mod values;

pub use input::{read_groups, read_text};
