//! The command line of `spanx`: its words, and what a run does with them.
#![tactic(auto)]

mod block;
mod command;
mod ending;
mod gauge;
mod headers;
mod input;
mod job;
mod note;
mod noted_fault;
mod serve;
mod serve_words;
mod top;

pub use command::{Command, read_words};
pub use top::run;
