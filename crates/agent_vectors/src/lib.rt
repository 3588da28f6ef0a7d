//! Datagrams as tables, and the tests that hold the agent against them: no crate stands on this one.
#![tactic(auto)]

#[cfg(test)]
mod datagrams;
#[cfg(test)]
mod messages;
#[cfg(test)]
mod pieces;
#[cfg(test)]
mod posts;
#[cfg(test)]
mod runs;
