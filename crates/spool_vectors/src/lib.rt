//! Orders to a spool as tables, and the tests that hold both keepers and the carrying out of orders against them: no crate
//! stands on this one.
#![tactic(auto)]

#[cfg(test)]
mod bodies;
#[cfg(test)]
mod driven;
#[cfg(test)]
mod told;
