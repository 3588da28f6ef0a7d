//! Bytes and texts from outside, as tables, and the tests that hold the libraries below the trace against them: no crate stands
//! on this one.
#![tactic(auto)]

#[cfg(test)]
mod identifiers;
#[cfg(test)]
mod members;
#[cfg(test)]
mod outside;
#[cfg(test)]
mod pieces;
#[cfg(test)]
mod tables;
#[cfg(test)]
mod texts;
#[cfg(test)]
mod thrift;
#[cfg(test)]
mod wire;
