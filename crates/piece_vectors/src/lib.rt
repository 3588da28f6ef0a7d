//! Inputs that come in pieces as tables, and the tests that hold the converter and `run` against what is written behind each
//! piece: no crate stands on this one.
#![tactic(auto)]

#[cfg(test)]
mod check;
#[cfg(test)]
mod conversion;
#[cfg(test)]
mod devices;
#[cfg(test)]
mod failing;
#[cfg(test)]
mod fronts;
#[cfg(test)]
mod pieces;
#[cfg(test)]
mod rows;
#[cfg(test)]
mod runs;
#[cfg(test)]
mod sinks;
#[cfg(test)]
mod texts;
