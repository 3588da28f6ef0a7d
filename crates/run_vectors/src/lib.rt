//! Whole runs of the top call as tables of rows, and the tests that hold `run` against them: no crate stands on this one.
#![tactic(auto)]

#[cfg(test)]
mod bench;
#[cfg(test)]
mod conversions;
#[cfg(test)]
mod runs;
#[cfg(test)]
mod texts;
#[cfg(test)]
mod told;
