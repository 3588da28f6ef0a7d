//! Bytes of connections as tables, and the tests that hold requests, answers, connections and doors against them: no crate
//! stands on this one.
#![tactic(auto)]

#[cfg(test)]
mod answers;
#[cfg(test)]
mod doors;
#[cfg(test)]
mod pieces;
#[cfg(test)]
mod requests;
#[cfg(test)]
mod sent;
#[cfg(test)]
mod served;
#[cfg(test)]
mod texts;
