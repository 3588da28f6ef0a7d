//! Connections, sending on and runs of the relay as tables, and the tests that hold it against them: no crate stands on
//! this one.
#![tactic(auto)]

#[cfg(test)]
mod connections;
#[cfg(test)]
mod devices;
#[cfg(test)]
mod failing;
#[cfg(test)]
mod flows;
#[cfg(test)]
mod peers;
#[cfg(test)]
mod runs;
#[cfg(test)]
mod spent;
#[cfg(test)]
mod texts;
#[cfg(test)]
mod told;
