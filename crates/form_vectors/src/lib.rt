//! Values from outside, as tables, and the tests that hold the trace, its forms and the tables against them. Each row stands
//! once, and each library is proved without the rows: no crate stands on this one.
#![tactic(auto)]

#[cfg(test)]
mod batches;
#[cfg(test)]
mod events;
#[cfg(test)]
mod groups_json;
#[cfg(test)]
mod jaeger_map;
#[cfg(test)]
mod remarks;
#[cfg(test)]
mod requests;
#[cfg(test)]
mod spans_json;
#[cfg(test)]
mod traces;
#[cfg(test)]
mod zipkin_map;
