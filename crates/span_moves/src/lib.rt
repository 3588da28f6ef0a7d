//! What a move of a trace from one form to another keeps, and that a second move changes nothing more. It has laws alone, as
//! contracts of functions that do nothing.
#![tactic(auto)]

pub mod kept;
pub mod pairs;
