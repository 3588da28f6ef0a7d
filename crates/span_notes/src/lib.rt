//! What the programs share: words in pairs, numbers in words, and notes.
#![tactic(auto)]

mod notes;
mod numbers;
mod pairs;
mod pieces;

pub use notes::{note_line, note_more, note_numbered, note_pieces};
pub use numbers::decimal_of;
pub use pairs::{count_at, form_at, is_at, word_place};
pub use pieces::append_pieces;
