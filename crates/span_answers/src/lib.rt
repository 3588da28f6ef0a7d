//! What a request is answered whose body has no text in the target form, and the lines that say why.
#![tactic(auto)]

mod answers;
mod note_lines;

pub use answers::{answer_fault, answer_refusal};
pub use note_lines::key_of;
