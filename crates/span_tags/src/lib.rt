//! What the tables of Jaeger and of Zipkin share: tags under reserved keys, runs of spans in scopes,
//! the fault that counts, and losses.
#![tactic(auto)]

mod decimal_texts;
mod escapes;
mod first_fault;
pub mod laws;
mod left_out;
mod losses;
mod placed_rows;
mod rows;
mod runs;
mod words;

pub use decimal_texts::decimal_in;
pub use escapes::{Reserves, escaped, unescaped};
pub use first_fault::{Faults, fault_in_group};
pub use left_out::{
    is_idle_code, is_idle_count, is_idle_library, is_idle_text, is_there, remark_if,
};
pub use losses::{
    has_items, has_text, is_unspecified, joins, lose, lose_key, lose_scope, names_behind,
    spans_behind,
};
pub use placed_rows::{put_row, put_rows};
pub use rows::{add_row, code_given, others, text_given, text_kept, word_given};
pub use runs::{ReadSpan, Runs};
pub use words::{code_in, count_in, name_in, text_in, text_or_empty, text_or_none, text_told};
