//! Tables of rows, each in one text that is split when it is read: what crates of tests are held against; and the texts
//! of spans that they name.
//!
//! Rows are parted by an empty line. The first line of a row is its name. Each further line is a key and, behind a blank, a
//! text; a line that begins with a blank goes on with the text before, without that blank. A key may stand several times.
#![tactic(auto)]

mod escapes;
mod parts;
mod row;
mod spelled;
pub mod texts;
mod words;

pub use escapes::unescaped;
pub use row::{Field, Row, row_named, rows};
pub use spelled::append_spelled;
pub use words::{Words, sides};
