//! JSON as a flat list of nodes that borrow the text: what `serde_json` reads, without a tree.
#![tactic(auto)]

mod building;
mod elements;
mod lent;
mod members;
mod node;
mod number;
mod owned;
mod text;
mod unread;

pub use elements::Elements;
pub use lent::Lent;
pub use members::Members;
pub use node::Node;
pub use number::Number;
pub use owned::value_nodes;
pub use text::{bytes_nodes, text_nodes};
pub use unread::Unread;
