//! The Thrift wire format, over any protocol: what stands in a text of a struct, the trait that a protocol meets, passing
//! over values, and the first struct of a stream.
#![tactic(auto)]

mod field;
mod frame;
pub mod laws;
mod levels;
mod parts;
mod passing;
mod position;
mod protocol;
mod scanner;
mod skipping;
mod stack;
mod stepping;
mod type_code;

pub use field::{Field, ListHead, MapHead};
pub use frame::OUTER_LEVELS;
pub use levels::{why_not, why_not_both};
pub use parts::Parts;
pub use protocol::Protocol;
pub use scanner::StructScanner;
pub use skipping::{bytes, skip};
pub use stack::Level;
pub use type_code::TypeCode;
