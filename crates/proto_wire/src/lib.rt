//! Records of the proto3 wire format: reading one at a time, finding where each ends of bytes that come in pieces, and
//! writing the one shortest spelling.
#![tactic(auto)]

mod frame;
pub mod laws;
mod reading;
mod record;
mod scanner;
mod writing;

pub use reading::next_record;
pub use record::{Payload, WireRecord};
pub use scanner::UnitScanner;
pub use writing::{close_record, open_record, opening_size, record_size, write_record};
