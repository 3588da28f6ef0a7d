//! Serving a connection: its requests are answered in their order, each by a service, before more is read.
#![tactic(auto)]

mod ended;
mod pending;
mod reading;
mod service;
mod serving;
mod whole;

pub use ended::{Ended, ServeFault};
pub use service::Service;
pub use serving::serve;
