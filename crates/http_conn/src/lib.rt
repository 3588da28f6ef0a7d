//! Requests that are read from the bytes of a connection and the bytes of their answers, and a request that is sent
//! over one and the status of its answer (RFC 9110 and RFC 9112).
#![tactic(auto)]

mod answer_head;
mod bodies;
mod ends;
mod fields;
mod head;
mod known;
pub mod laws;
mod lines;
mod media;
mod next;
mod post;
mod reply;
mod requests;
mod send;
mod service;
mod status;

pub use answer_head::answer_status;
pub use known::Known;
pub use media::type_of;
pub use next::{Next, Request};
pub use post::is_address;
pub use reply::answer;
pub use requests::{next_request, next_request_from};
pub use send::{SendFault, send_over};
pub use service::Service;
