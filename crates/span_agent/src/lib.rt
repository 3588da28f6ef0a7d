//! An agent of Jaeger's clients: the messages in datagrams, the batches in them, where datagrams come from, and a run that
//! receives them.
#![tactic(auto)]

mod arguments;
mod course;
mod header;
pub mod laws;
mod lines;
mod mem_post;
mod message;
mod options;
mod piece;
mod post;
mod run;
mod socket_post;

pub use course::PostCourse;
pub use mem_post::MemPost;
pub use message::{AgentCause, Message, read_message};
pub use options::{Options, read_options};
pub use piece::{AgentBad, convert_datagram};
pub use post::Post;
pub use run::agent_run;
pub use socket_post::SocketPost;
