//! The relay: it answers each post once its converted body is kept, and sends the kept bodies on in order, each until its
//! peer acknowledged it.
#![tactic(auto)]

mod connection;
mod forwarding;
pub mod laws;
mod mem_peer;
mod options;
mod peer;
mod relaying;
mod round;
mod run;
mod tcp_peer;

pub use connection::{RelayEnd, RelayFault, RelayWhy, Served, relay_connection};
pub use forwarding::{Flow, FlowFault, forward};
pub use mem_peer::MemPeer;
pub use options::{Options, read_options};
pub use peer::{Peer, PeerFault, Sent};
pub use round::Round;
pub use run::relay_run;
pub use tcp_peer::TcpPeer;
