//! Whom a relay forwards to, and what a call of it promises.
ghost use Rattle.std.specs.Prelude.{◌≤◌};
ghost use Rattle.span_relay.specs.Peers.{IsPeerAddress, Sends, Wire};

use span_io::{Blob, Form, Text};

/// Why a peer gave no status.
#[derive(Clone, Copy, PartialEq, Eq)]
pub enum PeerFault {
    /// It wasn't reached, or gave no answer.
    Failed,
    OutOfMemory,
}

/// A body that was sent to an address, and the status that it was answered with.
#[derive(Drop)]
pub struct Sent {
    pub address: Text,
    pub form: Form,
    pub body: Blob,
    pub status: u16,
}

/// What takes bodies. Contracts see it as its `wire`: what was sent, where that is told, and a count of its faults,
/// which stays at the end of 64 bits.
pub trait Peer {
    ghost wire: { Self → Wire };

    /// Sends a body to an address, and answers the status that the peer gave.
    fn send(&mut self, address: &str, form: Form, body: &[u8]) -> Result<u16, PeerFault>
        requires address { IsPeerAddress address.now }
        ensures sends { Sends address.now form body.now (wire self.old) (wire self.new) result }
        ensures counted { (wire self.old).faults ≤ (wire self.new).faults };
}
