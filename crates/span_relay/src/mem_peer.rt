//! A peer in memory, for tests and rows.
ghost use Rattle.std.specs.Prelude.{◌≡◌, ◌≤◌, ◌↔◌, ◌⊎◌, [], ◌∷◌, Err, Contains, IfOk};
ghost use Rattle.span_io.specs.Outside.{counted};
ghost use Rattle.span_relay.specs.MemPeers.{CountsRefusal, fresh_peer, wire_of};
ghost use Rattle.span_relay.specs.Peers.{IsPeerAddress, Sends};
ghost use Rattle.span_relay.specs.declared.peer.PeerFault.TheVariants as faults;

use crate::peer::{Peer, PeerFault, Sent};
use span_io::{Blob, Form, Items, OutOfMemory, Text};
use std::alloc::Global;
use std::collections::VecDeque;
use std::marker::Model;

/// A peer in memory, which answers with these statuses in their order. It fails on the listed calls of `send`, which
/// are numbered from 1, and where no status is left. The counts of its calls and faults stay at the end of 64 bits.
#[derive(Drop)]
pub struct MemPeer {
    statuses: VecDeque<u16>,
    fail: Items<u64>,
    calls: u64,
    faults: u64,
    sent: Items<Sent>,
    alloc: Global,
}

impl Model for MemPeer {
    ghost use Rattle.span_relay.specs.MemPeers.{PeerState};

    ghost Value = { PeerState };

    ghost view = { λ p. record {
      statuses = p.statuses.items;
      fail = p.fail;
      calls = p.calls;
      faults = p.faults;
      sent = p.sent;
    } };
}

impl MemPeer {
    /// A peer to which nothing was sent.
    pub fn new(alloc: Global, statuses: Items<u16>, fail: Items<u64>) -> MemPeer
        ensures { result ≡ fresh_peer statuses fail }
    {
        MemPeer {
            statuses: VecDeque::from_vec(statuses.into_vec()),
            fail,
            calls: 0,
            faults: 0,
            sent: Items::new(alloc),
            alloc,
        }
    }

    /// Lends what was sent, in its order.
    pub fn sent(&self) -> &[Sent]
        ensures { result.now ≡ self.now.sent }
    {
        self.sent.as_slice()
    }
}

// What was sent, in memory of its own.
fn entry(
    alloc: Global,
    address: &str,
    form: Form,
    body: &[u8],
    status: u16,
) -> Result<Sent, OutOfMemory>
    ensures { IfOk result (λ sent. sent
        ≡ record { address = address.now; form = form; body = body.now; status = status }) }
{
    Ok(Sent {
        address: Text::of(alloc, address)?,
        form,
        body: Blob::from_vec(Vec::from_slice(alloc, body)?),
        status,
    })
}

impl Peer for MemPeer {
    ghost wire = { wire_of };

    fn send(&mut self, address: &str, form: Form, body: &[u8]) -> Result<u16, PeerFault>
        requires address { IsPeerAddress address.now }
        ensures sends { Sends address.now form body.now (wire_of self.old)
            (wire_of self.new) result }
        ensures counted { (wire_of self.old).faults ≤ (wire_of self.new).faults }

        // It fails exactly on the listed calls, and where no status is left.
        ensures fails { (result ≡ Err faults.Failed)
            ↔ (Contains self.old.fail (counted self.old.calls) ⊎ (self.old.statuses ≡ [])) }
        ensures calls { self.new.calls ≡ counted self.old.calls }
        ensures faults { CountsRefusal result self.old.faults self.new.faults }
        ensures gives { IfOk result (λ status. self.old.statuses ≡ status ∷ self.new.statuses) }
        ensures stays { self.new.fail ≡ self.old.fail }
    {
        self.calls = self.calls.saturating_add(1);
        if self.fail.as_slice().contains(&self.calls) {
            self.faults = self.faults.saturating_add(1);
            return Err(PeerFault::Failed);
        }
        let Some(status) = self.statuses.pop_front() else {
            self.faults = self.faults.saturating_add(1);
            return Err(PeerFault::Failed);
        };
        let Ok(sent) = entry(self.alloc, address, form, body, status) else {
            return Err(PeerFault::OutOfMemory);
        };
        match self.sent.push(sent) {
            Ok(()) => Ok(status),
            Err(OutOfMemory) => Err(PeerFault::OutOfMemory),
        }
    }
}
