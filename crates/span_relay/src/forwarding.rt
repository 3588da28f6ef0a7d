//! Sending kept bodies on.
ghost use Rattle.std.specs.Prelude.{◌≡◌, ◌⊎◌, ◌↔◌, ◌≤◌, Ok, Err, IsOk, IsTrue};
ghost use Rattle.span_io.specs.Outside.{Rose};
ghost use Rattle.span_spool.specs.Calls.{IsFirst};
ghost use Rattle.span_spool.specs.Spools.{IsSpool};
ghost use Rattle.span_relay.specs.Forwards.{CountsFlow, Forwards, IsTaken};
ghost use Rattle.span_relay.specs.Peers.{IsPeerAddress};
ghost use Rattle.span_relay.specs.private.ForwardSteps.{SendsFirst};

use crate::peer::{Peer, PeerFault};
use span_spool::{KeepFault, Keeper, Kept};

/// How sending ends.
#[derive(Clone, Copy, PartialEq, Eq)]
pub enum Flow {
    /// No body is left.
    Empty,
    /// The peer answered the first one with this status, and it is still there.
    Held(u16),
    /// As many as were asked for have left, and others are there.
    Spent,
}

/// Why sending ends before.
#[derive(Clone, Copy, PartialEq, Eq)]
pub enum FlowFault {
    /// The keeper failed.
    Keeper,
    /// The peer failed.
    Peer,
    OutOfMemory,
}

/// Sends kept bodies to an address, in order, so many at the most. Each is dropped once the peer answered it with 200 to
/// 299; the first one that it answers otherwise stays, and ends the flow.
pub fn forward<K: Keeper, P: Peer>(
    keeper: &mut K,
    peer: &mut P,
    address: &str,
    budget: u64,
) -> Result<Flow, FlowFault>
    requires address { IsPeerAddress address.now }
    requires some { 1 ≤ budget }

    // The first bodies were sent in order, and those that were taken left, and no other one.
    ensures forwards { Forwards address.now budget result
        (K.spool keeper.old) (K.spool keeper.new) (P.wire peer.old) (P.wire peer.new) }

    // It is empty exactly where it says so.
    ensures empty { IsOk result → (result ≡ Ok Flow.Empty) ↔ ((K.spool keeper.new).held ≡ 0) }

    // The keeper and the peer fail only where their counts rose.
    ensures counts { CountsFlow result (K.spool keeper.old) (K.spool keeper.new) (P.wire peer.old)
        (P.wire peer.new) }

    // Where neither count rose, the flow came to its end, or memory was wanted.
    ensures complete { ¬ Rose (K.spool keeper.old).faults (K.spool keeper.new).faults
        → ¬ Rose (P.wire peer.old).faults (P.wire peer.new).faults
        → IsOk result ⊎ (result ≡ Err FlowFault.OutOfMemory) }
    ensures counted { (K.spool keeper.old).faults ≤ (K.spool keeper.new).faults }
    ensures wire_counted { (P.wire peer.old).faults ≤ (P.wire peer.new).faults }
    ensures sound { IsSpool (K.spool keeper.old) × IsSpool (K.spool keeper.new) }
{
    let _held = keeper.size();
    'bodies: for done in 0..budget {
        match send_first(keeper, peer, address) {
            Ok(None) => {}
            Ok(Some(flow)) => return Ok(flow),
            Err(fault) => return Err(fault),
        }
    }
    if keeper.size() == 0 {
        return Ok(Flow::Empty);
    }
    Ok(Flow::Spent)
}

// Sends the first body, and drops it where the peer took it. Where it stays, the answer says how the flow ends.
fn send_first<K: Keeper, P: Peer>(
    keeper: &mut K,
    peer: &mut P,
    address: &str,
) -> Result<Option<Flow>, FlowFault>
    requires { IsPeerAddress address.now }
    ensures sends { SendsFirst address.now result
        (K.spool keeper.old) (K.spool keeper.new) (P.wire peer.old) (P.wire peer.new) }
    ensures counted { (K.spool keeper.old).faults ≤ (K.spool keeper.new).faults }
    ensures wire_counted { (P.wire peer.old).faults ≤ (P.wire peer.new).faults }
    ensures sound { IsSpool (K.spool keeper.old) × IsSpool (K.spool keeper.new) }
{
    match keeper.first() {
        Ok(None) => Ok(Some(Flow::Empty)),
        Ok(Some(row)) => send_row(keeper, peer, address, &row),
        Err(KeepFault::Failed) => Err(FlowFault::Keeper),
        Err(KeepFault::OutOfMemory) => Err(FlowFault::OutOfMemory),
        Err(KeepFault::Full | KeepFault::Spent) => unreachable!(),
    }
}

// The same of a row that is the first.
fn send_row<K: Keeper, P: Peer>(
    keeper: &mut K,
    peer: &mut P,
    address: &str,
    row: &Kept,
) -> Result<Option<Flow>, FlowFault>
    requires address { IsPeerAddress address.now }
    requires is_first { IsFirst (K.spool keeper.old) row.now }
    requires sound { IsSpool (K.spool keeper.old) }
    ensures sends { SendsFirst address.now result
        (K.spool keeper.old) (K.spool keeper.new) (P.wire peer.old) (P.wire peer.new) }
    ensures counted { (K.spool keeper.old).faults ≤ (K.spool keeper.new).faults }
    ensures wire_counted { (P.wire peer.old).faults ≤ (P.wire peer.new).faults }
    ensures sound { IsSpool (K.spool keeper.new) }
{
    let status = match peer.send(address, row.form, row.body.as_slice()) {
        Ok(status) => status,
        Err(PeerFault::Failed) => return Err(FlowFault::Peer),
        Err(PeerFault::OutOfMemory) => return Err(FlowFault::OutOfMemory),
    };
    if !is_taken(status) {
        return Ok(Some(Flow::Held(status)));
    }
    match keeper.drop_first(row.number) {
        Ok(true) => Ok(None),
        Err(KeepFault::Failed) => Err(FlowFault::Keeper),
        Err(KeepFault::OutOfMemory) => Err(FlowFault::OutOfMemory),
        Ok(false) | Err(KeepFault::Full | KeepFault::Spent) => unreachable!(),
    }
}

// Whether a peer that answers this took the body.
fn is_taken(status: u16) -> bool
    ensures { IsTrue result ↔ IsTaken status }
{
    200 <= status && status <= 299
}
