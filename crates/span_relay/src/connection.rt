//! Serving one connection of a relay.
ghost use Rattle.std.specs.Prelude.{◌≡◌, ◌≤◌, []};
ghost use Rattle.span_io.specs.Limits.{AreLimits};
ghost use Rattle.span_spool.specs.Spools.{IsSpool};
ghost use Rattle.span_relay.specs.RelayConnections.{
  AddsRows,
  AnswersOutcomes,
  CountsRefused,
  FalseWhereFull,
  HasCause,
  IfMemoryWanted,
  IfReadFailed,
  IfServed,
  IfWriteFailed,
  IsRelayed,
  KeepsRelayMark,
  RelaysToRead,
  RelaysToWant,
  RelaysToWrite,
  TellsEach,
  outcomes_in,
};
ghost use Rattle.span_relay.specs.private.RelayPoints.{Points};

use crate::relaying::Relaying;
pub use conn_service::{Ended as RelayEnd, ServeFault as RelayWhy};
use span_io::{Duplex, Form, Items, Limits};
use span_spool::Keeper;
use std::alloc::Global;

/// A connection that was served to its end.
#[derive(Drop)]
pub struct Served {
    /// How it ended.
    pub end: RelayEnd,
    /// Of each good request whether the text of its body was kept.
    pub outcomes: Items<bool>,
}

/// A connection that wasn't.
#[derive(Drop)]
pub struct RelayFault {
    pub why: RelayWhy,
    /// Of each good request so far whether the text of its body was kept.
    pub outcomes: Items<bool>,
}

/// Serves one connection to its end. The text of each good body, in this form, is handed to the keeper before its
/// request is answered, and the answer says whether it was kept. All else is answered as a gateway does.
pub fn relay_connection<C: Duplex, K: Keeper>(
    alloc: Global,
    conn: &mut C,
    keeper: &mut K,
    to: Form,
    limits: &Limits,
) -> Result<Served, RelayFault>
    requires { AreLimits limits.now }

    // At each exit the rows gained the texts with a true outcome, where the keeper tells its rows.
    ensures rows { AddsRows to limits.now (outcomes_in result)
        (C.link conn.old) (C.link conn.new) (K.spool keeper.old) (K.spool keeper.new) }

    // Outcomes are false where the spool is full, and else at most as often as the keeper failed.
    ensures full { FalseWhereFull (K.spool keeper.old) (outcomes_in result) }
    ensures refused { CountsRefused (K.spool keeper.old) (K.spool keeper.new) (outcomes_in result) }

    // The room for an outcome is taken before its body is kept: no body is kept without one.
    ensures each { TellsEach (K.spool keeper.old) (K.spool keeper.new) (outcomes_in result) }

    // What was answered, by how the call ends.
    ensures served { IfServed result
        (IsRelayed to limits.now (C.link conn.old) (C.link conn.new) (outcomes_in result)) }
    ensures read { IfReadFailed result
        (RelaysToRead to limits.now (C.link conn.old) (C.link conn.new) (outcomes_in result)) }
    ensures write { IfWriteFailed result
        (RelaysToWrite to limits.now (C.link conn.old) (C.link conn.new) (outcomes_in result)) }
    ensures memory { IfMemoryWanted result
        (RelaysToWant to limits.now (C.link conn.old) (C.link conn.new) (outcomes_in result)) }

    // Each standard answer was written after its body was kept.
    ensures answers { AnswersOutcomes to limits.now (C.link conn.old) (C.link conn.new)
        (outcomes_in result) }
    ensures causes { HasCause (C.link conn.old) (C.link conn.new) result }

    // Whole requests have their answers before more bytes come.
    ensures mark { KeepsRelayMark to limits.now (outcomes_in result) (C.link conn.old)
        (C.link conn.new) }
    ensures counted { (K.spool keeper.old).faults ≤ (K.spool keeper.new).faults }
    ensures sound { IsSpool (K.spool keeper.old) × IsSpool (K.spool keeper.new) }
{
    let mut outcomes = Vec::new(alloc);
    let served = serve_over(alloc, conn, keeper, &mut outcomes, to, limits);
    let outcomes = Items::from_vec(outcomes);
    match served {
        Ok(end) => Ok(Served { end, outcomes }),
        Err(why) => Err(RelayFault { why, outcomes }),
    }
}

// The same with the list of outcomes, which is empty.
fn serve_over<C: Duplex, K: Keeper>(
    alloc: Global,
    conn: &mut C,
    keeper: &mut K,
    outcomes: &mut Vec<bool>,
    to: Form,
    limits: &Limits,
) -> Result<RelayEnd, RelayWhy>
    requires limits { AreLimits limits.now }
    requires none { outcomes.old.items ≡ [] }
    ensures points { Points to limits.now (C.link conn.old) (C.link conn.new)
        (K.spool keeper.old) (K.spool keeper.new) outcomes.new.items result }
    ensures sound { IsSpool (K.spool keeper.old) }
{
    let _held = keeper.size();
    let mut relaying = Relaying::new(keeper, outcomes, to);
    relaying.serve(alloc, conn, limits)
}
