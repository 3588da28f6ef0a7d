//! What answers requests.
ghost use Rattle.std.specs.Prelude.{ℕ, List, OnErr, OnOk};
ghost use Rattle.span_io.specs.Limits.{AreLimits};
ghost use Rattle.span_io.specs.declared.limits.Limits.{Limits};
ghost use Rattle.http_conn.specs.declared.next.Request.{Request};
ghost use Rattle.conn_service.specs.Services.{Appends, IsAsked};

use http_conn::Request;
use span_io::{Blob, Limits, OutOfMemory};
use std::alloc::Global;

/// What answers the requests of a connection. Contracts see what an answer does to it, from the value before to
/// the one behind.
pub trait Service {
    // From the first state, the request that these bytes are is answered with this text, which leaves the second.
    ghost answers: { Limits → Self → Request → List ℕ → List ℕ → Self → Type 0 };

    // What may stand where memory was wanted for that answer.
    ghost halts: { Limits → Self → Request → List ℕ → Self → Type 0 };

    // What any number of calls keeps, from the state before them to the one behind.
    ghost leads: { Self → Self → Type 0 };

    /// Appends the answer to the request that these bytes are. Behind want of memory comes no other call.
    fn answer(
        &mut self,
        alloc: Global,
        out: &mut Blob,
        request: &Request,
        bytes: &[u8],
        limits: &Limits,
    ) -> Result<(), OutOfMemory>
        requires limits { AreLimits limits.now }
        requires asked { IsAsked request.now bytes.now }
        ensures ok { OnOk result
            (Appends (answers limits.now) self.old self.new request.now bytes.now out.old out.new) }
        ensures err { OnErr result (halts limits.now self.old request.now bytes.now self.new) }
        ensures leads { leads self.old self.new };

    ghost leads_none: { (s : Self) → leads s s };

    ghost leads_then: { (a b c : Self) → leads a b → leads b c → leads a c };
}
