//! Answering the whole requests among the bytes that were read.
ghost use Rattle.std.specs.Prelude.{◌≡◌, ◌≤◌, IsTrue, length, true};
ghost use Rattle.span_io.specs.Limits.{AreLimits};
ghost use Rattle.http_conn.specs.NextRequests.{Knows};
ghost use Rattle.http_conn.specs.Replies.{is_status};
ghost use Rattle.conn_service.specs.Services.{IsAsked};
ghost use Rattle.conn_service.specs.private.Steps.{AnswersWhole, Refuses, Replies, Sends};

use crate::ended::{Ended, ServeFault};
use crate::pending::Pending;
use crate::service::Service;
use http_conn::laws::{known_stays, one_next_request, whole_requests};
use http_conn::{Known, Next, Request, answer, next_request_from};
use span_io::laws::gains_then;
use span_io::{Blob, Duplex, Failed, Limits, OutOfMemory, send_all};
use std::alloc::Global;

/// Answers all whole requests that begin the bytes, up to one that ends the connection, or to what is refused.
/// The answer is how the connection ends, where it does.
pub(crate) fn answer_whole<C: Duplex, S: Service>(
    alloc: Global,
    conn: &mut C,
    service: &mut S,
    pending: &mut Pending,
    known: &mut Known,
    limits: &Limits,
) -> Result<Option<Ended>, ServeFault>
    requires limits { AreLimits limits.now }
    requires known { Knows limits.now pending.old known.old }
    ensures answers { AnswersWhole (S.answers limits.now)
        (S.halts limits.now) limits.now service.old service.new
        (C.link conn.old) (C.link conn.new) pending.old pending.new result }
    ensures leads { S.leads service.old service.new }
    ensures known { result ≡ Ok None → Knows limits.now pending.new known.new }
{
    gains_then();
    one_next_request();
    whole_requests();
    known_stays();
    'requests: loop {
        match next_request_from(known, pending.as_slice(), limits) {
            Next::Need => return Ok(None),
            Next::Refuse(status) => {
                refuse(alloc, conn, status)?;
                return Ok(Some(Ended::Refused(status)));
            }
            Next::Whole(request) => {
                let bytes = &pending.as_slice()[..request.length];
                reply(alloc, conn, service, &request, bytes, limits)?;
                if request.close {
                    return Ok(Some(Ended::Closed));
                }
                pending.advance(request.length);
                *known = Known::Searched(0);
            }
        }
    }
}

/// Room for the head of an answer, with which its growth begins.
const ROOM: usize = 512;

// Sends the answer to the request that these bytes are.
fn reply<C: Duplex, S: Service>(
    alloc: Global,
    conn: &mut C,
    service: &mut S,
    request: &Request,
    bytes: &[u8],
    limits: &Limits,
) -> Result<(), ServeFault>
    requires limits { AreLimits limits.now }
    requires asked { IsAsked request.now bytes.now }
    ensures replies { Replies (S.answers limits.now)
        (S.halts limits.now) limits.now service.old service.new
        (C.link conn.old) (C.link conn.new) request.now bytes.now result }
    ensures leads { S.leads service.old service.new }
{
    let Ok(mut out) = Blob::with_room(alloc, ROOM) else {
        return Err(ServeFault::OutOfMemory);
    };
    match service.answer(alloc, &mut out, request, bytes, limits) {
        Ok(()) => send(conn, &out),
        Err(OutOfMemory) => Err(ServeFault::OutOfMemory),
    }
}

// Sends the answer to what is refused, behind which the connection ends.
fn refuse<C: Duplex>(alloc: Global, conn: &mut C, status: u16) -> Result<(), ServeFault>
    requires { IsTrue (is_status status) }
    ensures { Refuses status (C.link conn.old) (C.link conn.new) result }
{
    let mut out = Blob::new(alloc);
    match answer(&mut out, status, "", b"", true) {
        Ok(()) => send(conn, &out),
        Err(OutOfMemory) => Err(ServeFault::OutOfMemory),
    }
}

// Sends a text.
fn send<C: Duplex>(conn: &mut C, text: &Blob) -> Result<(), ServeFault>
    ensures { Sends (C.link conn.old) (C.link conn.new) text.now result }
{
    match send_all(conn, text.as_slice()) {
        Ok(()) => Ok(()),
        Err(Failed) => Err(ServeFault::Write),
    }
}
