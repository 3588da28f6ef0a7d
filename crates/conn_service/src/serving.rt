//! Serving one connection.
ghost use Rattle.std.specs.Prelude.{◌<◌, length, vec_len, IfOk};
ghost use Rattle.span_io.specs.Limits.{AreLimits};
ghost use Rattle.conn_service.specs.Serving.{KeepsMark, Serves};
ghost use Rattle.conn_service.specs.private.Steps.{EndsHere};

use crate::ended::{Ended, ServeFault};
use crate::pending::Pending;
use crate::reading::read_more;
use crate::service::Service;
use crate::whole::answer_whole;
use http_conn::Known;
use http_conn::laws::{known_stays, one_next_request, whole_requests};
use span_io::laws::gains_then;
use span_io::{Duplex, Limits, OutOfMemory};
use std::alloc::Global;

/// The most bytes that one read asks for.
const PIECE: usize = 65_536;

/// Serves one connection to its end: each whole request is answered by the service before more is read. The bytes
/// that it gives are read up to the limit of binary input, and count as ended there.
pub fn serve<C: Duplex, S: Service>(
    alloc: Global,
    conn: &mut C,
    service: &mut S,
    limits: &Limits,
) -> Result<Ended, ServeFault>
    requires { AreLimits limits.now }
    ensures serves { Serves (S.answers limits.now)
        (S.halts limits.now) limits.now service.old service.new
        (C.link conn.old) (C.link conn.new) result }

    // Whole requests have their answers before more bytes come.
    ensures mark { KeepsMark (S.answers limits.now) S.leads limits.now service.old service.new
        (C.link conn.old) (C.link conn.new) }
    ensures leads { S.leads service.old service.new }
{
    gains_then();
    let Ok(mut buffer) = room(alloc) else {
        return Err(ServeFault::OutOfMemory);
    };
    serve_pieces(alloc, conn, service, buffer.as_mut_slice(), limits)
}

// Room for a piece.
fn room(alloc: Global) -> Result<Vec<u8>, OutOfMemory>
    ensures { IfOk result (λ buffer. 0 < vec_len buffer) }
{
    Ok(Vec::from_elem(alloc, 0u8, PIECE)?)
}

// The same with room for a piece.
fn serve_pieces<C: Duplex, S: Service>(
    alloc: Global,
    conn: &mut C,
    service: &mut S,
    buffer: &mut [u8],
    limits: &Limits,
) -> Result<Ended, ServeFault>
    requires limits { AreLimits limits.now }
    requires room { 0 < length buffer.old }
    ensures serves { Serves (S.answers limits.now)
        (S.halts limits.now) limits.now service.old service.new
        (C.link conn.old) (C.link conn.new) result }
    ensures mark { KeepsMark (S.answers limits.now) S.leads limits.now service.old service.new
        (C.link conn.old) (C.link conn.new) }
    ensures leads { S.leads service.old service.new }
{
    gains_then();
    one_next_request();
    whole_requests();
    known_stays();
    let mut pending = Pending::new(alloc);
    let mut known = Known::Searched(0);
    let mut most = limits.binary;
    'pieces: loop {
        if let Some(ended) = answer_whole(alloc, conn, service, &mut pending, &mut known, limits)? {
            return Ok(ended);
        }
        let given = read_more(conn, &mut pending, buffer, most)?;
        if given == 0 {
            return Ok(ended_by(pending.as_slice()));
        }
        most -= given as u64;
    }
}

// How a stream ends that ends here.
fn ended_by(rest: &[u8]) -> Ended
    ensures { EndsHere rest.now result }
{
    match rest {
        [] => Ended::Closed,
        [_, ..] => Ended::Cut,
    }
}
