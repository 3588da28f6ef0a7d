//! Sending a request over a connection, and reading the status of its answer.
ghost use Rattle.std.specs.Prelude.{◌≡◌, ◌<◌, ◌≤◌, ◌++◌, [], length, vec_len, IfOk, IsTrue};
ghost use Rattle.http_conn.specs.Posts.{is_address, post_text};
ghost use Rattle.http_conn.specs.Sendings.{KeepsMark, SendsOver};
ghost use Rattle.http_conn.specs.private.SendingSteps.{Reads, ReadsAnswer, Writes};

use crate::answer_head::read_status;
use crate::ends::{find_end, front};
use crate::post::first_piece;
use span_io::laws::gains_then;
use span_io::{Duplex, Failed, Form, Limits, OutOfMemory, send_all};
use std::alloc::Global;

/// Why a request has no answer's status.
#[derive(Clone, Copy, Debug, PartialEq, Eq)]
pub enum SendFault {
    /// A read failed.
    Read,
    /// A write failed.
    Write,
    /// What came is no answer, or none came whole.
    BadAnswer,
    OutOfMemory,
}

/// So much of a body is sent in one piece with its head: a copy of it costs less than a write, and a short body
/// doesn't wait until its head was acknowledged. What stands behind is sent from where it is.
const JOINED: usize = 4_096;

/// Posts a body in a form over a connection, and gives the status of the answer. Of the answer no more is read once
/// its head ended, and no more than a head may have.
pub fn send_over<C: Duplex>(
    alloc: Global,
    conn: &mut C,
    address: &str,
    form: Form,
    body: &[u8],
    limits: &Limits,
) -> Result<u16, SendFault>
    requires { IsTrue (is_address address.now) }
    ensures sends { SendsOver limits.now.head (C.link conn.old) (C.link conn.new)
        (post_text address.now form body.now) result }

    // The request was written before the first read, and no read came behind the end of a head.
    ensures mark { KeepsMark (C.link conn.old) (C.link conn.new)
        (post_text address.now form body.now) }
{
    let (front, rest) = body.split_at(joined(body.len()));
    let Ok(piece) = first_piece(alloc, address, form, body.len(), front) else {
        return Err(SendFault::OutOfMemory);
    };
    let Ok(mut buffer) = room(alloc, limits.head) else {
        return Err(SendFault::OutOfMemory);
    };
    exchange(conn, piece.as_slice(), rest, buffer.as_mut_slice())
}

// How much of a body of so many bytes is sent with its head.
fn joined(count: usize) -> usize
    ensures { result ≤ count }
{
    if count <= JOINED {
        return count;
    }
    JOINED
}

// Room for so many bytes.
fn room(alloc: Global, most: usize) -> Result<Vec<u8>, OutOfMemory>
    ensures { IfOk result (λ buffer. vec_len buffer ≡ most) }
{
    Ok(Vec::from_elem(alloc, 0u8, most)?)
}

// Sends a request in two pieces, and reads the status of its answer, for whose head the buffer has room.
fn exchange<C: Duplex>(
    conn: &mut C,
    first: &[u8],
    second: &[u8],
    buffer: &mut [u8],
) -> Result<u16, SendFault>
    ensures sends { SendsOver (length buffer.old) (C.link conn.old) (C.link conn.new)
        (first.now ++ second.now) result }
    ensures mark { KeepsMark (C.link conn.old) (C.link conn.new) (first.now ++ second.now) }
{
    gains_then();
    let Ok(()) = send_both(conn, first, second) else {
        return Err(SendFault::Write);
    };
    match read_answer(conn, buffer) {
        Ok(Some(status)) => Ok(status),
        Ok(None) => Err(SendFault::BadAnswer),
        Err(Failed) => Err(SendFault::Read),
    }
}

// Sends two pieces, one behind the other.
fn send_both<C: Duplex>(conn: &mut C, first: &[u8], second: &[u8]) -> Result<(), Failed>
    ensures { Writes (C.link conn.old) (C.link conn.new) (first.now ++ second.now) result }
{
    gains_then();
    send_all(conn, first)?;
    send_all(conn, second)
}

// Reads the head of an answer, for which the buffer has room, and gives its status if it is one.
fn read_answer<C: Duplex>(conn: &mut C, buffer: &mut [u8]) -> Result<Option<u16>, Failed>
    ensures reads { ReadsAnswer (length buffer.old) (C.link conn.old) (C.link conn.new) result }
    ensures mark { KeepsMark (C.link conn.old) (C.link conn.new) [] }
{
    gains_then();
    let mut count = 0;
    'pieces: while count < buffer.len() {
        let given = read_behind(conn, buffer, count)?;
        if given == 0 {
            return Ok(None);
        }
        let bytes = front(buffer, count + given);
        if let Some(place) = find_end(bytes, count.saturating_sub(3)) {
            return Ok(read_status(front(bytes, place + 4)));
        }
        count += given;
    }
    Ok(None)
}

// Reads some bytes behind so many of a buffer.
#[tactic(auto, using(crate::proofs::SendLemmas::placed))]
fn read_behind<C: Duplex>(conn: &mut C, buffer: &mut [u8], count: usize) -> Result<usize, Failed>
    requires { count < length buffer.old }
    ensures { Reads (C.link conn.old) (C.link conn.new) buffer.old buffer.new count result }
{
    conn.read(&mut buffer[count..])
}
