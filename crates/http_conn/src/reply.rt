//! The bytes of an answer.
ghost use Rattle.std.specs.Prelude.{◌≡◌, ◌++◌, IsTrue, OnErr, OnOk, codes};
ghost use Rattle.span_io.specs.Outside.{GrowsFront};
ghost use Rattle.httparse.specs.Ascii.{crlf_bytes};
ghost use Rattle.http_conn.specs.Replies.{answer_text, close_line, is_status, length_line, status_line, type_line};
ghost use Rattle.http_conn.specs.Replies as told;

use itoa::Buffer;
use span_io::{Blob, OutOfMemory};

/// Appends an answer (RFC 9112, section 4): its status line, the media type of the content unless that is empty,
/// the content's length, that the connection ends, where it does, and the content.
#[tactic(auto, using(crate::proofs::Growth::in_pieces))]
pub fn answer(
    out: &mut Blob,
    status: u16,
    kind: &str,
    body: &[u8],
    close: bool,
) -> Result<(), OutOfMemory>
    requires { IsTrue (is_status status) }
    ensures ok { OnOk result (out.new ≡ out.old ++ answer_text status kind.now body.now close) }
    ensures err { OnErr result
        (GrowsFront out.old out.new (answer_text status kind.now body.now close)) }
{
    write_status(out, status)?;
    write_type(out, kind.as_bytes())?;
    write_length(out, body.len())?;
    write_close(out, close)?;
    out.append_both(b"\r\n", body)
}

#[tactic(auto, using(crate::proofs::Growth::in_pieces))]
fn write_status(out: &mut Blob, status: u16) -> Result<(), OutOfMemory>
    requires { IsTrue (is_status status) }
    ensures ok { OnOk result (out.new ≡ out.old ++ status_line status) }
    ensures err { OnErr result (GrowsFront out.old out.new (status_line status)) }
{
    let mut digits = Buffer::new();
    out.append(b"HTTP/1.1 ")?;
    out.append(digits.format(status).as_bytes())?;
    out.append(b" ")?;
    out.append_both(reason(status), b"\r\n")
}

#[tactic(auto, using(crate::proofs::Growth::in_pieces), unfolding(crate::specs::Replies::type_line))]
pub(crate) fn write_type(out: &mut Blob, kind: &[u8]) -> Result<(), OutOfMemory>
    ensures ok { OnOk result (out.new ≡ out.old ++ type_line kind.now) }
    ensures err { OnErr result (GrowsFront out.old out.new (type_line kind.now)) }
{
    match kind {
        [] => Ok(()),
        [_, ..] => write_kind(out, kind),
    }
}

#[tactic(auto, using(crate::proofs::Growth::in_pieces))]
fn write_kind(out: &mut Blob, kind: &[u8]) -> Result<(), OutOfMemory>
    ensures ok { OnOk result
        (out.new ≡ out.old ++ (codes "Content-Type: " ++ (kind.now ++ crlf_bytes))) }
    ensures err { OnErr result
        (GrowsFront out.old out.new (codes "Content-Type: " ++ (kind.now ++ crlf_bytes))) }
{
    out.append(b"Content-Type: ")?;
    out.append_both(kind, b"\r\n")
}

#[tactic(auto, using(crate::proofs::Growth::in_pieces))]
pub(crate) fn write_length(out: &mut Blob, count: usize) -> Result<(), OutOfMemory>
    ensures ok { OnOk result (out.new ≡ out.old ++ length_line count) }
    ensures err { OnErr result (GrowsFront out.old out.new (length_line count)) }
{
    let mut digits = Buffer::new();
    out.append(b"Content-Length: ")?;
    out.append_both(digits.format(count).as_bytes(), b"\r\n")
}

#[tactic(auto, using(crate::proofs::Growth::in_pieces), unfolding(crate::specs::Replies::close_line))]
pub(crate) fn write_close(out: &mut Blob, close: bool) -> Result<(), OutOfMemory>
    ensures ok { OnOk result (out.new ≡ out.old ++ close_line close) }
    ensures err { OnErr result (GrowsFront out.old out.new (close_line close)) }
{
    if close {
        return out.append(b"Connection: close\r\n");
    }
    Ok(())
}

// The reason phrase of a status.
#[tactic(auto, unfolding(crate::specs::Replies::reason))]
fn reason(status: u16) -> &'static [u8]
    requires { IsTrue (is_status status) }
    ensures { result.now ≡ told.reason status }
{
    match status {
        200 => b"OK",
        202 => b"Accepted",
        400 => b"Bad Request",
        404 => b"Not Found",
        405 => b"Method Not Allowed",
        411 => b"Length Required",
        413 => b"Content Too Large",
        415 => b"Unsupported Media Type",
        422 => b"Unprocessable Content",
        431 => b"Request Header Fields Too Large",
        501 => b"Not Implemented",
        _ => b"Service Unavailable",
    }
}
