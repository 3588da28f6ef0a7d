//! What the head of an answer says.
ghost use Rattle.std.specs.Prelude.{◌≡◌, ◌≤◌, ℕ, List, Some, length, IfSome, IsSomeAnd};
ghost use Rattle.httparse.specs.Grammar.{ReadsResponse, ResponseHead};
ghost use Rattle.httparse.specs.Spans.{IsResponseAt, IsResponseOf, IsResponseWithin};
ghost use Rattle.http_conn.specs.AnswerHeads.{IsAnswerHead, TellsStatus};

use crate::ends::{find_end, front};
use crate::lines::MOST_LINES;
use httparse::Status;
use httparse::spans::{EMPTY_HEADER_SPAN, HeaderSpan, ResponseSpans, parse_response};
use span_io::Limits;

/// The status of an answer whose bytes begin so, where its head ended, in as many bytes as a head may have, and is one
/// (RFC 9112, section 4).
pub fn answer_status(bytes: &[u8], limits: &Limits) -> Option<u16>
    ensures some { IfSome result (TellsStatus limits.now.head bytes.now) }
    ensures only { (status : ℕ) → TellsStatus limits.now.head bytes.now status
        → result ≡ Some status }
{
    let place = find_end(front(bytes, limits.head), 0)?;
    read_status(front(bytes, place + 4))
}

/// The status of the answer's head that the bytes are, if they are one.
pub(crate) fn read_status(bytes: &[u8]) -> Option<u16>
    ensures some { IfSome result (IsAnswerHead bytes.now) }
    ensures only { (status : ℕ) → IsAnswerHead bytes.now status → result ≡ Some status }
{
    let mut spans = [EMPTY_HEADER_SPAN; MOST_LINES];
    let parts = parse(bytes, &mut spans)?;
    if parts.len != bytes.len() {
        return None;
    }
    Some(parts.code)
}

// Where the parts of a head at the front of the bytes are, if there is one.
fn parse(bytes: &[u8], spans: &mut [HeaderSpan]) -> Option<ResponseSpans>
    ensures within { IfSome result (IsResponseWithin bytes.now spans.new) }
    ensures head { IfSome result (IsResponseOf bytes.now spans.new) }
    ensures found { (h : ResponseHead) (rest : List ℕ) → ReadsResponse bytes.now h rest
        → length h.fields ≤ length spans.old
        → IsSomeAnd result (λ parts. IsResponseAt bytes.now spans.new parts h) }
{
    match parse_response(bytes, spans) {
        Ok(Status::Complete(parts)) => Some(parts),
        _ => None,
    }
}
