//! The first request of the bytes of a connection.
ghost use Rattle.std.specs.Prelude.{◌≡◌, ◌==◌, ◌||◌, ◌+◌, ◌≤◌, ◌<◌, ℕ, length, IfOk};
ghost use Rattle.span_io.specs.Limits.{AreLimits};
ghost use Rattle.httparse.specs.Grammar.{RequestHead};
ghost use Rattle.http_conn.specs.private.FoundFields.{IsHead};
ghost use Rattle.http_conn.specs.Heads.{EndsAt};
ghost use Rattle.http_conn.specs.NextRequests.{IfNeed, IfWhole, IsNext, IsWithin, Knows, Tells, form_of, next_by, request_of, unended, verdict_of};

use crate::bodies::{body_length, judge};
use crate::ends::{find_end, front};
use crate::head::{Head, read_head};
use crate::known::Known;
use crate::lines::{has_lone_feed, is_long};
use crate::next::{Next, Request};
use crate::status;
use span_io::{Form, Limits};

/// The first request of bytes that have no answer yet (RFC 9112): whole, refused by the first step that refuses
/// it, or in want of more bytes.
pub fn next_request(bytes: &[u8], limits: &Limits) -> Next
    requires { AreLimits limits.now }
    ensures is { IsNext limits.now bytes.now result }
    ensures only { (next : Next) → IsNext limits.now bytes.now next → result ≡ next }
    ensures within { IfWhole result (IsWithin (length bytes.now)) }
{
    let mut known = Known::Searched(0);
    next_request_from(&mut known, bytes, limits)
}

/// The same, where this is known of the bytes by earlier calls, whatever bytes came since. What is known now
/// takes its place. It begins as `Known::Searched(0)`.
pub fn next_request_from(known: &mut Known, bytes: &[u8], limits: &Limits) -> Next
    requires limits { AreLimits limits.now }
    requires known { Knows limits.now bytes.now known.old }
    ensures is { IsNext limits.now bytes.now result }
    ensures only { (next : Next) → IsNext limits.now bytes.now next → result ≡ next }
    ensures within { IfWhole result (IsWithin (length bytes.now)) }
    ensures known { IfNeed result (Knows limits.now bytes.now known.new) }
{
    match *known {
        Known::Needs(total) => {
            if bytes.len() < total {
                return Next::Need;
            }
            search(known, bytes, 0, limits)
        }
        Known::Searched(searched) => search(known, bytes, searched, limits),
    }
}

// The same, where no head ends before a place.
fn search(known: &mut Known, bytes: &[u8], searched: usize, limits: &Limits) -> Next
    requires limits { AreLimits limits.now }
    requires before { (k : ℕ) → k < searched → ¬ (EndsAt bytes.now k) }
    ensures is { IsNext limits.now bytes.now result }
    ensures within { IfWhole result (IsWithin (length bytes.now)) }
    ensures known { IfNeed result (Knows limits.now bytes.now known.new) }
{
    let window = front(bytes, limits.head);
    match find_end(window, searched) {
        Some(place) => {
            let head = front(bytes, place + 4);
            let told = request_in(head, limits);
            next_of(known, bytes.len(), told)
        }
        None => {
            *known = Known::Searched(bytes.len().saturating_sub(3));
            next_without(bytes.len(), limits.head)
        }
    }
}

// What a head tells, where so many bytes came.
fn next_of(known: &mut Known, came: usize, told: Result<Request, u16>) -> Next
    ensures next { result ≡ next_by came told }
    ensures known { IfNeed result (IfOk told (λ request. known.new ≡ Known.Needs request.length)) }
{
    match told {
        Err(status) => Next::Refuse(status),
        Ok(request) if came < request.length => {
            *known = Known::Needs(request.length);
            Next::Need
        }
        Ok(request) => Next::Whole(request),
    }
}

// No head ends in so many bytes.
fn next_without(came: usize, most: usize) -> Next
    ensures { result ≡ unended most came }
{
    if came < most {
        return Next::Need;
    }
    Next::Refuse(status::FIELDS_TOO_LARGE)
}

// The request that a whole head tells, or the status of its refusal.
fn request_in(head: &[u8], limits: &Limits) -> Result<Request, u16>
    requires limits { AreLimits limits.now }
    requires short { length head.now ≤ limits.now.head }
    ensures tells { Tells limits.now head.now result }
    ensures within { IfOk result
        (λ request. (request.body_at ≡ length head.now) × (length head.now ≤ request.length)) }
{
    if has_lone_feed(head) {
        return Err(status::BAD_REQUEST);
    }
    if is_long(head) {
        return Err(status::FIELDS_TOO_LARGE);
    }
    match read_head(head) {
        None => Err(status::BAD_REQUEST),
        Some(read) => request_of(&read, head.len(), limits),
    }
}

// The request of a head of so many bytes.
fn request_of(head: &Head<'_>, body_at: usize, limits: &Limits) -> Result<Request, u16>
    requires limits { AreLimits limits.now }
    requires short { body_at ≤ limits.now.head }
    ensures told { (h : RequestHead) → IsHead head.now h
        → result ≡ request_of limits.now h body_at }
    ensures within { IfOk result
        (λ request. (request.body_at ≡ body_at) × (body_at ≤ request.length)) }
{
    let length = body_length(head, limits.body)?;
    let (verdict, form) = parts_of(judge(head));
    Ok(Request {
        verdict,
        form,
        body_at,
        length: body_at + length,
        close: closes(head),
    })
}

// Whether the connection ends behind the answer.
fn closes(head: &Head<'_>) -> bool
    ensures { result ≡ (head.now.minor == 0 || head.now.fields.close) }
{
    head.minor == 0 || head.fields.close
}

// The status of a verdict, 0 where there is a form, and the form.
fn parts_of(judged: Result<Form, u16>) -> (u16, Option<Form>)
    ensures { (result.0 ≡ verdict_of judged) × (result.1 ≡ form_of judged) }
{
    match judged {
        Ok(form) => (0, Some(form)),
        Err(status) => (status, None),
    }
}
