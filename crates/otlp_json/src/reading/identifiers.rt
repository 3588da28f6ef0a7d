//! Identifiers, and the bytes of values, which are texts.
ghost use Rattle.std.specs.Prelude.{◌≡◌, ◌↔◌, ℕ, List, Option, None, IfOk, OnErr, IsTrue};
ghost use Rattle.json_nodes.specs.Lents.{lent_view as view};
ghost use Rattle.span_io.specs.Paths.{optional, JudgesValue, JudgesByCause, Given, Never};
ghost use Rattle.json_members.specs.Members.{member, Spelled};
ghost use Rattle.trace_model.specs.OtlpParts.{IsNoIdentifier};
ghost use Rattle.otlp_json.specs.Identifiers.{SpellsJsonTrace, SpellsJsonSpan, SpellsTraceOrNone, SpellsSpanOrNone, json_trace_offends, json_span_offends, trace_or_none_offends, span_or_none_offends, identified};
ghost use Rattle.otlp_json.specs.Numbers.{SpellsBytes, base64_offends};

use base64::DecodeAllocError;
use base64::engine::general_purpose::STANDARD;
use json_members::member_of;
use json_nodes::Lent;
use span_ids::{BadId, IdRule, SpanId, TraceId};
use span_io::{Bytes, Cause, Halt};
use std::alloc::Global;

fn trace_of(text: &str) -> Result<TraceId, BadId>
    ensures ok { IfOk result (λ id. SpellsJsonTrace text.now id) }
    ensures err { OnErr result ((id : ℕ) → ¬ SpellsJsonTrace text.now id) }
{
    TraceId::read_hex(text.as_bytes(), IdRule::Exact)
}

fn span_of(text: &str) -> Result<SpanId, BadId>
    ensures ok { IfOk result (λ id. SpellsJsonSpan text.now id) }
    ensures err { OnErr result ((id : ℕ) → ¬ SpellsJsonSpan text.now id) }
{
    SpanId::read_hex(text.as_bytes(), IdRule::Exact)
}

// Whether a text is empty, or as many zeros as an identifier has digits.
fn is_no_id(text: &str, full: usize) -> bool
    ensures { IsTrue result ↔ IsNoIdentifier 48 full text.now }
{
    let digits = text.as_bytes();
    if digits.is_empty() {
        return true;
    }
    digits.len() == full && digits.iter().all(|digit| *digit == b'0')
}

fn trace_or_none(text: &str) -> Result<Option<TraceId>, BadId>
    ensures ok { IfOk result (λ id. SpellsTraceOrNone text.now id) }
    ensures err { OnErr result ((id : Option ℕ) → ¬ SpellsTraceOrNone text.now id) }
{
    if is_no_id(text, 32) {
        return Ok(None);
    }
    match trace_of(text) {
        Ok(id) => Ok(Some(id)),
        Err(_) => Err(BadId),
    }
}

fn span_or_none(text: &str) -> Result<Option<SpanId>, BadId>
    ensures ok { IfOk result (λ id. SpellsSpanOrNone text.now id) }
    ensures err { OnErr result ((id : Option ℕ) → ¬ SpellsSpanOrNone text.now id) }
{
    if is_no_id(text, 16) {
        return Ok(None);
    }
    match span_of(text) {
        Ok(id) => Ok(Some(id)),
        Err(_) => Err(BadId),
    }
}

fn trace_in(v: &Lent<'_, '_>) -> Result<TraceId, Cause>
    ensures value { IfOk result (λ id. Spelled SpellsJsonTrace id (view v.now)) }
    ensures judged { JudgesByCause result (json_trace_offends (view v.now)) }
{
    let Some(text) = v.as_str() else {
        return Err(Cause::BadShape);
    };
    match trace_of(text) {
        Ok(id) => Ok(id),
        Err(_) => Err(Cause::BadId),
    }
}

fn span_in(v: &Lent<'_, '_>) -> Result<SpanId, Cause>
    ensures value { IfOk result (λ id. Spelled SpellsJsonSpan id (view v.now)) }
    ensures judged { JudgesByCause result (json_span_offends (view v.now)) }
{
    let Some(text) = v.as_str() else {
        return Err(Cause::BadShape);
    };
    match span_of(text) {
        Ok(id) => Ok(id),
        Err(_) => Err(Cause::BadId),
    }
}

fn trace_or_none_in(v: &Lent<'_, '_>) -> Result<Option<TraceId>, Cause>
    ensures value { IfOk result (λ id. Spelled SpellsTraceOrNone id (view v.now)) }
    ensures judged { JudgesByCause result (trace_or_none_offends (view v.now)) }
{
    let Some(text) = v.as_str() else {
        return Err(Cause::BadShape);
    };
    match trace_or_none(text) {
        Ok(id) => Ok(id),
        Err(_) => Err(Cause::BadId),
    }
}

fn span_or_none_in(v: &Lent<'_, '_>) -> Result<Option<SpanId>, Cause>
    ensures value { IfOk result (λ id. Spelled SpellsSpanOrNone id (view v.now)) }
    ensures judged { JudgesByCause result (span_or_none_offends (view v.now)) }
{
    let Some(text) = v.as_str() else {
        return Err(Cause::BadShape);
    };
    match span_or_none(text) {
        Ok(id) => Ok(id),
        Err(_) => Err(Cause::BadId),
    }
}

// A trace identifier that must be there.
pub fn identified_trace(v: &Lent<'_, '_>, name: &str) -> Result<TraceId, Cause>
    ensures value { IfOk result (λ id. Given (Spelled SpellsJsonTrace) Never id
        (member name.now (view v.now))) }
    ensures judged { JudgesByCause result
        (identified json_trace_offends (member name.now (view v.now))) }
{
    match member_of(v, name) {
        None => Err(Cause::BadId),
        Some(found) => trace_in(&found),
    }
}

// A span identifier that must be there.
pub fn identified_span(v: &Lent<'_, '_>, name: &str) -> Result<SpanId, Cause>
    ensures value { IfOk result (λ id. Given (Spelled SpellsJsonSpan) Never id
        (member name.now (view v.now))) }
    ensures judged { JudgesByCause result
        (identified json_span_offends (member name.now (view v.now))) }
{
    match member_of(v, name) {
        None => Err(Cause::BadId),
        Some(found) => span_in(&found),
    }
}

// A trace identifier that may be absent.
pub fn optional_trace(v: &Lent<'_, '_>, name: &str) -> Result<Option<TraceId>, Cause>
    ensures value { IfOk result (λ id. Given (Spelled SpellsTraceOrNone) (λ i. i ≡ None) id
        (member name.now (view v.now))) }
    ensures judged { JudgesByCause result
        (optional trace_or_none_offends (member name.now (view v.now))) }
{
    match member_of(v, name) {
        None => Ok(None),
        Some(found) => trace_or_none_in(&found),
    }
}

// A span identifier that may be absent.
pub fn optional_span(v: &Lent<'_, '_>, name: &str) -> Result<Option<SpanId>, Cause>
    ensures value { IfOk result (λ id. Given (Spelled SpellsSpanOrNone) (λ i. i ≡ None) id
        (member name.now (view v.now))) }
    ensures judged { JudgesByCause result
        (optional span_or_none_offends (member name.now (view v.now))) }
{
    match member_of(v, name) {
        None => Ok(None),
        Some(found) => span_or_none_in(&found),
    }
}

/// The bytes of a base64 text.
pub fn bytes_in(alloc: Global, v: &Lent<'_, '_>) -> Result<Bytes, Halt<Cause>>
    ensures value { IfOk result (λ held. Spelled SpellsBytes held (view v.now)) }
    ensures judged { JudgesValue result (base64_offends (view v.now)) }
{
    let Some(text) = v.as_str() else {
        return Err(Halt::Why(Cause::BadShape));
    };
    match STANDARD.decode(alloc, text.as_bytes()) {
        Ok(bytes) => Ok(Bytes::from_vec(bytes)?),
        Err(DecodeAllocError::OutOfMemory) => Err(Halt::OutOfMemory),
        Err(DecodeAllocError::DecodeError(_)) => Err(Halt::Why(Cause::BadShape)),
    }
}
