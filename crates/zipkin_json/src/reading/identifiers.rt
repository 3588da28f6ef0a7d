//! Identifiers and the kind, which are texts.
ghost use Rattle.std.specs.Prelude.{◌≡◌, ◌↔◌, ℕ, Option, IfSome, IfOk, OnErr, IfNone, IsTrue, option_map};
ghost use Rattle.json_nodes.specs.Lents.{lent_view as view};
ghost use Rattle.span_io.specs.Paths.{required, optional, JudgesByCause, Given, Never};
ghost use Rattle.zipkin_json.specs.Identifiers.{AreZeros, SpellsTrace, SpellsSpan, SpellsParent};
ghost use Rattle.json_members.specs.Members.{Spelled};
ghost use Rattle.zipkin_json.specs.Span.{SpellsKind, trace_offends, id_offends, parent_offends, kind_offends};
ghost use Rattle.zipkin_json.specs.declared.span.ZKind.TheVariants as kinds;
ghost use Rattle.zipkin_json.specs.declared.span.ZKind.{ZKind};

use crate::span::ZKind;
use json_nodes::Lent;
use span_ids::{BadId, IdRule, SpanId, TraceId};
use span_io::Cause;

fn trace_of(text: &str) -> Result<TraceId, BadId>
    ensures ok { IfOk result (λ id. SpellsTrace text.now id) }
    ensures err { OnErr result ((id : ℕ) → ¬ SpellsTrace text.now id) }
{
    TraceId::read_hex(text.as_bytes(), IdRule::Padded)
}

fn span_of(text: &str) -> Result<SpanId, BadId>
    ensures ok { IfOk result (λ id. SpellsSpan text.now id) }
    ensures err { OnErr result ((id : ℕ) → ¬ SpellsSpan text.now id) }
{
    SpanId::read_hex(text.as_bytes(), IdRule::Padded)
}

fn are_zeros(text: &str) -> bool
    ensures { IsTrue result ↔ AreZeros text.now }
{
    let digits = text.as_bytes();
    1 <= digits.len() && digits.len() <= 16 && digits.iter().all(|digit| *digit == b'0')
}

#[tactic(auto, using(crate::proofs::ParentLemmas::no_parent))]
fn parent_of(text: &str) -> Result<Option<SpanId>, BadId>
    ensures ok { IfOk result (λ parent. SpellsParent text.now parent) }
    ensures err { OnErr result ((parent : Option ℕ) → ¬ SpellsParent text.now parent) }
{
    if are_zeros(text) {
        return Ok(None);
    }
    match span_of(text) {
        Ok(id) => Ok(Some(id)),
        Err(_) => Err(BadId),
    }
}

fn kind_of(text: &str) -> Option<ZKind>
    ensures some { IfSome result (λ kind. SpellsKind text.now kind) }
    ensures none { IfNone result ((kind : ZKind) → ¬ SpellsKind text.now kind) }
{
    match text {
        "CLIENT" => Some(ZKind::Client),
        "SERVER" => Some(ZKind::Server),
        "PRODUCER" => Some(ZKind::Producer),
        "CONSUMER" => Some(ZKind::Consumer),
        _ => None,
    }
}

fn trace_in(v: &Lent<'_, '_>) -> Result<TraceId, Cause>
    ensures value { IfOk result (λ id. Spelled SpellsTrace id (view v.now)) }
    ensures judged { JudgesByCause result (trace_offends (view v.now)) }
{
    let Some(text) = v.as_str() else {
        return Err(Cause::BadShape);
    };
    match trace_of(text) {
        Ok(id) => Ok(id),
        Err(_) => Err(Cause::BadId),
    }
}

fn span_in(v: &Lent<'_, '_>) -> Result<SpanId, Cause>
    ensures value { IfOk result (λ id. Spelled SpellsSpan id (view v.now)) }
    ensures judged { JudgesByCause result (id_offends (view v.now)) }
{
    let Some(text) = v.as_str() else {
        return Err(Cause::BadShape);
    };
    match span_of(text) {
        Ok(id) => Ok(id),
        Err(_) => Err(Cause::BadId),
    }
}

fn parent_in(v: &Lent<'_, '_>) -> Result<Option<SpanId>, Cause>
    ensures value { IfOk result (λ id. Spelled SpellsParent id (view v.now)) }
    ensures judged { JudgesByCause result (parent_offends (view v.now)) }
{
    let Some(text) = v.as_str() else {
        return Err(Cause::BadShape);
    };
    match parent_of(text) {
        Ok(parent) => Ok(parent),
        Err(_) => Err(Cause::BadId),
    }
}

fn kind_in(v: &Lent<'_, '_>) -> Result<ZKind, Cause>
    ensures value { IfOk result (λ kind. Spelled SpellsKind kind (view v.now)) }
    ensures judged { JudgesByCause result (kind_offends (view v.now)) }
{
    let Some(text) = v.as_str() else {
        return Err(Cause::BadShape);
    };
    match kind_of(text) {
        Some(kind) => Ok(kind),
        None => Err(Cause::BadEnum),
    }
}

pub fn required_trace(found: Option<Lent<'_, '_>>) -> Result<TraceId, Cause>
    ensures value { IfOk result (λ id. Given (Spelled SpellsTrace) Never id
        (option_map view found.entry)) }
    ensures judged { JudgesByCause result (required trace_offends (option_map view found.entry)) }
{
    match found {
        None => Err(Cause::Missing),
        Some(found) => trace_in(&found),
    }
}

pub fn required_span(found: Option<Lent<'_, '_>>) -> Result<SpanId, Cause>
    ensures value { IfOk result (λ id. Given (Spelled SpellsSpan) Never id
        (option_map view found.entry)) }
    ensures judged { JudgesByCause result (required id_offends (option_map view found.entry)) }
{
    match found {
        None => Err(Cause::Missing),
        Some(found) => span_in(&found),
    }
}

// A parent that may be absent.
pub fn parent(found: Option<Lent<'_, '_>>) -> Result<Option<SpanId>, Cause>
    ensures value { IfOk result (λ id. Given (Spelled SpellsParent) (λ p. p ≡ None) id
        (option_map view found.entry)) }
    ensures judged { JudgesByCause result (optional parent_offends (option_map view found.entry)) }
{
    match found {
        None => Ok(None),
        Some(found) => parent_in(&found),
    }
}

// A kind that may be absent.
pub fn kind(found: Option<Lent<'_, '_>>) -> Result<ZKind, Cause>
    ensures value { IfOk result (λ kind. Given (Spelled SpellsKind) (λ k. k ≡ kinds.Absent) kind
        (option_map view found.entry)) }
    ensures judged { JudgesByCause result (optional kind_offends (option_map view found.entry)) }
{
    match found {
        None => Ok(ZKind::Absent),
        Some(found) => kind_in(&found),
    }
}
