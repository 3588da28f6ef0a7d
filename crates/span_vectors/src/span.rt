//! The spans of the gauge.
ghost use Rattle.std.specs.Prelude.{◌≡◌, ◌<◌, IfOk};
ghost use Rattle.span_vectors.specs.Gauge.{gauge_parent, kind_numbered, code_numbered, gauge_attributes, gauge_span};

use span_ids::{Nanos, SpanId, TraceId};
use span_io::{Items, OutOfMemory, Text};
use std::alloc::Global;
use trace_model::{Attrs, Code, Kind, Span, Status, Value};

/// How many spans a group has, unless it is the last one.
pub(crate) const GROUP: u32 = 100;

fn trace_id(number: u32) -> TraceId
    requires { 0 < number }
    ensures { result ≡ number }
{
    match TraceId::from_halves(0, u64::from(number)) {
        Ok(id) => id,
        Err(_) => unreachable!(),
    }
}

fn span_id(number: u32) -> SpanId
    requires { 0 < number }
    ensures { result ≡ number }
{
    match SpanId::from_number(u64::from(number)) {
        Ok(id) => id,
        Err(_) => unreachable!(),
    }
}

fn parent_of(number: u32) -> Option<SpanId>
    requires { 0 < number }
    ensures { result ≡ gauge_parent number }
{
    if number % GROUP == 1 {
        return None;
    }
    Some(span_id(number - 1))
}

fn kind_of(number: u32) -> Kind
    ensures { result ≡ kind_numbered number }
{
    match number {
        1 => Kind::Internal,
        2 => Kind::Server,
        3 => Kind::Client,
        4 => Kind::Producer,
        _ => Kind::Consumer,
    }
}

fn code_of(number: u32) -> Code
    ensures { result ≡ code_numbered number }
{
    match number {
        0 => Code::Unset,
        1 => Code::Okay,
        _ => Code::Fail,
    }
}

fn attributes_of(alloc: Global, number: u32) -> Result<Attrs, OutOfMemory>
    ensures { IfOk result (λ list. list ≡ gauge_attributes number) }
{
    let mut list = Items::new(alloc);
    let count = Value::Number(i64::from(number));
    list.push((Text::of(alloc, "n")?, count))?;
    let text = Value::Text(Text::of(alloc, "x")?);
    list.push((Text::of(alloc, "t")?, text))?;
    Ok(list)
}

/// The span of this number. Its times are in nanoseconds.
#[tactic(auto, unfolding(crate::specs::Gauge::gauge_span))]
pub(crate) fn span_of(alloc: Global, number: u32) -> Result<Span, OutOfMemory>
    requires { 0 < number }
    ensures { IfOk result (λ span. span ≡ gauge_span number) }
{
    let start = u64::from(number) * 1_000_000;
    let end = start + u64::from(number % 1000) * 1000;
    let name = Text::of(alloc, "op")?;
    let attributes = attributes_of(alloc, number)?;
    Ok(Span {
        trace: trace_id((number - 1) / GROUP + 1),
        id: span_id(number),
        state: Text::new(alloc),
        parent: parent_of(number),
        name,
        kind: kind_of(1 + number % 5),
        start: Nanos(start),
        end: Nanos(end),
        attributes,
        dropped_attributes: 0,
        events: Items::new(alloc),
        dropped_events: 0,
        links: Items::new(alloc),
        dropped_links: 0,
        status: Status {
            code: code_of(number % 3),
            message: Text::new(alloc),
        },
        flags: 1,
    })
}
