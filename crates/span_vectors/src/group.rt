//! The groups of the gauge.
ghost use Rattle.std.specs.Prelude.{◌≡◌, ◌+◌, ◌++◌, ◌<◌, ◌≤◌, ◌^◌, IfOk, OnOk, OnErr};
ghost use Rattle.span_io.specs.Outside.{GrowsFront};
ghost use Rattle.otlp_proto.specs.Canonical.{group_record};
ghost use Rattle.span_vectors.specs.Gauge.{HasGroup, gauge_spans, gauge_scope, gauge_resource, gauge_group, group_count};

use crate::span::{GROUP, span_of};
use otlp_proto::write_group;
use span_io::{Blob, Items, OutOfMemory, Text};
use std::alloc::Global;
use trace_model::{Attrs, Group, Scope, Span, Value};

// So many spans, from the first one on.
fn spans_from(alloc: Global, first: u32, count: u32) -> Result<Items<Span>, OutOfMemory>
    requires from_one { 0 < first }
    requires fits { first + count ≤ 2 ^ 32 }
    ensures { IfOk result (λ list. list ≡ gauge_spans first count) }
{
    let mut list = Items::with_room(alloc, count as usize)?;
    'spans: for i in 0..count {
        list.push(span_of(alloc, first + i)?)?;
    }
    Ok(list)
}

fn scope_of(alloc: Global, spans: Items<Span>) -> Result<Scope, OutOfMemory>
    ensures { IfOk result (λ scope. scope ≡ gauge_scope spans) }
{
    Ok(Scope {
        name: Text::of(alloc, "gauge")?,
        version: Text::new(alloc),
        attributes: Items::new(alloc),
        dropped: 0,
        schema_url: Text::new(alloc),
        spans,
    })
}

fn resource_of(alloc: Global) -> Result<Attrs, OutOfMemory>
    ensures { IfOk result (λ list. list ≡ gauge_resource) }
{
    let mut list = Items::new(alloc);
    let service = Value::Text(Text::of(alloc, "gauge")?);
    list.push((Text::of(alloc, "service.name")?, service))?;
    Ok(list)
}

/// The group of this number, of so many spans in all.
#[tactic(auto, unfolding(crate::specs::Gauge::gauge_group))]
pub(crate) fn group_of(alloc: Global, spans: u32, group: u32) -> Result<Group, OutOfMemory>
    requires { HasGroup spans group }
    ensures { IfOk result (λ made. made ≡ gauge_group spans group) }
{
    let before = (group - 1) * GROUP;
    let count = GROUP.min(spans - before);
    let list = spans_from(alloc, before + 1, count)?;
    let resource = resource_of(alloc)?;
    let mut scopes = Items::new(alloc);
    scopes.push(scope_of(alloc, list)?)?;
    Ok(Group {
        resource,
        dropped: 0,
        schema_url: Text::new(alloc),
        scopes,
    })
}

/// How many groups the gauge of so many spans has.
pub fn groups_of(spans: u32) -> u32
    ensures { result ≡ group_count spans }
{
    spans.div_ceil(GROUP)
}

/// Appends the protobuf text of the group of this number, of so many spans in all: one record of a
/// request. Where memory is wanted, a front of it was appended.
pub fn write_gauge_group(
    alloc: Global,
    out: &mut Blob,
    spans: u32,
    group: u32,
) -> Result<(), OutOfMemory>
    requires { HasGroup spans group }
    ensures ok { OnOk result (out.new ≡ out.old ++ group_record (gauge_group spans group)) }
    ensures err { OnErr result
        (GrowsFront out.old out.new (group_record (gauge_group spans group))) }
{
    let made = group_of(alloc, spans, group)?;
    write_group(out, &made)
}
