//! Spans. Their sixteen members are written by four functions with four each.
ghost use Rattle.std.specs.Prelude.{take, drop};
ghost use Rattle.json_members.specs.Writing.{Appends};
ghost use Rattle.otlp_json.specs.Canonical.{otlp_span_rows};
ghost use Rattle.otlp_json.specs.private.Writing.{part_tokens};

use crate::writing::elements::{Element, list_member};
use crate::writing::members::{number_member, time_member};
use crate::writing::parts::status_member;
use crate::writing::values::attributes_member;
use json::Writer;
use json_members::{
    close_object, given_text_member, id_member, open_object, parent_member, trace_member,
};
use span_io::OutOfMemory;
use std::alloc::Global;
use trace_model::Span;

fn write_members_1_to_4(alloc: Global, out: &mut Writer, span: &Span) -> Result<(), OutOfMemory>
    ensures { Appends result out.old out.new (part_tokens (take 4 (otlp_span_rows span.now))) }
{
    attributes_member(alloc, out, "attributes", &span.attributes)?;
    number_member(out, "droppedAttributesCount", span.dropped_attributes)?;
    number_member(out, "droppedEventsCount", span.dropped_events)?;
    number_member(out, "droppedLinksCount", span.dropped_links)?;
    Ok(())
}

fn write_members_5_to_8(alloc: Global, out: &mut Writer, span: &Span) -> Result<(), OutOfMemory>
    ensures { Appends result out.old out.new
        (part_tokens (take 4 (drop 4 (otlp_span_rows span.now)))) }
{
    time_member(out, "endTimeUnixNano", span.end)?;
    list_member(alloc, out, "events", &span.events)?;
    number_member(out, "flags", span.flags)?;
    number_member(out, "kind", span.kind.number())?;
    Ok(())
}

fn write_members_9_to_12(alloc: Global, out: &mut Writer, span: &Span) -> Result<(), OutOfMemory>
    ensures { Appends result out.old out.new
        (part_tokens (take 4 (drop 8 (otlp_span_rows span.now)))) }
{
    list_member(alloc, out, "links", &span.links)?;
    given_text_member(out, "name", &span.name)?;
    parent_member(out, "parentSpanId", span.parent)?;
    id_member(out, "spanId", span.id)?;
    Ok(())
}

fn write_members_13_to_16(out: &mut Writer, span: &Span) -> Result<(), OutOfMemory>
    ensures { Appends result out.old out.new (part_tokens (drop 12 (otlp_span_rows span.now))) }
{
    time_member(out, "startTimeUnixNano", span.start)?;
    status_member(out, &span.status)?;
    trace_member(out, "traceId", span.trace)?;
    given_text_member(out, "traceState", &span.state)?;
    Ok(())
}

impl Element for Span {
    ghost use Rattle.otlp_json.specs.Canonical.{otlp_span_rows};

    ghost rows = { otlp_span_rows };

    fn write(&self, alloc: Global, out: &mut Writer) -> Result<(), OutOfMemory> {
        open_object(out)?;
        write_members_1_to_4(alloc, out, self)?;
        write_members_5_to_8(alloc, out, self)?;
        write_members_9_to_12(alloc, out, self)?;
        write_members_13_to_16(out, self)?;
        close_object(out)
    }
}
