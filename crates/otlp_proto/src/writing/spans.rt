//! Spans.
ghost use Rattle.std.specs.Prelude.{◌≡◌, ◌++◌, OnOk, OnErr};
ghost use Rattle.span_io.specs.Outside.{GrowsFront};
ghost use Rattle.otlp_proto.specs.Canonical.{filled_field, count_field, time_field, flags_field, trace_field, span_field, parent_field, list_text, attributes_text, status_text, otlp_event_text, link_text};
ghost use Rattle.trace_model.specs.OtlpParts.{kind_number};

use crate::writing::elements::{Message, write_elements, write_filled};
use crate::writing::fields::{
    write_count, write_flags, write_parent, write_span_id, write_text, write_time, write_trace,
};
use crate::writing::values::write_attributes;
use span_io::{Blob, OutOfMemory};
use trace_model::Span;

// The sixteen fields of a span, in their order: four functions with four each, since the prover doesn't
// take sixteen `?` at once.

// Appends the fields 1 to 4 of a span.
#[tactic(auto, using(crate::proofs::Growth::in_pieces))]
fn write_fields_1_to_4(out: &mut Blob, span: &Span) -> Result<(), OutOfMemory>
    ensures ok { OnOk result (out.new ≡ out.old
        ++ (trace_field 1 span.now.trace ++ (span_field 2 span.now.id
        ++ (filled_field 3 span.now.state ++ parent_field 4 span.now.parent)))) }
    ensures err { OnErr result (GrowsFront out.old out.new
        (trace_field 1 span.now.trace ++ (span_field 2 span.now.id
        ++ (filled_field 3 span.now.state ++ parent_field 4 span.now.parent)))) }
{
    write_trace(out, 1, span.trace)?;
    write_span_id(out, 2, span.id)?;
    write_text(out, 3, &span.state)?;
    write_parent(out, 4, span.parent)
}

// Appends the fields 5 to 8 of a span.
#[tactic(auto, using(crate::proofs::Growth::in_pieces))]
fn write_fields_5_to_8(out: &mut Blob, span: &Span) -> Result<(), OutOfMemory>
    ensures ok { OnOk result (out.new ≡ out.old
        ++ (filled_field 5 span.now.name ++ (count_field 6 (kind_number span.now.kind)
        ++ (time_field 7 span.now.start ++ time_field 8 span.now.end)))) }
    ensures err { OnErr result (GrowsFront out.old out.new
        (filled_field 5 span.now.name ++ (count_field 6 (kind_number span.now.kind)
        ++ (time_field 7 span.now.start ++ time_field 8 span.now.end)))) }
{
    write_text(out, 5, &span.name)?;
    write_count(out, 6, span.kind.number())?;
    write_time(out, 7, span.start)?;
    write_time(out, 8, span.end)
}

// Appends the fields 9 to 12 of a span.
#[tactic(auto, using(crate::proofs::Growth::in_pieces))]
fn write_fields_9_to_12(out: &mut Blob, span: &Span) -> Result<(), OutOfMemory>
    ensures ok { OnOk result (out.new ≡ out.old
        ++ (attributes_text 9 span.now.attributes ++ (count_field 10 span.now.dropped_attributes
        ++ (list_text 11 otlp_event_text span.now.events
        ++ count_field 12 span.now.dropped_events)))) }
    ensures err { OnErr result (GrowsFront out.old out.new
        (attributes_text 9 span.now.attributes ++ (count_field 10 span.now.dropped_attributes
        ++ (list_text 11 otlp_event_text span.now.events
        ++ count_field 12 span.now.dropped_events)))) }
{
    write_attributes(out, 9, span.attributes.as_slice())?;
    write_count(out, 10, span.dropped_attributes)?;
    write_elements(out, 11, span.events.as_slice())?;
    write_count(out, 12, span.dropped_events)
}

// Appends the fields 13 to 16 of a span.
#[tactic(auto, using(crate::proofs::Growth::in_pieces))]
fn write_fields_13_to_16(out: &mut Blob, span: &Span) -> Result<(), OutOfMemory>
    ensures ok { OnOk result (out.new ≡ out.old
        ++ (list_text 13 link_text span.now.links ++ (count_field 14 span.now.dropped_links
        ++ (filled_field 15 (status_text span.now.status) ++ flags_field 16 span.now.flags)))) }
    ensures err { OnErr result (GrowsFront out.old out.new
        (list_text 13 link_text span.now.links ++ (count_field 14 span.now.dropped_links
        ++ (filled_field 15 (status_text span.now.status) ++ flags_field 16 span.now.flags)))) }
{
    write_elements(out, 13, span.links.as_slice())?;
    write_count(out, 14, span.dropped_links)?;
    write_filled(out, 15, &span.status)?;
    write_flags(out, 16, span.flags)
}

impl Message for Span {
    ghost use Rattle.otlp_proto.specs.Canonical.{span_text};

    ghost text = { span_text };

    #[tactic(auto, using(crate::proofs::SpanFields::by_fours))]
    fn write(&self, out: &mut Blob) -> Result<(), OutOfMemory> {
        write_fields_1_to_4(out, self)?;
        write_fields_5_to_8(out, self)?;
        write_fields_9_to_12(out, self)?;
        write_fields_13_to_16(out, self)
    }
}
