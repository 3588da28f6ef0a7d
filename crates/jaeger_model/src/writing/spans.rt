//! Spans and their references.
ghost use Rattle.std.specs.Prelude.{◌≡◌, ◌<ℤ◌, ◌-◌, pos};
ghost use Rattle.span_ids.specs.Times.{micros};
ghost use Rattle.thrift_core.specs.Trees.{i32, leaf};
ghost use Rattle.jaeger_model.specs.Canonical.{enum_tree, micros_tree, low_tree, high_tree, parent_tree, identity_rows, reference_and_flag_rows, time_rows, tag_and_log_rows};
ghost use Rattle.jaeger_model.specs.private.Growing.{WritesField, WritesRows};
ghost use Rattle.jaeger_model.specs.Reference.{reference_number};
ghost use Rattle.jaeger_model.specs.Writable.{IsWritableSpan};

use crate::span::{JSpan, Log, SpanRef};
use crate::tag::Tag;
use crate::writing::fields::{
    write_bits, write_int, write_long, write_micros, write_span_id, write_text, write_time,
};
use crate::writing::structures::{Structure, write_filled_list, write_list};
use span_ids::{Nanos, SpanId, TraceId};
use span_io::{Blob, OutOfMemory};
use thrift_core::Parts;

// Appends a field of the low half of a trace's identifier.
fn write_low<P: Parts>(
    out: &mut Blob,
    last: i16,
    id: i16,
    trace: TraceId,
) -> Result<(), OutOfMemory>
    requires rises { last <ℤ id }
    ensures { WritesField P.keeps P.writes result out.old out.new last id (low_tree trace) }
{
    let halves = trace.halves();
    write_bits::<P>(out, last, id, halves.1)
}

// Appends a field of the high half of a trace's identifier.
fn write_high<P: Parts>(
    out: &mut Blob,
    last: i16,
    id: i16,
    trace: TraceId,
) -> Result<(), OutOfMemory>
    requires rises { last <ℤ id }
    ensures { WritesField P.keeps P.writes result out.old out.new last id (high_tree trace) }
{
    let halves = trace.halves();
    write_bits::<P>(out, last, id, halves.0)
}

// The number of a reference's type.
fn type_number(child_of: bool) -> i32
    ensures { result ≡ pos (reference_number child_of) }
{
    if child_of { 0 } else { 1 }
}

// Appends the field of a reference's type.
fn write_type<P: Parts>(out: &mut Blob, child_of: bool) -> Result<(), OutOfMemory>
    ensures { WritesField P.keeps P.writes result out.old out.new (pos 0) (pos 1)
        (enum_tree (reference_number child_of)) }
{
    write_int::<P>(out, 0, 1, type_number(child_of))
}

impl<P: Parts> Structure<P> for SpanRef {
    ghost use Rattle.std.specs.Prelude.{⊤};
    ghost use Rattle.jaeger_model.specs.Canonical.{reference_rows};

    ghost rows = { reference_rows };

    ghost writable = { λ reference. ⊤ };

    fn write_fields(&self, out: &mut Blob) -> Result<(), OutOfMemory> {
        write_type::<P>(out, self.child_of)?;
        write_low::<P>(out, 1, 2, self.trace)?;
        write_high::<P>(out, 2, 3, self.trace)?;
        write_span_id::<P>(out, 3, 4, self.span)
    }
}

// Appends the field of the parent.
fn write_parent<P: Parts>(out: &mut Blob, parent: Option<SpanId>) -> Result<(), OutOfMemory>
    ensures { WritesField P.keeps P.writes result out.old out.new (pos 3) (pos 4)
        (parent_tree parent) }
{
    match parent {
        None => write_long::<P>(out, 3, 4, 0),
        Some(id) => write_span_id::<P>(out, 3, 4, id),
    }
}

// Appends the fields 1 to 5 of a span.
fn write_identity<P: Parts>(out: &mut Blob, span: &JSpan) -> Result<(), OutOfMemory>
    requires { IsWritableSpan span.now }
    ensures { WritesRows P.keeps P.writes result out.old out.new (pos 0) (identity_rows span.now) }
{
    write_low::<P>(out, 0, 1, span.trace)?;
    write_high::<P>(out, 1, 2, span.trace)?;
    write_span_id::<P>(out, 2, 3, span.id)?;
    write_parent::<P>(out, span.parent)?;
    write_text::<P>(out, 4, 5, &span.name)
}

// Appends the field of the flags.
fn write_flags<P: Parts>(out: &mut Blob, last: i16, span: &JSpan) -> Result<(), OutOfMemory>
    requires rises { last <ℤ pos 7 }
    ensures { WritesField P.keeps P.writes result out.old out.new last (pos 7)
        (leaf (i32 span.now.flags)) }
{
    write_int::<P>(out, last, 7, span.flags)
}

// Appends the fields 6 and 7.
fn write_references_and_flags<P: Parts>(out: &mut Blob, span: &JSpan) -> Result<(), OutOfMemory>
    requires { IsWritableSpan span.now }
    ensures { WritesRows P.keeps P.writes result out.old out.new (pos 5)
        (reference_and_flag_rows span.now) }
{
    if span.references.len() == 0 {
        return write_flags::<P>(out, 5, span);
    }
    write_list::<P, SpanRef>(out, 5, 6, &span.references)?;
    write_flags::<P>(out, 6, span)
}

// Appends the field of the duration.
fn write_duration<P: Parts>(out: &mut Blob, start: Nanos, end: Nanos) -> Result<(), OutOfMemory>
    ensures { WritesField P.keeps P.writes result out.old out.new (pos 8) (pos 9)
        (micros_tree (micros end - micros start)) }
{
    write_micros::<P>(out, 8, 9, end.micros().saturating_sub(start.micros()))
}

// Appends the fields 8 and 9.
fn write_times<P: Parts>(out: &mut Blob, span: &JSpan) -> Result<(), OutOfMemory>
    ensures { WritesRows P.keeps P.writes result out.old out.new (pos 7) (time_rows span.now) }
{
    write_time::<P>(out, 7, 8, span.start)?;
    write_duration::<P>(out, span.start, span.end)
}

// Appends the fields 10 and 11.
fn write_tags_and_logs<P: Parts>(out: &mut Blob, span: &JSpan) -> Result<(), OutOfMemory>
    requires { IsWritableSpan span.now }
    ensures { WritesRows P.keeps P.writes result out.old out.new (pos 9)
        (tag_and_log_rows span.now) }
{
    if span.tags.len() == 0 {
        return write_filled_list::<P, Log>(out, 9, 11, &span.logs);
    }
    write_list::<P, Tag>(out, 9, 10, &span.tags)?;
    write_filled_list::<P, Log>(out, 10, 11, &span.logs)
}

impl<P: Parts> Structure<P> for JSpan {
    ghost use Rattle.jaeger_model.specs.Canonical.{jspan_rows};
    ghost use Rattle.jaeger_model.specs.Writable.{IsWritableSpan};

    ghost rows = { jspan_rows };

    ghost writable = { IsWritableSpan };

    fn write_fields(&self, out: &mut Blob) -> Result<(), OutOfMemory> {
        write_identity::<P>(out, self)?;
        write_references_and_flags::<P>(out, self)?;
        write_times::<P>(out, self)?;
        write_tags_and_logs::<P>(out, self)
    }
}
