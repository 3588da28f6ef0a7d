//! Fields of each type, behind the field of id `last`.
ghost use Rattle.std.specs.Prelude.{◌<ℤ◌, ◌≤◌};
ghost use Rattle.span_ids.specs.Times.{micros, last_micros};
ghost use Rattle.thrift_core.specs.Trees.{truth_value, i32, i64, double, leaf, binary};
ghost use Rattle.jaeger_model.specs.Canonical.{id_tree, micros_tree};
ghost use Rattle.jaeger_model.specs.private.Growing.{WritesField};
ghost use Rattle.span_io.specs.Sizes.{IsShort};

use span_ids::{Nanos, SpanId};
use span_io::{Blob, OutOfMemory, Text};
use thrift_core::{Parts, TypeCode};

/// Appends a field of a text, or of bytes.
pub(crate) fn write_binary<P: Parts>(
    out: &mut Blob,
    last: i16,
    id: i16,
    value: &[u8],
) -> Result<(), OutOfMemory>
    requires rises { last <ℤ id }
    requires sized { IsShort value.now }
    ensures { WritesField P.keeps P.writes result out.old out.new last id (binary value.now) }
{
    P::put_field(out, last, id, TypeCode::Binary, None)?;
    P::put_bytes(out, value)
}

/// Appends a field of an i32.
pub(crate) fn write_int<P: Parts>(
    out: &mut Blob,
    last: i16,
    id: i16,
    value: i32,
) -> Result<(), OutOfMemory>
    requires rises { last <ℤ id }
    ensures { WritesField P.keeps P.writes result out.old out.new last id (leaf (i32 value)) }
{
    P::put_field(out, last, id, TypeCode::I32, None)?;
    P::put_int(out, value)
}

/// Appends a field of an i64.
pub(crate) fn write_long<P: Parts>(
    out: &mut Blob,
    last: i16,
    id: i16,
    value: i64,
) -> Result<(), OutOfMemory>
    requires rises { last <ℤ id }
    ensures { WritesField P.keeps P.writes result out.old out.new last id (leaf (i64 value)) }
{
    P::put_field(out, last, id, TypeCode::I64, None)?;
    P::put_long(out, value)
}

/// Appends a field of a double.
pub(crate) fn write_double<P: Parts>(
    out: &mut Blob,
    last: i16,
    id: i16,
    value: [u8; 8],
) -> Result<(), OutOfMemory>
    requires rises { last <ℤ id }
    ensures { WritesField P.keeps P.writes result out.old out.new last id (leaf (double value)) }
{
    P::put_field(out, last, id, TypeCode::Eight, None)?;
    P::put_eight(out, value)
}

/// Appends a field of a truth value.
pub(crate) fn write_truth<P: Parts>(
    out: &mut Blob,
    last: i16,
    id: i16,
    value: bool,
) -> Result<(), OutOfMemory>
    requires rises { last <ℤ id }
    ensures { WritesField P.keeps P.writes result out.old out.new last id
        (leaf (truth_value value)) }
{
    P::put_field(out, last, id, TypeCode::Truth, Some(value))?;
    P::put_truth(out, value)
}

/// Appends a field of a text.
pub(crate) fn write_text<P: Parts>(
    out: &mut Blob,
    last: i16,
    id: i16,
    text: &Text,
) -> Result<(), OutOfMemory>
    requires rises { last <ℤ id }
    requires sized { IsShort text.now }
    ensures { WritesField P.keeps P.writes result out.old out.new last id (binary text.now) }
{
    write_binary::<P>(out, last, id, text.as_str().as_bytes())
}

/// Appends a field of 64 bits, as the signed number that they are.
pub(crate) fn write_bits<P: Parts>(
    out: &mut Blob,
    last: i16,
    id: i16,
    bits: u64,
) -> Result<(), OutOfMemory>
    requires rises { last <ℤ id }
    ensures { WritesField P.keeps P.writes result out.old out.new last id (id_tree bits) }
{
    write_long::<P>(out, last, id, bits.cast_signed())
}

/// Appends a field of the identifier of a span.
pub(crate) fn write_span_id<P: Parts>(
    out: &mut Blob,
    last: i16,
    id: i16,
    span: SpanId,
) -> Result<(), OutOfMemory>
    requires rises { last <ℤ id }
    ensures { WritesField P.keeps P.writes result out.old out.new last id (id_tree span) }
{
    write_bits::<P>(out, last, id, span.number())
}

/// Appends a field of microseconds.
pub(crate) fn write_micros<P: Parts>(
    out: &mut Blob,
    last: i16,
    id: i16,
    value: u64,
) -> Result<(), OutOfMemory>
    requires rises { last <ℤ id }
    requires fits { value ≤ last_micros }
    ensures { WritesField P.keeps P.writes result out.old out.new last id (micros_tree value) }
{
    write_long::<P>(out, last, id, value as i64)
}

/// Appends a field of a time.
pub(crate) fn write_time<P: Parts>(
    out: &mut Blob,
    last: i16,
    id: i16,
    time: Nanos,
) -> Result<(), OutOfMemory>
    requires rises { last <ℤ id }
    ensures { WritesField P.keeps P.writes result out.old out.new last id
        (micros_tree (micros time)) }
{
    write_micros::<P>(out, last, id, time.micros())
}
