//! What lines are made of.
ghost use Rattle.std.specs.Prelude.{◌≡◌, ◌++◌, decimal, codes, IfOk, OnErr, OnOk};
ghost use Rattle.json_members.specs.Canonical.{span_id_text, trace_id_text};
ghost use Rattle.span_io.specs.Outside.{GrowsFront};
ghost use Rattle.loss_report.specs.Lines.{part_text, place_text, quoted_text};

use itoa::Buffer;
use json::Writer;
use span_ids::{SpanId, TraceId};
use span_io::{Blob, OutOfMemory};
use std::alloc::Global;
use trace_model::Place;

/// Appends a word, and a number behind it, or nothing.
pub(crate) fn append_numbered(out: &mut Blob, word: &[u8], number: u64) -> Result<(), OutOfMemory>
    ensures ok { OnOk result (out.new ≡ out.old ++ (word.now ++ decimal number)) }
    ensures err { OnErr result (out.new ≡ out.old) }
{
    let mut buffer = Buffer::new();
    out.append_both(word, buffer.format(number).as_bytes())
}

// A text as a JSON string.
fn json_of(alloc: Global, text: &str) -> Result<Blob, OutOfMemory>
    ensures { IfOk result (λ json. json ≡ quoted_text text.now) }
{
    let mut out = Writer::new(Vec::new(alloc));
    out.string(text)?;
    Ok(Blob::from_vec(out.into_inner()))
}

// The allocator of a list.
fn allocator_of(out: &mut Blob) -> Global
    ensures { out.new ≡ out.old }
{
    let bytes = out.take();
    let alloc = *bytes.allocator();
    *out = Blob::from_vec(bytes);
    alloc
}

/// Appends a word, and a text behind it as a JSON string, or nothing. A writer of JSON makes room ready
/// by the size of what stands before it, so the string is made in a list of its own.
pub(crate) fn append_quoted(out: &mut Blob, word: &[u8], text: &str) -> Result<(), OutOfMemory>
    ensures ok { OnOk result (out.new ≡ out.old ++ (word.now ++ quoted_text text.now)) }
    ensures err { OnErr result (out.new ≡ out.old) }
{
    let alloc = allocator_of(out);
    let json = json_of(alloc, text)?;
    out.append_both(word, json.as_slice())
}

/// Appends the digits of an identifier of a trace, or nothing.
pub(crate) fn append_trace(out: &mut Blob, trace: TraceId) -> Result<(), OutOfMemory>
    ensures ok { OnOk result (out.new ≡ out.old ++ trace_id_text trace) }
    ensures err { OnErr result (out.new ≡ out.old) }
{
    let mut digits = [0; 32];
    trace.write_hex(&mut digits);
    out.append(&digits)
}

/// Appends a space, and the digits of an identifier of a span, or nothing.
pub(crate) fn append_span(out: &mut Blob, span: SpanId) -> Result<(), OutOfMemory>
    ensures ok { OnOk result (out.new ≡ out.old ++ (codes " " ++ span_id_text span)) }
    ensures err { OnErr result (out.new ≡ out.old) }
{
    let mut digits = [0; 16];
    span.write_hex(&mut digits);
    out.append_both(b" ", &digits)
}

// Appends which part of a unit a place is.
#[tactic(auto, using(crate::proofs::Growth::in_pieces))]
fn append_part(out: &mut Blob, place: Place) -> Result<(), OutOfMemory>
    ensures ok { OnOk result (out.new ≡ out.old ++ part_text place) }
    ensures err { OnErr result (GrowsFront out.old out.new (part_text place)) }
{
    match place {
        Place::Whole => Ok(()),
        Place::Resource => out.append(b" resource"),
        Place::Scope(scope) => append_numbered(out, b" scope ", u64::from(scope)),
        Place::Span(span) => append_numbered(out, b" span ", u64::from(span)),
        Place::Event(span, event) => {
            append_numbered(out, b" span ", u64::from(span))?;
            append_numbered(out, b" event ", u64::from(event))
        }
        Place::Link(span, link) => {
            append_numbered(out, b" span ", u64::from(span))?;
            append_numbered(out, b" link ", u64::from(link))
        }
    }
}

/// Appends the place in a unit, or a front of it.
#[tactic(auto, using(crate::proofs::Growth::in_pieces))]
pub(crate) fn append_place(out: &mut Blob, unit: u64, place: Place) -> Result<(), OutOfMemory>
    ensures ok { OnOk result (out.new ≡ out.old ++ place_text unit place) }
    ensures err { OnErr result (GrowsFront out.old out.new (place_text unit place)) }
{
    append_numbered(out, b"unit ", unit)?;
    append_part(out, place)
}
