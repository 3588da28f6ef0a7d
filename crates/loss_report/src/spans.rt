//! The line of a span.
ghost use Rattle.std.specs.Prelude.{◌≡◌, ◌++◌, codes, OnErr, OnOk};
ghost use Rattle.span_io.specs.Outside.{GrowsFront};
ghost use Rattle.loss_report.specs.Lines.{code_word, ids_text, kind_word, named_text, parent_word, shown_text, times_text};

use crate::pieces::{append_numbered, append_quoted, append_span, append_trace};
use span_ids::SpanId;
use span_io::{Blob, OutOfMemory};
use trace_model::{Code, Kind, Span};

// Appends a space and the parent, or a dash, or nothing.
fn append_parent(out: &mut Blob, parent: Option<SpanId>) -> Result<(), OutOfMemory>
    ensures ok { OnOk result (out.new ≡ out.old ++ (codes " " ++ parent_word parent)) }
    ensures err { OnErr result (out.new ≡ out.old) }
{
    match parent {
        Some(parent) => append_span(out, parent),
        None => out.append(b" -"),
    }
}

// The name of a kind in OTLP.
fn kind_name(kind: Kind) -> &'static str
    ensures { result.now ≡ kind_word kind }
{
    match kind {
        Kind::Unspecified => "UNSPECIFIED",
        Kind::Internal => "INTERNAL",
        Kind::Server => "SERVER",
        Kind::Client => "CLIENT",
        Kind::Producer => "PRODUCER",
        Kind::Consumer => "CONSUMER",
    }
}

// The name of a code in OTLP.
fn code_name(code: Code) -> &'static str
    ensures { result.now ≡ code_word code }
{
    match code {
        Code::Unset => "UNSET",
        Code::Okay => "OK",
        Code::Fail => "ERROR",
    }
}

// Appends the identifiers of a span and of its parent.
#[tactic(auto, using(crate::proofs::Growth::in_pieces), unfolding(crate::specs::Lines::ids_text))]
fn append_ids(out: &mut Blob, span: &Span) -> Result<(), OutOfMemory>
    ensures ok { OnOk result (out.new ≡ out.old ++ ids_text span.now) }
    ensures err { OnErr result (GrowsFront out.old out.new (ids_text span.now)) }
{
    append_trace(out, span.trace)?;
    append_span(out, span.id)?;
    append_parent(out, span.parent)
}

// Appends a space, the kind, and the start and end of a span.
#[tactic(auto, using(crate::proofs::Growth::in_pieces), unfolding(crate::specs::Lines::times_text))]
fn append_times(out: &mut Blob, span: &Span) -> Result<(), OutOfMemory>
    ensures ok { OnOk result (out.new ≡ out.old ++ times_text span.now) }
    ensures err { OnErr result (GrowsFront out.old out.new (times_text span.now)) }
{
    out.append_both(b" ", kind_name(span.kind).as_bytes())?;
    append_numbered(out, b" ", span.start.0)?;
    append_numbered(out, b" ", span.end.0)
}

// Appends a space, the code of a span's status, its name, and the end of its line.
#[tactic(auto, using(crate::proofs::Growth::in_pieces), unfolding(crate::specs::Lines::named_text))]
fn append_named(out: &mut Blob, span: &Span) -> Result<(), OutOfMemory>
    ensures ok { OnOk result (out.new ≡ out.old ++ named_text span.now) }
    ensures err { OnErr result (GrowsFront out.old out.new (named_text span.now)) }
{
    out.append_both(b" ", code_name(span.status.code).as_bytes())?;
    append_quoted(out, b" ", span.name.as_str())?;
    out.append(b"\n")
}

/// Appends the line of a span, or a front of it.
#[tactic(auto, using(crate::proofs::Growth::in_pieces))]
pub fn show_line(out: &mut Blob, span: &Span) -> Result<(), OutOfMemory>
    ensures ok { OnOk result (out.new ≡ out.old ++ shown_text span.now) }
    ensures err { OnErr result (GrowsFront out.old out.new (shown_text span.now)) }
{
    append_ids(out, span)?;
    append_times(out, span)?;
    append_named(out, span)
}
