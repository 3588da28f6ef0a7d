//! The run of `gauge`.
ghost use Rattle.std.specs.Prelude.{◌≡◌, ◌++◌, IfOk, OnOk};
ghost use Rattle.span_io.specs.Forms.{form_word};
ghost use Rattle.span_cli.specs.GaugeLines.{IsGaugeCount, counted_line, gauge_lines, size_line};
ghost use Rattle.span_cli.specs.private.RunSteps.{EndsGauge};

use crate::ending::Ending;
use itoa::Buffer;
use span_io::{Blob, Failed, Form, OutOfMemory, Sink, write_all};
use span_vectors::{gauge_size, groups_of};
use std::alloc::Global;

/// Writes how many spans and groups the gauge has, and how many bytes in each form.
pub fn gauge<K: Sink>(alloc: Global, spans: u32, output: &mut K) -> Ending
    requires { IsGaugeCount spans }
    ensures { EndsGauge K.outlet spans result output.old output.new }
{
    let Ok(lines) = lines_of(alloc, spans) else {
        return Ending::NoMemory;
    };
    match write_all(output, lines.as_slice()) {
        Ok(()) => Ending::Whole,
        Err(Failed) => Ending::OutputFailed,
    }
}

// The lines of the gauge of so many spans.
#[tactic(auto, unfolding(crate::specs::GaugeLines::gauge_lines))]
fn lines_of(alloc: Global, spans: u32) -> Result<Blob, OutOfMemory>
    requires { IsGaugeCount spans }
    ensures { IfOk result (λ lines. lines ≡ gauge_lines spans) }
{
    let mut lines = Blob::new(alloc);
    add_count(&mut lines, b"spans", u64::from(spans))?;
    add_count(&mut lines, b"groups", u64::from(groups_of(spans)))?;
    add_size(alloc, &mut lines, spans, Form::OtlpProto)?;
    add_size(alloc, &mut lines, spans, Form::OtlpJson)?;
    add_size(alloc, &mut lines, spans, Form::JaegerBinary)?;
    add_size(alloc, &mut lines, spans, Form::JaegerCompact)?;
    add_size(alloc, &mut lines, spans, Form::ZipkinJson)?;
    Ok(lines)
}

// Appends the line of a form.
#[tactic(auto, unfolding(crate::specs::GaugeLines::size_line))]
fn add_size(alloc: Global, lines: &mut Blob, spans: u32, form: Form) -> Result<(), OutOfMemory>
    requires { IsGaugeCount spans }
    ensures { OnOk result (lines.new ≡ lines.old ++ size_line spans form) }
{
    let size = gauge_size(alloc, spans, form)?;
    add_count(lines, word_of(form), size)
}

// Appends a line that counts something under its name.
fn add_count(lines: &mut Blob, name: &[u8], count: u64) -> Result<(), OutOfMemory>
    ensures { OnOk result (lines.new ≡ lines.old ++ counted_line name.now count) }
{
    let mut buffer = Buffer::new();
    lines.append(name)?;
    lines.append(b" ")?;
    lines.append(buffer.format(count).as_bytes())?;
    lines.append(b"\n")
}

// The word by which a command line names a form.
fn word_of(form: Form) -> &'static [u8]
    ensures { result.now ≡ form_word form }
{
    match form {
        Form::OtlpProto => b"otlp-proto",
        Form::OtlpJson => b"otlp-json",
        Form::JaegerBinary => b"jaeger-binary",
        Form::JaegerCompact => b"jaeger-compact",
        Form::ZipkinJson => b"zipkin-json",
    }
}
