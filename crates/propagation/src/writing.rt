//! Contexts as header lines.
ghost use Rattle.std.specs.Prelude.{◌≡◌, ◌↔◌, ◌++◌, Option, Some, OnOk, OnErr, Err};
ghost use Rattle.span_io.specs.Outside.{IsFront};
ghost use Rattle.propagation.specs.B3.{HoldsB3, b3_text};
ghost use Rattle.propagation.specs.Heads.{b3_name};
ghost use Rattle.propagation.specs.NormalContexts.{IsSoundContext, CannotTell, written_header, traceparent_lines, uber_lines, multi_ids_lines, multi_sampling_line, context_lines};

use crate::b3::write_b3;
use crate::context::Context;
use crate::header_form::HeaderForm;
use crate::ids::Ids;
use crate::no_ids::NoIds;
use crate::sampling::Sampling;
use crate::traceparent::write_traceparent;
use crate::uber::write_uber;
use span_io::{Blob, Halt, OutOfMemory};

/// Appends the lines of a context in a form, or nothing. A context without identifiers can't be told by
/// `traceparent` or `uber-trace-id`.
pub fn write_headers(out: &mut Blob, context: &Context, form: HeaderForm) -> Result<(), Halt<NoIds>>
    requires { IsSoundContext context.now }
    ensures ok { OnOk result (out.new ≡ out.old ++ context_lines form context.now) }
    ensures ids { (result ≡ Err (Halt.Why (record {}))) ↔ CannotTell form context.now }
    ensures err { OnErr result (out.new ≡ out.old) }
{
    let kept = out.len();
    match append_context(out, context, form) {
        Ok(()) => Ok(()),
        Err(halt) => {
            out.truncate(kept);
            Err(halt)
        }
    }
}

fn append_context(out: &mut Blob, context: &Context, form: HeaderForm) -> Result<(), Halt<NoIds>>
    requires { IsSoundContext context.now }
    ensures ok { OnOk result (out.new ≡ out.old ++ context_lines form context.now) }
    ensures ids { (result ≡ Err (Halt.Why (record {}))) ↔ CannotTell form context.now }
    ensures err { OnErr result (IsFront out.old out.new) }
{
    match form {
        HeaderForm::W3c => {
            let Some(ids) = context.ids else {
                return Err(Halt::Why(NoIds));
            };
            append_traceparent(
                out,
                &ids,
                context.sampling,
                context.state.as_str().as_bytes(),
            )?;
            Ok(())
        }
        HeaderForm::B3 => {
            append_b3(out, context.ids, context.sampling)?;
            Ok(())
        }
        HeaderForm::B3Multi => {
            append_multi(out, context.ids, context.sampling)?;
            Ok(())
        }
        HeaderForm::Uber => {
            let Some(ids) = context.ids else {
                return Err(Halt::Why(NoIds));
            };
            append_uber(out, &ids, context.sampling)?;
            Ok(())
        }
    }
}

// Where memory is wanted a front of the line may have been added.
fn append_header(out: &mut Blob, name: &[u8], value: &[u8]) -> Result<(), OutOfMemory>
    ensures ok { OnOk result (out.new ≡ out.old ++ written_header name.now value.now) }
    ensures err { OnErr result (IsFront out.old out.new) }
{
    out.append_both(name, b": ")?;
    out.append_both(value, b"\n")
}

fn append_traceparent(
    out: &mut Blob,
    ids: &Ids,
    sampling: Sampling,
    state: &[u8],
) -> Result<(), OutOfMemory>
    ensures ok { OnOk result
        (out.new ≡ out.old ++ traceparent_lines (Some ids.now) sampling state.now) }
    ensures err { OnErr result (IsFront out.old out.new) }
{
    let mut value = [0; 55];
    write_traceparent(ids, sampling, &mut value);
    append_header(out, b"traceparent", &value)?;
    if state.is_empty() {
        return Ok(());
    }
    append_header(out, b"tracestate", state)
}

fn append_b3(out: &mut Blob, ids: Option<Ids>, sampling: Sampling) -> Result<(), OutOfMemory>
    requires { HoldsB3 ids sampling }
    ensures ok { OnOk result (out.new ≡ out.old ++ written_header b3_name (b3_text ids sampling)) }
    ensures err { OnErr result (IsFront out.old out.new) }
{
    let mut value = [0; 68];
    let len = write_b3(ids.as_ref(), sampling, &mut value);
    append_header(out, b"b3", &value[..len])
}

fn append_uber(out: &mut Blob, ids: &Ids, sampling: Sampling) -> Result<(), OutOfMemory>
    ensures ok { OnOk result (out.new ≡ out.old ++ uber_lines (Some ids.now) sampling) }
    ensures err { OnErr result (IsFront out.old out.new) }
{
    let mut value = [0; 68];
    let len = write_uber(ids, sampling, &mut value);
    append_header(out, b"uber-trace-id", &value[..len])
}

fn append_multi(out: &mut Blob, ids: Option<Ids>, sampling: Sampling) -> Result<(), OutOfMemory>
    ensures ok { OnOk result
        (out.new ≡ out.old ++ (multi_ids_lines ids ++ multi_sampling_line sampling)) }
    ensures err { OnErr result (IsFront out.old out.new) }
{
    append_multi_ids(out, ids)?;
    append_multi_sampling(out, sampling)
}

fn append_multi_ids(out: &mut Blob, ids: Option<Ids>) -> Result<(), OutOfMemory>
    ensures ok { OnOk result (out.new ≡ out.old ++ multi_ids_lines ids) }
    ensures err { OnErr result (IsFront out.old out.new) }
{
    let Some(ids) = ids else {
        return Ok(());
    };
    let mut trace = [0; 32];
    ids.trace.write_hex(&mut trace);
    append_header(out, b"X-B3-TraceId", &trace)?;
    let mut span = [0; 16];
    ids.span.write_hex(&mut span);
    append_header(out, b"X-B3-SpanId", &span)?;
    let Some(id) = ids.parent else {
        return Ok(());
    };
    let mut parent = [0; 16];
    id.write_hex(&mut parent);
    append_header(out, b"X-B3-ParentSpanId", &parent)
}

fn append_multi_sampling(out: &mut Blob, sampling: Sampling) -> Result<(), OutOfMemory>
    ensures ok { OnOk result (out.new ≡ out.old ++ multi_sampling_line sampling) }
    ensures err { OnErr result (IsFront out.old out.new) }
{
    match sampling {
        Sampling::Absent => Ok(()),
        Sampling::No => append_header(out, b"X-B3-Sampled", b"0"),
        Sampling::Yes => append_header(out, b"X-B3-Sampled", b"1"),
        Sampling::Debug => append_header(out, b"X-B3-Flags", b"1"),
    }
}
