//! Fields that are left out where they are their default.
ghost use Rattle.std.specs.Prelude.{◌≡◌, ◌++◌, OnOk, OnErr};
ghost use Rattle.span_io.specs.Outside.{GrowsFront};
ghost use Rattle.proto_wire.specs.Records.{IsFieldNumber};
ghost use Rattle.otlp_proto.specs.Canonical.{filled_field, count_field, time_field, flags_field, trace_field, span_field, parent_field};

use proto_wire::{Payload, write_record};
use span_ids::{Nanos, SpanId, TraceId};
use span_io::{Blob, OutOfMemory, Text};

/// Appends a text, unless it is empty.
pub fn write_text(out: &mut Blob, number: u32, text: &Text) -> Result<(), OutOfMemory>
    requires { IsFieldNumber number }
    ensures ok { OnOk result (out.new ≡ out.old ++ filled_field number text.now) }
    ensures err { OnErr result (GrowsFront out.old out.new (filled_field number text.now)) }
{
    match text.as_str().as_bytes() {
        [] => Ok(()),
        held => write_record(out, number, Payload::Bytes(held)),
    }
}

/// Appends a count or another number of wire type 0, unless it is 0.
pub fn write_count(out: &mut Blob, number: u32, count: u32) -> Result<(), OutOfMemory>
    requires { IsFieldNumber number }
    ensures ok { OnOk result (out.new ≡ out.old ++ count_field number count) }
    ensures err { OnErr result (GrowsFront out.old out.new (count_field number count)) }
{
    match count {
        0 => Ok(()),
        _ => write_record(out, number, Payload::Varint(u64::from(count))),
    }
}

/// Appends a time, unless it is 0.
pub fn write_time(out: &mut Blob, number: u32, time: Nanos) -> Result<(), OutOfMemory>
    requires { IsFieldNumber number }
    ensures ok { OnOk result (out.new ≡ out.old ++ time_field number time) }
    ensures err { OnErr result (GrowsFront out.old out.new (time_field number time)) }
{
    match time.0 {
        0 => Ok(()),
        nanos => write_record(out, number, Payload::Fixed64(nanos)),
    }
}

/// Appends flags, unless they are 0.
pub fn write_flags(out: &mut Blob, number: u32, flags: u32) -> Result<(), OutOfMemory>
    requires { IsFieldNumber number }
    ensures ok { OnOk result (out.new ≡ out.old ++ flags_field number flags) }
    ensures err { OnErr result (GrowsFront out.old out.new (flags_field number flags)) }
{
    match flags {
        0 => Ok(()),
        _ => write_record(out, number, Payload::Fixed32(flags)),
    }
}

/// Appends the identifier of a trace.
pub fn write_trace(out: &mut Blob, number: u32, id: TraceId) -> Result<(), OutOfMemory>
    requires { IsFieldNumber number }
    ensures ok { OnOk result (out.new ≡ out.old ++ trace_field number id) }
    ensures err { OnErr result (GrowsFront out.old out.new (trace_field number id)) }
{
    write_record(out, number, Payload::Bytes(&id.to_bytes()))
}

/// Appends the identifier of a span.
pub fn write_span_id(out: &mut Blob, number: u32, id: SpanId) -> Result<(), OutOfMemory>
    requires { IsFieldNumber number }
    ensures ok { OnOk result (out.new ≡ out.old ++ span_field number id) }
    ensures err { OnErr result (GrowsFront out.old out.new (span_field number id)) }
{
    write_record(out, number, Payload::Bytes(&id.to_bytes()))
}

/// Appends the identifier of a parent, if there is one.
pub fn write_parent(out: &mut Blob, number: u32, parent: Option<SpanId>) -> Result<(), OutOfMemory>
    requires { IsFieldNumber number }
    ensures ok { OnOk result (out.new ≡ out.old ++ parent_field number parent) }
    ensures err { OnErr result (GrowsFront out.old out.new (parent_field number parent)) }
{
    match parent {
        Some(id) => write_span_id(out, number, id),
        None => Ok(()),
    }
}
