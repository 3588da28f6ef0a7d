//! Writing a span as its canonical text.
ghost use Rattle.std.specs.Prelude.{◌≡◌, ◌-◌, ◌++◌, ◌∷◌, [], Some, IsTrue, ◌↔◌, OnOk, OnErr};
ghost use Rattle.json.specs.Token.{begin_object, end_object, begin_array, end_array, key};
ghost use Rattle.serde_json.specs.Data.{number, string, unsigned};
ghost use Rattle.span_ids.specs.Times.{micros};
ghost use Rattle.json_members.specs.Canonical.{count_data};
ghost use Rattle.json_members.specs.Writing.{Appends, GrewFront, given_tokens};
ghost use Rattle.json_members.specs.private.Pieces.{rows_tokens, pieces};
ghost use Rattle.zipkin_json.specs.Canonical.{kind_data, endpoint_rows, endpoint_data, annotations_data, tags_data, zspan_rows, zspan_text};
ghost use Rattle.zipkin_json.specs.private.Writing.{tag_piece, annotation_piece};

use crate::span::{Endpoint, ZKind, ZSpan};
use json::Writer;
use json_members::{
    close_array, close_object, count_member, given_text_member, id_member, name_of, open_array,
    open_object, own_text_member, parent_member, trace_member, truth_member, whole_count_member,
    whole_text_member,
};
use span_ids::Nanos;
use span_io::{Blob, OutOfMemory, Text};

// A kind, unless it is absent.
fn kind_member(out: &mut Writer, name: &str, kind: ZKind) -> Result<(), OutOfMemory>
    ensures { Appends result out.old out.new (given_tokens name.now (kind_data kind)) }
{
    match kind {
        ZKind::Absent => Ok(()),
        ZKind::Client => whole_text_member(out, name, "CLIENT"),
        ZKind::Server => whole_text_member(out, name, "SERVER"),
        ZKind::Producer => whole_text_member(out, name, "PRODUCER"),
        ZKind::Consumer => whole_text_member(out, name, "CONSUMER"),
    }
}

fn micros_member(out: &mut Writer, name: &str, time: Nanos) -> Result<(), OutOfMemory>
    ensures { Appends result out.old out.new (given_tokens name.now
        (Some (number (unsigned (micros time))))) }
{
    whole_count_member(out, name, time.micros())
}

// A port, unless it is 0.
fn port_member(out: &mut Writer, name: &str, port: u16) -> Result<(), OutOfMemory>
    ensures { Appends result out.old out.new (given_tokens name.now (count_data port)) }
{
    count_member(out, name, u64::from(port))
}

// A time in microseconds, unless it is 0.
fn time_member(out: &mut Writer, name: &str, time: Nanos) -> Result<(), OutOfMemory>
    ensures { Appends result out.old out.new (given_tokens name.now (count_data (micros time))) }
{
    count_member(out, name, time.micros())
}

// The microseconds from one time to another, unless they are 0.
fn length_member(out: &mut Writer, name: &str, start: Nanos, end: Nanos) -> Result<(), OutOfMemory>
    ensures { Appends result out.old out.new (given_tokens name.now
        (count_data (micros end - micros start))) }
{
    count_member(out, name, end.micros().saturating_sub(start.micros()))
}

fn write_annotation(out: &mut Writer, time: Nanos, value: &Text) -> Result<(), OutOfMemory>
    ensures { Appends result out.old out.new (annotation_piece (time, value.now)) }
{
    open_object(out)?;
    micros_member(out, "timestamp", time)?;
    own_text_member(out, "value", value)?;
    close_object(out)?;
    Ok(())
}

fn write_annotations(out: &mut Writer, list: &[(Nanos, Text)]) -> Result<(), OutOfMemory>
    ensures { Appends result out.old out.new (pieces annotation_piece list.now) }
{
    'annotations: for annotation in list {
        write_annotation(out, annotation.0, &annotation.1)?;
    }
    Ok(())
}

fn write_tags(out: &mut Writer, tags: &[(Text, Text)]) -> Result<(), OutOfMemory>
    ensures { Appends result out.old out.new (pieces tag_piece tags.now) }
{
    'tags: for tag in tags {
        whole_text_member(out, tag.0.as_str(), tag.1.as_str())?;
    }
    Ok(())
}

fn is_absent(endpoint: &Endpoint) -> bool
    ensures { IsTrue result ↔ ((endpoint.now.ipv4 ≡ []) × (endpoint.now.ipv6 ≡ [])
        × (endpoint.now.port ≡ 0) × (endpoint.now.service ≡ [])) }
{
    endpoint.ipv4.as_str().is_empty()
        && endpoint.ipv6.as_str().is_empty()
        && endpoint.port == 0
        && endpoint.service.as_str().is_empty()
}

// The members of an endpoint, with their braces.
fn write_endpoint(out: &mut Writer, endpoint: &Endpoint) -> Result<(), OutOfMemory>
    ensures { Appends result out.old out.new
        (begin_object ∷ rows_tokens (endpoint_rows endpoint.now)) }
{
    open_object(out)?;
    given_text_member(out, "ipv4", &endpoint.ipv4)?;
    given_text_member(out, "ipv6", &endpoint.ipv6)?;
    port_member(out, "port", endpoint.port)?;
    given_text_member(out, "serviceName", &endpoint.service)?;
    close_object(out)?;
    Ok(())
}

fn named_endpoint(out: &mut Writer, name: &str, endpoint: &Endpoint) -> Result<(), OutOfMemory>
    ensures { Appends result out.old out.new
        (key name.now ∷ begin_object ∷ rows_tokens (endpoint_rows endpoint.now)) }
{
    name_of(out, name)?;
    write_endpoint(out, endpoint)?;
    Ok(())
}

// An endpoint, unless all of it is absent.
#[tactic(auto, using(crate::proofs::WritingLemmas::endpoints))]
fn endpoint_member(out: &mut Writer, name: &str, endpoint: &Endpoint) -> Result<(), OutOfMemory>
    ensures { Appends result out.old out.new (given_tokens name.now (endpoint_data endpoint.now)) }
{
    if is_absent(endpoint) {
        return Ok(());
    }
    named_endpoint(out, name, endpoint)
}

fn named_annotations(
    out: &mut Writer,
    name: &str,
    list: &[(Nanos, Text)],
) -> Result<(), OutOfMemory>
    ensures { Appends result out.old out.new
        (key name.now ∷ begin_array ∷ (pieces annotation_piece list.now ++ end_array ∷ [])) }
{
    name_of(out, name)?;
    open_array(out)?;
    write_annotations(out, list)?;
    close_array(out)?;
    Ok(())
}

// Annotations, unless there are none.
#[tactic(auto, using(crate::proofs::WritingLemmas::lists))]
fn annotations_member(
    out: &mut Writer,
    name: &str,
    list: &[(Nanos, Text)],
) -> Result<(), OutOfMemory>
    ensures { Appends result out.old out.new
        (given_tokens name.now (annotations_data list.now)) }
{
    if list.is_empty() {
        return Ok(());
    }
    named_annotations(out, name, list)
}

fn named_tags(out: &mut Writer, name: &str, tags: &[(Text, Text)]) -> Result<(), OutOfMemory>
    ensures { Appends result out.old out.new
        (key name.now ∷ begin_object ∷ (pieces tag_piece tags.now ++ end_object ∷ [])) }
{
    name_of(out, name)?;
    open_object(out)?;
    write_tags(out, tags)?;
    close_object(out)?;
    Ok(())
}

// Tags, unless there are none.
#[tactic(auto, using(crate::proofs::WritingLemmas::lists))]
fn tags_member(out: &mut Writer, name: &str, tags: &[(Text, Text)]) -> Result<(), OutOfMemory>
    ensures { Appends result out.old out.new (given_tokens name.now (tags_data tags.now)) }
{
    if tags.is_empty() {
        return Ok(());
    }
    named_tags(out, name, tags)
}

// The members of a span, with their braces.
fn write_members(out: &mut Writer, span: &ZSpan) -> Result<(), OutOfMemory>
    ensures { Appends result out.old out.new (begin_object ∷ rows_tokens (zspan_rows span.now)) }
{
    open_object(out)?;
    annotations_member(out, "annotations", span.annotations.as_slice())?;
    truth_member(out, "debug", span.debug)?;
    length_member(out, "duration", span.start, span.end)?;
    id_member(out, "id", span.id)?;
    kind_member(out, "kind", span.kind)?;
    endpoint_member(out, "localEndpoint", &span.local)?;
    given_text_member(out, "name", &span.name)?;
    parent_member(out, "parentId", span.parent)?;
    endpoint_member(out, "remoteEndpoint", &span.remote)?;
    truth_member(out, "shared", span.shared)?;
    tags_member(out, "tags", span.tags.as_slice())?;
    time_member(out, "timestamp", span.start)?;
    trace_member(out, "traceId", span.trace)?;
    close_object(out)?;
    Ok(())
}

/// Appends the canonical text of a span.
pub fn write_span(out: &mut Blob, span: &ZSpan) -> Result<(), OutOfMemory>
    ensures ok { OnOk result (out.new ≡ out.old ++ zspan_text span.now) }
    // After want of memory a front of it was appended.
    ensures front { OnErr result (GrewFront out.old out.new (zspan_text span.now)) }
{
    let mut writer = Writer::new(out.take());
    let written = write_members(&mut writer, span);
    *out = Blob::from_vec(writer.into_inner());
    written
}
