//! What tags of a span of Jaeger say, and the remarks on them, by the OpenTelemetry exporter page for Jaeger.
use crate::batches::read_text;
use crate::remarks::are_remarks;
use map_jaeger::group_of_batch;
use row_tables::{Row, rows};
use span_io::{Blob, OutOfMemory, Text};
use std::alloc::Global;
use std::test::Fail;
use trace_model::{Code, Group, Kind, Span, Value};

// A batch of the process `shop` with one span, up to the number of its tags.
const FRONT: &[u8] = b"\x0c\0\x01\x0b\0\x01\0\0\0\x04shop\0\x0f\0\x02\x0c\0\0\0\x01\
\x0a\0\x01\0\0\0\0\0\0\0\x01\x0a\0\x02\0\0\0\0\0\0\0\0\x0a\0\x03\0\0\0\0\0\0\0\x02\x0a\0\x04\0\0\0\0\0\0\0\0\
\x0b\0\x05\0\0\0\x03pay\x08\0\x07\0\0\0\x01\x0a\0\x08\0\0\0\0\0\0\0\x01\x0a\0\x09\0\0\0\0\0\0\0\x02\x0f\0\x0a\x0c";

// Appends a text of fewer than 256 bytes behind its size.
fn append_text(out: &mut Blob, text: &str) -> Result<(), OutOfMemory> {
    out.append(&[0, 0, 0, (text.len() % 256) as u8])?;
    out.append(text.as_bytes())
}

// Appends a tag of a text: a key and, behind a blank, the text.
fn append_tag(out: &mut Blob, tag: &str) -> Result<(), OutOfMemory> {
    let (key, text) = tag.split_once(' ').unwrap_or((tag, ""));
    out.append(b"\x0b\0\x01")?;
    append_text(out, key)?;
    out.append(b"\x08\0\x02\0\0\0\0\x0b\0\x03")?;
    append_text(out, text)?;
    out.append(b"\0")
}

fn tags_of(row: &Row) -> u8 {
    let mut many = 0_u8;
    for field in row.fields() {
        if field.key() == "tag" {
            many = many.saturating_add(1);
        }
    }
    many
}

fn append_tags(out: &mut Blob, row: &Row) -> Result<(), OutOfMemory> {
    out.append(&[0, 0, 0, tags_of(row)])?;
    for field in row.fields() {
        if field.key() == "tag" {
            append_tag(out, field.text())?;
        }
    }
    Ok(())
}

// The batch whose span has the tags of a row.
fn batch_of(alloc: Global, row: &Row) -> Result<Blob, OutOfMemory> {
    let mut out = Blob::new(alloc);
    out.append(FRONT)?;
    append_tags(&mut out, row)?;
    out.append(b"\0\0")?;
    Ok(out)
}

// The tags of a span, and the attributes, the kind, the code and the remarks that they make of it.
const ROWS: &str = "
the last of equal tags
tag k 1
tag a 2
tag k 3
attribute a 2
attribute k 3
kind Internal
code Unset
remark span 1 EqualKey k

a reserved tag that stands last
tag span.kind client
tag a 2
tag span.kind server
attribute a 2
kind Server
code Unset
remark span 1 EqualKey span.kind

a reserved tag that says nothing stands last
tag span.kind client
tag span.kind Client
kind Internal
code Unset
remark span 1 EqualKey span.kind
remark span 1 TagDropped span.kind

a reserved key behind the front, which is an attribute
tag otel.attr.error true
attribute error true
kind Internal
code Unset

a reserved key beside the same behind the front
tag error true
tag otel.attr.error 1
attribute error 1
kind Internal
code Fail

a reserved tag that says nothing beside the same behind the front
tag otel.attr.span.kind server
tag span.kind Client
attribute span.kind server
kind Internal
code Unset
remark span 1 TagDropped span.kind

equal tags behind the front, remarked under the key of the tag
tag otel.attr.error 1
tag a 2
tag otel.attr.error 3
attribute a 2
attribute error 3
kind Internal
code Unset
remark span 1 EqualKey otel.attr.error

a reserved key behind two copies of the front
tag otel.attr.otel.attr.error 1
attribute otel.attr.error 1
kind Internal
code Unset

keys behind the front that aren't reserved
tag otel.attr. 1
tag otel.attr.event 2
tag otel.attr.jaeger.flags 3
attribute otel.attr. 1
attribute otel.attr.event 2
attribute otel.attr.jaeger.flags 3
kind Internal
code Unset

attributes in the order of their keys, and not of the tags
tag otel.attr.error 1
tag f 2
tag otel.attr.w3c.tracestate 3
tag otel.b 4
attribute error 1
attribute f 2
attribute otel.b 4
attribute w3c.tracestate 3
kind Internal
code Unset

error beside a code
tag error true
tag otel.status_code OK
kind Internal
code Okay
remark span 1 TagDropped error

error alone
tag error true
tag otel.status_description late
kind Internal
code Fail

a code alone
tag otel.status_code ERROR
kind Internal
code Fail

the text false alone
tag a 2
tag error false
attribute a 2
kind Internal
code Unset

the text false beside a code that it doesn't agree with
tag error false
tag otel.status_code ERROR
kind Internal
code Fail
remark span 1 TagDropped error

the kind internal
tag span.kind internal
kind Internal
code Unset

the kind server
tag span.kind server
kind Server
code Unset

the kind client
tag span.kind client
kind Client
code Unset

the kind producer
tag span.kind producer
kind Producer
code Unset

the kind consumer
tag span.kind consumer
kind Consumer
code Unset
";

// Whether an attribute is a text: a key and, behind a blank, the text.
fn is_pair(pair: &(Text, Value), wanted: &str) -> bool {
    let (name, text) = wanted.split_once(' ').unwrap_or((wanted, ""));
    let (key, value) = pair;
    key.as_str() == name && matches!(value, Value::Text(held) if held.as_str() == text)
}

fn are_attributes(attributes: &[(Text, Value)], row: &Row) -> bool {
    let mut left = attributes;
    for field in row.fields() {
        if field.key() != "attribute" {
            continue;
        }
        let [pair, others @ ..] = left else {
            return false;
        };
        if !is_pair(pair, field.text()) {
            return false;
        }
        left = others;
    }
    left.is_empty()
}

fn word_of_kind(kind: Kind) -> &'static str {
    match kind {
        Kind::Unspecified => "Unspecified",
        Kind::Internal => "Internal",
        Kind::Server => "Server",
        Kind::Client => "Client",
        Kind::Producer => "Producer",
        Kind::Consumer => "Consumer",
    }
}

fn word_of_code(code: Code) -> &'static str {
    match code {
        Code::Unset => "Unset",
        Code::Okay => "Okay",
        Code::Fail => "Fail",
    }
}

// What a row tells of a span.
#[derive(Clone, Copy)]
struct Told<'a> {
    row: &'a Row,
    kind: &'a str,
    code: &'a str,
}

impl Told<'_> {
    fn is_span(&self, span: &Span) -> bool {
        word_of_kind(span.kind) == self.kind
            && word_of_code(span.status.code) == self.code
            && are_attributes(span.attributes.as_slice(), self.row)
    }

    fn is_group(&self, group: &Group) -> bool {
        let ([shop], [scope]) = (group.resource.as_slice(), group.scopes.as_slice()) else {
            return false;
        };
        match scope.spans.as_slice() {
            [span] => is_pair(shop, "service.name shop") && self.is_span(span),
            _ => false,
        }
    }

    // Whether the batch of these bytes means this.
    fn is_meant(&self, alloc: Global, text: &[u8]) -> bool {
        let Ok(batch) = read_text(alloc, text) else {
            return false;
        };
        match group_of_batch(alloc, batch) {
            Ok((group, remarks)) => {
                are_remarks(remarks.as_slice(), self.row) && self.is_group(&group)
            }
            Err(_) => false,
        }
    }
}

fn expect_row(alloc: Global, row: &Row) -> Result<(), Fail> {
    row.expect_keys(&["tag", "attribute", "kind", "code", "remark"])?;
    let told = Told {
        row,
        kind: row.text("kind")?,
        code: row.text("code")?,
    };
    let text = batch_of(alloc, row)?;
    if told.is_meant(alloc, text.as_slice()) {
        return Ok(());
    }
    Err(row.fail("another meaning", "of its tags"))
}

#[test]
fn reads_tags(rt: HostRuntime) -> Result<(), Fail> {
    for row in &rows(rt.alloc(), ROWS)? {
        expect_row(rt.alloc(), row)?;
    }
    Ok(())
}
