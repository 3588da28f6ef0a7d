//! Each part of a batch in hand is proper, as its type keeps it. The functions read their argument, and do nothing else.
ghost use Rattle.std.specs.Prelude.{◌≡◌, ◌<◌, ◌^◌, length, All};
ghost use Rattle.jaeger_model.specs.Proper.{IsProperTagValue, IsProperTag, IsProperLog, IsProperReference, IsProperJSpan, IsProperBatch};

use crate::batch::Batch;
use crate::span::{JSpan, Log, SpanRef};
use crate::tag::{Tag, TagValue};
use span_ids::{Nanos, proper_parent};
use span_io::Items;
use span_io::laws::proper_bytes;

fn proper_double(double: [u8; 8])
    ensures size { length double ≡ 8 }
    ensures bytes { All (λ b. b < 256) double }
{
    // The type keeps it.
}

fn proper_value(value: &TagValue)
    ensures { IsProperTagValue value.now }
{
    match value {
        TagValue::Text(text) => {
            text.as_str();
        }
        TagValue::Eight(double) => proper_double(*double),
        TagValue::Truth(_) => {}
        TagValue::Number(number) => {
            let _number = *number;
        }
        TagValue::Bytes(bytes) => proper_bytes(bytes.as_slice()),
    }
}

fn proper_tag(tag: &Tag)
    ensures { IsProperTag tag.now }
{
    tag.key.as_str();
    proper_value(&tag.value);
}

fn proper_tags(tags: &Items<Tag>)
    ensures { All IsProperTag tags.now }
{
    'tags: for tag in tags.as_slice() {
        proper_tag(tag);
    }
}

fn proper_time(time: Nanos)
    ensures { time < 2 ^ 64 }
{
    let _nanos = time.0;
}

fn proper_log(log: &Log)
    ensures { IsProperLog log.now }
{
    proper_time(log.time);
    proper_tags(&log.fields);
}

fn proper_logs(logs: &Items<Log>)
    ensures { All IsProperLog logs.now }
{
    'logs: for log in logs.as_slice() {
        proper_log(log);
    }
}

fn proper_reference(reference: &SpanRef)
    ensures { IsProperReference reference.now }
{
    reference.trace.known();
    reference.span.known();
}

fn proper_references(references: &Items<SpanRef>)
    ensures { All IsProperReference references.now }
{
    'references: for reference in references.as_slice() {
        proper_reference(reference);
    }
}

fn proper_span(span: &JSpan)
    ensures { IsProperJSpan span.now }
{
    span.trace.known();
    span.id.known();
    proper_parent(span.parent);
    span.name.as_str();
    proper_references(&span.references);
    let _invalid_refs = span.invalid_refs;
    let _flags = span.flags;
    proper_time(span.start);
    proper_time(span.end);
    proper_tags(&span.tags);
    proper_logs(&span.logs);
}

fn proper_spans(spans: &Items<JSpan>)
    ensures { All IsProperJSpan spans.now }
{
    'spans: for span in spans.as_slice() {
        proper_span(span);
    }
}

/// A batch in hand is proper. It is read as a whole, and nothing else is done.
pub fn proper_batch(batch: &Batch)
    ensures { IsProperBatch batch.now }
{
    batch.service.as_str();
    proper_tags(&batch.tags);
    proper_spans(&batch.spans);
}
