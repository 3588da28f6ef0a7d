//! Spans of a value and of a text of JSON.
ghost use Rattle.std.specs.Prelude.{◌≡◌, ◌<◌, List, All, length, Err, IfOk, IsUtf8};
ghost use Rattle.serde_json.specs.View.{view};
ghost use Rattle.span_io.specs.Paths.{JudgesInput};
ghost use Rattle.span_io.specs.declared.halt.Halt.TheVariants as halts;
ghost use Rattle.span_io.specs.Offences.{OnlyReads};
ghost use Rattle.json_members.specs.Counted.{values_in};
ghost use Rattle.json_members.specs.Texts.{document_offends};
ghost use Rattle.zipkin_json.specs.Proper.{IsWritableZSpan};
ghost use Rattle.zipkin_json.specs.Span.{HasRisingTags, AreSpans, spans_offend};
ghost use Rattle.zipkin_json.specs.Texts.{AreSpansText};
ghost use Rattle.zipkin_json.specs.declared.span.ZSpan.{ZSpan};

use crate::laws::one_list;
use crate::reading::spans::read_array;
use crate::span::ZSpan;
use json::Scratch;
use json_members::unread;
use json_nodes::{Lent, bytes_nodes, value_nodes};
use serde_json::Value;
use span_io::{Halt, Items, Refusal};
use std::alloc::Global;

/// Reads the spans of a JSON value, which is an array of them, or refuses it by its least offence.
pub fn read_spans(alloc: Global, v: &Value) -> Result<Items<ZSpan>, Halt<Refusal>>
    ensures value { IfOk result (λ spans. AreSpans spans (view v.now)) }
    ensures rising { IfOk result (All HasRisingTags) }
    // They can be written.
    ensures writable { IfOk result (All IsWritableZSpan) }
    // The array is a value itself.
    ensures counted { IfOk result (λ spans. length spans < values_in (view v.now)) }
    ensures judged { JudgesInput result (spans_offend (view v.now)) }
    // Whatever spans the value stands for are the answer.
    ensures only { (spans : List ZSpan) → AreSpans spans (view v.now) → OnlyReads result spans }
{
    one_list();
    match value_nodes(alloc, v) {
        Ok(nodes) => read_array(alloc, &Lent::of(nodes.as_slice())),
        Err(_) => Err(Halt::OutOfMemory),
    }
}

/// Reads the spans of a text of Zipkin v2. One that is no JSON value is `BadJson`.
pub fn read_text(alloc: Global, bytes: &[u8]) -> Result<Items<ZSpan>, Halt<Refusal>>
    ensures value { IfOk result (λ spans. AreSpansText spans bytes.now) }
    ensures rising { IfOk result (All HasRisingTags) }
    // They can be written.
    ensures writable { IfOk result (All IsWritableZSpan) }
    // Each takes a byte at least.
    ensures counted { IfOk result (λ spans. length spans < length bytes.now) }
    ensures judged { JudgesInput result (document_offends spans_offend bytes.now) }
    // No memory is wanted for bytes that are no text.
    ensures wants { result ≡ Err halts.OutOfMemory → IsUtf8 bytes.now }
    // Whatever spans the bytes are a text of are the answer.
    ensures only { (spans : List ZSpan) → AreSpansText spans bytes.now → OnlyReads result spans }
{
    one_list();
    let mut scratch = Scratch::new(alloc);
    match bytes_nodes(alloc, bytes, &mut scratch) {
        Ok(nodes) => read_array(alloc, &Lent::of(nodes.as_slice())),
        Err(why) => Err(unread(why)),
    }
}
