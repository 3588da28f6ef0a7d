//! Worked texts of batches in the binary protocol, with what an independent reader of jaeger.thrift says of them.
ghost use Rattle.std.specs.Prelude.{ℕ, List, IfOk};
ghost use Rattle.jaeger_model.specs.Batch.{IsBatchText};
ghost use Rattle.jaeger_model.specs.Counted.{IsCountedBatch};
ghost use Rattle.thrift_spellings.specs.BinarySpelling.{binary_spells};

use jaeger_model::laws::reads_times;
use jaeger_model::{Batch, JSpan, Log, SpanRef, TagValue, proper_sizes, read_batch, write_batch};
use row_tables::{Row, append_spelled, rows, sides};
use span_io::{Blob, Cause, Halt, Scan, Step};
use std::alloc::Global;
use std::test::Fail;
use thrift_binary::Binary;
use thrift_core::StructScanner;

// The fields of a span that it must have.
const SPAN: &str = "
0a0001 0000000000000001 0a0002 0000000000000000 0a0003 0000000000000002 0a0004 0000000000000000
0b0005 00000001 'a' 080007 00000000 0a0008 0000000000000000 0a0009 0000000000000000
";

// The bytes of a text in words, which may name a field of a batch or the fields of a span that it must have.
fn bytes_of(alloc: Global, text: &str) -> Result<Vec<u8>, Fail> {
    let mut bytes = Vec::new(alloc);
    for word in text.split_ascii_whitespace() {
        append_spelled(alloc, &mut bytes, named(word))?;
    }
    Ok(bytes)
}

fn named(word: &str) -> &str {
    match word {
        "@PROCESS" => "0c0001 0b0001 00000001 's' 00",
        "@NO_SPANS" => "0f0002 0c 00000000",
        "@ONE_SPAN" => "0f0002 0c 00000001",
        "@BEFORE" => "0c0001 0b0001 00000001 's' 00 0f0002 0c 00000001",
        "@SPAN" => SPAN,
        "@LOW" => "0a0001 0000000000000001",
        "@HIGH" => "0a0002 0000000000000000",
        "@ID" => "0a0003 0000000000000002",
        "@NO_ID" => "0a0003 0000000000000000",
        "@PARENT" => "0a0004 0000000000000000",
        "@NAME" => "0b0005 00000001 'a'",
        "@FLAGS" => "080007 00000000",
        "@START" => "0a0008 0000000000000000",
        "@LATE" => "0a0008 004189374bc6a7ef 0a0009 0000000000000001",
        "@END" => "0a0009 0000000000000000",
        _ => word,
    }
}

// Reads the batch that the bytes are.
pub(crate) fn read_text(alloc: Global, bytes: &[u8]) -> Result<Batch, Halt<Cause>>
    ensures text { IfOk result (λ batch. (text : List ℕ) × IsBatchText binary_spells batch text) }
    ensures counted { IfOk result IsCountedBatch }
{
    let mut scanner = StructScanner::<Binary>::new(bytes.len());
    match scanner.push(bytes) {
        Step::Unit(size) => read_batch::<Binary>(alloc, &bytes[..size]),
        Step::Need => Err(Halt::Why(Cause::Truncated)),
        Step::Refused(cause) => Err(Halt::Why(cause)),
    }
}

// Reads a batch, and writes it.
fn written(alloc: Global, bytes: &[u8]) -> Result<Blob, Halt<Cause>> {
    let batch = read_text(alloc, bytes)?;
    proper_sizes(&batch);
    reads_times::<Binary>();
    let mut out = Blob::new(alloc);
    write_batch::<Binary>(&mut out, &batch)?;
    Ok(out)
}

// Whole batches, and the canonical text of each.
const BATCHES: &str = "
no span
read @PROCESS @NO_SPANS 00
written @PROCESS @NO_SPANS 00

a number, counts and other fields
read 0c0004 0b0001 00000001 's' 00 080003 00000001 0a0003 0000000000000001 @NO_SPANS 0b0001 00000000 @PROCESS 0c0005 00 00
written @PROCESS @NO_SPANS 00

tags of a process, each read
read @NO_SPANS 0c0001 0f0002 0c 00000002 0b0001 00000001 'b' 080002 00000002 00 0b0001 00000001 'a' 080002 00000000 00 0b0001
  00000000 00 00
written 0c0001 0b0001 00000000 0f0002 0c 00000002 0b0001 00000001 'b' 080002 00000002 020005 00 00 0b0001 00000001 'a' 080002
  00000000 0b0003 00000000 00 00 @NO_SPANS 00
";

fn is_written(alloc: Global, bytes: &[u8], wanted: &[u8]) -> bool {
    match written(alloc, bytes) {
        Ok(found) => found.as_slice() == wanted,
        Err(_) => false,
    }
}

fn expect_row(alloc: Global, row: &Row) -> Result<(), Fail> {
    row.expect_keys(&["read", "written"])?;
    let bytes = bytes_of(alloc, row.text("read")?)?;
    let wanted = bytes_of(alloc, row.text("written")?)?;
    if is_written(alloc, bytes.as_slice(), wanted.as_slice()) {
        return Ok(());
    }
    Err(row.fail("not written", row.text("written")?))
}

#[test]
fn writes_what_was_read(rt: HostRuntime) -> Result<(), Fail> {
    for row in &rows(rt.alloc(), BATCHES)? {
        expect_row(rt.alloc(), row)?;
    }
    Ok(())
}

// Batches that are refused, and the cause of each. Of several the first counts.
const REFUSED: &str = "
nothing: 00 => Missing
no spans: @PROCESS 00 => Missing
no process: @NO_SPANS 00 => Missing
a process without a service: 0c0001 00 @NO_SPANS 00 => Missing
two processes: @PROCESS @NO_SPANS @PROCESS 00 => FieldTwice
two lists of spans: @PROCESS @NO_SPANS @NO_SPANS 00 => FieldTwice
two numbers: @PROCESS @NO_SPANS 0a0003 0000000000000001 0a0003 0000000000000001 00 => FieldTwice
two counts: @PROCESS @NO_SPANS 0c0004 00 0c0004 00 00 => FieldTwice
a service that is not UTF-8: 0c0001 0b0001 00000001 ff 00 @NO_SPANS 00 => NotText
numbers as spans: @PROCESS 0f0002 08 00000001 00000001 00 => BadElement
numbers as tags of a process: 0c0001 0b0001 00000001 's' 0f0002 03 00000001 01 00 @NO_SPANS 00 => BadElement
a tag of a process without a type: 0c0001 0b0001 00000001 's' @ONE_SPAN 0b0001 00000001 'k' 00 00 @NO_SPANS 00 => Missing
a span of zero in a batch without a process: @ONE_SPAN @LOW @HIGH @NO_ID @PARENT @NAME @FLAGS @START @END 00 00 => BadId
a field missing, a span of zero and a late end: @BEFORE @LOW @HIGH @PARENT @FLAGS @NO_ID @LATE 00 00 => Missing
a span of zero and a late end: @BEFORE @LOW @HIGH @PARENT @NAME @FLAGS @NO_ID @LATE 00 00 => BadId
a late end: @BEFORE @LOW @HIGH @ID @PARENT @NAME @FLAGS @LATE 00 00 => BadTime
a type above the last in a tag without a key: @BEFORE @SPAN 0f000a 0c 00000001 080002 00000005 00 00 00 => BadEnum
a tag without a key, and then a name twice: @BEFORE @SPAN 0f000a 0c 00000001 00 @NAME 00 00 => Missing
a name twice, and then a tag without a key: @BEFORE @SPAN @NAME 0f000a 0c 00000001 00 00 00 => FieldTwice
";

fn is_refused(alloc: Global, bytes: &[u8], name: &str) -> bool {
    match read_text(alloc, bytes) {
        Err(Halt::Why(cause)) => cause.name() == name,
        _ => false,
    }
}

// Whether a row is refused by its cause. Its name stands in front.
fn is_refusal(alloc: Global, row: &str) -> Result<bool, Fail> {
    let (_, told) = row.split_once(": ").unwrap_or((row, ""));
    let (batch, cause) = sides(told)?;
    let bytes = bytes_of(alloc, batch)?;
    Ok(is_refused(alloc, bytes.as_slice(), cause))
}

#[test]
fn refuses_batches(rt: HostRuntime) -> Result<(), Fail> {
    for row in REFUSED.trim_matches('\n').lines() {
        assert!(rt; is_refusal(rt.alloc(), row)?, "{row}");
    }
    Ok(())
}

// A batch of one span with references, of which two of four point to no span, and logs.
const READ: &str = "
@BEFORE
0f0006 0c 00000004
    080001 00000001 @HIGH 0a0003 ffffffffffffffff 0a0004 fffffffffffffffe 00
    080001 00000000 @HIGH @NO_ID 0a0004 0000000000000003 00
    080001 00000000 0a0002 0000000000000001 @NO_ID @PARENT 00
    0a0004 0000000000000003 @NO_ID 0a0002 0000000000000001 080001 00000000 00
@SPAN
0f000b 0c 00000001
    0f0002 0c 00000001 0b0001 00000001 'k' 080002 00000003 0a0006 0000000000000005 00 0a0001 004189374bc6a7ef 00
00 00
";

fn are_kept(references: &[SpanRef]) -> bool {
    let [first, second] = references else {
        return false;
    };
    let far = first.trace.halves() == (u64::MAX, 0) && first.span.number() == u64::MAX - 1;
    let near = second.trace.halves() == (0, 1) && second.span.number() == 3;
    !first.child_of && far && second.child_of && near
}

// One log with the field `k`, which is a number.
fn is_logged(logs: &[Log]) -> bool {
    let [log] = logs else {
        return false;
    };
    let [field] = log.fields.as_slice() else {
        return false;
    };
    log.time.0 == 18_446_744_073_709_551_000
        && field.key.as_str() == "k"
        && matches!(&field.value, TagValue::Number(number) if *number == 5)
}

fn is_read(span: &JSpan) -> bool {
    let named = span.trace.halves() == (0, 1) && span.id.number() == 2 && span.parent.is_none();
    let rest = span.name.as_str() == "a" && span.flags == 0 && span.invalid_refs == 2;
    named && rest && span.start.0 == 0 && span.end.0 == 0
}

fn is_whole(batch: &Batch) -> bool {
    let [span] = batch.spans.as_slice() else {
        return false;
    };
    batch.service.as_str() == "s"
        && batch.tags.len() == 0
        && is_read(span)
        && are_kept(span.references.as_slice())
        && is_logged(span.logs.as_slice())
}

#[test]
fn reads_each_part(rt: HostRuntime) -> Result<(), Fail> {
    let text = bytes_of(rt.alloc(), READ)?;
    let batch = read_text(rt.alloc(), text.as_slice())?;
    assert!(rt; is_whole(&batch));
    Ok(())
}
