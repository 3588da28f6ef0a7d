//! What rows of one line are read by: words in front of `=>` and behind.
use row_tables::append_spelled;
use span_io::{Cause, Step};
use std::alloc::Global;
use std::str::Lines;
use std::test::Fail;

/// A Batch of jaeger.thrift with one span and no tags.
pub(crate) const BATCH: &str = "
0c0001 0b0001 00000001 'p' 00
0f0002 0c 00000001
    0a0001 0000000000000001 0a0002 0000000000000000 0a0003 0000000000000002 0a0004 0000000000000000
    0b0005 00000001 'b' 080007 00000000 0a0008 0000000000000000 0a0009 0000000000000000 00
00
";

/// The field of a span of jaeger.thrift with its tags, of which there is one that holds a double.
pub(crate) const BINARY_TAGS: &str =
    "0f000a 0c 00000001 0b0001 00000001 'd' 080002 00000001 040004 3ff0000000000000 00";

pub(crate) const COMPACT_TAGS: &str = "19 1c 1801 'd' 1502 27 000000000000f03f 00";

/// Ten bytes that are no varint, behind the head of a field.
const OVERLONG: &str = "05 ffffffffffffffffff02";

/// The bytes of a text, which may be named.
pub(crate) fn bytes_of(alloc: Global, text: &str) -> Result<Vec<u8>, Fail> {
    let spelled = match text {
        "@BATCH" => BATCH,
        "@BINARY_TAGS" => BINARY_TAGS,
        "@COMPACT_TAGS" => COMPACT_TAGS,
        "@OVERLONG" => OVERLONG,
        _ => text,
    };
    let mut bytes = Vec::new(alloc);
    append_spelled(alloc, &mut bytes, spelled)?;
    Ok(bytes)
}

/// The rows of a table whose rows are one line each.
pub(crate) fn lines(table: &'static str) -> Lines<'static> {
    table.trim_matches('\n').lines()
}

/// Each cause, with its number and its name.
pub(crate) const CAUSES: [(Cause, u8, &str); 17] = [
    (Cause::Truncated, 1, "Truncated"),
    (Cause::BadVarint, 2, "BadVarint"),
    (Cause::BadWire, 3, "BadWire"),
    (Cause::BadSize, 4, "BadSize"),
    (Cause::TooDeep, 5, "TooDeep"),
    (Cause::UnitTooLong, 6, "UnitTooLong"),
    (Cause::FieldTwice, 7, "FieldTwice"),
    (Cause::Missing, 8, "Missing"),
    (Cause::NotText, 9, "NotText"),
    (Cause::BadJson, 10, "BadJson"),
    (Cause::BadShape, 11, "BadShape"),
    (Cause::BadId, 12, "BadId"),
    (Cause::BadEnum, 13, "BadEnum"),
    (Cause::BadElement, 14, "BadElement"),
    (Cause::DoubleInJson, 15, "DoubleInJson"),
    (Cause::BadTime, 16, "BadTime"),
    (Cause::InputTooLong, 17, "InputTooLong"),
];

/// The two sides of a row, between which `=>` stands.
pub(crate) fn sides(row: &str) -> Option<(&str, &str)> {
    let (given, wanted) = row.split_once("=>")?;
    Some((given.trim_matches(' '), wanted.trim_matches(' ')))
}

/// The first word of a text, and what stands behind it.
pub(crate) fn word_of(text: &str) -> (&str, &str) {
    text.split_once(' ').unwrap_or((text, ""))
}

/// Whether a text is this number alone.
pub(crate) fn is_count(text: &str, count: u64) -> bool {
    text.parse::<u64>().ok() == Some(count)
}

/// The same of a number with a sign.
pub(crate) fn is_signed(text: &str, number: i64) -> bool {
    text.parse::<i64>().ok() == Some(number)
}

/// Whether a text tells this step: `need`, `unit` with its size, or the cause of a refusal.
pub(crate) fn is_step(text: &str, step: Step) -> bool {
    match step {
        Step::Need => text == "need",
        Step::Unit(size) => {
            let (word, rest) = word_of(text);
            word == "unit" && is_count(rest, size as u64)
        }
        Step::Refused(cause) => text == cause.name(),
    }
}
