//! All tables of rows of one line, and what holds each row.
use crate::texts::{bytes_of, lines, sides, word_of};
use crate::thrift::Part;
use crate::{identifiers, outside, thrift, wire};
use std::alloc::Global;
use std::test::Fail;
use thrift_binary::Binary;
use thrift_compact::Compact;

/// What a table is of.
#[derive(Clone, Copy)]
enum Kind {
    Varint,
    SignedVarint,
    Shortest,
    ShortestSigned,
    Record,
    Front,
    Trace,
    Span,
    TraceText,
    SpanText,
    Binary(Part),
    Compact(Part),
}

const TABLES: [(Kind, &str); 20] = [
    (Kind::Varint, outside::VARINTS),
    (Kind::SignedVarint, outside::SIGNED),
    (Kind::Shortest, outside::SHORTEST),
    (Kind::ShortestSigned, outside::SHORTEST_SIGNED),
    (Kind::Record, wire::SHORTEST),
    (Kind::Front, wire::READ),
    (Kind::Trace, identifiers::TRACES),
    (Kind::Span, identifiers::SPANS),
    (Kind::TraceText, identifiers::TRACE_TEXTS),
    (Kind::SpanText, identifiers::SPAN_TEXTS),
    (Kind::Binary(Part::Field), thrift::BINARY_FIELDS),
    (Kind::Compact(Part::Field), thrift::COMPACT_FIELDS),
    (Kind::Binary(Part::List), thrift::BINARY_LISTS),
    (Kind::Compact(Part::List), thrift::COMPACT_LISTS),
    (Kind::Binary(Part::Map), thrift::BINARY_MAPS),
    (Kind::Compact(Part::Map), thrift::COMPACT_MAPS),
    (Kind::Binary(Part::Word), thrift::BINARY_WORDS),
    (Kind::Compact(Part::Word), thrift::COMPACT_WORDS),
    (Kind::Binary(Part::Value), thrift::BINARY_VALUES),
    (Kind::Compact(Part::Value), thrift::COMPACT_VALUES),
];

// What stands behind so many words.
fn behind(text: &str, words: u32) -> &str {
    let mut rest = text;
    for _ in 0..words {
        let (_, others) = word_of(rest);
        rest = others;
    }
    rest
}

// Where in a row bytes stand in words.
fn spelled<'a>(kind: Kind, given: &'a str, wanted: &'a str) -> &'a str {
    match kind {
        Kind::Binary(part) | Kind::Compact(part) => behind(given, part.words()),
        Kind::Shortest | Kind::ShortestSigned => wanted,
        Kind::TraceText | Kind::SpanText => "",
        _ => given,
    }
}

fn holds(alloc: Global, kind: Kind, given: &str, bytes: &[u8], wanted: &str) -> bool {
    match kind {
        Kind::Varint => outside::is_varint(bytes, wanted),
        Kind::SignedVarint => outside::is_signed_varint(bytes, wanted),
        Kind::Shortest => outside::is_shortest(alloc, given, bytes),
        Kind::ShortestSigned => outside::is_shortest_signed(given, bytes),
        Kind::Record => wire::is_record(alloc, bytes, wanted),
        Kind::Front => wire::is_front(bytes, wanted),
        Kind::Trace => identifiers::is_trace(bytes, wanted),
        Kind::Span => identifiers::is_span(bytes, wanted),
        Kind::TraceText => identifiers::is_trace_text(given, wanted),
        Kind::SpanText => identifiers::is_span_text(given, wanted),
        Kind::Binary(part) => part.is_read::<Binary>(given, bytes, wanted),
        Kind::Compact(part) => part.is_read::<Compact>(given, bytes, wanted),
    }
}

fn holds_row(alloc: Global, kind: Kind, row: &str) -> Result<bool, Fail> {
    let Some((given, wanted)) = sides(row) else {
        return Ok(false);
    };
    let bytes = bytes_of(alloc, spelled(kind, given, wanted))?;
    Ok(holds(alloc, kind, given, bytes.as_slice(), wanted))
}

fn holds_rows(alloc: Global, kind: Kind, table: &'static str) -> Result<(), Fail> {
    for row in lines(table) {
        if !holds_row(alloc, kind, row)? {
            return Err(Fail::new(row));
        }
    }
    Ok(())
}

#[test]
fn holds_tables(rt: HostRuntime) -> Result<(), Fail> {
    for (kind, table) in &TABLES {
        holds_rows(rt.alloc(), *kind, table)?;
    }
    Ok(())
}
