//! How the rows of this crate tell bytes: as they stand, in hexadecimal or with escapes, or by the name of a text.
use crate::texts::TEXTS;
use row_tables::{Row, Words, row_named, texts, unescaped};
use span_io::Blob;
use std::alloc::Global;
use std::test::Fail;

// The names of the texts of spans that another crate has, too.
const NAMES: &str = r"
ANSWERED BARE_GROUP BARE_REQUEST CLIENT_COMPACT CLIENT_SPANS CLIENT_SPANS_WRITTEN CUT_SPAN DOUBLE_BATCH
DOUBLE_COMPACT FLAGS_COMPACT FULL_GROUP FULL_REQUEST LINKED LONGER_NAME LONG_NAME MARKED_SPANS MICROS_REQUEST
ONE_GROUP ONE_SPAN ONE_ZIPKIN_SPAN PARENT_COMPACT POSTED POSTED_OBJECT REFUSED_OBJECT ROOT_COMPACT SDK_BATCH
SDK_COMPACT SDK_GROUPS SDK_REQUEST SDK_SPANS SERVICE_ZIPKIN_SPAN SHARED_SPANS SPANS_OF_CLIENT SPAN_BATCH
SPAN_COMPACT UNKNOWN_FIELDS VALUES_GROUP
";

// The texts of these names, in their order.
const SHARED: [&str; 37] = [
    texts::ANSWERED,
    texts::BARE_GROUP,
    texts::BARE_REQUEST,
    texts::CLIENT_COMPACT,
    texts::CLIENT_SPANS,
    texts::CLIENT_SPANS_WRITTEN,
    texts::CUT_SPAN,
    texts::DOUBLE_BATCH,
    texts::DOUBLE_COMPACT,
    texts::FLAGS_COMPACT,
    texts::FULL_GROUP,
    texts::FULL_REQUEST,
    texts::LINKED,
    texts::LONGER_NAME,
    texts::LONG_NAME,
    texts::MARKED_SPANS,
    texts::MICROS_REQUEST,
    texts::ONE_GROUP,
    texts::ONE_SPAN,
    texts::ONE_ZIPKIN_SPAN,
    texts::PARENT_COMPACT,
    texts::POSTED,
    texts::POSTED_OBJECT,
    texts::REFUSED_OBJECT,
    texts::ROOT_COMPACT,
    texts::SDK_BATCH,
    texts::SDK_COMPACT,
    texts::SDK_GROUPS,
    texts::SDK_REQUEST,
    texts::SDK_SPANS,
    texts::SERVICE_ZIPKIN_SPAN,
    texts::SHARED_SPANS,
    texts::SPANS_OF_CLIENT,
    texts::SPAN_BATCH,
    texts::SPAN_COMPACT,
    texts::UNKNOWN_FIELDS,
    texts::VALUES_GROUP,
];

/// How a text tells bytes.
#[derive(Clone, Copy)]
enum Telling {
    AsItStands,
    InHexadecimal,
    WithEscapes,
    ManyTimes,
}

// How the text of a key is read that goes on from this one.
fn telling_of(found: &str, key: &str) -> Option<Telling> {
    match found.strip_prefix(key)? {
        "" => Some(Telling::AsItStands),
        "-hex" => Some(Telling::InHexadecimal),
        "-lines" => Some(Telling::WithEscapes),
        "-times" => Some(Telling::ManyTimes),
        _ => None,
    }
}

fn shared(name: &str) -> Option<&'static str> {
    let mut names = NAMES.split_ascii_whitespace();
    for text in &SHARED {
        if names.next() == Some(name) {
            return Some(*text);
        }
    }
    None
}

fn append_hex(alloc: Global, bytes: &mut Blob, text: &str) -> Result<(), Fail> {
    let read = hex::decode(alloc, text)?;
    Ok(bytes.append(read.as_slice())?)
}

fn append_escaped(alloc: Global, bytes: &mut Blob, text: &str) -> Result<(), Fail> {
    let read = unescaped(alloc, text)?;
    Ok(bytes.append(read.as_slice())?)
}

// The text that a name stands for has no escapes.
fn append_plain(alloc: Global, bytes: &mut Blob, text: &str, telling: Telling) -> Result<(), Fail> {
    match telling {
        Telling::AsItStands | Telling::WithEscapes => Ok(bytes.append(text.as_bytes())?),
        Telling::InHexadecimal | Telling::ManyTimes => append_hex(alloc, bytes, text),
    }
}

fn append_text(alloc: Global, bytes: &mut Blob, row: &Row, telling: Telling) -> Result<(), Fail> {
    row.expect_keys(&["what", "text"])?;
    append_plain(alloc, bytes, row.text("text")?, telling)
}

// The text of this name, of this crate or of another one.
fn append_named(alloc: Global, bytes: &mut Blob, name: &str, telling: Telling) -> Result<(), Fail> {
    if let Some(text) = shared(name) {
        return append_plain(alloc, bytes, text, telling);
    }
    let row = row_named(alloc, TEXTS, name)?;
    append_text(alloc, bytes, &row, telling)
}

fn append_told(alloc: Global, bytes: &mut Blob, text: &str, telling: Telling) -> Result<(), Fail> {
    if let Some(name) = text.strip_prefix('@') {
        return append_named(alloc, bytes, name, telling);
    }
    match telling {
        Telling::WithEscapes => append_escaped(alloc, bytes, text),
        _ => append_plain(alloc, bytes, text, telling),
    }
}

// Appends bytes so many times.
fn append_each(bytes: &mut Blob, more: &[u8], times: u64) -> Result<(), Fail> {
    for _ in 0..times {
        bytes.append(more)?;
    }
    Ok(())
}

// A piece in which what a text tells stands so many times.
fn append_piece(alloc: Global, piece: &mut Blob, text: &str, each: u64) -> Result<(), Fail> {
    let mut part = Blob::new(alloc);
    append_told(alloc, &mut part, text, Telling::ManyTimes)?;
    append_each(piece, part.as_slice(), each)
}

// Appends what a row tells many times: by how many pieces, how often the bytes stand in a piece, and these bytes.
fn append_times(alloc: Global, bytes: &mut Blob, row: &Row, text: &str) -> Result<(), Fail> {
    let mut words = Words::of(text);
    let times = row.number_in(words.word())?;
    let each = row.number_in(words.word())?;
    let mut piece = Blob::new(alloc);
    append_piece(alloc, &mut piece, words.rest(), each)?;
    append_each(bytes, piece.as_slice(), times)
}

/// Appends what the texts of a key tell, one behind the other: as they stand, under the key with `-hex` in hexadecimal, with
/// escapes under that with `-lines`, and many times under that with `-times`. A text that begins with `@` names another.
pub fn append_bytes(alloc: Global, row: &Row, key: &str, bytes: &mut Blob) -> Result<(), Fail> {
    for field in row.fields() {
        match telling_of(field.key(), key) {
            None => {}
            Some(Telling::ManyTimes) => append_times(alloc, bytes, row, field.text())?,
            Some(telling) => append_told(alloc, bytes, field.text(), telling)?,
        }
    }
    Ok(())
}

/// Appends what one text tells with escapes, or by its name.
pub fn append_line(alloc: Global, text: &str, bytes: &mut Blob) -> Result<(), Fail> {
    append_told(alloc, bytes, text, Telling::WithEscapes)
}
