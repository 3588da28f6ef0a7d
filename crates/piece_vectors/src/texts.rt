//! What the texts of a row say: worked texts by their names, words, numbers and forms.
use row_tables::{Row, texts, unescaped};
use span_io::{Blob, Form};
use std::alloc::Global;
use std::test::Fail;

// The names of the worked texts.
const NAMES: &str = r"
CLIENT_COMPACT CLIENT_SPANS CLIENT_SPANS_WRITTEN CUT_SPAN DOUBLE_BATCH DOUBLE_COMPACT FULL_GROUP FULL_REQUEST
LONGER_NAME LONG_NAME MICROS_REQUEST ONE_GROUP ONE_SPAN ONE_ZIPKIN_SPAN PARENT_COMPACT ROOT_COMPACT SDK_BATCH
SDK_COMPACT SDK_GROUPS SDK_REQUEST SDK_SPANS SERVICE_ZIPKIN_SPAN SHARED_SPANS SPANS_OF_CLIENT SPAN_BATCH
SPAN_COMPACT UNKNOWN_FIELDS
";

// The texts of these names, in their order.
const WORKED: [&str; 27] = [
    texts::CLIENT_COMPACT,
    texts::CLIENT_SPANS,
    texts::CLIENT_SPANS_WRITTEN,
    texts::CUT_SPAN,
    texts::DOUBLE_BATCH,
    texts::DOUBLE_COMPACT,
    texts::FULL_GROUP,
    texts::FULL_REQUEST,
    texts::LONGER_NAME,
    texts::LONG_NAME,
    texts::MICROS_REQUEST,
    texts::ONE_GROUP,
    texts::ONE_SPAN,
    texts::ONE_ZIPKIN_SPAN,
    texts::PARENT_COMPACT,
    texts::ROOT_COMPACT,
    texts::SDK_BATCH,
    texts::SDK_COMPACT,
    texts::SDK_GROUPS,
    texts::SDK_REQUEST,
    texts::SDK_SPANS,
    texts::SERVICE_ZIPKIN_SPAN,
    texts::SHARED_SPANS,
    texts::SPANS_OF_CLIENT,
    texts::SPAN_BATCH,
    texts::SPAN_COMPACT,
    texts::UNKNOWN_FIELDS,
];

fn worked(row: &Row, name: &str) -> Result<&'static str, Fail> {
    let mut names = NAMES.split_ascii_whitespace();
    for text in &WORKED {
        if names.next() == Some(name) {
            return Ok(*text);
        }
    }
    Err(row.fail("no worked text", name))
}

// Appends what is told in a form. What is no JSON is in hexadecimal.
fn append_in(alloc: Global, bytes: &mut Blob, form: Form, told: &[u8]) -> Result<(), Fail> {
    if matches!(form, Form::OtlpJson | Form::ZipkinJson) {
        return Ok(bytes.append(told)?);
    }
    let read = hex::decode(alloc, told)?;
    Ok(bytes.append(read.as_slice())?)
}

fn append_word(
    alloc: Global,
    row: &Row,
    bytes: &mut Blob,
    form: Form,
    word: &str,
) -> Result<(), Fail> {
    if let Some(name) = word.strip_prefix('@') {
        return append_in(alloc, bytes, form, worked(row, name)?.as_bytes());
    }
    let told = unescaped(alloc, word)?;
    append_in(alloc, bytes, form, told.as_slice())
}

/// Appends what a text tells in a form: words, of which the first is the name of a worked text, or one text as it stands.
pub fn append_told(
    alloc: Global,
    row: &Row,
    bytes: &mut Blob,
    form: Form,
    text: &str,
) -> Result<(), Fail> {
    if !text.starts_with('@') {
        return append_word(alloc, row, bytes, form, text);
    }
    for word in text.split(' ') {
        append_word(alloc, row, bytes, form, word)?;
    }
    Ok(())
}

/// A text up to its first blank, and what stands behind that.
pub fn parted<'a>(row: &Row, text: &'a str) -> Result<(&'a str, &'a str), Fail> {
    match text.split_once(' ') {
        Some(parts) => Ok(parts),
        None => Err(row.fail("no blank", text)),
    }
}

pub fn form_of(row: &Row, word: &str) -> Result<Form, Fail> {
    match Form::of_word(word.as_bytes()) {
        Some(form) => Ok(form),
        None => Err(row.fail("no form", word)),
    }
}
