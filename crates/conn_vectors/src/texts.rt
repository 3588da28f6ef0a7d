//! What the texts of a row say: worked texts by their names, words and forms.
use row_tables::{Row, texts, unescaped};
use span_io::{Blob, Form, OutOfMemory};
use std::alloc::Global;
use std::test::Fail;

// A post without its last byte.
const CUT_POST: &str =
    "POST /api/v2/spans HTTP/1.1\r\nHost: x\r\nContent-Type: application/json\r\nContent-Length: 2\r\n\r\n[";

// A post that asks first whether its body is wanted.
const ASKED: &str = "POST /api/v2/spans HTTP/1.1\r\nHost: x\r\nContent-Type: application/json\r\n\
Content-Length: 2\r\nExpect: 100-continue\r\n\r\n[]";

// The answer to what is no request.
const BROKEN: &str = "HTTP/1.1 400 Bad Request\r\nContent-Length: 0\r\nConnection: close\r\n\r\n";

// The head of a post of a request of 195 bytes.
const REQUEST_HEAD: &str =
    "POST /v1/traces HTTP/1.1\r\nHost: x\r\nContent-Type: application/x-protobuf\r\nContent-Length: 195\r\n\r\n";

// The head of the answer of such a request.
const REQUEST_ANSWER: &str =
    "HTTP/1.1 200 OK\r\nContent-Type: application/x-protobuf\r\nContent-Length: 195\r\n\r\n";

// The head of the answer of spans of Zipkin of 346 bytes.
const SPANS_ANSWER: &str =
    "HTTP/1.1 200 OK\r\nContent-Type: application/json\r\nContent-Length: 346\r\n\r\n";

// The request of the span of Zipkin that is posted.
const ZIPKIN_REQUEST: &str =
    "0a25122312210a1000000000000000000000000000000001120800000000000000022a01613001";

const FETCHED: &str = "GET /v1/traces HTTP/1.1\r\nHost: x\r\n\r\n";

const NOT_ALLOWED: &str = "HTTP/1.1 405 Method Not Allowed\r\nContent-Length: 0\r\n\r\n";

// The answer to a post of no spans where the connection ends.
const LAST: &str =
    "HTTP/1.1 200 OK\r\nContent-Type: application/json\r\nContent-Length: 2\r\nConnection: close\r\n\r\n[]";

// The worked texts, by their names.
const WORKED: [(&str, &str); 23] = [
    ("ANSWERED", texts::ANSWERED),
    ("ASKED", ASKED),
    ("BROKEN", BROKEN),
    ("CUT_POST", CUT_POST),
    ("CUT_SPAN", texts::CUT_SPAN),
    ("FETCHED", FETCHED),
    ("LAST", LAST),
    ("MICROS_REQUEST", texts::MICROS_REQUEST),
    ("NOT_ALLOWED", NOT_ALLOWED),
    ("ONE_SPAN", texts::ONE_SPAN),
    ("ONE_ZIPKIN_SPAN", texts::ONE_ZIPKIN_SPAN),
    ("POSTED", texts::POSTED),
    ("POSTED_OBJECT", texts::POSTED_OBJECT),
    ("REFUSED_OBJECT", texts::REFUSED_OBJECT),
    ("REQUEST_ANSWER", REQUEST_ANSWER),
    ("REQUEST_HEAD", REQUEST_HEAD),
    ("SDK_BATCH", texts::SDK_BATCH),
    ("SDK_COMPACT", texts::SDK_COMPACT),
    ("SDK_GROUPS", texts::SDK_GROUPS),
    ("SDK_REQUEST", texts::SDK_REQUEST),
    ("SDK_SPANS", texts::SDK_SPANS),
    ("SPANS_ANSWER", SPANS_ANSWER),
    ("ZIPKIN_REQUEST", ZIPKIN_REQUEST),
];

fn worked(row: &Row, name: &str) -> Result<&'static str, Fail> {
    for (known, text) in &WORKED {
        if *known == name {
            return Ok(text);
        }
    }
    Err(row.fail("no worked text", name))
}

/// Appends the bytes that a text means.
pub(crate) fn append_unescaped(alloc: Global, bytes: &mut Blob, text: &str) -> Result<(), Fail> {
    let meant = unescaped(alloc, text)?;
    Ok(bytes.append(meant.as_slice())?)
}

fn append_decoded(alloc: Global, bytes: &mut Blob, digits: &str) -> Result<(), Fail> {
    let decoded = hex::decode(alloc, digits)?;
    Ok(bytes.append(decoded.as_slice())?)
}

// Appends what a word tells: a worked text behind `@`, the bytes of one in hexadecimal behind `#`, or itself.
fn append_word(alloc: Global, row: &Row, bytes: &mut Blob, word: &str) -> Result<(), Fail> {
    if let Some(name) = word.strip_prefix('@') {
        return Ok(bytes.append(worked(row, name)?.as_bytes())?);
    }
    match word.strip_prefix('#') {
        Some(name) => append_decoded(alloc, bytes, worked(row, name)?),
        None => append_unescaped(alloc, bytes, word),
    }
}

// Appends what a text tells: words, of which the first names a worked text, or one text as it stands.
fn append_text(alloc: Global, row: &Row, bytes: &mut Blob, text: &str) -> Result<(), Fail> {
    if !(text.starts_with('@') || text.starts_with('#')) {
        return append_word(alloc, row, bytes, text);
    }
    for word in text.split(' ') {
        append_word(alloc, row, bytes, word)?;
    }
    Ok(())
}

/// The texts of a key, one behind the other.
pub(crate) fn joined(alloc: Global, row: &Row, key: &str) -> Result<Blob, Fail> {
    let mut bytes = Blob::new(alloc);
    for field in row.fields() {
        if field.key() == key {
            append_text(alloc, row, &mut bytes, field.text())?;
        }
    }
    Ok(bytes)
}

/// Appends a piece so often.
pub(crate) fn append_often(
    bytes: &mut Blob,
    piece: &[u8],
    times: usize,
) -> Result<(), OutOfMemory> {
    for _ in 0..times {
        bytes.append(piece)?;
    }
    Ok(())
}

/// The first word of a text, and what stands behind it, if anything does.
pub(crate) fn after_word(text: &str) -> (&str, &str) {
    text.split_once(' ').unwrap_or((text, ""))
}

/// The form of a name.
pub(crate) fn form_of(row: &Row, word: &str) -> Result<Form, Fail> {
    match Form::of_word(word.as_bytes()) {
        Some(form) => Ok(form),
        None => Err(row.fail("no form", word)),
    }
}
