//! What the texts of a row say: worked texts by their names, words that stand several times, numbers and forms.
use row_tables::{Row, append_spelled, texts, unescaped};
use span_io::Form;
use std::alloc::Global;
use std::test::Fail;

// The answer to a post of spans of Zipkin or of a batch of Jaeger whose body was kept, and the same where the connection ends.
const KEPT: &str = "HTTP/1.1 202 Accepted\r\nContent-Length: 0\r\n\r\n";

const LAST_KEPT: &str = "HTTP/1.1 202 Accepted\r\nContent-Length: 0\r\nConnection: close\r\n\r\n";

// The answer where it wasn't kept.
const NOT_KEPT: &str = "HTTP/1.1 503 Service Unavailable\r\nContent-Length: 0\r\n\r\n";

// The same post of no spans, behind which the connection ends.
const LAST_POSTED: &str =
    "POST /api/v2/spans HTTP/1.1\r\nHost: x\r\nContent-Type: application/json\r\n\
Content-Length: 2\r\nConnection: close\r\n\r\n[]";

// Heads of posts: of a request in protobuf and one in JSON, of a batch of Jaeger by both names of its kind and of one in the
// compact protocol, and of a span of Zipkin.
const PROTO_HEAD: &str =
    "POST /v1/traces HTTP/1.1\r\nHost: x\r\nContent-Type: application/x-protobuf\r\nContent-Length: 37\r\n";

const JSON_HEAD: &str =
    "POST /v1/traces HTTP/1.1\r\nHost: x\r\nContent-Type: application/json\r\nContent-Length: 134\r\n";

const BATCH_HEAD: &str =
    "POST /api/traces HTTP/1.1\r\nHost: x\r\nContent-Type: application/x-thrift\r\nContent-Length: 378\r\n";

const BINARY_HEAD: &str =
    "POST /api/traces HTTP/1.1\r\nHost: x\r\nContent-Type: application/vnd.apache.thrift.binary\r\n\
Content-Length: 378\r\n";

const COMPACT_HEAD: &str =
    "POST /api/traces HTTP/1.1\r\nHost: x\r\nContent-Type: application/vnd.apache.thrift.compact\r\n\
Content-Length: 231\r\n";

const SPAN_HEAD: &str =
    "POST /api/v2/spans HTTP/1.1\r\nHost: x\r\nContent-Type: application/json\r\nContent-Length: 83\r\n";

// The request of that span.
const ZIPKIN_REQUEST: &str =
    "0a25122312210a1000000000000000000000000000000001120800000000000000022a01613001";

// How a head ends.
const OPEN: &str = "\r\n";

const CLOSE: &str = "Connection: close\r\n\r\n";

// The worked texts, by their names.
const WORKED: [(&str, &str); 22] = [
    ("BATCH_HEAD", BATCH_HEAD),
    ("BINARY_HEAD", BINARY_HEAD),
    ("CLOSE", CLOSE),
    ("COMPACT_HEAD", COMPACT_HEAD),
    ("JSON_HEAD", JSON_HEAD),
    ("KEPT", KEPT),
    ("LAST_KEPT", LAST_KEPT),
    ("LAST_POSTED", LAST_POSTED),
    ("NOT_KEPT", NOT_KEPT),
    ("ONE_GROUP", texts::ONE_GROUP),
    ("ONE_SPAN", texts::ONE_SPAN),
    ("ONE_ZIPKIN_SPAN", texts::ONE_ZIPKIN_SPAN),
    ("OPEN", OPEN),
    ("POSTED", texts::POSTED),
    ("POSTED_OBJECT", texts::POSTED_OBJECT),
    ("PROTO_HEAD", PROTO_HEAD),
    ("REFUSED_OBJECT", texts::REFUSED_OBJECT),
    ("SDK_BATCH", texts::SDK_BATCH),
    ("SDK_COMPACT", texts::SDK_COMPACT),
    ("SDK_SPANS", texts::SDK_SPANS),
    ("SPAN_HEAD", SPAN_HEAD),
    ("ZIPKIN_REQUEST", ZIPKIN_REQUEST),
];

fn worked(row: &Row, name: &str) -> Result<&'static str, Fail> {
    for (known, text) in &WORKED {
        if *known == name {
            return Ok(text);
        }
    }
    Err(row.fail("no worked text", name))
}

/// A word without the number behind its star, and that number: how often the word stands, which is once where there is none.
pub(crate) fn often<'a>(row: &Row, word: &'a str) -> Result<(&'a str, usize), Fail> {
    match word.split_once('*') {
        Some((once, times)) => Ok((once, row.count_in(times)?)),
        None => Ok((word, 1)),
    }
}

// Appends a worked text behind `@`, or the bytes of one in hexadecimal behind `#`.
fn append_worked(alloc: Global, row: &Row, bytes: &mut Vec<u8>, word: &str) -> Result<(), Fail> {
    if let Some(name) = word.strip_prefix('@') {
        return Ok(bytes.extend_from_slice(worked(row, name)?.as_bytes())?);
    }
    match word.strip_prefix('#') {
        Some(name) => append_spelled(alloc, bytes, worked(row, name)?),
        None => Err(row.fail("no worked text", word)),
    }
}

// The same as often as a word says.
fn append_word(alloc: Global, row: &Row, bytes: &mut Vec<u8>, word: &str) -> Result<(), Fail> {
    let (once, times) = often(row, word)?;
    for _time in 0..times {
        append_worked(alloc, row, bytes, once)?;
    }
    Ok(())
}

/// The bytes that a text means: words that name worked texts, or one text as it stands, with escapes.
pub(crate) fn bytes_of(alloc: Global, row: &Row, text: &str) -> Result<Vec<u8>, Fail> {
    if !(text.starts_with('@') || text.starts_with('#')) {
        return unescaped(alloc, text);
    }
    let mut bytes = Vec::new(alloc);
    for word in text.split_ascii_whitespace() {
        append_word(alloc, row, &mut bytes, word)?;
    }
    Ok(bytes)
}

/// A word as often as it says.
pub(crate) fn spelled(alloc: Global, row: &Row, word: &str) -> Result<String, Fail> {
    let (once, times) = often(row, word)?;
    let mut text = String::new(alloc);
    for _time in 0..times {
        text.push_str(once)?;
    }
    Ok(text)
}

/// The form of a name.
pub(crate) fn form_of(row: &Row, word: &str) -> Result<Form, Fail> {
    match Form::of_word(word.as_bytes()) {
        Some(form) => Ok(form),
        None => Err(row.fail("no form", word)),
    }
}

/// The first and the last number of `1..3`, or of one number.
pub(crate) fn numbers_of(row: &Row, word: &str) -> Result<(u64, u64), Fail> {
    match word.split_once("..") {
        Some((first, last)) => Ok((row.number_in(first)?, row.number_in(last)?)),
        None => {
            let number = row.number_in(word)?;
            Ok((number, number))
        }
    }
}

/// The word that is true or false.
pub(crate) fn truth(row: &Row, word: &str) -> Result<bool, Fail> {
    match word {
        "true" => Ok(true),
        "false" => Ok(false),
        _ => Err(row.fail("neither true nor false", word)),
    }
}
