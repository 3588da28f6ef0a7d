//! The bytes of answers (RFC 9112, section 4).
ghost use Rattle.std.specs.Prelude.{◌≡◌, IsTrue};
ghost use Rattle.http_conn.specs.Replies as told;

use http_conn::answer;
use row_tables::texts::ANSWERED;
use span_io::Blob;
use std::alloc::Global;

// Statuses, and their status lines (RFC 9110, section 15; of 431 RFC 6585, section 5).
const STATUSES: [(u16, &str); 12] = [
    (200, "HTTP/1.1 200 OK\r\n"),
    (202, "HTTP/1.1 202 Accepted\r\n"),
    (400, "HTTP/1.1 400 Bad Request\r\n"),
    (404, "HTTP/1.1 404 Not Found\r\n"),
    (405, "HTTP/1.1 405 Method Not Allowed\r\n"),
    (411, "HTTP/1.1 411 Length Required\r\n"),
    (413, "HTTP/1.1 413 Content Too Large\r\n"),
    (415, "HTTP/1.1 415 Unsupported Media Type\r\n"),
    (422, "HTTP/1.1 422 Unprocessable Content\r\n"),
    (431, "HTTP/1.1 431 Request Header Fields Too Large\r\n"),
    (501, "HTTP/1.1 501 Not Implemented\r\n"),
    (503, "HTTP/1.1 503 Service Unavailable\r\n"),
];

// A media type, a content, whether the connection ends, and what stands behind the status line.
const PARTS: [(&str, &str, bool, &str); 6] = [
    ("", "", false, "Content-Length: 0\r\n\r\n"),
    (
        "",
        "",
        true,
        "Content-Length: 0\r\nConnection: close\r\n\r\n",
    ),
    (
        "application/json",
        "[]",
        false,
        "Content-Type: application/json\r\nContent-Length: 2\r\n\r\n[]",
    ),
    (
        "application/json",
        "[]",
        true,
        "Content-Type: application/json\r\nContent-Length: 2\r\nConnection: close\r\n\r\n[]",
    ),
    (
        "text/plain; charset=utf-8",
        "0123456789",
        false,
        "Content-Type: text/plain; charset=utf-8\r\nContent-Length: 10\r\n\r\n0123456789",
    ),
    (
        "",
        "\r\n",
        true,
        "Content-Length: 2\r\nConnection: close\r\n\r\n\r\n",
    ),
];

// Whether a status is one that is answered.
fn is_status(status: u16) -> bool
    ensures { result ≡ told.is_status status }
{
    matches!(
        status,
        200 | 202 | 400 | 404 | 405 | 411 | 413 | 415 | 422 | 431 | 501 | 503
    )
}

// Whether bytes are two texts, one behind the other.
fn are_both(bytes: &[u8], first: &str, second: &str) -> bool {
    bytes.strip_prefix(first.as_bytes()) == Some(second.as_bytes())
}

/// What is answered, and whether the connection ends then.
#[derive(Clone, Copy)]
struct Part<'a> {
    kind: &'a str,
    body: &'a str,
    close: bool,
}

// Whether behind what stands there already an answer has these bytes.
fn is_answered(
    alloc: Global,
    front: &str,
    status: u16,
    part: Part<'_>,
    wanted: (&str, &str),
) -> bool
    requires { IsTrue (told.is_status status) }
{
    let mut out = Blob::new(alloc);
    out.append(front.as_bytes()).is_ok()
        && answer(
            &mut out,
            status,
            part.kind,
            part.body.as_bytes(),
            part.close,
        )
        .is_ok()
        && are_both(out.as_slice(), wanted.0, wanted.1)
}

// What stands behind the status line in a part that isn't answered so by this status, or nothing.
fn other_part(alloc: Global, status: u16, line: &str) -> &'static str
    requires { IsTrue (told.is_status status) }
{
    for (kind, body, close, rest) in &PARTS {
        let part = Part {
            kind,
            body,
            close: *close,
        };
        if !is_answered(alloc, "", status, part, (line, rest)) {
            return rest;
        }
    }
    ""
}

#[test]
fn writes_each_status(rt: HostRuntime) {
    for (status, line) in &STATUSES {
        assert!(rt; is_status(*status));
        let other = other_part(rt.alloc(), *status, line);
        assert!(rt; other.is_empty(), "{status} and {other}");
    }
}

// What stands there already, a status, a media type, a content, whether the connection ends, and what stands there then.
const ANSWERS: [(&str, u16, &str, &str, bool, &str); 4] = [
    ("", 200, "application/json", "[]", false, ANSWERED),
    (
        "",
        415,
        "",
        "",
        true,
        "HTTP/1.1 415 Unsupported Media Type\r\nContent-Length: 0\r\nConnection: close\r\n\r\n",
    ),
    (
        "HTTP/1.1 404 Not Found\r\nContent-Length: 0\r\n\r\n",
        422,
        "text/plain",
        "unit 1: Truncated\n",
        false,
        "HTTP/1.1 404 Not Found\r\nContent-Length: 0\r\n\r\n\
HTTP/1.1 422 Unprocessable Content\r\nContent-Type: text/plain\r\nContent-Length: 18\r\n\r\nunit 1: Truncated\n",
    ),
    (
        "x",
        501,
        "",
        "",
        true,
        "xHTTP/1.1 501 Not Implemented\r\nContent-Length: 0\r\nConnection: close\r\n\r\n",
    ),
];

#[test]
fn writes_answers(rt: HostRuntime) {
    for (front, status, kind, body, close, wanted) in &ANSWERS {
        assert!(rt; is_status(*status));
        let part = Part {
            kind,
            body,
            close: *close,
        };
        assert!(rt;
            is_answered(rt.alloc(), front, *status, part, (*wanted, "")),
            "{status}"
        );
    }
}
