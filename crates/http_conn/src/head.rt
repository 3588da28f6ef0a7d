//! The head of a request, as far as the steps look at it.
ghost use Rattle.std.specs.Prelude.{◌≡◌, ◌≤◌, ◌++◌, ◌∷◌, [], ℕ, List, false, length, map, All, IfSome, IfNone, IsSome};
ghost use Rattle.httparse.specs.Grammar.{ReadsRequest, RequestHead};
ghost use Rattle.httparse.specs.Spans.{IsHeaderWithin, IsRequestOf, IsRequestWithin, header_bytes};
ghost use Rattle.http_conn.specs.Fields.{Line};
ghost use Rattle.http_conn.specs.private.FoundFields.{FoundIn, IsHead};
ghost use Rattle.http_conn.specs.Heads.{has_too_many_lines};

use crate::fields::Fields;
use crate::lines::MOST_LINES;
use httparse::Status;
use httparse::spans::{EMPTY_HEADER_SPAN, HeaderSpan, RequestSpans, parse_request};

#[derive(Clone, Copy)]
pub(crate) struct Head<'a> {
    pub(crate) method: &'a [u8],
    pub(crate) target: &'a [u8],
    // 1 of HTTP/1.1, 0 of HTTP/1.0.
    pub(crate) minor: u8,
    pub(crate) fields: Fields<'a>,
}

// The head that the bytes are, if they are one.
pub(crate) fn read_head(bytes: &[u8]) -> Option<Head<'_>>
    requires { has_too_many_lines bytes.now ≡ false }
    ensures some { IfSome result
        (λ read. (h : RequestHead) × ReadsRequest bytes.now h [] × IsHead read h) }
    ensures none { IfNone result ((h : RequestHead) → ¬ (ReadsRequest bytes.now h [])) }
{
    let mut spans = [EMPTY_HEADER_SPAN; MOST_LINES];
    let parts = parse(bytes, &mut spans)?;
    if parts.len != bytes.len() {
        return None;
    }
    let method = parts.method.of(bytes);
    let target = parts.path.of(bytes);
    let fields = find_fields(bytes, &spans[..parts.headers]);
    Some(Head {
        method,
        target,
        minor: parts.version,
        fields,
    })
}

// Where the parts of a head at the front of the bytes are, if there is one.
fn parse(bytes: &[u8], spans: &mut [HeaderSpan]) -> Option<RequestSpans>
    ensures within { IfSome result (IsRequestWithin bytes.now spans.new) }
    ensures head { IfSome result (IsRequestOf bytes.now spans.new) }
    ensures found { (h : RequestHead) (rest : List ℕ) → ReadsRequest bytes.now h rest
        → length h.fields ≤ length spans.old → IsSome result }
{
    match parse_request(bytes, spans) {
        Ok(Status::Complete(parts)) => Some(parts),
        _ => None,
    }
}

// What the steps look at, of all lines.
fn find_fields<'a>(bytes: &'a [u8], spans: &[HeaderSpan]) -> Fields<'a>
    requires { All (IsHeaderWithin (length bytes.now)) spans.now }
    ensures { FoundIn result (map (header_bytes bytes.now) spans.now) }
{
    let mut found = Fields::new();
    let mut rest = spans;
    'lines: loop {
        let Some((span, others)) = rest.split_first() else {
            return found;
        };
        found = with_line(found, bytes, span);
        rest = others;
    }
}

fn with_line<'a>(found: Fields<'a>, bytes: &'a [u8], span: &HeaderSpan) -> Fields<'a>
    requires { IsHeaderWithin (length bytes.now) span.now }
    ensures { (lines : List Line) → FoundIn found.entry lines
        → FoundIn result (lines ++ header_bytes bytes.now span.now ∷ []) }
{
    let name = span.name.of(bytes);
    let value = span.value.of(bytes);
    found.with(name, value)
}
