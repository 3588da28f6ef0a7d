//! Spans of Zipkin: what is written of those that are read.
use row_tables::texts::SHARED_SPANS;
use row_tables::{Row, rows};
use span_io::{Blob, OutOfMemory};
use std::alloc::Global;
use std::test::Fail;
use zipkin_json::{ZSpan, read_text, write_span};

// A text of spans, and the spans that are written of it, as one text.
const ROWS: &str = r#"
two spans that share an identifier
text [{"traceId":"463ac35c9f6413ad","id":"a2fb4a1d1a96d312","kind":"CLIENT"},{"traceId":"463ac35c9f6413ad",
 "id":"A2FB4A1D1A96D312","kind":"SERVER","shared":true,"debug":false}]
written @SHARED_SPANS

every member
text [{"traceId":"1","id":"1","parentId":"2","name":"a \"b\"","kind":"PRODUCER","timestamp":5,"duration":7,"debug":true,
 "localEndpoint":{"serviceName":"s","ipv4":"10.0.0.7","ipv6":"::1","port":80},"remoteEndpoint":{"port":0,"serviceName":""},
 "annotations":[{"value":"","timestamp":0}],"tags":{"b":"","a":"1"}}]
written [{"annotations":[{"timestamp":0,"value":""}],"debug":true,"duration":7,"id":"0000000000000001","kind":"PRODUCER",
 "localEndpoint":{"ipv4":"10.0.0.7","ipv6":"::1","port":80,"serviceName":"s"},"name":"a \"b\"","parentId":"0000000000000002",
 "tags":{"a":"1","b":""},"timestamp":5,"traceId":"00000000000000000000000000000001"}]

what zipkin-go wrote
text [{"timestamp":1700000000124457,"duration":2,"traceId":"7d7db97b7d7d90af","id":"4e04ac265aa3844f",
 "parentId":"7d7db97b7d7d90af","name":"redis.get","kind":"CLIENT","localEndpoint":{"serviceName":"bücher-shop",
 "ipv4":"10.0.0.7","port":8080},"remoteEndpoint":{"serviceName":"redis","ipv6":"2001:db8::c001","port":6379},
 "tags":{"error":"boom \"q\"","version":"1.2.3"}},{"timestamp":1700000000123457,"duration":1000000,
 "traceId":"7d7db97b7d7d90af","id":"3917a6a986519799","parentId":"7d7db97b7d7d90af","debug":true,"name":"debug",
 "kind":"CONSUMER","localEndpoint":{"serviceName":"bücher-shop","ipv4":"10.0.0.7","port":8080},"tags":{"version":"1.2.3"}},
 {"timestamp":1700000000123457,"traceId":"7d7db97b7d7d90af","id":"4e04ac265aa3844f","parentId":"7d7db97b7d7d90af",
 "name":"joined","kind":"SERVER","shared":true,"localEndpoint":{"serviceName":"bücher-shop","ipv4":"10.0.0.7","port":8080},
 "tags":{"version":"1.2.3"}},{"timestamp":1700000000123457,"duration":10000,"traceId":"32bb5c89e502e4c5689dfb8aa2e448dd",
 "id":"689dfb8aa2e448dd","name":"GET /bücher","kind":"SERVER","localEndpoint":{"serviceName":"bücher-shop","ipv4":"10.0.0.7",
 "port":8080},"annotations":[{"timestamp":1700000000123458,"value":"wire"}],"tags":{"emoji":"😀","http.method":"GET",
 "http.url":"http://例え.jp/?q=ü\u0026\u003cb\u003e","version":"1.2.3"}}]
written [{"duration":2,"id":"4e04ac265aa3844f","kind":"CLIENT","localEndpoint":{"ipv4":"10.0.0.7","port":8080,
 "serviceName":"bücher-shop"},"name":"redis.get","parentId":"7d7db97b7d7d90af","remoteEndpoint":{"ipv6":"2001:db8::c001",
 "port":6379,"serviceName":"redis"},"tags":{"error":"boom \"q\"","version":"1.2.3"},"timestamp":1700000000124457,
 "traceId":"00000000000000007d7db97b7d7d90af"},{"debug":true,"duration":1000000,"id":"3917a6a986519799","kind":"CONSUMER",
 "localEndpoint":{"ipv4":"10.0.0.7","port":8080,"serviceName":"bücher-shop"},"name":"debug","parentId":"7d7db97b7d7d90af",
 "tags":{"version":"1.2.3"},"timestamp":1700000000123457,"traceId":"00000000000000007d7db97b7d7d90af"},
 {"id":"4e04ac265aa3844f","kind":"SERVER","localEndpoint":{"ipv4":"10.0.0.7","port":8080,"serviceName":"bücher-shop"},
 "name":"joined","parentId":"7d7db97b7d7d90af","shared":true,"tags":{"version":"1.2.3"},"timestamp":1700000000123457,
 "traceId":"00000000000000007d7db97b7d7d90af"},{"annotations":[{"timestamp":1700000000123458,"value":"wire"}],
 "duration":10000,"id":"689dfb8aa2e448dd","kind":"SERVER","localEndpoint":{"ipv4":"10.0.0.7","port":8080,
 "serviceName":"bücher-shop"},"name":"GET /bücher","tags":{"emoji":"😀","http.method":"GET",
 "http.url":"http://例え.jp/?q=ü&<b>","version":"1.2.3"},"timestamp":1700000000123457,
 "traceId":"32bb5c89e502e4c5689dfb8aa2e448dd"}]

what py_zipkin wrote
text [{"traceId": "6553f100269e0d37f2a74de452e6b438", "id": "892f902bd23f0824", "name": "redis.get",
  "parentId": "a6a3a4506513270e", "timestamp": 1700000000001000, "duration": 1, "kind": "CLIENT",
  "localEndpoint": {"serviceName": "b\u00fccher-shop", "port": 8080, "ipv4": "10.0.0.7"},
  "remoteEndpoint": {"serviceName": "redis", "port": 6379, "ipv6": "2001:db8::c001"}, "tags": {"peer.service": "redis"}},
 {"traceId": "6553f100269e0d37f2a74de452e6b438", "id": "5d9dc9f81818e811", "name": "local work",
  "parentId": "a6a3a4506513270e", "timestamp": 1700000000002000, "duration": 0,
  "localEndpoint": {"serviceName": "b\u00fccher-shop", "port": 8080, "ipv4": "10.0.0.7"}},
 {"traceId": "6553f100269e0d37f2a74de452e6b438", "id": "a6a3a4506513270e", "name": "GET /b\u00fccher",
  "timestamp": 1700000000002000, "duration": 4999, "kind": "SERVER", "localEndpoint": {"serviceName": "b\u00fccher-shop",
  "port": 8080, "ipv4": "10.0.0.7"}, "tags": {"http.method": "GET", "http.url": "http://\u4f8b\u3048.jp/?q=\u00fc",
  "error": "boom \"q\"", "lc": "rack", "nul\u0000": "tab\t"}}]
written [{"duration":1,"id":"892f902bd23f0824","kind":"CLIENT","localEndpoint":{"ipv4":"10.0.0.7","port":8080,
 "serviceName":"bücher-shop"},"name":"redis.get","parentId":"a6a3a4506513270e","remoteEndpoint":{"ipv6":"2001:db8::c001",
 "port":6379,"serviceName":"redis"},"tags":{"peer.service":"redis"},"timestamp":1700000000001000,
 "traceId":"6553f100269e0d37f2a74de452e6b438"},{"id":"5d9dc9f81818e811","localEndpoint":{"ipv4":"10.0.0.7","port":8080,
 "serviceName":"bücher-shop"},"name":"local work","parentId":"a6a3a4506513270e","timestamp":1700000000002000,
 "traceId":"6553f100269e0d37f2a74de452e6b438"},{"duration":4999,"id":"a6a3a4506513270e","kind":"SERVER",
 "localEndpoint":{"ipv4":"10.0.0.7","port":8080,"serviceName":"bücher-shop"},"name":"GET /bücher",
 "tags":{"error":"boom \"q\"","http.method":"GET","http.url":"http://例え.jp/?q=ü","lc":"rack","nul\u0000":"tab\t"},
 "timestamp":1700000000002000,"traceId":"6553f100269e0d37f2a74de452e6b438"}]

members that are null, and one that Zipkin doesn't know
text [{"traceId": "6553f100269e0d37f2a74de452e6b438", "id": "892f902bd23f0824", "name": "redis.get", "parentId": "0000",
  "timestamp": 1700000000001000, "duration": 1, "kind": null, "localEndpoint": {"serviceName": "b\u00fccher-shop",
  "port": 8080, "ipv4": "10.0.0.7"}, "remoteEndpoint": {"serviceName": "redis", "port": 6379, "ipv6": "2001:db8::c001"},
  "annotations": [{"timestamp": 2, "value": "wire"}], "tags": {"nul\u0000": "tab\t", "absent": null,
  "peer.service": "redis"}, "other": 1.5}]
written [{"annotations":[{"timestamp":2,"value":"wire"}],"duration":1,"id":"892f902bd23f0824",
 "localEndpoint":{"ipv4":"10.0.0.7","port":8080,"serviceName":"bücher-shop"},"name":"redis.get",
 "remoteEndpoint":{"ipv6":"2001:db8::c001","port":6379,"serviceName":"redis"},"tags":{"nul\u0000":"tab\t",
 "peer.service":"redis"},"timestamp":1700000000001000,"traceId":"6553f100269e0d37f2a74de452e6b438"}]
"#;

fn named(text: &str) -> &str {
    match text {
        "@SHARED_SPANS" => SHARED_SPANS,
        _ => text,
    }
}

// Appends the canonical text of spans.
fn append_spans(out: &mut Blob, spans: &[ZSpan]) -> Result<(), OutOfMemory> {
    let mut between = b'[';
    for span in spans {
        out.append(&[between])?;
        write_span(out, span)?;
        between = b',';
    }
    out.append(b"]")
}

// Whether the spans that a text holds are written so.
fn is_written(alloc: Global, text: &str, wanted: &str) -> bool {
    let Ok(spans) = read_text(alloc, text.as_bytes()) else {
        return false;
    };
    let mut out = Blob::new(alloc);
    append_spans(&mut out, spans.as_slice()).is_ok() && out.as_slice() == wanted.as_bytes()
}

fn expect_row(alloc: Global, row: &Row) -> Result<(), Fail> {
    row.expect_keys(&["text", "written"])?;
    let text = named(row.text("text")?);
    let wanted = named(row.text("written")?);
    if !is_written(alloc, text, wanted) {
        return Err(row.fail("not written", wanted));
    }
    if !is_written(alloc, wanted, wanted) {
        return Err(row.fail("not written again", wanted));
    }
    Ok(())
}

#[test]
fn writes_spans(rt: HostRuntime) -> Result<(), Fail> {
    for row in &rows(rt.alloc(), ROWS)? {
        expect_row(rt.alloc(), row)?;
    }
    Ok(())
}
