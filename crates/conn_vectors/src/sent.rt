//! Requests that are sent over a connection, and the statuses of their answers.
use http_conn::{SendFault, answer_status, is_address, send_over};
use span_io::{Blob, Form, Items, Limits, MemDuplex, MemSink, MemSource, OutOfMemory};
use std::alloc::Global;
use std::process::Abort;
use std::test::Fail;

// The most bytes that a read gives and a write takes, where nothing else is said.
const WHOLE: usize = 65_536;

// What a connection gives, the most bytes that a head may have, and the status that is told.
const HEADS: [(&str, usize, Option<u16>); 20] = [
    ("HTTP/1.1 200 OK\r\n\r\n", 16_384, Some(200)),
    (
        "HTTP/1.1 202 Accepted\r\nContent-Length: 0\r\n\r\n",
        16_384,
        Some(202),
    ),
    ("HTTP/1.0 299\r\n\r\n", 16_384, Some(299)),
    (
        "HTTP/1.1 503 \r\nContent-Length: 3\r\n\r\nno\n",
        16_384,
        Some(503),
    ),
    // The first head is the answer's.
    (
        "HTTP/1.1 100 Continue\r\n\r\nHTTP/1.1 200 OK\r\n\r\n",
        16_384,
        Some(100),
    ),
    ("HTTP/1.1 199 x\r\n\r\n\r\n\r\n", 16_384, Some(199)),
    ("HTTP/1.1 000\r\n\r\n", 16_384, Some(0)),
    ("HTTP/1.1 999 x\r\n\r\n", 16_384, Some(999)),
    // An empty line in front is passed over, two are a head.
    ("\r\nHTTP/1.1 300 x\r\n\r\n", 16_384, Some(300)),
    ("\r\n\r\nHTTP/1.1 300 x\r\n\r\n", 16_384, None),
    // A head may be as long as the limit, and no longer.
    ("HTTP/1.1 200 OK\r\n\r\n", 19, Some(200)),
    ("HTTP/1.1 200 OK\r\n\r\n", 18, None),
    // It ends with CR LF CR LF.
    ("", 16_384, None),
    ("HTTP/1.1 200 OK\r\n\r", 16_384, None),
    ("HTTP/1.1 200 OK\n\n", 16_384, None),
    ("HTTP/1.1 200 OK\n\nServer: x\r\n\r\n", 16_384, None),
    // What isn't one is no answer.
    ("HTTP/2 200 OK\r\n\r\n", 16_384, None),
    ("HTTP/1.1 20 OK\r\n\r\n", 16_384, None),
    ("HTTP/1.1 200 OK\r\nServer x\r\n\r\n", 16_384, None),
    ("POST / HTTP/1.1\r\nHost: x\r\n\r\n", 16_384, None),
];

// A form, an address, a body, and the request that posts it.
const REQUESTS: [(Form, &str, &str, &str); 6] = [
    (
        Form::ZipkinJson,
        "p:1",
        "[]",
        "POST /api/v2/spans HTTP/1.1\r\nHost: p:1\r\nContent-Type: application/json\r\n\
Content-Length: 2\r\nConnection: close\r\n\r\n[]",
    ),
    (
        Form::OtlpJson,
        "[::1]:4318",
        "{}",
        "POST /v1/traces HTTP/1.1\r\nHost: [::1]:4318\r\nContent-Type: application/json\r\n\
Content-Length: 2\r\nConnection: close\r\n\r\n{}",
    ),
    (
        Form::OtlpProto,
        "collector:4318",
        "",
        "POST /v1/traces HTTP/1.1\r\nHost: collector:4318\r\nContent-Type: application/x-protobuf\r\n\
Content-Length: 0\r\nConnection: close\r\n\r\n",
    ),
    (
        Form::JaegerBinary,
        "!",
        "0123456789",
        "POST /api/traces HTTP/1.1\r\nHost: !\r\nContent-Type: application/vnd.apache.thrift.binary\r\n\
Content-Length: 10\r\nConnection: close\r\n\r\n0123456789",
    ),
    (
        Form::JaegerCompact,
        "~",
        "0123456789",
        "POST /api/traces HTTP/1.1\r\nHost: ~\r\nContent-Type: application/vnd.apache.thrift.compact\r\n\
Content-Length: 10\r\nConnection: close\r\n\r\n0123456789",
    ),
    (
        Form::ZipkinJson,
        "",
        "",
        "POST /api/v2/spans HTTP/1.1\r\nHost: \r\nContent-Type: application/json\r\n\
Content-Length: 0\r\nConnection: close\r\n\r\n",
    ),
];

/// The most bytes that a read gives and a write takes, and the read and the write that fails. They are counted from 1, and
/// call 0 never comes.
#[derive(Clone, Copy)]
struct Devices {
    gives: usize,
    takes: usize,
    read: u64,
    write: u64,
}

// Devices that don't fail.
fn sound(gives: usize, takes: usize) -> Devices {
    Devices {
        gives,
        takes,
        read: 0,
        write: 0,
    }
}

/// What sending gives, and how many bytes of the request were taken.
type Told = (Result<u16, SendFault>, usize);

// What a connection gives, the most bytes that a read gives and a write takes, the read and the write that fails, and what is
// told of a request of 114 bytes.
const FAILS: [(&str, usize, usize, u64, u64, Told); 14] = [
    // Each read that is needed, and one behind them.
    (
        "HTTP/1.1 200 OK\r\n\r\nab",
        5,
        200,
        1,
        0,
        (Err(SendFault::Read), 114),
    ),
    (
        "HTTP/1.1 200 OK\r\n\r\nab",
        5,
        200,
        2,
        0,
        (Err(SendFault::Read), 114),
    ),
    (
        "HTTP/1.1 200 OK\r\n\r\nab",
        5,
        200,
        3,
        0,
        (Err(SendFault::Read), 114),
    ),
    (
        "HTTP/1.1 200 OK\r\n\r\nab",
        5,
        200,
        4,
        0,
        (Err(SendFault::Read), 114),
    ),
    ("HTTP/1.1 200 OK\r\n\r\nab", 5, 200, 5, 0, (Ok(200), 114)),
    // The last one tells the end.
    (
        "HTTP/1.1 200 OK\r\n\r",
        9,
        200,
        2,
        0,
        (Err(SendFault::Read), 114),
    ),
    (
        "HTTP/1.1 200 OK\r\n\r",
        9,
        200,
        3,
        0,
        (Err(SendFault::Read), 114),
    ),
    (
        "HTTP/1.1 200 OK\r\n\r",
        9,
        200,
        4,
        0,
        (Err(SendFault::BadAnswer), 114),
    ),
    // Each write, and one behind them.
    (
        "HTTP/1.1 200 OK\r\n\r\n",
        19,
        50,
        0,
        1,
        (Err(SendFault::Write), 0),
    ),
    (
        "HTTP/1.1 200 OK\r\n\r\n",
        19,
        50,
        0,
        2,
        (Err(SendFault::Write), 50),
    ),
    (
        "HTTP/1.1 200 OK\r\n\r\n",
        19,
        50,
        0,
        3,
        (Err(SendFault::Write), 100),
    ),
    ("HTTP/1.1 200 OK\r\n\r\n", 19, 50, 0, 4, (Ok(200), 114)),
    // The request is written before anything is read.
    (
        "HTTP/1.1 200 OK\r\n\r\n",
        19,
        50,
        1,
        3,
        (Err(SendFault::Write), 100),
    ),
    (
        "HTTP/1.1 200 OK\r\n\r\n",
        19,
        50,
        1,
        4,
        (Err(SendFault::Read), 114),
    ),
];

// A list of one call.
fn failing(alloc: Global, call: u64) -> Result<Items<u64>, OutOfMemory> {
    let mut calls = Items::new(alloc);
    calls.push(call)?;
    Ok(calls)
}

fn connection(alloc: Global, answer: &[u8], devices: Devices) -> Result<MemDuplex, OutOfMemory> {
    let mut left = Blob::new(alloc);
    left.append(answer)?;
    let source = MemSource::new(left, devices.gives, failing(alloc, devices.read)?);
    let fails = failing(alloc, devices.write)?;
    let sink = MemSink::slow(alloc, WHOLE, devices.takes, fails)?;
    Ok(MemDuplex::new(source, sink))
}

fn limits_of(head: usize) -> Limits {
    let mut limits = Limits::shipped();
    limits.head = head;
    limits
}

/// A body in a form, an address, and the bytes of the request.
#[derive(Clone, Copy)]
struct Post<'a> {
    form: Form,
    address: &'a str,
    body: &'a [u8],
    text: &'a [u8],
}

// The post of a row of requests.
fn post_of<'a>((form, address, body, text): (Form, &'a str, &'a str, &'a str)) -> Post<'a> {
    Post {
        form,
        address,
        body: body.as_bytes(),
        text: text.as_bytes(),
    }
}

// Sends a request over a connection that gives these bytes, and looks at what is told and at what was taken.
fn expect_sent(
    rt: &impl Abort,
    alloc: Global,
    post: Post<'_>,
    (answer, head, devices): (&[u8], usize, Devices),
    (wanted, written): Told,
) -> Result<(), Fail> {
    let mut conn = connection(alloc, answer, devices)?;
    assert!(rt; is_address(post.address.as_bytes()));
    let limits = limits_of(head);
    let told = send_over(
        alloc,
        &mut conn,
        post.address,
        post.form,
        post.body,
        &limits,
    );
    let Devices {
        gives,
        takes,
        read,
        write,
    } = devices;
    assert!(rt;
        told == wanted,
        "{} in pieces of {gives} and {takes}, calls {read} and {write}",
        post.address
    );
    let front = post.text.get(..written);
    assert!(rt;
        Some(conn.written()) == front,
        "bytes for {} in pieces of {gives} and {takes}, calls {read} and {write}",
        post.address
    );
    Ok(())
}

// The same with an answer that comes in pieces of one size after the other.
fn expect_told(
    rt: &impl Abort,
    alloc: Global,
    (answer, head, status): (&[u8], usize, Option<u16>),
) -> Result<(), Fail> {
    let post = post_of(REQUESTS[0]);
    let told = (status.ok_or(SendFault::BadAnswer), post.text.len());
    for gives in &[1, 2, 3, 18, 19, WHOLE] {
        expect_sent(rt, alloc, post, (answer, head, sound(*gives, WHOLE)), told)?;
    }
    assert!(rt; answer_status(answer, &limits_of(head)) == status);
    Ok(())
}

#[test]
fn reads_each_head(rt: HostRuntime) -> Result<(), Fail> {
    for (answer, head, status) in &HEADS {
        expect_told(&rt, rt.alloc(), (answer.as_bytes(), *head, *status))?;
    }
    Ok(())
}

// A head of so many lines.
fn lines(alloc: Global, count: usize) -> Result<Blob, OutOfMemory> {
    let mut head = Blob::new(alloc);
    head.append(b"HTTP/1.1 200 OK\r\n")?;
    for _ in 0..count {
        head.append(b"a:\r\n")?;
    }
    head.append(b"\r\n")?;
    Ok(head)
}

#[test]
fn reads_heads_of_64_lines(rt: HostRuntime) -> Result<(), Fail> {
    for (count, status) in &[(0, Some(200)), (1, Some(200)), (64, Some(200)), (65, None)] {
        let head = lines(rt.alloc(), *count)?;
        expect_told(&rt, rt.alloc(), (head.as_slice(), 16_384, *status))?;
    }
    Ok(())
}

// What answers each request, and what is told.
const ACCEPTED: (&str, u16) = ("HTTP/1.1 202 Accepted\r\nContent-Length: 0\r\n\r\n", 202);

#[test]
fn writes_each_request(rt: HostRuntime) -> Result<(), Fail> {
    let (answer, status) = ACCEPTED;
    for row in &REQUESTS {
        let post = post_of(*row);
        for takes in &[1, 7, 100, WHOLE] {
            let devices = sound(WHOLE, *takes);
            let told = (Ok(status), post.text.len());
            expect_sent(
                &rt,
                rt.alloc(),
                post,
                (answer.as_bytes(), 16_384, devices),
                told,
            )?;
        }
    }
    Ok(())
}

// The front of a request whose body has so many bytes.
const LENGTHS: [(usize, &str); 4] = [
    (
        4_095,
        "POST /v1/traces HTTP/1.1\r\nHost: p:1\r\nContent-Type: application/x-protobuf\r\n\
Content-Length: 4095\r\nConnection: close\r\n\r\n",
    ),
    (
        4_096,
        "POST /v1/traces HTTP/1.1\r\nHost: p:1\r\nContent-Type: application/x-protobuf\r\n\
Content-Length: 4096\r\nConnection: close\r\n\r\n",
    ),
    (
        4_097,
        "POST /v1/traces HTTP/1.1\r\nHost: p:1\r\nContent-Type: application/x-protobuf\r\n\
Content-Length: 4097\r\nConnection: close\r\n\r\n",
    ),
    (
        20_000,
        "POST /v1/traces HTTP/1.1\r\nHost: p:1\r\nContent-Type: application/x-protobuf\r\n\
Content-Length: 20000\r\nConnection: close\r\n\r\n",
    ),
];

// Sends a body of so many bytes, whose first 4,096 go with the head. The second write comes with the others alone.
fn expect_length(rt: &impl Abort, alloc: Global, count: usize, head: &str) -> Result<(), Fail> {
    let mut text = Blob::new(alloc);
    text.append(head.as_bytes())?;
    for place in 0..count {
        text.append(&[(place % 251) as u8])?;
    }
    let text = text.as_slice();
    let Some((_, body)) = text.split_at_checked(head.len()) else {
        return Ok(());
    };
    let post = Post {
        form: Form::OtlpProto,
        address: "p:1",
        body,
        text,
    };
    let (answer, status) = ACCEPTED;
    let answer = answer.as_bytes();
    let whole = sound(WHOLE, WHOLE);
    let second = Devices { write: 2, ..whole };
    let told = match count {
        0..=4_096 => (Ok(status), text.len()),
        _ => (Err(SendFault::Write), head.len().saturating_add(4_096)),
    };
    expect_sent(
        rt,
        alloc,
        post,
        (answer, 16_384, whole),
        (Ok(status), text.len()),
    )?;
    expect_sent(rt, alloc, post, (answer, 16_384, second), told)
}

#[test]
fn writes_bodies_of_each_length(rt: HostRuntime) -> Result<(), Fail> {
    for (count, head) in &LENGTHS {
        expect_length(&rt, rt.alloc(), *count, head)?;
    }
    Ok(())
}

#[test]
fn fails_with_each_call(rt: HostRuntime) -> Result<(), Fail> {
    let post = post_of(REQUESTS[0]);
    for (answer, gives, takes, read, write, told) in &FAILS {
        let devices = Devices {
            gives: *gives,
            takes: *takes,
            read: *read,
            write: *write,
        };
        expect_sent(
            &rt,
            rt.alloc(),
            post,
            (answer.as_bytes(), 16_384, devices),
            *told,
        )?;
    }
    Ok(())
}
