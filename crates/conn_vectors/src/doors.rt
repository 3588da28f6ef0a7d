//! Connections and doors: in memory, and over sockets of this machine.
ghost use Rattle.std.specs.Prelude.{IfOk};
ghost use Rattle.span_io.specs.Connections.{HasNoFault};

use span_io::{
    Blob, Door, Duplex, Failed, Items, ListenerDoor, MemDoor, MemDuplex, MemSink, MemSource,
    OutOfMemory, StreamDuplex, Text, send_all,
};
use std::alloc::Global;
use std::io::{Read, Write};
use std::net::{Net, TcpListener, TcpStream};
use std::test::Fail;

/// How a connection in memory gives and takes bytes.
#[derive(Clone, Copy)]
pub(crate) struct Course {
    /// The most bytes that a read gives.
    pub(crate) cut: usize,
    /// How many bytes are taken at the most.
    pub(crate) room: usize,
    /// The reads that fail.
    pub(crate) reads: &'static [u64],
    /// The writes that fail.
    pub(crate) writes: &'static [u64],
}

fn calls_of(alloc: Global, calls: &[u64]) -> Result<Items<u64>, OutOfMemory> {
    let mut items = Items::new(alloc);
    for call in calls {
        items.push(*call)?;
    }
    Ok(items)
}

/// A connection that gives these bytes.
pub(crate) fn connection(
    alloc: Global,
    bytes: &[u8],
    course: Course,
) -> Result<MemDuplex, OutOfMemory>
    ensures { IfOk result (λ conn. HasNoFault conn) }
{
    let mut left = Blob::new(alloc);
    left.append(bytes)?;
    let source = MemSource::new(left, course.cut, calls_of(alloc, course.reads)?);
    let sink = MemSink::new(alloc, course.room, calls_of(alloc, course.writes)?)?;
    Ok(MemDuplex::new(source, sink))
}

// Whether a read gives these bytes, or fails where there are none.
fn gives<C: Duplex>(conn: &mut C, wanted: Option<&[u8]>) -> bool {
    let mut buf = [0; 64];
    match conn.read(&mut buf) {
        Ok(given) => wanted == Some(&buf[..given]),
        Err(Failed) => wanted == None,
    }
}

// Sends a text, of which no more is told than whether it was sent whole.
fn send<C: Duplex>(conn: &mut C, text: &[u8]) -> Result<(), Failed> {
    send_all(conn, text)
}

// Sends back what one read gave.
fn echo<C: Duplex>(conn: &mut C) -> Result<(), Failed> {
    let mut buf = [0; 64];
    let given = conn.read(&mut buf)?;
    send(conn, &buf[..given])
}

// How many of five bytes a read gives at the most, and what each read gives.
const CUTS: [(usize, &[&str]); 4] = [
    (0, &["a", "b", "c", "d", "e", "", ""]),
    (1, &["a", "b", "c", "d", "e", "", ""]),
    (2, &["ab", "cd", "e", ""]),
    (4_096, &["abcde", ""]),
];

// What a read doesn't give of five bytes that come in such pieces.
fn other_piece(
    alloc: Global,
    cut: usize,
    pieces: &[&'static str],
) -> Result<Option<&'static str>, OutOfMemory> {
    let course = Course {
        cut,
        room: 0,
        reads: &[],
        writes: &[],
    };
    let mut conn = connection(alloc, b"abcde", course)?;
    for piece in pieces {
        if !gives(&mut conn, Some(piece.as_bytes())) {
            return Ok(Some(*piece));
        }
    }
    Ok(None)
}

#[test]
fn gives_bytes_in_pieces(rt: HostRuntime) -> Result<(), Fail> {
    for (cut, pieces) in &CUTS {
        assert!(rt; other_piece(rt.alloc(), *cut, pieces)? == None, "{cut}");
    }
    Ok(())
}

const SECOND_FAILS: Course = Course {
    cut: 2,
    room: 5,
    reads: &[2],
    writes: &[2],
};

// What each read gives of five bytes, where the second fails.
const READS: [Option<&[u8]>; 5] = [Some(b"ab"), None, Some(b"cd"), Some(b"e"), Some(b"")];

#[test]
fn fails_to_read_in_memory(rt: HostRuntime) -> Result<(), Fail> {
    let mut conn = connection(rt.alloc(), b"abcde", SECOND_FAILS)?;
    for wanted in &READS {
        assert!(rt; gives(&mut conn, *wanted), "{wanted:?}");
    }
    Ok(())
}

// Texts, and whether each is taken, where the second write fails and there is room for five bytes.
const WRITES: [(&str, Result<(), Failed>); 6] = [
    ("xy", Ok(())),
    ("z", Err(Failed)),
    ("z1", Ok(())),
    ("23", Err(Failed)),
    ("2", Ok(())),
    ("", Ok(())),
];

#[test]
fn fails_to_write_in_memory(rt: HostRuntime) -> Result<(), Fail> {
    let mut conn = connection(rt.alloc(), b"", SECOND_FAILS)?;
    for (text, taken) in &WRITES {
        assert!(rt; send(&mut conn, text.as_bytes()) == *taken, "{text:?}");
    }
    assert!(rt; conn.written() == b"xyz12".as_slice());
    Ok(())
}

const ADDRESS: &str = "127.0.0.1:4318";

const WHOLE: Course = Course {
    cut: 4_096,
    room: 16,
    reads: &[],
    writes: &[],
};

// A door with two connections that fails on these calls.
fn door_of_two(alloc: Global, fail: &[u64]) -> Result<MemDoor, OutOfMemory> {
    let mut conns = Items::new(alloc);
    conns.push(connection(alloc, b"first", WHOLE)?)?;
    conns.push(connection(alloc, b"second", WHOLE)?)?;
    let address = Text::of(alloc, ADDRESS)?;
    MemDoor::new(alloc, address, conns, calls_of(alloc, fail)?)
}

const ADDRESSES: [(&str, Result<(), Failed>); 5] = [
    ("", Err(Failed)),
    ("127.0.0.1:4319", Err(Failed)),
    ("127.0.0.1:431", Err(Failed)),
    ("127.0.0.1:43180", Err(Failed)),
    (ADDRESS, Ok(())),
];

#[test]
fn listens_at_its_address_alone(rt: HostRuntime) -> Result<(), Fail> {
    let mut door = door_of_two(rt.alloc(), &[])?;
    for (address, told) in &ADDRESSES {
        assert!(rt; door.listen(address) == *told, "{address}");
    }
    Ok(())
}

// Listens, accepts a connection, sends back what one read gave, and gives the connection back.
fn echo_next(door: &mut MemDoor) -> Result<(), Failed> {
    door.listen(ADDRESS)?;
    let mut conn = door.accept()?;
    echo(&mut conn)?;
    door.close(conn);
    Ok(())
}

// Whether these texts were written to the connections that were given back.
fn were_closed(door: &MemDoor, texts: &[&str]) -> bool {
    let closed = door.closed();
    for (conn, text) in closed.iter().zip(texts) {
        if conn.written() != text.as_bytes() {
            return false;
        }
    }
    closed.len() == texts.len()
}

// Whether each turn goes well where the calls 1, 3 and 6 fail: the first turn and the fourth don't listen, the second doesn't
// accept, and nothing is left for the last.
const TURNS: [bool; 6] = [false, false, true, false, true, false];

#[test]
fn fails_at_the_door(rt: HostRuntime) -> Result<(), Fail> {
    let mut door = door_of_two(rt.alloc(), &[1, 3, 6])?;
    for well in &TURNS {
        assert!(rt; echo_next(&mut door).is_ok() == *well);
    }
    assert!(rt; were_closed(&door, &["first", "second"]));
    Ok(())
}

// Accepts two connections, and gives the second back before the first.
fn close_crosswise(door: &mut MemDoor) -> Result<(), Failed> {
    door.listen(ADDRESS)?;
    let mut first = door.accept()?;
    let mut second = door.accept()?;
    echo(&mut first)?;
    echo(&mut second)?;
    door.close(second);
    door.close(first);
    Ok(())
}

#[test]
fn lends_connections_as_they_were_closed(rt: HostRuntime) -> Result<(), Fail> {
    let mut door = door_of_two(rt.alloc(), &[])?;
    assert!(rt; were_closed(&door, &[]));
    close_crosswise(&mut door)?;
    assert!(rt; were_closed(&door, &["second", "first"]));
    Ok(())
}

// Whether one read of a client gives these bytes.
fn comes<S: Read>(client: &mut S, bytes: &[u8]) -> bool {
    let mut buf = [0; 8];
    match client.read(&mut buf) {
        Ok(given) => &buf[..given] == bytes,
        Err(_) => false,
    }
}

// A stream that is joined to a connection by a socket of this machine.
#[test]
fn reads_and_writes_a_socket(rt: HostRuntime) -> Result<(), Fail> {
    let listener = TcpListener::bind(&rt, "127.0.0.1:0")?;
    let mut client = TcpStream::connect(&rt, listener.local_addr()?)?;
    let (stream, _) = listener.accept()?;
    client.write_all(b"ask")?;
    echo(&mut StreamDuplex::new(stream))?;
    assert!(rt; comes(&mut client, b"ask") && comes(&mut client, b""));
    Ok(())
}

// An address at which nothing listens: that of a listener that was let go.
fn free_address(rt: &HostRuntime) -> Result<String, Fail> {
    let listener = TcpListener::bind(rt, "127.0.0.1:0")?;
    let address = listener.local_addr()?;
    Ok(format!(in rt.alloc(); "{address}")?)
}

// Accepts a connection, sends back what one read gave, and gives the connection back.
fn echo_client<N: Net>(door: &mut ListenerDoor<N>) -> Result<(), Failed> {
    let mut conn = door.accept()?;
    echo(&mut conn)?;
    door.close(conn);
    Ok(())
}

#[test]
fn accepts_from_a_socket(rt: HostRuntime) -> Result<(), Fail> {
    let address = free_address(&rt)?;
    let mut door = ListenerDoor::new(&rt);
    assert!(rt; door.listen("127.0.0.1") == Err(Failed));
    door.listen(address.as_str())?;
    let mut client = TcpStream::connect(&rt, address.as_str())?;
    client.write_all(b"ask")?;
    echo_client(&mut door)?;
    assert!(rt; comes(&mut client, b"ask") && comes(&mut client, b""));
    Ok(())
}
