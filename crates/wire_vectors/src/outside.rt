//! The outside: bytes of the proto3 documentation ("Base 128 Varints") and around its limits, sources and sinks that
//! fail, and the names of forms and causes.
use crate::texts::{CAUSES, is_count, is_signed, word_of};
use span_io::{
    Blob, Cause, Cursor, Failed, Form, Lack, Limits, OutOfMemory, ReaderSource, Source, Varint,
    WriterSink, write_all, zigzag,
};
use std::alloc::Global;
use std::io::{self, Read, Write};
use std::test::Fail;

// Bytes; where the cursor stands then, and what is read of them.
pub(crate) const VARINTS: &str = "
01 => 1 1
00ff => 1 0
7f01 => 1 127
9601 => 2 150
ac0205 => 2 300
8000 => 2 0
ffffffffffffffff7f => 9 9223372036854775807
ffffffffffffffffff01 => 10 18446744073709551615
8080808080808080800007 => 10 0
 => 0 Short
96 => 0 Short
ffffffffffffffffff => 0 Short
ffffffffffffffffff02 => 0 BadVarint
8080808080808080807f => 0 BadVarint
80808080808080808080 => 0 BadVarint
8080808080808080808000 => 0 BadVarint
";

// The same of signed numbers ("Signed Integers"), and the limits.
pub(crate) const SIGNED: &str = "
00ff => 1 0
01 => 1 -1
02 => 1 1
03 => 1 -2
8200 => 2 1
ffffffff0f => 5 -2147483648
feffffffffffffffff01 => 10 9223372036854775807
ffffffffffffffffff01 => 10 -9223372036854775808
96 => 0 Short
";

fn name_of(lack: Lack) -> &'static str {
    match lack {
        Lack::Short => "Short",
        Lack::BadVarint => "BadVarint",
    }
}

/// Whether a row tells the varint in front of these bytes, and its end.
pub(crate) fn is_varint(bytes: &[u8], wanted: &str) -> bool {
    let mut cursor = Cursor::new(bytes);
    let (place, told) = word_of(wanted);
    let same = match cursor.varint() {
        Ok(number) => is_count(told, number),
        Err(lack) => told == name_of(lack),
    };
    same && is_count(place, cursor.place() as u64)
}

/// The same of a number with a sign.
pub(crate) fn is_signed_varint(bytes: &[u8], wanted: &str) -> bool {
    let mut cursor = Cursor::new(bytes);
    let (place, told) = word_of(wanted);
    let same = match cursor.zigzag() {
        Ok(number) => is_signed(told, number),
        Err(lack) => told == name_of(lack),
    };
    same && is_count(place, cursor.place() as u64)
}

// Numbers, and their shortest spelling.
pub(crate) const SHORTEST: &str = "
0 => 00
127 => 7f
128 => 8001
300 => ac02
16384 => 808001
";

pub(crate) const SHORTEST_SIGNED: &str = "
1 => 02
-2147483648 => ffffffff0f
-9223372036854775808 => ffffffffffffffffff01
";

/// Whether these bytes are the shortest spelling of a number in words.
pub(crate) fn is_shortest(alloc: Global, number: &str, bytes: &[u8]) -> bool {
    let Ok(number) = number.parse::<u64>() else {
        return false;
    };
    let mut blob = Blob::new(alloc);
    blob.append_varint(number).is_ok() && blob.as_slice() == bytes
}

/// The same of a number with a sign.
pub(crate) fn is_shortest_signed(number: &str, bytes: &[u8]) -> bool {
    match number.parse::<i64>() {
        Ok(number) => Varint::new(zigzag(number)).as_slice() == bytes,
        Err(_) => false,
    }
}

const FORMS: [(&[u8], Option<Form>); 10] = [
    (b"otlp-proto", Some(Form::OtlpProto)),
    (b"otlp-json", Some(Form::OtlpJson)),
    (b"jaeger-binary", Some(Form::JaegerBinary)),
    (b"jaeger-compact", Some(Form::JaegerCompact)),
    (b"zipkin-json", Some(Form::ZipkinJson)),
    (b"", None),
    (b"otlp", None),
    (b"otlp-prot", None),
    (b"otlp-proto ", None),
    (b"OTLP-PROTO", None),
];

fn is_named(cause: Cause, number: u8, name: &str) -> bool {
    cause.number() == number && cause.name() == name
}

#[test]
fn names_causes_and_forms(rt: HostRuntime) {
    for (cause, number, name) in &CAUSES {
        assert!(rt; is_named(*cause, *number, name), "{name}");
    }
    for (word, form) in &FORMS {
        assert!(rt; Form::of_word(word) == *form, "{word:?}");
    }
}

#[test]
fn ships_limits(rt: HostRuntime) {
    let shipped = Limits {
        unit: 16 * 1024 * 1024,
        json: 64 * 1024 * 1024,
        binary: 1024 * 1024 * 1024 * 1024,
        head: 16 * 1024,
        body: 64 * 1024 * 1024,
        reply: 64 * 1024 * 1024,
    };
    assert!(rt; Limits::shipped() == shipped);
}

/// Gives one byte a call, and fails on its second call.
#[derive(Drop)]
struct Broken {
    calls: u64,
}

impl Read for Broken {
    fn read(&mut self, buf: &mut [u8]) -> io::Result<usize> {
        self.calls = self.calls.saturating_add(1);
        if self.calls == 2 {
            return Err(io::ErrorKind::Other.into());
        }
        if buf.is_empty() || self.calls > 3 {
            return Ok(0);
        }
        buf[0] = b'x';
        Ok(1)
    }
}

/// Takes at most two bytes a call, none on its third call, and fails on its fourth.
#[derive(Drop)]
struct Narrow {
    calls: u64,
    taken: u64,
}

impl Write for Narrow {
    fn write(&mut self, buf: &[u8]) -> io::Result<usize> {
        self.calls = self.calls.saturating_add(1);
        if self.calls == 3 {
            return Ok(0);
        }
        if self.calls == 4 {
            return Err(io::ErrorKind::Other.into());
        }
        let taken = buf.len().min(2);
        self.taken = self.taken.saturating_add(taken as u64);
        Ok(taken)
    }

    fn flush(&mut self) -> io::Result<()> {
        Ok(())
    }
}

fn is_read() -> bool {
    let mut buf = [0; 4];
    let mut source = ReaderSource::new(io::Cursor::new("abcdef"));
    source.read(&mut buf) == Ok(4)
        && source.read(&mut buf) == Ok(2)
        && source.read(&mut buf) == Ok(0)
        && &buf == b"efcd"
        && source.faults() == 0
}

// Whether the answers of a reader that fails once, and how many calls failed by then, are these.
fn is_read_on(answers: &[(Result<usize, Failed>, u64)]) -> bool {
    let mut buf = [0; 4];
    let mut source = ReaderSource::new(Broken { calls: 0 });
    for (answer, faults) in answers {
        if source.read(&mut buf) != *answer || source.faults() != *faults {
            return false;
        }
    }
    true
}

#[test]
fn reads_readers(rt: HostRuntime) {
    let answers = [(Ok(1), 0), (Err(Failed), 1), (Ok(1), 1), (Ok(0), 1)];
    assert!(rt; is_read() && is_read_on(&answers));
}

// Pieces, whether each is written whole, and how many calls failed by then.
const NARROWED: [(&[u8], Result<(), Failed>, u64); 4] = [
    (b"abc", Ok(()), 0),
    (b"d", Err(Failed), 1),
    (b"d", Err(Failed), 2),
    (b"defgh", Ok(()), 2),
];

// Whether a piece is written whole.
fn is_held(alloc: Global, piece: &[u8]) -> bool {
    let mut held: Vec<u8> = Vec::new(alloc);
    let mut sink = WriterSink::new(&mut held);
    write_all(&mut sink, piece) == Ok(()) && held.as_slice() == piece
}

fn is_narrowed() -> bool {
    let mut narrow = Narrow { calls: 0, taken: 0 };
    let mut sink = WriterSink::new(&mut narrow);
    for (piece, answer, faults) in &NARROWED {
        if write_all(&mut sink, piece) != *answer || sink.faults() != *faults {
            return false;
        }
    }
    narrow.taken == 8
}

#[test]
fn writes_writers(rt: HostRuntime) {
    assert!(rt; is_held(rt.alloc(), b"abc") && is_narrowed());
}

// A piece above the 65,536 bytes that one read asks for.
fn large_piece(alloc: Global) -> Result<Blob, OutOfMemory> {
    let mut bytes = Blob::new(alloc);
    for _ in 0..7_000 {
        bytes.append(b"0123456789")?;
    }
    Ok(bytes)
}

fn is_large(bytes: &[u8], buf: &mut [u8]) -> bool {
    let mut source = ReaderSource::new(io::Cursor::new(bytes));
    source.read(buf) == Ok(65_536)
        && bytes.starts_with(buf)
        && source.read(buf) == Ok(4_464)
        && source.read(buf) == Ok(0)
}

#[test]
fn moves_large_pieces(rt: HostRuntime) -> Result<(), Fail> {
    let bytes = large_piece(rt.alloc())?;
    let mut buf = Vec::from_elem(rt.alloc(), 0u8, 65_536)?;
    assert!(rt; is_large(bytes.as_slice(), buf.as_mut_slice()));
    assert!(rt; is_held(rt.alloc(), bytes.as_slice()));
    Ok(())
}
