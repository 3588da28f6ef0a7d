//! Records of protobuf. Those of the bytes 150 and "testing" are the examples of the proto3 encoding guide.
use crate::texts::{is_count, word_of};
use proto_wire::{
    Payload, WireRecord, close_record, next_record, open_record, opening_size, record_size,
    write_record,
};
use span_io::{Blob, Cursor, OutOfMemory};
use std::alloc::Global;
use std::test::Fail;

// Records in their shortest spelling, the number of each and what it holds.
pub(crate) const SHORTEST: &str = "
0805 => 1 varint 5
089601 => 1 varint 150
1207 'testing' => 2 bytes testing
0a0161 => 1 bytes a
0d01000000 => 1 fixed32 1
090100000000000080 => 1 fixed64 9223372036854775809
820100 => 16 bytes
f8ffffff0f808001 => 536870911 varint 16384
08ffffffffffffffffff01 => 1 varint 18446744073709551615
";

// Whether a text tells what a record holds.
fn is_payload(text: &str, payload: Payload<'_>) -> bool {
    let (word, rest) = word_of(text);
    let (name, number) = match payload {
        Payload::Varint(number) => ("varint", number),
        Payload::Fixed64(number) => ("fixed64", number),
        Payload::Fixed32(number) => ("fixed32", u64::from(number)),
        Payload::Bytes(bytes) => return word == "bytes" && rest.as_bytes() == bytes,
    };
    word == name && is_count(rest, number)
}

// Whether a record is written so, and its size is known before.
fn is_written(alloc: Global, record: WireRecord<'_>, bytes: &[u8]) -> bool {
    let WireRecord { number, payload } = record;
    if !(1 <= number && number <= 536_870_911) {
        return false;
    }
    let size = record_size(number, &payload);
    let mut out = Blob::new(alloc);
    write_record(&mut out, number, payload).is_ok()
        && out.as_slice() == bytes
        && size == bytes.len() as u64
}

/// Whether these bytes are the one record that a row tells, and its shortest spelling.
pub(crate) fn is_record(alloc: Global, bytes: &[u8], wanted: &str) -> bool {
    let mut c = Cursor::new(bytes);
    let Ok(Some(record)) = next_record(&mut c) else {
        return false;
    };
    let (number, told) = word_of(wanted);
    is_count(number, u64::from(record.number))
        && is_payload(told, record.payload)
        && next_record(&mut c) == Ok(None)
        && is_written(alloc, record, bytes)
}

// A varint may be longer than it need be, and what follows a record is left. What is refused is not passed. Behind each text
// the place, and what the record of number 1 holds.
pub(crate) const READ: &str = "
8880008500 => 5 varint 5
880085808080808080808000 => 12 varint 5
8a008100 'ab' => 5 bytes a
8d000000803f08 => 6 fixed32 1065353216
0a => 0 Truncated
8a => 0 Truncated
08 => 0 Truncated
0885 => 0 Truncated
0a0561 => 0 Truncated
0d010000 => 0 Truncated
0901000000000000 => 0 Truncated
00 => 0 BadWire
0701 => 0 BadWire
0b => 0 BadWire
0c => 0 BadWire
0e => 0 BadWire
0f => 0 BadWire
808080801000 => 0 BadWire
ffffffffffffffffff02 => 0 BadVarint
888080808080808080800000 => 0 BadVarint
0a818080808080808080800061 => 0 BadVarint
";

/// Whether a row tells what the record of number 1 holds with which these bytes begin, or why there is none, and the place
/// then.
pub(crate) fn is_front(bytes: &[u8], wanted: &str) -> bool {
    let mut c = Cursor::new(bytes);
    let (place, told) = word_of(wanted);
    let same = match next_record(&mut c) {
        Ok(Some(record)) => record.number == 1 && is_payload(told, record.payload),
        Ok(None) => false,
        Err(cause) => told == cause.name(),
    };
    same && is_count(place, c.place() as u64)
}

// Whether a record is opened and closed around bytes.
fn is_closed(alloc: Global) -> Result<bool, OutOfMemory> {
    let mut out = Blob::new(alloc);
    open_record(&mut out, 2)?;
    let opened = out.as_slice() == b"\x12\0".as_slice();
    out.append(b"testing")?;
    close_record(&mut out, 2, 0)?;
    Ok(opened && out.as_slice() == b"\x12\x07testing".as_slice())
}

#[test]
fn opens_records(rt: HostRuntime) -> Result<(), Fail> {
    assert!(rt; is_closed(rt.alloc())?);
    let sizes = opening_size(1, 300) == 3 && opening_size(536_870_911, u64::MAX) == 15;
    assert!(rt; sizes);
    Ok(())
}
