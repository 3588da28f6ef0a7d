//! Groups of spans of OTLP as protobuf: what is read of them, and the cause of the first offence.
use crate::remarks::are_remarks;
use otlp_proto::{read_group, write_group};
use row_tables::{Row, append_spelled, rows, sides};
use span_io::{Blob, Cause, Halt, Items, OutOfMemory};
use std::alloc::Global;
use std::test::Fail;
use trace_model::{Group, Remark, Value, value_text};

/// Where in a group a message stands: from the inside, what stands in front of it in its record, and the record's key.
type Around = &'static [(&'static [u8], u8)];

// The `trace_id` and `span_id` of a span or a link.
const IDS: &[u8] = b"\x0a\x10\x01\x01\x01\x01\x01\x01\x01\x01\x01\x01\x01\x01\x01\x01\x01\x02\
\x12\x08\x03\x03\x03\x03\x03\x03\x03\x04";

const GROUP: Around = &[];

const RESOURCE: Around = &[(b"", 0x0a)];

const PAIR: Around = &[(b"", 0x0a), (b"", 0x0a)];

const VALUE: Around = &[(b"", 0x12), (b"", 0x0a), (b"", 0x0a)];

const BARE_SPAN: Around = &[(b"", 0x12), (b"", 0x12)];

const SPAN: Around = &[(IDS, 0x12), (b"", 0x12)];

const EVENT: Around = &[(b"", 0x5a), (IDS, 0x12), (b"", 0x12)];

const LINK: Around = &[(b"", 0x6a), (IDS, 0x12), (b"", 0x12)];

const STATUS: Around = &[(b"", 0x7a), (IDS, 0x12), (b"", 0x12)];

fn around_of(word: &str) -> Option<Around> {
    match word {
        "group" => Some(GROUP),
        "resource" => Some(RESOURCE),
        "pair" => Some(PAIR),
        "span" => Some(SPAN),
        "bare-span" => Some(BARE_SPAN),
        "event" => Some(EVENT),
        "link" => Some(LINK),
        "status" => Some(STATUS),
        _ => None,
    }
}

// A record of this key, in which bytes stand behind others.
fn record_of(alloc: Global, key: u8, front: &[u8], held: &[u8]) -> Result<Blob, OutOfMemory> {
    let size = (front.len() as u64).saturating_add(held.len() as u64);
    let mut outer = Blob::new(alloc);
    outer.append(&[key])?;
    outer.append_varint(size)?;
    outer.append_both(front, held)?;
    Ok(outer)
}

// The bytes with these records around them.
fn enclosed(alloc: Global, around: &[(&[u8], u8)], held: &[u8]) -> Result<Blob, OutOfMemory> {
    let mut text = Blob::new(alloc);
    text.append(held)?;
    for (front, key) in around {
        text = record_of(alloc, *key, front, text.as_slice())?;
    }
    Ok(text)
}

// The identifiers of a link that differ from those of its span.
const LINK_IDS: &str = "0a10 04040404040404040404040404040405 1208 0505050505050506";

// A value of each kind but a double.
const NESTED: &str =
    "123d 2a3b 0a0a 0a08 61225c2f0a01c3a9 0a0b 1880808080808080808001 0a00 0a06 3a04 00ff1020 \
0a02 2a00 0a12 3210 0a04 1202 1001 0a08 0a02 'k\"' 1202 3200";

fn append_message(alloc: Global, held: &mut Vec<u8>, text: &str) -> Result<(), Fail> {
    for word in text.split_ascii_whitespace() {
        match word {
            "@IDS" => held.extend_from_slice(IDS)?,
            "@LINK_IDS" => append_spelled(alloc, held, LINK_IDS)?,
            "@NESTED" => append_spelled(alloc, held, NESTED)?,
            _ => append_spelled(alloc, held, word)?,
        }
    }
    Ok(())
}

/// The group that a row tells by the place of a message in it and the message.
pub(crate) fn unit_of(alloc: Global, text: &str) -> Result<Blob, Fail> {
    let (place, message) = text.split_once(' ').unwrap_or((text, ""));
    let Some(around) = around_of(place) else {
        return Err(Fail::new(format_args!("no place in a group: {text}")));
    };
    let mut held = Vec::new(alloc);
    append_message(alloc, &mut held, message)?;
    Ok(enclosed(alloc, around, held.as_slice())?)
}

// What is written of a group is one record with the group in it.
const WRITTEN: Around = &[(b"", 0x0a)];

// A message and where it stands, the canonical text of it, and the remarks.
const READ: &str = "
a value of each kind, as `protoc --encode` writes it: also a default has its one member; in the order of keys
read group 0aad01 0a00 0a0a 0a04 'text' 1202 0a00 0a0b 0a05 'false' 1202 1000 0a0a 0a04 'zero' 1202 1800 0a12 0a03 'low' 120b
  1880808080808080808001 0a10 0a03 'one' 1209 21 000000000000f03f 0a12 0a05 'tenth' 1209 21 9a9999999999b93f 0a0b 0a05
  'bytes' 1202 3a00 0a0a 0a04 'list' 1202 2a00 0a09 0a03 'map' 1202 3200 0a26 0a06 'nested' 121c 2a1a 0a00 0a06 2a04 0a02
  1001 0a0e 320c 0a03 0a01 'k' 0a05 1203 18ac02
written group 0aad01 0a00 0a0b 0a05 'bytes' 1202 3a00 0a0b 0a05 'false' 1202 1000 0a0a 0a04 'list' 1202 2a00 0a12 0a03 'low'
  120b 1880808080808080808001 0a09 0a03 'map' 1202 3200 0a26 0a06 'nested' 121c 2a1a 0a00 0a06 2a04 0a02 1001 0a0e 320c 0a05
  1203 18ac02 0a03 0a01 'k' 0a10 0a03 'one' 1209 21 000000000000f03f 0a12 0a05 'tenth' 1209 21 9a9999999999b93f 0a0a 0a04
  'text' 1202 0a00 0a0a 0a04 'zero' 1202 1800

a status with an unknown field 9 between its two
read status 1202 'no' 4807 1802
written status 1202 'no' 1802

the code as four bytes is no code
read status 1d 09090909 1801
written status 1801

an event, as `protoc --encode` writes it
read event 09 0700000000000000 1201 'e' 1a07 0a01 'k' 1202 1801 2005
written event 09 0700000000000000 1201 'e' 1a07 0a01 'k' 1202 1801 2005

an event in another order, between its fields a time as a varint, a name as four bytes and a field 9
read event 208580808010 0801 1a07 1202 1801 0a01 'k' 15 09090909 1201 'e' 4a01 ff 09 0700000000000000
written event 09 0700000000000000 1201 'e' 1a07 0a01 'k' 1202 1801 2005

an empty event
read event
written event

a link, as `protoc --encode` writes it
read link @LINK_IDS 1a03 'u=2' 2207 0a01 'l' 1202 1802 2807 35 01030000
written link @LINK_IDS 1a03 'u=2' 2207 0a01 'l' 1202 1802 2807 35 01030000

a link in another order: between stand its flags as a varint
read link 35 01030000 2807 3001 2207 0a01 'l' 1202 1802 1a03 'u=2' 1208 0505050505050506 0a10 04040404040404040404040404040405
written link @LINK_IDS 1a03 'u=2' 2207 0a01 'l' 1202 1802 2807 35 01030000

an empty link
read span 6a00
written span
remark span 1 LinkDropped

a link of a trace of zeros
read span 6a1c 0a10 00000000000000000000000000000000 1208 0505050505050506
written span
remark span 1 LinkDropped

a link without a span
read span 6a12 0a10 04040404040404040404040404040405
written span
remark span 1 LinkDropped

a link with an empty span
read span 6a14 0a10 04040404040404040404040404040405 1200
written span
remark span 1 LinkDropped

the smallest span
read span 2a01 's'
written span 2a01 's'

each field of a span, the counts between two events
read span 2a01 's' 1a03 'u=2' 2208 0000000000000000 3005 39 0600000000000000 41 0700000000000000 4a03 0a01 'k' 5a03 1201 'a'
  5001 6002 7003 5a00 6a1c @IDS 7a02 1802 8501 01030000
written span 1a03 'u=2' 2a01 's' 3005 39 0600000000000000 41 0700000000000000 4a03 0a01 'k' 5001 5a03 1201 'a' 5a00 6002 6a1c
  @IDS 7003 7a02 1802 8501 01030000

an unknown field 17 as a varint
read span 880107
written span

an unknown field 17 of eight bytes
read span 8901 0102030405060708
written span

an unknown field 17 as bytes
read span 8a0102 ffff
written span

an unknown field 17 of four bytes, and a name as a number
read span 8d01 01020304 2807
written span

a link that has a key twice behind one that is dropped, an event that has a key twice behind another, and a key that stands twice
read span 6a00 6a26 @IDS 2203 0a01 'l' 2203 0a01 'l' 5a00 5a0a 1a03 0a01 'e' 1a03 0a01 'e' 4a03 0a01 'k' 4a03 0a01 'k'
written span 4a03 0a01 'k' 5a00 5a05 1a03 0a01 'e' 6a21 @IDS 2203 0a01 'l'
remark span 1 EqualKey k
remark span 1 LinkDropped
remark event 1 2 EqualKey e
remark link 1 1 EqualKey l

an empty scope
read group 1200
written group 1200

a scope with all its fields, two of them free at its group, and a resource with 2 dropped attributes
read group 120d 1a01 'u' 0a08 1201 'v' 2003 0a01 'n' 1a01 'g' 0a07 1002 0a03 0a01 'k' 4807
written group 0a07 0a03 0a01 'k' 1002 120d 0a08 0a01 'n' 1201 'v' 2003 1a01 'u' 1a01 'g'

a key that stands twice, around another, the first time with a map in which a key stands twice
read resource 0a11 0a01 'b' 120c 320a 0a03 0a01 'm' 0a03 0a01 'm' 0a03 0a01 'a' 0a07 0a01 'b' 1202 1001
written resource 0a03 0a01 'a' 0a07 0a01 'b' 1202 1001
remark resource EqualKey b
remark resource EqualKey m

scopes and spans with remarks, and behind them the resource with one
read group 124b 1221 @IDS 4a03 0a01 'k' 1226 @IDS 4a03 0a01 'k' 4a03 0a01 'k' 1234 1226 @IDS 4a03 0a01 'k' 4a03 0a01 'k' 0a0a
  1a03 0a01 'k' 1a03 0a01 'k' 0a0a 0a03 0a01 'k' 0a03 0a01 'k'
written group 0a05 0a03 0a01 'k' 1246 1221 @IDS 4a03 0a01 'k' 1221 @IDS 4a03 0a01 'k' 122a 0a05 1a03 0a01 'k' 1221 @IDS 4a03
  0a01 'k'
remark resource EqualKey k
remark span 2 EqualKey k
remark scope 2 EqualKey k
remark span 3 EqualKey k
";

/// Reads a unit of fewer bytes than 32 bits number.
pub(crate) fn group_in(alloc: Global, unit: &[u8]) -> Result<(Group, Items<Remark>), Halt<Cause>> {
    if unit.len() > u32::MAX as usize {
        return Err(Halt::Why(Cause::UnitTooLong));
    }
    read_group(alloc, unit)
}

// Whether a group is written as the one record with this unit in it.
fn is_written(alloc: Global, group: &Group, unit: &[u8]) -> bool {
    let Ok(wanted) = enclosed(alloc, WRITTEN, unit) else {
        return false;
    };
    let mut out = Blob::new(alloc);
    write_group(&mut out, group).is_ok() && out.as_slice() == wanted.as_slice()
}

// Whether a unit is read with the remarks of the row, and written as another.
fn is_read(alloc: Global, row: &Row, unit: &[u8], written: &[u8]) -> bool {
    match group_in(alloc, unit) {
        Ok((group, remarks)) => {
            are_remarks(remarks.as_slice(), row) && is_written(alloc, &group, written)
        }
        Err(_) => false,
    }
}

fn expect_row(alloc: Global, row: &Row) -> Result<(), Fail> {
    row.expect_keys(&["read", "written", "remark"])?;
    let unit = unit_of(alloc, row.text("read")?)?;
    let written = unit_of(alloc, row.text("written")?)?;
    if is_read(alloc, row, unit.as_slice(), written.as_slice()) {
        return Ok(());
    }
    Err(row.fail("not read so", row.text("read")?))
}

#[test]
fn reads_groups(rt: HostRuntime) -> Result<(), Fail> {
    for row in &rows(rt.alloc(), READ)? {
        expect_row(rt.alloc(), row)?;
    }
    Ok(())
}

// Pairs, and the value of each. Numbers below zero are in two's complement, and a double's least byte is first on the wire. The
// first pairs have no key; the map has a pair that has no value, and the eighth pair a member of another wire type. Then come
// pairs of a key and a value with lengths of a byte each, and such as differ little from these: by a truth of 2, by a length or a
// number with a byte more than it needs, by the order of their fields, and by one that isn't known.
const VALUES: &str = r#"
pair 1203 0a01 'v' => text v
pair 1202 1007 => truth true
pair 120b 18feffffffffffffffff01 => number -2
pair 1209 21 000000000000f03f => double 3ff0000000000000
pair 1206 2a04 0a02 1000 => list [false]
pair 1207 3205 0a03 0a01 'k' => map {"k":null}
pair 1204 3a02 09ff => bytes Cf8=
pair 1202 0801 => nothing
pair 0a01 'k' 1203 0a01 'v' => text v
pair 0a00 1202 0a00 => text
pair 0a01 'k' 1202 1000 => truth false
pair 0a01 'k' 1202 1001 => truth true
pair 0a01 'k' 1202 1800 => number 0
pair 0a01 'k' 120b 18feffffffffffffffff01 => number -2
pair 0a01 'k' 1202 1002 => truth true
pair 0a01 'k' 1203 108100 => truth true
pair 0a8100 'k' 1203 0a01 'v' => text v
pair 0a01 'k' 128300 0a01 'v' => text v
pair 0a01 'k' 1204 0a8100 'v' => text v
pair 0a01 'k' 1203 188100 => number 1
pair 1203 0a01 'v' 0a01 'k' => text v
pair 0a01 'k' 1205 0a01 'v' 4807 => text v
pair 0a01 'k' 1204 1801 4807 => number 1
pair 0a01 'k' 1203 0a01 'v' 4807 => text v
pair 0a01 'k' 1200 => nothing
"#;

fn word_of(value: &Value) -> &'static str {
    match value {
        Value::Text(_) => "text",
        Value::Truth(_) => "truth",
        Value::Number(_) => "number",
        Value::Eight(_) => "double",
        Value::List(_) => "list",
        Value::Map(_) => "map",
        Value::Bytes(_) => "bytes",
        Value::Nothing => "nothing",
    }
}

// Whether a text is that of a value, or the bytes of a double as a number.
fn is_text(alloc: Global, value: &Value, wanted: &str) -> bool {
    if let Value::Eight(bytes) = value {
        let number = u64::from_str_radix(wanted, 16).ok();
        return number == Some(u64::from_be_bytes(*bytes));
    }
    match value_text(alloc, value) {
        Ok(text) => text.as_str() == wanted,
        Err(_) => false,
    }
}

// Whether the pair of a unit has the value that is told by its kind and its text.
fn is_value(alloc: Global, unit: &[u8], wanted: &str) -> bool {
    let (kind, text) = wanted.split_once(' ').unwrap_or((wanted, ""));
    let Ok((group, _)) = group_in(alloc, unit) else {
        return false;
    };
    match group.resource.as_slice() {
        [(_, value)] => word_of(value) == kind && is_text(alloc, value, text),
        _ => false,
    }
}

#[test]
fn reads_values(rt: HostRuntime) -> Result<(), Fail> {
    for row in VALUES.trim_matches('\n').lines() {
        let (pair, wanted) = sides(row)?;
        let unit = unit_of(rt.alloc(), pair)?;
        assert!(rt; is_value(rt.alloc(), unit.as_slice(), wanted), "{row}");
    }
    Ok(())
}

// A message and where it stands, and the cause of the first offence.
const REFUSED: &str = "
a code of 3, and then a message that is no text: status 1803 1201 ff => BadEnum
the message twice, the second one no text, for at one place the least number counts: status 1200 1201 ff => FieldTwice
a key that ends inside, behind a code of 3: status 1803 80 => BadEnum
a key that ends inside: status 1802 80 => Truncated
a key of no wire type: status 1801 1b => BadWire
the name twice, the second one no text: event 1201 'e' 1201 ff => FieldTwice
a name that is no text: event 1201 ff => NotText
the time twice: event 09 0700000000000000 09 0700000000000000 => FieldTwice
the count twice: event 2005 2005 => FieldTwice
a key that is no text, and then the name twice: event 1a03 0a01 ff 1200 1200 => NotText
an attribute that ends inside a record: event 1a01 0a => Truncated
a trace of 15 bytes: link 0a0f 040404040404040404040404040405 => BadId
a span of 9 zeros: link 1209 000000000000000000 => BadId
no trace twice, the second one of one byte: link 0a00 0a01 04 => FieldTwice
what is dropped is read whole: link 0a00 1a01 ff => NotText
the flags of a link that is dropped, twice: link 35 01000000 35 01000000 => FieldTwice
a value with two members: link 2206 1204 1001 1801 => FieldTwice
a kind of 6: span 3006 => BadEnum
the name twice, the second one no text: span 2a01 's' 2a01 ff => FieldTwice
a parent of seven bytes: span 2207 01010101010101 => BadId
a status with a code of 3, and then a status that may not be: span 7a02 1803 7a00 => BadEnum
a status twice, the second one with a code of 3: span 7a00 7a02 1803 => FieldTwice
an event that ends inside a record: span 5a01 12 => Truncated
the kind twice: span 3001 3001 => FieldTwice
the code of a status twice: span 7a04 1801 1801 => FieldTwice
the span's identifier twice: span 1208 0202020202020202 => FieldTwice
a key that is no text before a value that is one: pair 0a01 ff 1203 0a01 'v' => NotText
a value that is no text: pair 0a01 'k' 1203 0a01 ff => NotText
neither is a text, and behind them a record ends inside, so the key counts: pair 0a01 ff 1204 0a01 ff 80 => NotText
a value of two texts: pair 0a01 'k' 1206 0a01 'v' 0a01 'w' => FieldTwice
a value of a number and a truth: pair 0a01 'k' 1204 1801 1001 => FieldTwice
a text that is longer than its value: pair 0a01 'k' 1203 0a02 'v' => Truncated
a value that is longer than its pair: pair 0a01 'k' 1204 0a01 'v' => Truncated
a key that is longer than its pair: pair 0a02 'k' => Truncated
a number that ends inside: pair 0a01 'k' 1202 1880 => Truncated
a number of eleven bytes: pair 0a01 'k' 120c 18 ffffffffffffffffffff01 => BadVarint
a second key behind the value: pair 0a01 'k' 1203 0a01 'v' 0a01 'k' => FieldTwice
the value of a pair twice: span 4a08 1202 1001 1202 1001 => FieldTwice
the key of a pair twice: span 4a06 0a01 'k' 0a01 'k' => FieldTwice
a span with a trace alone: bare-span 0a10 01010101010101010101010101010102 => BadId
a span without a trace: bare-span 1208 0303030303030304 2a01 's' => BadId
a span of zeros: bare-span 0a10 01010101010101010101010101010102 1208 0000000000000000 => BadId
at one place the least number counts, here for the span's last record that ends inside: bare-span 0a => Truncated
the resource twice, and then an end inside a key: group 0a00 0a00 80 => FieldTwice
a second resource, which is not looked into: group 0a00 0a01 80 => FieldTwice
the instrumentation scope twice, behind a scope: group 1200 1204 0a00 0a00 => FieldTwice
the name of an instrumentation scope is no text: group 1205 0a03 0a01 ff => NotText
the version of an instrumentation scope twice: group 1206 0a04 1200 1200 => FieldTwice
a span without identifiers, before the resource is given twice: group 1202 1200 0a00 0a00 => BadId
a resource that ends inside a key, before a scope that does: group 0a01 80 1201 0b => Truncated
the `schema_url` is no text: group 1a01 ff => NotText
";

fn is_refused(alloc: Global, unit: &[u8], name: &str) -> bool {
    match group_in(alloc, unit) {
        Err(Halt::Why(cause)) => cause.name() == name,
        _ => false,
    }
}

// Whether a row is refused by its cause. Its name stands in front.
fn is_refusal(alloc: Global, row: &str) -> Result<bool, Fail> {
    let (_, told) = row.split_once(": ").unwrap_or((row, ""));
    let (message, cause) = sides(told)?;
    let unit = unit_of(alloc, message)?;
    Ok(is_refused(alloc, unit.as_slice(), cause))
}

#[test]
fn refuses_groups(rt: HostRuntime) -> Result<(), Fail> {
    for row in REFUSED.trim_matches('\n').lines() {
        assert!(rt; is_refusal(rt.alloc(), row)?, "{row}");
    }
    Ok(())
}

// A list around a value.
const LIST: Around = &[(b"", 0x0a), (b"", 0x2a)];

// A unit whose one attribute is so many lists in each other.
fn lists(alloc: Global, levels: u32) -> Result<Blob, OutOfMemory> {
    let mut value = Blob::new(alloc);
    value.append(b"\x2a\0")?;
    for _ in 1..levels {
        value = enclosed(alloc, LIST, value.as_slice())?;
    }
    enclosed(alloc, VALUE, value.as_slice())
}

#[test]
fn lists_end_at_level_24(rt: HostRuntime) -> Result<(), Fail> {
    let unit = lists(rt.alloc(), 24)?;
    assert!(rt; group_in(rt.alloc(), unit.as_slice()).is_ok());
    let unit = lists(rt.alloc(), 25)?;
    assert!(rt; is_refused(rt.alloc(), unit.as_slice(), "TooDeep"));
    Ok(())
}

// A unit whose one span has so many events and links.
fn long_span(alloc: Global, many: u32) -> Result<Blob, OutOfMemory> {
    let link = record_of(alloc, 0x6a, IDS, b"")?;
    let mut held = Blob::new(alloc);
    for _ in 0..many {
        held.append_both(b"Z\0", link.as_slice())?;
    }
    enclosed(alloc, SPAN, held.as_slice())
}

fn has_many(alloc: Global, unit: &[u8], many: usize) -> bool {
    let Ok((group, _)) = group_in(alloc, unit) else {
        return false;
    };
    let [scope] = group.scopes.as_slice() else {
        return false;
    };
    match scope.spans.as_slice() {
        [span] => span.events.len() == many && span.links.len() == many,
        _ => false,
    }
}

#[test]
fn spans_have_many_events_and_links(rt: HostRuntime) -> Result<(), Fail> {
    let unit = long_span(rt.alloc(), 130)?;
    assert!(rt; has_many(rt.alloc(), unit.as_slice(), 130));
    Ok(())
}

// A unit whose one attribute has a text of so many kibibytes.
fn long_text(alloc: Global, size: u32) -> Result<Blob, OutOfMemory> {
    let mut text = Blob::new(alloc);
    for _ in 0..size {
        text.append(&[b'x'; 1_024])?;
    }
    let value = record_of(alloc, 0x0a, b"", text.as_slice())?;
    enclosed(alloc, VALUE, value.as_slice())
}

fn comes_back(alloc: Global, unit: &[u8]) -> bool {
    match group_in(alloc, unit) {
        Ok((group, _)) => is_written(alloc, &group, unit),
        Err(_) => false,
    }
}

#[test]
fn long_texts_are_kept(rt: HostRuntime) -> Result<(), Fail> {
    for size in [16, 2_048_u32] {
        let unit = long_text(rt.alloc(), size)?;
        assert!(rt; comes_back(rt.alloc(), unit.as_slice()), "{size}");
    }
    Ok(())
}
