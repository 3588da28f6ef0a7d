//! Thrift in both protocols.
use crate::texts::{BINARY_TAGS, COMPACT_TAGS, bytes_of, is_count, is_signed, word_of};
use span_io::{Blob, Cause, Cursor, OutOfMemory};
use std::alloc::Global;
use std::test::Fail;
use thrift_binary::Binary;
use thrift_compact::Compact;
use thrift_core::{Field, ListHead, MapHead, OUTER_LEVELS, Parts, TypeCode, bytes, skip};

// The word of a type; of a truth value that the head of a field holds it is that value.
fn word_of_type(kind: TypeCode, held: Option<bool>) -> &'static str {
    match kind {
        TypeCode::Truth => match held {
            Some(true) => "true",
            Some(false) => "false",
            None => "bool",
        },
        TypeCode::I32 => "i32",
        TypeCode::I64 => "i64",
        TypeCode::Binary => "binary",
        TypeCode::Struct => "struct",
        TypeCode::Map => "map",
        TypeCode::List => "list",
        _ => "other",
    }
}

fn word_of_element(kind: Option<TypeCode>) -> &'static str {
    match kind {
        Some(kind) => word_of_type(kind, None),
        None => "none",
    }
}

// The field before, the levels left and a text; the place behind the head, and the field's id and type, the stop or a cause.
pub(crate) const BINARY_FIELDS: &str = "
0 31 0007 => 1 stop
0 0 020005 => 3 field 5 bool
0 0 08010207 => 3 field 258 i32
0 1 0dfffe => 3 field -2 map
0 1 0c0001 => 3 field 1 struct
9 30 @BINARY_TAGS => 3 field 10 list
0 0 0f => 0 TooDeep
0 0 0c0001 => 0 TooDeep
0 31 01 => 0 BadWire
0 31 => 0 Truncated
0 31 0a00 => 0 Truncated
";

pub(crate) const COMPACT_FIELDS: &str = "
5 31 0007 => 1 stop
0 31 1507 => 1 field 1 i32
1 0 f8 => 1 field 16 binary
1 0 082207 => 2 field 17 binary
0 0 068200 => 3 field 1 i64
0 0 11 => 1 field 1 true
9 0 0202 => 2 field 1 false
0 1 0c01 => 2 field -1 struct
9 30 @COMPACT_TAGS => 1 field 10 list
0 0 1c => 0 TooDeep
0 31 1d => 0 BadWire
0 31 10 => 0 BadWire
0 31 05808004 => 0 BadWire
32767 31 15 => 0 BadWire
0 31 => 0 Truncated
0 31 05 => 0 Truncated
0 31 05ffff => 0 Truncated
0 31 @OVERLONG => 0 BadVarint
";

fn is_field(text: &str, field: Field) -> bool {
    let (word, rest) = word_of(text);
    let (id, kind) = word_of(rest);
    word == "field"
        && is_signed(id, i64::from(field.id))
        && kind == word_of_type(field.kind, field.held)
}

fn reads_field<P: Parts>(given: &str, bytes: &[u8], wanted: &str) -> bool {
    let (last, rest) = word_of(given);
    let (left, _) = word_of(rest);
    let (Ok(last), Ok(left)) = (last.parse::<i16>(), left.parse::<u8>()) else {
        return false;
    };
    let mut c = Cursor::new(bytes);
    let (place, told) = word_of(wanted);
    let same = match P::field(&mut c, last, left) {
        Ok(Some(field)) => is_field(told, field),
        Ok(None) => told == "stop",
        Err(cause) => told == cause.name(),
    };
    same && is_count(place, c.place() as u64)
}

// The levels left and a text, and the type of the elements and the number of the list that is read, or a cause.
pub(crate) const BINARY_LISTS: &str = "
1 0c00000002 => list struct 2
0 ff00000000 => list none 0
31 ff000001 => BadWire
31 ff0000 => Truncated
31 0b000180 => Truncated
0 0b80 => BadSize
1 0c80 => BadSize
0 0c00000001 => TooDeep
";

pub(crate) const COMPACT_LISTS: &str = "
1 2c => list struct 2
0 e2 => list bool 14
1 fc01 => list struct 1
0 f8ffffffff07 => list binary 2147483647
0 0c => list struct 0
0 0d => list none 0
0 fd00 => list none 0
31 1d => BadWire
0 1c => TooDeep
31 fd01 => BadWire
0 fc8081 => Truncated
0 fc8080808008 => TooDeep
31 f88080808008 => BadSize
31 f8 => Truncated
";

fn is_list(text: &str, head: ListHead) -> bool {
    let (word, rest) = word_of(text);
    let (element, size) = word_of(rest);
    word == "list"
        && element == word_of_element(head.element)
        && is_count(size, u64::from(head.size))
}

fn reads_list<P: Parts>(given: &str, bytes: &[u8], wanted: &str) -> bool {
    let (left, _) = word_of(given);
    let Ok(left) = left.parse::<u8>() else {
        return false;
    };
    match P::list(&mut Cursor::new(bytes), left) {
        Ok(head) => is_list(wanted, head),
        Err(cause) => wanted == cause.name(),
    }
}

// The levels left and a text; the place behind the head, and the types and the number of the map, or a cause.
pub(crate) const BINARY_MAPS: &str = "
1 0b0c00000003 => 6 map binary struct 3
0 000c00000000 => 6 map none struct 0
0 ff0c80 => 0 TooDeep
1 ff0c80 => 0 BadWire
1 0b => 0 Truncated
";

pub(crate) const COMPACT_MAPS: &str = "
0 008c => 1 map none none 0
0 80008c => 2 map none none 0
1 038c => 2 map binary struct 3
0 03dc => 0 TooDeep
1 03dc => 0 BadWire
1 03 => 0 Truncated
1 8080808008 => 0 BadSize
1 ff => 0 Truncated
";

fn is_map(text: &str, head: MapHead) -> bool {
    let (word, rest) = word_of(text);
    let (key, rest) = word_of(rest);
    let (value, size) = word_of(rest);
    word == "map"
        && key == word_of_element(head.key)
        && value == word_of_element(head.value)
        && is_count(size, u64::from(head.size))
}

fn reads_map<P: Parts>(given: &str, bytes: &[u8], wanted: &str) -> bool {
    let (left, _) = word_of(given);
    let Ok(left) = left.parse::<u8>() else {
        return false;
    };
    let mut c = Cursor::new(bytes);
    let (place, told) = word_of(wanted);
    let same = match P::map(&mut c, left) {
        Ok(head) => is_map(told, head),
        Err(cause) => told == cause.name(),
    };
    same && is_count(place, c.place() as u64)
}

// What is read and a text; the place behind, and what it is: a truth value is 1 or 0, and the eight bytes of a double are
// a number.
pub(crate) const BINARY_WORDS: &str = "
bool 02ff => 1 1
false 02 => 0 0
i8 ffff => 1 -1
i16 fffe80 => 2 -2
i32 80000000ff => 4 -2147483648
i64 fffffffffffffffd3f => 8 -3
double 3ff000000000000000 => 8 4607182418800017408
length 00000102 'ab' => 4 258
i16 01 => 0 Truncated
length 7fffff => 0 Truncated
length 80 => 0 BadSize
";

pub(crate) const COMPACT_WORDS: &str = "
bool 0102 => 1 1
bool 02ff => 1 0
false ff => 0 0
i8 ff03 => 1 -1
i16 03ff => 1 -2
i32 ffffffff0fff => 5 -2147483648
i64 ffffffffffffffffff0182 => 10 -9223372036854775808
i64 820000 => 2 1
double 000000000000f03f82 => 8 4607182418800017408
length 8202 'ab' => 2 258
i32 8080808010 => 0 BadVarint
i16 8080808010 => 0 BadVarint
length 8080808010 => 0 BadSize
i64 ffffffffffffffffff => 0 Truncated
i32 ffffffffffffffffff => 0 Truncated
i64 ffffffffffffffffff02 => 0 BadVarint
double 000000000000f0 => 0 Truncated
";

// A truth value that a head holds is read of no text. None where the word isn't known.
fn read_word<P: Parts>(c: &mut Cursor<'_>, kind: &str) -> Result<Option<i64>, Cause> {
    let number = match kind {
        "bool" => i64::from(P::truth(c, None)?),
        "false" => i64::from(P::truth(c, Some(false))?),
        "i8" => i64::from(P::byte(c)?),
        "i16" => i64::from(P::short(c)?),
        "i32" => i64::from(P::int(c)?),
        "i64" => P::long(c)?,
        "double" => i64::from_be_bytes(P::eight(c)?),
        "length" => i64::from(P::length(c)?),
        _ => return Ok(None),
    };
    Ok(Some(number))
}

fn reads_word<P: Parts>(given: &str, bytes: &[u8], wanted: &str) -> bool {
    let (kind, _) = word_of(given);
    let mut c = Cursor::new(bytes);
    let (place, told) = word_of(wanted);
    let same = match read_word::<P>(&mut c, kind) {
        Ok(Some(number)) => is_signed(told, number),
        Ok(None) => false,
        Err(cause) => told == cause.name(),
    };
    same && is_count(place, c.place() as u64)
}

// A type, the levels left, where the value begins and a text; the place then, and whether the value is passed.
pub(crate) const BINARY_VALUES: &str = "
struct 32 0 @BATCH => 103 ok
list 30 3 @BINARY_TAGS => 35 ok
";

pub(crate) const COMPACT_VALUES: &str = "
list 30 1 @COMPACT_TAGS => 17 ok
struct 32 0 1922 01 02 1b 01 81 'k' 01 00 => 0 Truncated
";

fn kind_of(word: &str) -> Option<TypeCode> {
    match word {
        "struct" => Some(TypeCode::Struct),
        "list" => Some(TypeCode::List),
        _ => None,
    }
}

fn skips<P: Parts>(given: &str, bytes: &[u8], wanted: &str) -> bool {
    let (kind, rest) = word_of(given);
    let (left, rest) = word_of(rest);
    let (begins, _) = word_of(rest);
    let (Some(kind), Ok(left), Ok(begins)) = (
        kind_of(kind),
        left.parse::<u8>(),
        begins.parse::<usize>(),
    ) else {
        return false;
    };
    let mut c = Cursor::new(bytes);
    if c.take(begins).is_err() || left > OUTER_LEVELS + 1 {
        return false;
    }
    let (place, told) = word_of(wanted);
    let same = match skip::<P>(&mut c, kind, None, left) {
        Ok(()) => told == "ok",
        Err(cause) => told == cause.name(),
    };
    same && is_count(place, c.place() as u64)
}

/// What a table of Thrift is of.
#[derive(Clone, Copy)]
pub(crate) enum Part {
    Field,
    List,
    Map,
    Word,
    Value,
}

impl Part {
    /// How many words stand in front of the bytes.
    pub(crate) fn words(self) -> u32 {
        match self {
            Part::Field => 2,
            Part::List | Part::Map | Part::Word => 1,
            Part::Value => 3,
        }
    }

    /// Whether a row tells what is read of its bytes.
    pub(crate) fn is_read<P: Parts>(self, given: &str, bytes: &[u8], wanted: &str) -> bool {
        match self {
            Part::Field => reads_field::<P>(given, bytes, wanted),
            Part::List => reads_list::<P>(given, bytes, wanted),
            Part::Map => reads_map::<P>(given, bytes, wanted),
            Part::Word => reads_word::<P>(given, bytes, wanted),
            Part::Value => skips::<P>(given, bytes, wanted),
        }
    }
}

fn write_tags<P: Parts>(out: &mut Blob) -> Result<(), OutOfMemory> {
    P::put_field(out, 9, 10, TypeCode::List, None)?;
    P::put_list(out, TypeCode::Struct, 1)?;
    P::put_field(out, 0, 1, TypeCode::Binary, None)?;
    P::put_bytes(out, b"d")?;
    P::put_field(out, 1, 2, TypeCode::I32, None)?;
    P::put_int(out, 1)?;
    P::put_field(out, 2, 4, TypeCode::Eight, None)?;
    P::put_eight(out, [0x3f, 0xf0, 0, 0, 0, 0, 0, 0])?;
    P::put_stop(out)
}

// Fields of each length of a head, and numbers of each sign.
fn write_fields<P: Parts>(out: &mut Blob) -> Result<(), OutOfMemory> {
    P::put_field(out, 4, 5, TypeCode::Truth, Some(true))?;
    P::put_truth(out, true)?;
    P::put_field(out, 5, 20, TypeCode::Truth, Some(false))?;
    P::put_truth(out, false)?;
    P::put_field(out, 20, 36, TypeCode::I64, None)?;
    P::put_long(out, -2)?;
    P::put_field(out, 36, 300, TypeCode::I32, None)?;
    P::put_int(out, i32::MIN)
}

// A number, and lists whose heads differ in length.
fn write_lists(out: &mut Blob) -> Result<(), OutOfMemory> {
    Compact::put_long(out, i64::MIN)?;
    Compact::put_list(out, TypeCode::I64, 14)?;
    Compact::put_list(out, TypeCode::I64, 15)?;
    Compact::put_list(out, TypeCode::Binary, 300)
}

fn write_truth(out: &mut Blob) -> Result<(), OutOfMemory> {
    Binary::put_field(out, 4, 5, TypeCode::Truth, Some(true))?;
    Binary::put_truth(out, true)?;
    Binary::put_long(out, -2)
}

/// What is written.
#[derive(Clone, Copy)]
enum Written {
    BinaryTags,
    BinaryTruth,
    CompactTags,
    CompactFields,
    CompactLists,
}

fn write(part: Written, out: &mut Blob) -> Result<(), OutOfMemory> {
    match part {
        Written::BinaryTags => write_tags::<Binary>(out),
        Written::BinaryTruth => write_truth(out),
        Written::CompactTags => write_tags::<Compact>(out),
        Written::CompactFields => write_fields::<Compact>(out),
        Written::CompactLists => write_lists(out),
    }
}

fn is_written(alloc: Global, part: Written, wanted: &[u8]) -> bool {
    let mut out = Blob::new(alloc);
    write(part, &mut out).is_ok() && out.as_slice() == wanted
}

const WRITTEN: [(Written, &str); 5] = [
    (Written::BinaryTags, BINARY_TAGS),
    (Written::BinaryTruth, "020005 01 fffffffffffffffe"),
    (Written::CompactTags, COMPACT_TAGS),
    (Written::CompactFields, "11 f2 0648 03 05d804 ffffffff0f"),
    (Written::CompactLists, "ffffffffffffffffff01 e6 f60f f8ac02"),
];

#[test]
fn writes_both_protocols(rt: HostRuntime) -> Result<(), Fail> {
    for (part, text) in &WRITTEN {
        let wanted = bytes_of(rt.alloc(), text)?;
        assert!(rt; is_written(rt.alloc(), *part, wanted.as_slice()), "{text}");
    }
    Ok(())
}

fn is_bytes<P: Parts>(text: &[u8], wanted: &[u8]) -> bool {
    bytes::<P>(&mut Cursor::new(text)) == Ok(wanted)
}

fn are_long_bytes(alloc: Global) -> bool {
    let mut out = Blob::new(alloc);
    Compact::put_bytes(&mut out, &[7; 130]).is_ok()
        && out.len() == 132
        && is_bytes::<Compact>(out.as_slice(), &[7; 130])
}

#[test]
fn reads_bytes(rt: HostRuntime) {
    let binary = is_bytes::<Binary>(b"\0\0\0\x02abc", b"ab");
    let compact = is_bytes::<Compact>(b"\x02abc", b"ab");
    assert!(rt; binary && compact && are_long_bytes(rt.alloc()));
}
