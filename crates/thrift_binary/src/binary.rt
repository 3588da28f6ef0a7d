//! The binary protocol as a protocol of Thrift.
ghost use Rattle.thrift_spellings.specs.BinarySpelling as spelling;
ghost use Rattle.thrift_spellings.specs.BinaryReading as reading;
ghost use Rattle.thrift_spellings.proofs.BinaryLaws as binary_laws;
ghost use Rattle.thrift_spellings.proofs.BinaryUnfinished as unfinished;
ghost use Rattle.thrift_spellings.proofs.BinaryProperWords as proper_words;
ghost use Rattle.thrift_core.specs.Values.{finds_own};

use crate::reading::{
    byte_of, eight_of, header_of, int_of, list_of, long_of, map_of, short_of, size_of, truth_of,
};
use crate::type_codes::code;
use span_io::{Blob, Cause, Cursor, OutOfMemory};
use thrift_core::{Field, ListHead, MapHead, Parts, Protocol, StructScanner, TypeCode};

/// The Thrift binary protocol. The head of a field holds no truth value.
#[derive(Clone, Copy)]
pub struct Binary;

impl Parts for Binary {
    ghost spells = { spelling.binary_spells };

    ghost reads = { reading.binary_reads };

    ghost then_varint = { spelling.binary_then_varint };

    ghost refuses = { spelling.binary_refuses };

    ghost keeps = { spelling.binary_keeps };

    ghost writes = { spelling.binary_writes };

    #[inline(always)]
    fn field(c: &mut Cursor<'_>, _last: i16, left: u8) -> Result<Option<Field>, Cause> {
        let mut at = c.again();
        match header_of(&mut at, left) {
            Ok(found) => {
                *c = at;
                Ok(found)
            }
            Err(cause) => Err(cause),
        }
    }

    #[inline(always)]
    fn truth(c: &mut Cursor<'_>, held: Option<bool>) -> Result<bool, Cause> {
        match held {
            Some(value) => Ok(value),
            None => truth_of(c),
        }
    }

    #[inline(always)]
    fn byte(c: &mut Cursor<'_>) -> Result<i8, Cause> {
        byte_of(c)
    }

    #[inline(always)]
    fn short(c: &mut Cursor<'_>) -> Result<i16, Cause> {
        short_of(c)
    }

    #[inline(always)]
    fn int(c: &mut Cursor<'_>) -> Result<i32, Cause> {
        int_of(c)
    }

    #[inline(always)]
    fn long(c: &mut Cursor<'_>) -> Result<i64, Cause> {
        long_of(c)
    }

    #[inline(always)]
    fn eight(c: &mut Cursor<'_>) -> Result<[u8; 8], Cause> {
        eight_of(c)
    }

    #[inline(always)]
    fn length(c: &mut Cursor<'_>) -> Result<u32, Cause> {
        let mut at = c.again();
        match size_of(&mut at, None) {
            Ok(size) => {
                *c = at;
                Ok(size)
            }
            Err(cause) => Err(cause),
        }
    }

    fn list(c: &mut Cursor<'_>, left: u8) -> Result<ListHead, Cause> {
        let mut at = c.again();
        match list_of(&mut at, left) {
            Ok(head) => {
                *c = at;
                Ok(head)
            }
            Err(cause) => Err(cause),
        }
    }

    fn map(c: &mut Cursor<'_>, left: u8) -> Result<MapHead, Cause> {
        let mut at = c.again();
        match map_of(&mut at, left) {
            Ok(head) => {
                *c = at;
                Ok(head)
            }
            Err(cause) => Err(cause),
        }
    }

    fn put_field(
        out: &mut Blob,
        _last: i16,
        id: i16,
        kind: TypeCode,
        _held: Option<bool>,
    ) -> Result<(), OutOfMemory> {
        let [high, low] = id.to_be_bytes();
        out.append(&[code(kind), high, low])
    }

    fn put_stop(out: &mut Blob) -> Result<(), OutOfMemory> {
        out.append(&[0])
    }

    fn put_truth(out: &mut Blob, value: bool) -> Result<(), OutOfMemory> {
        out.append(&[u8::from(value)])
    }

    fn put_int(out: &mut Blob, value: i32) -> Result<(), OutOfMemory> {
        out.append(&value.to_be_bytes())
    }

    fn put_long(out: &mut Blob, value: i64) -> Result<(), OutOfMemory> {
        out.append(&value.to_be_bytes())
    }

    fn put_eight(out: &mut Blob, value: [u8; 8]) -> Result<(), OutOfMemory> {
        out.append(&value)
    }

    fn put_bytes(out: &mut Blob, value: &[u8]) -> Result<(), OutOfMemory> {
        let size = value.len() as u32;
        out.append_both(&size.to_be_bytes(), value)
    }

    fn put_list(out: &mut Blob, element: TypeCode, many: u32) -> Result<(), OutOfMemory> {
        let [a, b, c, d] = many.to_be_bytes();
        out.append(&[code(element), a, b, c, d])
    }

    ghost reads_exactly = { binary_laws.binary_reads_exactly };

    ghost part_laws = { binary_laws.binary_part_laws };

    ghost few_bytes = { unfinished.binary_few_bytes };

    ghost spells_proper = { proper_words.binary_spells_proper };

    ghost writes_shortest = { binary_laws.binary_writes_shortest };
}

impl Protocol for Binary {
    type Scanner = StructScanner<Binary>;

    ghost finds_structs = { finds_own };
}
