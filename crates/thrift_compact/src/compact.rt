//! The compact protocol as a protocol of Thrift.
ghost use Rattle.thrift_spellings.specs.CompactSpelling as spelling;
ghost use Rattle.thrift_spellings.specs.CompactReading as reading;
ghost use Rattle.thrift_spellings.proofs.CompactLaws as compact_laws;
ghost use Rattle.thrift_spellings.proofs.CompactExactly as exactly;
ghost use Rattle.thrift_spellings.proofs.CompactUnfinished as unfinished;
ghost use Rattle.thrift_spellings.proofs.CompactProperWords as proper_words;
ghost use Rattle.thrift_core.specs.Values.{finds_own};

use crate::reading::{
    byte_of, eight_of, header_of, int_of, list_of, long_of, map_of, short_of, size_of, truth_of,
};
use crate::type_codes::field_code;
use crate::writing::{append_bytes, append_header, append_list};
use span_io::{Blob, Cause, Cursor, OutOfMemory, zigzag};
use thrift_core::{Field, ListHead, MapHead, Parts, Protocol, StructScanner, TypeCode};

/// The Thrift compact protocol. The head of a field holds its truth value.
#[derive(Clone, Copy)]
pub struct Compact;

impl Parts for Compact {
    ghost spells = { spelling.compact_spells };

    ghost reads = { reading.compact_reads };

    ghost then_varint = { spelling.compact_then_varint };

    ghost refuses = { spelling.compact_refuses };

    ghost keeps = { spelling.compact_keeps };

    ghost writes = { spelling.compact_writes };

    #[inline(always)]
    fn field(c: &mut Cursor<'_>, last: i16, left: u8) -> Result<Option<Field>, Cause> {
        let mut at = c.again();
        match header_of(&mut at, last, left) {
            Ok(found) => {
                *c = at;
                Ok(found)
            }
            Err(cause) => Err(cause),
        }
    }

    #[inline(always)]
    fn truth(c: &mut Cursor<'_>, held: Option<bool>) -> Result<bool, Cause> {
        match held {
            Some(value) => Ok(value),
            None => truth_of(c),
        }
    }

    #[inline(always)]
    fn byte(c: &mut Cursor<'_>) -> Result<i8, Cause> {
        byte_of(c)
    }

    #[inline(always)]
    fn short(c: &mut Cursor<'_>) -> Result<i16, Cause> {
        let mut at = c.again();
        match short_of(&mut at, Cause::BadVarint) {
            Ok(number) => {
                *c = at;
                Ok(number)
            }
            Err(cause) => Err(cause),
        }
    }

    #[inline(always)]
    fn int(c: &mut Cursor<'_>) -> Result<i32, Cause> {
        let mut at = c.again();
        match int_of(&mut at) {
            Ok(number) => {
                *c = at;
                Ok(number)
            }
            Err(cause) => Err(cause),
        }
    }

    #[inline(always)]
    fn long(c: &mut Cursor<'_>) -> Result<i64, Cause> {
        long_of(c)
    }

    #[inline(always)]
    fn eight(c: &mut Cursor<'_>) -> Result<[u8; 8], Cause> {
        eight_of(c)
    }

    #[inline(always)]
    fn length(c: &mut Cursor<'_>) -> Result<u32, Cause> {
        let mut at = c.again();
        match size_of(&mut at, None) {
            Ok(size) => {
                *c = at;
                Ok(size)
            }
            Err(cause) => Err(cause),
        }
    }

    fn list(c: &mut Cursor<'_>, left: u8) -> Result<ListHead, Cause> {
        let mut at = c.again();
        match list_of(&mut at, left) {
            Ok(head) => {
                *c = at;
                Ok(head)
            }
            Err(cause) => Err(cause),
        }
    }

    fn map(c: &mut Cursor<'_>, left: u8) -> Result<MapHead, Cause> {
        let mut at = c.again();
        match map_of(&mut at, left) {
            Ok(head) => {
                *c = at;
                Ok(head)
            }
            Err(cause) => Err(cause),
        }
    }

    fn put_field(
        out: &mut Blob,
        last: i16,
        id: i16,
        kind: TypeCode,
        held: Option<bool>,
    ) -> Result<(), OutOfMemory> {
        append_header(out, last, id, field_code(kind, held))
    }

    fn put_stop(out: &mut Blob) -> Result<(), OutOfMemory> {
        out.append(&[0])
    }

    fn put_truth(_out: &mut Blob, _value: bool) -> Result<(), OutOfMemory> {
        Ok(())
    }

    fn put_int(out: &mut Blob, value: i32) -> Result<(), OutOfMemory> {
        out.append_varint(zigzag(i64::from(value)))
    }

    fn put_long(out: &mut Blob, value: i64) -> Result<(), OutOfMemory> {
        out.append_varint(zigzag(value))
    }

    fn put_eight(out: &mut Blob, value: [u8; 8]) -> Result<(), OutOfMemory> {
        let [a, b, c, d, e, f, g, h] = value;
        out.append(&[h, g, f, e, d, c, b, a])
    }

    fn put_bytes(out: &mut Blob, value: &[u8]) -> Result<(), OutOfMemory> {
        append_bytes(out, value)
    }

    fn put_list(out: &mut Blob, element: TypeCode, many: u32) -> Result<(), OutOfMemory> {
        append_list(out, element, many)
    }

    ghost reads_exactly = { exactly.compact_reads_exactly };

    ghost part_laws = { compact_laws.compact_part_laws };

    ghost few_bytes = { unfinished.compact_few_bytes };

    ghost spells_proper = { proper_words.compact_spells_proper };

    ghost writes_shortest = { compact_laws.compact_writes_shortest };
}

impl Protocol for Compact {
    type Scanner = StructScanner<Compact>;

    ghost finds_structs = { finds_own };
}
