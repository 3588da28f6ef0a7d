//! The parts of a text that a protocol spells.
ghost use Rattle.std.specs.Prelude.{◌≡◌, ◌≤◌, ◌<ℤ◌, ℕ, ℤ, Bool, Option, Some, None, List, ◌+◌, ◌++◌, length, OnOk, OnErr};
ghost use Rattle.span_io.specs.declared.cause.Cause.{Cause};
ghost use Rattle.thrift_core.specs.Parts.{Part, Spelling, header, truth, byte, short, int, long, eight, size, list_head, map_head};
ghost use Rattle.thrift_core.specs.Reading.{ReadingOf, GivesWord, Stays};
ghost use Rattle.thrift_core.specs.Protocols.{ReadsExactly, PartLaws, UnfinishedWithin, most_unfinished, SpellsProper, WritingOf, WritesShortest, IsGiven, field_head, list_of_type, last_size};

use crate::field::{Field, ListHead, MapHead};
use crate::type_code::TypeCode;
use span_io::{Blob, Cause, Cursor, OutOfMemory};

/// A protocol of Thrift: how each part of a text is spelled. `left` says how many levels of containers are left for what
/// stands there. Readers take no memory, and a refusal, which is Truncated, BadVarint, BadWire, BadSize or TooDeep, leaves
/// the place. Writers append the shortest spelling, or leave
/// `out` as it was.
pub trait Parts {
    ghost spells: { Spelling };

    ghost reads: { ReadingOf };

    ghost then_varint: { Part → List ℕ → Type 0 };

    ghost refuses: { Part → Cause → List ℕ → Type 0 };

    ghost keeps: { Option Bool → Option Bool };

    ghost writes: { WritingOf };

    /// The head of the next field behind the field of id `last`, or None at the stop byte.
    fn field(c: &mut Cursor<'_>, last: i16, left: u8) -> Result<Option<Field>, Cause>
        ensures exact { GivesWord result c.new.rest (reads (header left last) c.old.rest) }
        ensures place { Stays c.old c.new }
        ensures err { OnErr result (c.new ≡ c.old) };

    /// A truth value, which the head of its field may hold already.
    fn truth(c: &mut Cursor<'_>, held: Option<bool>) -> Result<bool, Cause>
        ensures exact { GivesWord result c.new.rest (reads (truth held) c.old.rest) }
        ensures place { Stays c.old c.new }
        ensures err { OnErr result (c.new ≡ c.old) };

    fn byte(c: &mut Cursor<'_>) -> Result<i8, Cause>
        ensures exact { GivesWord result c.new.rest (reads byte c.old.rest) }
        ensures place { Stays c.old c.new }
        ensures err { OnErr result (c.new ≡ c.old) };

    fn short(c: &mut Cursor<'_>) -> Result<i16, Cause>
        ensures exact { GivesWord result c.new.rest (reads short c.old.rest) }
        ensures place { Stays c.old c.new }
        ensures err { OnErr result (c.new ≡ c.old) };

    fn int(c: &mut Cursor<'_>) -> Result<i32, Cause>
        ensures exact { GivesWord result c.new.rest (reads int c.old.rest) }
        ensures place { Stays c.old c.new }
        ensures err { OnErr result (c.new ≡ c.old) };

    fn long(c: &mut Cursor<'_>) -> Result<i64, Cause>
        ensures exact { GivesWord result c.new.rest (reads long c.old.rest) }
        ensures place { Stays c.old c.new }
        ensures err { OnErr result (c.new ≡ c.old) };

    /// The eight bytes of a double, the most significant first.
    fn eight(c: &mut Cursor<'_>) -> Result<[u8; 8], Cause>
        ensures exact { GivesWord result c.new.rest (reads eight c.old.rest) }
        ensures place { Stays c.old c.new }
        ensures err { OnErr result (c.new ≡ c.old) };

    /// The number of bytes of a binary, which follow it.
    fn length(c: &mut Cursor<'_>) -> Result<u32, Cause>
        ensures exact { GivesWord result c.new.rest (reads size c.old.rest) }
        ensures place { Stays c.old c.new }
        ensures err { OnErr result (c.new ≡ c.old) };

    /// The head of a list or set.
    fn list(c: &mut Cursor<'_>, left: u8) -> Result<ListHead, Cause>
        ensures exact { GivesWord result c.new.rest (reads (list_head left) c.old.rest) }
        ensures place { Stays c.old c.new }
        ensures err { OnErr result (c.new ≡ c.old) };

    fn map(c: &mut Cursor<'_>, left: u8) -> Result<MapHead, Cause>
        ensures exact { GivesWord result c.new.rest (reads (map_head left) c.old.rest) }
        ensures place { Stays c.old c.new }
        ensures err { OnErr result (c.new ≡ c.old) };

    /// The head of a field, behind a field of id `last`. Its truth value is given exactly where it has one.
    fn put_field(
        out: &mut Blob,
        last: i16,
        id: i16,
        kind: TypeCode,
        held: Option<bool>,
    ) -> Result<(), OutOfMemory>
        requires rises { last <ℤ id }
        requires given { IsGiven kind held }
        ensures ok { (left : ℕ)
            → OnOk result
            (out.new ≡ out.old ++ writes (header left last) (field_head keeps id kind held)) }
        ensures err { OnErr result (out.new ≡ out.old) };

    fn put_stop(out: &mut Blob) -> Result<(), OutOfMemory>
        ensures ok { (left : ℕ) (last : ℤ)
            → OnOk result (out.new ≡ out.old ++ writes (header left last) None) }
        ensures err { OnErr result (out.new ≡ out.old) };

    /// The truth value of a field, behind the field's head.
    fn put_truth(out: &mut Blob, value: bool) -> Result<(), OutOfMemory>
        ensures ok { OnOk result (out.new ≡ out.old ++ writes (truth (keeps (Some value))) value) }
        ensures err { OnErr result (out.new ≡ out.old) };

    fn put_int(out: &mut Blob, value: i32) -> Result<(), OutOfMemory>
        ensures ok { OnOk result (out.new ≡ out.old ++ writes int value) }
        ensures err { OnErr result (out.new ≡ out.old) };

    fn put_long(out: &mut Blob, value: i64) -> Result<(), OutOfMemory>
        ensures ok { OnOk result (out.new ≡ out.old ++ writes long value) }
        ensures err { OnErr result (out.new ≡ out.old) };

    fn put_eight(out: &mut Blob, value: [u8; 8]) -> Result<(), OutOfMemory>
        ensures ok { OnOk result (out.new ≡ out.old ++ writes eight value) }
        ensures err { OnErr result (out.new ≡ out.old) };

    /// The number of a binary's bytes, and then they.
    fn put_bytes(out: &mut Blob, value: &[u8]) -> Result<(), OutOfMemory>
        requires small { length value.now ≤ last_size }
        ensures ok { OnOk result
            (out.new ≡ out.old ++ (writes size (length value.now) ++ value.now)) }
        ensures err { OnErr result (out.new ≡ out.old) };

    /// The head of a list.
    fn put_list(out: &mut Blob, element: TypeCode, many: u32) -> Result<(), OutOfMemory>
        requires small { many ≤ last_size }
        ensures ok { (left : ℕ)
            → OnOk result
            (out.new ≡ out.old ++ writes (list_head left) (list_of_type element many)) }
        ensures err { OnErr result (out.new ≡ out.old) };

    ghost reads_exactly: { ReadsExactly spells reads then_varint refuses };

    ghost part_laws: { PartLaws spells then_varint refuses };

    ghost few_bytes: { UnfinishedWithin most_unfinished reads };

    ghost spells_proper: { SpellsProper spells };

    ghost writes_shortest: { WritesShortest spells keeps writes };
}
