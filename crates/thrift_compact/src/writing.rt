//! The parts of a text in the compact protocol, written.
ghost use Rattle.std.specs.Prelude.{◌≡◌, ◌≤◌, ◌<ℤ◌, ◌++◌, ◌∷◌, length, OnOk, OnErr};
ghost use Rattle.span_io.specs.Varint.{varint_text};
ghost use Rattle.thrift_core.specs.Protocols.{last_size, list_of_type};
ghost use Rattle.thrift_spellings.specs.CompactTypeCodes as codes_of_types;
ghost use Rattle.thrift_spellings.specs.CompactSpelling as spelling;

use crate::type_codes::code;
use span_io::{Blob, OutOfMemory, Varint, zigzag};
use thrift_core::TypeCode;

// Appends a byte and then a varint.
#[inline(always)]
#[tactic(auto, using(crate::proofs::Written::of_varint))]
fn append_behind(out: &mut Blob, first: u8, n: u64) -> Result<(), OutOfMemory>
    ensures ok { OnOk result (out.new ≡ out.old ++ (first ∷ varint_text n)) }
    ensures err { OnErr result (out.new ≡ out.old) }
{
    if n < 128 {
        return out.append(&[first, n as u8]);
    }
    out.append_both(&[first], Varint::new(n).as_slice())
}

// Appends the head of a field of this code.
#[inline(always)]
pub(crate) fn append_header(out: &mut Blob, last: i16, id: i16, code: u8) -> Result<(), OutOfMemory>
    requires rises { last <ℤ id }
    requires small { code ≤ 12 }
    ensures ok { OnOk result (out.new ≡ out.old ++ spelling.field_id_text last id code) }
    ensures err { OnErr result (out.new ≡ out.old) }
{
    let difference = i32::from(id) - i32::from(last);
    if difference < 16 {
        return out.append(&[difference as u8 * 16 + code]);
    }
    append_behind(out, code, zigzag(i64::from(id)))
}

// Appends the head of a list.
#[inline(always)]
#[tactic(auto, using(crate::proofs::Written::of_list))]
pub(crate) fn append_list(out: &mut Blob, element: TypeCode, many: u32) -> Result<(), OutOfMemory>
    requires { many ≤ last_size }
    ensures ok { OnOk result
        (out.new ≡ out.old ++ spelling.list_head_text (list_of_type element many)) }
    ensures err { OnErr result (out.new ≡ out.old) }
{
    if many < 15 {
        return out.append(&[many as u8 * 16 + code(element)]);
    }
    append_behind(out, 240 + code(element), u64::from(many))
}

// Appends the number of some bytes, and then they.
#[inline(always)]
#[tactic(auto, using(crate::proofs::Written::of_varint))]
pub(crate) fn append_bytes(out: &mut Blob, value: &[u8]) -> Result<(), OutOfMemory>
    ensures ok { OnOk result (out.new ≡ out.old ++ (varint_text (length value.now) ++ value.now)) }
    ensures err { OnErr result (out.new ≡ out.old) }
{
    let size = value.len() as u64;
    if size < 128 {
        return out.append_both(&[size as u8], value);
    }
    out.append_both(Varint::new(size).as_slice(), value)
}
