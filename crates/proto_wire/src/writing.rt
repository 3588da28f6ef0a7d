//! Records of a protobuf message, written.
ghost use Rattle.std.specs.Prelude.{◌≡◌, ◌+◌, ◌*◌, ◌<◌, ◌≤◌, ◌++◌, ℕ, List, length, take, drop, OnOk, OnErr};
ghost use Rattle.span_io.specs.Varint.{varint_text};
ghost use Rattle.span_io.specs.Outside.{GrowsFront};
ghost use Rattle.proto_wire.specs.Records.{IsFieldNumber, plain_payload};
ghost use Rattle.proto_wire.specs.Wire.{record_text, opening_text};

use crate::record::Payload;
use span_io::{Blob, OutOfMemory};

// The number of bytes of the shortest varint.
#[inline(always)]
fn varint_size(n: u64) -> u64
    ensures exact { result ≡ length (varint_text n) }
    ensures small { result ≤ 10 }
{
    if n < 128 {
        return 1;
    }
    if n < 16_384 {
        return 2;
    }
    long_size(n)
}

#[inline(never)]
fn long_size(n: u64) -> u64
    ensures exact { result ≡ length (varint_text n) }
    ensures small { result ≤ 10 }
{
    let mut rest = n;
    'groups: for passed in 0..9_u64 {
        if rest < 128 {
            return passed + 1;
        }
        rest /= 128;
    }
    10
}

// Appends the varint that begins a record.
#[inline(always)]
#[tactic(auto, using(crate::proofs::Shortest::in_pieces))]
fn write_key(out: &mut Blob, number: u32, wire_type: u64) -> Result<(), OutOfMemory>
    requires { wire_type < 8 }
    ensures ok { OnOk result (out.new ≡ out.old ++ varint_text (number * 8 + wire_type)) }
    ensures err { OnErr result (GrowsFront out.old out.new (varint_text (number * 8 + wire_type))) }
{
    out.append_varint(u64::from(number) * 8 + wire_type)
}

// The number of bytes of the varint that begins a record.
#[inline(always)]
fn key_size(number: u32, wire_type: u64) -> u64
    requires { wire_type < 8 }
    ensures exact { result ≡ length (varint_text (number * 8 + wire_type)) }
    ensures small { result ≤ 10 }
{
    varint_size(u64::from(number) * 8 + wire_type)
}

/// The number of bytes that a record takes.
#[tactic(auto, using(crate::proofs::Shortest::in_pieces), unfolding(crate::specs::Wire::record_text, crate::specs::Wire::opening_text))]
pub fn record_size(number: u32, payload: &Payload<'_>) -> u64
    requires { IsFieldNumber number }
    ensures { result
        ≡ length (record_text (record { number = number; held = plain_payload payload.now })) }
{
    match payload {
        Payload::Varint(n) => key_size(number, 0) + varint_size(*n),
        Payload::Fixed64(_) => key_size(number, 1) + 8,
        Payload::Bytes(held) => {
            let size = held.len() as u64;
            opening_size(number, size) + size
        }
        Payload::Fixed32(_) => key_size(number, 5) + 4,
    }
}

/// Appends a record in its shortest spelling. Where memory is wanted, a front of it was appended.
#[tactic(auto, using(crate::proofs::Shortest::in_pieces), unfolding(crate::specs::Wire::record_text, crate::specs::Wire::opening_text))]
pub fn write_record(out: &mut Blob, number: u32, payload: Payload<'_>) -> Result<(), OutOfMemory>
    requires { IsFieldNumber number }
    ensures ok { OnOk result
        (out.new
        ≡ out.old ++ record_text (record { number = number; held = plain_payload payload.entry })) }
    ensures err { OnErr result (GrowsFront out.old out.new
        (record_text (record { number = number; held = plain_payload payload.entry }))) }
{
    match payload {
        Payload::Varint(n) => {
            write_key(out, number, 0)?;
            out.append_varint(n)
        }
        Payload::Fixed64(n) => {
            write_key(out, number, 1)?;
            out.append(&n.to_le_bytes())
        }
        Payload::Bytes(held) => {
            write_opening(out, number, held.len() as u64)?;
            out.append(held)
        }
        Payload::Fixed32(n) => {
            write_key(out, number, 5)?;
            out.append(&n.to_le_bytes())
        }
    }
}

/// The number of bytes that stand before the bytes of a record of wire type 2 that holds `size` bytes.
#[tactic(auto, using(crate::proofs::Shortest::in_pieces), unfolding(crate::specs::Wire::record_text, crate::specs::Wire::opening_text))]
pub fn opening_size(number: u32, size: u64) -> u64
    requires { IsFieldNumber number }
    ensures exact { result ≡ length (opening_text number size) }
    ensures small { result ≤ 20 }
{
    key_size(number, 2) + varint_size(size)
}

// Appends what stands before the bytes of a record of wire type 2 that holds `size` bytes.
#[tactic(auto, using(crate::proofs::Shortest::in_pieces), unfolding(crate::specs::Wire::record_text, crate::specs::Wire::opening_text))]
fn write_opening(out: &mut Blob, number: u32, size: u64) -> Result<(), OutOfMemory>
    requires { IsFieldNumber number }
    ensures ok { OnOk result (out.new ≡ out.old ++ opening_text number size) }
    ensures err { OnErr result (GrowsFront out.old out.new (opening_text number size)) }
{
    write_key(out, number, 2)?;
    out.append_varint(size)
}

/// Opens a record of wire type 2: appends its key and the length of no bytes, or nothing. Its bytes
/// are to come behind, and `close_record` then gives it their length.
#[inline(always)]
#[tactic(auto, using(crate::proofs::LengthsSet::short_opening))]
pub fn open_record(out: &mut Blob, number: u32) -> Result<(), OutOfMemory>
    requires { IsFieldNumber number }
    ensures ok { OnOk result (out.new ≡ out.old ++ opening_text number 0) }
    ensures err { OnErr result (out.new ≡ out.old) }
{
    if number < 16 {
        return out.append(&[(number * 8 + 2) as u8, 0]);
    }
    open_long(out, number)
}

#[inline(never)]
fn open_long(out: &mut Blob, number: u32) -> Result<(), OutOfMemory>
    requires { IsFieldNumber number }
    ensures ok { OnOk result (out.new ≡ out.old ++ opening_text number 0) }
    ensures err { OnErr result (out.new ≡ out.old) }
{
    let begins = out.len();
    match write_opening(out, number, 0) {
        Ok(()) => Ok(()),
        Err(want) => {
            out.truncate(begins);
            Err(want)
        }
    }
}

// Puts the shortest varint in the place of a byte. Only one of more than a byte moves what stands behind it.
#[inline(always)]
fn set_varint(out: &mut Blob, place: usize, n: u64) -> Result<(), OutOfMemory>
    requires { place < length out.old }
    ensures ok { OnOk result
        (out.new ≡ take place out.old ++ (varint_text n ++ drop (place + 1) out.old)) }
    ensures err { OnErr result (take place out.new ≡ take place out.old) }
{
    if n < 128 {
        out.set(place, n as u8);
        return Ok(());
    }
    set_long(out, place, n)
}

#[inline(never)]
fn set_long(out: &mut Blob, place: usize, n: u64) -> Result<(), OutOfMemory>
    requires { place < length out.old }
    ensures ok { OnOk result
        (out.new ≡ take place out.old ++ (varint_text n ++ drop (place + 1) out.old)) }
    ensures err { OnErr result (take place out.new ≡ take place out.old) }
{
    let behind = out.len() - place;
    let mut rest = n;
    'groups: for _passed in 0..9_u64 {
        let at = out.len() - behind;
        if rest < 128 {
            out.set(at, rest as u8);
            return Ok(());
        }
        out.insert(at, (128 + rest % 128) as u8)?;
        rest /= 128;
    }
    let last = out.len() - behind;
    out.set(last, rest as u8);
    Ok(())
}

/// Gives the record that was opened at `begins` the length of what stands behind its opening. Only
/// a length of more than a byte moves those bytes. Where memory is wanted, the record is cut off.
#[inline(always)]
pub fn close_record(out: &mut Blob, number: u32, begins: usize) -> Result<(), OutOfMemory>
    requires number { IsFieldNumber number }
    requires opened { begins + length (opening_text number 0) ≤ length out.old }
    ensures ok { (before held : List ℕ) → begins ≡ length before
        → out.old ≡ (before ++ opening_text number 0) ++ held
        → OnOk result (out.new ≡ before ++ (opening_text number (length held) ++ held)) }
    ensures err { OnErr result (out.new ≡ take begins out.old) }
{
    let end = out.len();
    let place = begins + key_size(number, 2) as usize;
    match set_varint(out, place, (end - (place + 1)) as u64) {
        Ok(()) => Ok(()),
        Err(want) => {
            out.truncate(begins);
            Err(want)
        }
    }
}
