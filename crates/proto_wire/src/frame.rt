//! The next record of an input, whose bytes come in pieces.
ghost use Rattle.std.specs.Prelude.{◌≡◌, ◌↔◌, ◌≤◌, length, true};
ghost use Rattle.span_io.specs.declared.step.Step.{Step};
ghost use Rattle.proto_wire.specs.Wire.{IsOpenRecord, HoldsLengthPast, FirstIs, NeedsMoreBytes};

use crate::reading::{field_of, next, number};
use span_io::{Cause, Cursor, Step};

// Whether a length is there, whole, by which the record has more bytes than the limit.
fn ends_past(bytes: &[u8], limit: usize) -> bool
    requires { length bytes.now ≤ limit }
    ensures exact { (result ≡ true) ↔ HoldsLengthPast limit bytes.now }
{
    span_io::laws::varint_readings();
    let mut c = Cursor::new(bytes);
    let key = match number(&mut c) {
        Ok(key) => key,
        Err(_) => return false,
    };
    match field_of(key) {
        Ok(_) => {}
        Err(_) => return false,
    }
    if key % 8 != 2 {
        return false;
    }
    match number(&mut c) {
        Ok(held) => held > (limit - c.place()) as u64,
        Err(_) => false,
    }
}

// What open bytes come to: they need more, or are too long.
fn open_bytes(bytes: &[u8], limit: usize) -> Step
    requires within { length bytes.now ≤ limit }
    requires may_come { IsOpenRecord bytes.now }
    ensures told { FirstIs limit bytes.now result }
{
    span_io::laws::varint_readings();
    if bytes.len() == limit {
        return Step::Refused(Cause::UnitTooLong);
    }
    if ends_past(bytes, limit) {
        return Step::Refused(Cause::UnitTooLong);
    }
    Step::Need
}

// The first step of at most `limit` bytes.
fn first(bytes: &[u8], limit: usize) -> Step
    requires { length bytes.now ≤ limit }
    ensures told { FirstIs limit bytes.now result }
{
    span_io::laws::varint_readings();
    let mut c = Cursor::new(bytes);
    match next(&mut c) {
        Ok(Some(_record)) => Step::Unit(c.place()),
        Ok(None) => open_bytes(bytes, limit),
        Err(cause) => match cause {
            Cause::Truncated => open_bytes(bytes, limit),
            _ => Step::Refused(cause),
        },
    }
}

// The first step of bytes, of which at most `limit` are looked at. What a record holds isn't.
pub(crate) fn first_frame(bytes: &[u8], limit: usize) -> Step
    ensures told { FirstIs limit bytes.now result }
    ensures need { (result ≡ Step.Need) ↔ NeedsMoreBytes limit bytes.now }
{
    span_io::laws::varint_readings();
    first(&bytes[..bytes.len().min(limit)], limit)
}
