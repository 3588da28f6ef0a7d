//! How deep values may be nested.
ghost use Rattle.std.specs.Prelude.{◌≡◌, Some};
ghost use Rattle.thrift_core.specs.Levels as order;
ghost use Rattle.thrift_core.specs.Levels.{why_none, why_no_pair};

use crate::type_code::TypeCode;
use span_io::Cause;

/// Why no value of this type, if it is one, may stand where so many levels are left.
#[inline(always)]
pub fn why_not(left: u8, kind: Option<TypeCode>) -> Option<Cause>
    ensures { result ≡ why_none left kind }
{
    match kind {
        None => Some(Cause::BadWire),
        Some(TypeCode::Struct | TypeCode::Map | TypeCode::Set | TypeCode::List) if left == 0 => {
            Some(Cause::TooDeep)
        }
        Some(_) => None,
    }
}

/// Why no pair of a key and a value of these types may.
#[inline(always)]
pub fn why_not_both(left: u8, key: Option<TypeCode>, value: Option<TypeCode>) -> Option<Cause>
    ensures { result ≡ why_no_pair left key value }
{
    match (why_not(left, key), why_not(left, value)) {
        (None, of_value) => of_value,
        (of_key, None) => of_key,
        (Some(of_key), Some(of_value)) => Some(counting(of_key, of_value)),
    }
}

// Of two causes at one place, the one that counts.
#[inline(always)]
fn counting(cause: Cause, other: Cause) -> Cause
    ensures { Some result ≡ order.counting (Some cause) (Some other) }
{
    if turn(cause) <= turn(other) {
        cause
    } else {
        other
    }
}

// When a cause counts.
#[inline(always)]
fn turn(cause: Cause) -> u8
    ensures { result ≡ order.turn_of cause }
{
    match cause {
        Cause::TooDeep => 1,
        Cause::BadVarint => 2,
        Cause::BadWire => 3,
        Cause::BadSize => 4,
        _ => 5,
    }
}
