//! The codes of types in the compact protocol.
ghost use Rattle.std.specs.Prelude.{◌≡◌, ◌≤◌};
ghost use Rattle.thrift_spellings.specs.CompactTypeCodes as codes_of_types;

use thrift_core::TypeCode;

// The type that has this code.
#[inline(always)]
#[tactic(auto, unfolding(thrift_spellings::specs::CompactTypeCodes::compact_kind_of_code))]
pub(crate) fn type_of(code: u8) -> Option<TypeCode>
    ensures { result ≡ codes_of_types.compact_kind_of_code code }
{
    match code {
        1 | 2 => Some(TypeCode::Truth),
        3 => Some(TypeCode::I8),
        4 => Some(TypeCode::I16),
        5 => Some(TypeCode::I32),
        6 => Some(TypeCode::I64),
        7 => Some(TypeCode::Eight),
        8 => Some(TypeCode::Binary),
        9 => Some(TypeCode::List),
        10 => Some(TypeCode::Set),
        11 => Some(TypeCode::Map),
        12 => Some(TypeCode::Struct),
        _ => None,
    }
}

// The truth value that the head of a field of this code holds.
#[inline(always)]
#[tactic(auto, unfolding(thrift_spellings::specs::CompactTypeCodes::held_by_code))]
pub(crate) fn held_of(code: u8) -> Option<bool>
    ensures { result ≡ codes_of_types.held_by_code code }
{
    match code {
        1 => Some(true),
        2 => Some(false),
        _ => None,
    }
}

#[inline(always)]
pub(crate) fn code(kind: TypeCode) -> u8
    ensures exact { result ≡ codes_of_types.compact_code_of kind }
    ensures small { result ≤ 12 }
{
    match kind {
        TypeCode::Truth => 1,
        TypeCode::I8 => 3,
        TypeCode::I16 => 4,
        TypeCode::I32 => 5,
        TypeCode::I64 => 6,
        TypeCode::Eight => 7,
        TypeCode::Binary => 8,
        TypeCode::List => 9,
        TypeCode::Set => 10,
        TypeCode::Map => 11,
        TypeCode::Struct => 12,
    }
}

// The code of a field that holds this truth value, if it holds one.
#[inline(always)]
pub(crate) fn field_code(kind: TypeCode, held: Option<bool>) -> u8
    ensures exact { result ≡ codes_of_types.field_code kind held }
    ensures small { result ≤ 12 }
{
    match held {
        Some(true) => 1,
        Some(false) => 2,
        None => code(kind),
    }
}
