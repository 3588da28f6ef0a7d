//! The codes of types in the binary protocol.
ghost use Rattle.std.specs.Prelude.{◌≡◌};
ghost use Rattle.thrift_spellings.specs.BinaryTypeCodes.{binary_code_of, binary_kind_of_code};

use thrift_core::TypeCode;

// The type that has this code.
#[inline(always)]
#[tactic(auto, unfolding(thrift_spellings::specs::BinaryTypeCodes::binary_kind_of_code, thrift_spellings::specs::BinaryTypeCodes::kind_among))]
pub(crate) fn type_of(code: u8) -> Option<TypeCode>
    ensures { result ≡ binary_kind_of_code code }
{
    match code {
        2 => Some(TypeCode::Truth),
        3 => Some(TypeCode::I8),
        4 => Some(TypeCode::Eight),
        6 => Some(TypeCode::I16),
        8 => Some(TypeCode::I32),
        10 => Some(TypeCode::I64),
        11 => Some(TypeCode::Binary),
        12 => Some(TypeCode::Struct),
        13 => Some(TypeCode::Map),
        14 => Some(TypeCode::Set),
        15 => Some(TypeCode::List),
        _ => None,
    }
}

#[inline(always)]
pub(crate) fn code(kind: TypeCode) -> u8
    ensures { result ≡ binary_code_of kind }
{
    match kind {
        TypeCode::Truth => 2,
        TypeCode::I8 => 3,
        TypeCode::Eight => 4,
        TypeCode::I16 => 6,
        TypeCode::I32 => 8,
        TypeCode::I64 => 10,
        TypeCode::Binary => 11,
        TypeCode::Struct => 12,
        TypeCode::Map => 13,
        TypeCode::Set => 14,
        TypeCode::List => 15,
    }
}
