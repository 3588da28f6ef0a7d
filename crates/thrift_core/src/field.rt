//! The heads of fields, lists and maps.
use crate::type_code::TypeCode;

/// The head of a field: its id, its type, and the truth value that the head itself holds (compact protocol).
#[derive(Clone, Copy, PartialEq, Eq)]
pub struct Field {
    pub id: i16,
    pub kind: TypeCode,
    pub held: Option<bool>,
}

/// The head of a list or set: the type of its elements, which only an empty one may lack, and their number.
#[derive(Clone, Copy, PartialEq, Eq)]
pub struct ListHead {
    pub element: Option<TypeCode>,
    pub size: u32,
}

/// The head of a map: the types of its keys and values, which only an empty one may lack, and the number of its pairs.
#[derive(Clone, Copy, PartialEq, Eq)]
pub struct MapHead {
    pub key: Option<TypeCode>,
    pub value: Option<TypeCode>,
    pub size: u32,
}
