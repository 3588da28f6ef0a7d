/// The types of values in a Thrift text. A protocol gives each its own code. `Eight` is a double, whose eight bytes are
/// kept as they are.
#[derive(Clone, Copy, PartialEq, Eq)]
pub enum TypeCode {
    Truth,
    I8,
    I16,
    I32,
    I64,
    Eight,
    Binary,
    Struct,
    Map,
    Set,
    List,
}
