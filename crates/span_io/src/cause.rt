//! Why an input is refused, each with its number.
ghost use Rattle.std.specs.Prelude.{◌≡◌};
ghost use Rattle.span_io.specs.Causes.{cause_number, cause_name};

/// Why an input has no reading. Each cause has a number, which never changes, and a name, which
/// notes print.
#[derive(Clone, Copy, Debug, PartialEq, Eq)]
pub enum Cause {
    /// The bytes, or the enclosing message, end inside an item.
    Truncated,
    /// A varint has more than ten bytes, or a tenth byte above 1 (proto3 wire format), or the value
    /// of an i16 or i32 is outside its type (Thrift compact protocol).
    BadVarint,
    /// A wire type, type code, field number or field id is outside its table (proto3 wire format,
    /// Thrift binary and compact protocols).
    BadWire,
    /// A size or length is negative or above 2,147,483,647 (Thrift binary and compact protocols).
    BadSize,
    /// A value lies deeper than 24 levels, or a Thrift container at level 33.
    TooDeep,
    /// A unit has more bytes than its limit, or a length in it says so.
    UnitTooLong,
    /// A known singular field stands twice in one message, or one value has two members.
    FieldTwice,
    /// A required field (jaeger.thrift) or member (Zipkin v2) is absent.
    Missing,
    /// A text field is not UTF-8.
    NotText,
    /// The bytes are no JSON text (RFC 8259), or one that nests deeper than 127 levels.
    BadJson,
    /// A JSON value is not of the shape that its member has.
    BadShape,
    /// An identifier is zero, or of another length or spelling.
    BadId,
    /// An enum value is outside its table.
    BadEnum,
    /// A known list that isn't empty names another element type (jaeger.thrift).
    BadElement,
    /// A value is a double, which otlp-json doesn't hold exactly (OTLP/JSON).
    DoubleInJson,
    /// A count of microseconds, or a start and a duration together, is negative or above
    /// 18446744073709551, the last whose nanoseconds fit 64 bits.
    BadTime,
    /// The input has more bytes than its limit.
    InputTooLong,
}

impl Cause {
    pub fn number(&self) -> u8
        ensures { result ≡ cause_number self.now }
    {
        match self {
            Cause::Truncated => 1,
            Cause::BadVarint => 2,
            Cause::BadWire => 3,
            Cause::BadSize => 4,
            Cause::TooDeep => 5,
            Cause::UnitTooLong => 6,
            Cause::FieldTwice => 7,
            Cause::Missing => 8,
            Cause::NotText => 9,
            Cause::BadJson => 10,
            Cause::BadShape => 11,
            Cause::BadId => 12,
            Cause::BadEnum => 13,
            Cause::BadElement => 14,
            Cause::DoubleInJson => 15,
            Cause::BadTime => 16,
            Cause::InputTooLong => 17,
        }
    }

    pub fn name(&self) -> &'static str
        ensures { result.now ≡ cause_name self.now }
    {
        match self {
            Cause::Truncated => "Truncated",
            Cause::BadVarint => "BadVarint",
            Cause::BadWire => "BadWire",
            Cause::BadSize => "BadSize",
            Cause::TooDeep => "TooDeep",
            Cause::UnitTooLong => "UnitTooLong",
            Cause::FieldTwice => "FieldTwice",
            Cause::Missing => "Missing",
            Cause::NotText => "NotText",
            Cause::BadJson => "BadJson",
            Cause::BadShape => "BadShape",
            Cause::BadId => "BadId",
            Cause::BadEnum => "BadEnum",
            Cause::BadElement => "BadElement",
            Cause::DoubleInJson => "DoubleInJson",
            Cause::BadTime => "BadTime",
            Cause::InputTooLong => "InputTooLong",
        }
    }
}
