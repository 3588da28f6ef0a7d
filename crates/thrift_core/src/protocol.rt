//! What a protocol of Thrift is.
ghost use Rattle.thrift_core.specs.Values.{FindsStructs};

use crate::parts::Parts;
use span_io::Scan;

/// A protocol of Thrift, with all that a converter wants of it.
pub trait Protocol: Parts {
    /// Finds where the structs of a stream end.
    type Scanner: Scan + Drop;

    ghost finds_structs: { FindsStructs Self.Scanner.framing Self.Scanner.refuses Self.spells Self.then_varint Self.refuses };
}
