//! Laws of the outside and of varints, as contracts of functions that do nothing.
ghost use Rattle.span_io.specs.Frames.{AreBytes};
ghost use Rattle.span_io.specs.Outside.{GainLaws};
ghost use Rattle.span_io.specs.VarintLaws.{VarintLaws, ShortestLaws};

/// What a sink gains in no call, and in one after the other.
pub fn gains_then()
    ensures { GainLaws }
{
    // The clause is the law.
}

/// What stands at the front of some bytes: a spelling of one number, the inside of a varint, or ten
/// bytes that are none.
pub fn varint_readings()
    ensures { VarintLaws }
{
    // The clause is the law.
}

/// Each number below 2 ^ 64 has one shortest spelling, which is the one that is written.
pub fn shortest_varint()
    ensures { ShortestLaws }
{
    // The clause is the law.
}

/// The numbers of a slice of bytes are bytes.
pub fn proper_bytes(bytes: &[u8])
    ensures { AreBytes bytes.now }
{
    'bytes: for byte in bytes {
        let _byte = *byte;
    }
}
