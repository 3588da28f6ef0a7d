//! Laws of the wire format, as contracts of functions that do nothing.
ghost use Rattle.span_io.specs.Framings.{OneFraming, OneStep};
ghost use Rattle.span_io.specs.Pieces.{PieceLaws};
ghost use Rattle.proto_wire.specs.StatedLaws.{OneWireReading, ShortestRecord, OpenWireFronts, MessageCuts};
ghost use Rattle.proto_wire.specs.Wire.{records, RefusedBy};

/// No record's text is a proper front of another's, and a text has one reading.
pub fn one_reading()
    ensures { OneWireReading }
{
    span_io::laws::varint_readings();
}

/// What is written is a spelling, and none is shorter.
pub fn shortest_record()
    ensures { ShortestRecord }
{
    span_io::laws::shortest_varint();
}

/// Where reading bytes as a record has neither ended nor refused them, they can be completed to a
/// record once a varint that isn't ended is dropped at their end.
pub fn open_fronts()
    ensures { OpenWireFronts }
{
    span_io::laws::varint_readings();
}

/// Bytes are in one way records of at most `limit` bytes each and a rest that begins with no such
/// record, which needs more bytes or is refused; and of two walks over such records one goes on
/// behind the other.
pub fn one_framing()
    ensures { OneFraming records RefusedBy }
{
    span_io::laws::varint_readings();
}

/// Bytes have one first step: a frame begins, they are refused with one cause, or they need more.
/// The empty bytes need more.
pub fn one_step()
    ensures { OneStep records RefusedBy }
{
    span_io::laws::varint_readings();
}

/// What the bytes so far decide stays decided, and a record that needed more of them ends in what
/// came then.
pub fn pieces()
    ensures { PieceLaws records RefusedBy }
{
    span_io::laws::varint_readings();
}

/// What the search for the offence that counts asks of messages, and that a message's records are
/// those that a walk to its end passes.
pub fn message_cuts()
    ensures { MessageCuts }
{
    span_io::laws::varint_readings();
}
