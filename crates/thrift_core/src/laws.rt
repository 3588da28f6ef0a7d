//! Laws of the wire format over any protocol, as contracts of functions that do nothing.
ghost use Rattle.span_io.specs.Framings.{OneFraming, OneStep};
ghost use Rattle.span_io.specs.Pieces.{PieceLaws};
ghost use Rattle.thrift_core.specs.StatedLaws.{OneReading, OpenFronts, PartsReadBack, WrittenStructs};
ghost use Rattle.thrift_core.specs.Protocols.{UnfinishedWithin, most_unfinished};
ghost use Rattle.thrift_core.specs.Values.{struct_frames, RefusedStruct};

use crate::parts::Parts;

/// A text has one reading, and no struct's text is a proper front of another's.
pub fn one_reading<P: Parts>()
    ensures { OneReading P.spells }
{}

/// What is written is read back, whatever follows.
pub fn reads_back<P: Parts>()
    ensures { PartsReadBack P.reads P.keeps P.writes }
{}

/// What is written of the fields of a struct, part by part, is their text, whatever follows.
pub fn written_structs<P: Parts>()
    ensures { WrittenStructs P.spells P.keeps P.writes }
{}

/// Bytes have one first step: a struct begins, they are refused with one cause, or they need more.
/// The empty bytes need more.
pub fn one_step<P: Parts>()
    ensures { OneStep (struct_frames P.spells P.then_varint) (RefusedStruct P.spells P.refuses) }
{}

/// Bytes are in one way structs of at most `limit` bytes each and a rest that begins with no such
/// struct, which needs more bytes or is refused; and of two walks over such structs one goes on
/// behind the other.
pub fn one_framing<P: Parts>()
    ensures { OneFraming (struct_frames P.spells P.then_varint) (RefusedStruct P.spells P.refuses) }
{}

/// What the bytes so far decide stays decided, and a struct that needed more of them ends in what
/// came then.
pub fn pieces<P: Parts>()
    ensures { PieceLaws (struct_frames P.spells P.then_varint) (RefusedStruct P.spells P.refuses) }
{}

/// Where a walk over a struct has neither ended nor refused the bytes, they can be completed to a
/// struct once a varint that isn't ended is dropped at their end.
pub fn open_fronts<P: Parts>()
    ensures { OpenFronts P.spells P.reads (struct_frames P.spells P.then_varint)
        (RefusedStruct P.spells P.refuses) }
{}

/// A part that isn't whole yet has at most ten bytes.
pub fn few_bytes<P: Parts>()
    ensures { UnfinishedWithin most_unfinished P.reads }
{}
