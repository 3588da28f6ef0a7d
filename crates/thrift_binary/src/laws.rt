//! Laws of the protocol, as contracts of functions that do nothing.
ghost use Rattle.thrift_spellings.specs.BinaryReading.{binary_reads};
ghost use Rattle.thrift_spellings.specs.BinaryTypeCodes.{BinaryCodes};
ghost use Rattle.thrift_core.specs.Protocols.{UnfinishedWithin};

/// Each type has one code, and no two types share one.
pub fn type_codes()
    ensures { BinaryCodes }
{}

/// A part that isn't whole yet has at most seven bytes.
pub fn few_bytes()
    ensures { UnfinishedWithin 7 binary_reads }
{}
