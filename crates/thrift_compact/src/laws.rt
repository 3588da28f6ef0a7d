//! Laws of the protocol, as contracts of functions that do nothing.
ghost use Rattle.thrift_spellings.specs.CompactTypeCodes.{CompactCodes};

/// Each type has one code, but a truth value, which has two, and no two types share one.
pub fn type_codes()
    ensures { CompactCodes }
{}
