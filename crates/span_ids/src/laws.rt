//! Laws over all identifiers. The function does nothing: its contract is the laws.
ghost use Rattle.span_ids.specs.StatedLaws.{IdentifiersReadBack};

/// The bytes of an identifier spell it, and bytes spell at most one identifier.
pub fn identifiers_read_back()
    ensures { IdentifiersReadBack }
{
    // The clause is the law.
}
