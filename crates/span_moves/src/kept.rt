//! What a normal form keeps of a trace, and that none makes a double.
ghost use Rattle.span_moves.specs.Keeps.{SpansKept, NoDoubleMade};

/// The normal form of each target keeps every span in its place, and with its links but for Zipkin,
/// which has none.
pub fn spans_kept()
    ensures { SpansKept }
{
    map_zipkin::laws::regroupings();
}

/// Where no double stands in a trace, none stands in its normal forms.
pub fn no_double_made()
    ensures { NoDoubleMade }
{
    trace_model::laws::texts_for_bytes();
    map_zipkin::laws::regroupings();
}
