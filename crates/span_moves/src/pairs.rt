//! What each form makes of the normal form of another.
ghost use Rattle.span_moves.specs.Pairs.{FromJaegerToZipkin, FromZipkinToJaeger};

/// Where both can hold groups, Jaeger can hold their normal form of Zipkin. Where the groups are their
/// own normal form of Jaeger, as all that is read of it, so is that one.
pub fn from_jaeger_to_zipkin()
    ensures { FromJaegerToZipkin }
{
    map_zipkin::laws::zipkin_normal_forms();
    trace_model::laws::texts_for_bytes();
}

/// Where both can hold groups, Zipkin can hold their normal form of Jaeger. Where the groups are their
/// own normal form of Zipkin, as all that is read of it, so is that one.
pub fn from_zipkin_to_jaeger()
    ensures { FromZipkinToJaeger }
{
    map_jaeger::laws::normal_forms();
    map_zipkin::laws::regroupings();
}
