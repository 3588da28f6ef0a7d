//! Identifiers as the bits of signed numbers (jaeger.thrift).
ghost use Rattle.std.specs.Prelude.{◌≡◌};
ghost use Rattle.jaeger_model.specs.Identifiers.{span_id_of, trace_id_of};

use span_ids::{SpanId, TraceId};

/// The identifier of a trace by its halves; zero is none.
pub fn trace_of(high: i64, low: i64) -> Option<TraceId>
    ensures { result ≡ trace_id_of high low }
{
    TraceId::from_halves(high.cast_unsigned(), low.cast_unsigned()).ok()
}

/// The identifier of a span; zero is none.
pub fn span_of(id: i64) -> Option<SpanId>
    ensures { result ≡ span_id_of id }
{
    SpanId::from_number(id.cast_unsigned()).ok()
}
