//! Laws of the gauge, as contracts of functions that do nothing.
ghost use Rattle.std.specs.Prelude.{◌≡◌, ◌+◌, ◌%◌, ◌≤◌, ◌<◌, ◌^◌, ℕ};
ghost use Rattle.span_io.specs.declared.form.Form.{Form};
ghost use Rattle.span_convert.specs.Canonical.{IsHeldBy};
ghost use Rattle.span_vectors.specs.Gauge.{gauge, gauge_span, gauge_spans};
ghost use Rattle.span_vectors.specs.StatedLaws.{GaugeIsConverted};
ghost use Rattle.trace_model.specs.Flat.{flat};
ghost use Rattle.trace_model.specs.OtlpParts.{kind_number, code_number};

/// The spans of a gauge are those of the numbers from 1 on, each once, in order. Their kinds and codes
/// have these numbers (OTLP trace.proto `SpanKind`, `Status.StatusCode`).
pub fn gauge_is_numbered()
    ensures spans { (spans : ℕ) → flat (gauge spans) ≡ gauge_spans 1 spans }
    ensures kinds { (i : ℕ) → kind_number (gauge_span i).kind ≡ 1 + i % 5 }
    ensures codes { (i : ℕ) → code_number (gauge_span i).status.code ≡ i % 3 }
{
    // The clauses are the law.
}

/// Each form can hold a gauge. The request of one of at most a million spans is converted to each form
/// within the limits that the program has, with no cause and no fault.
pub fn gauge_is_converted()
    ensures held { (to : Form) (spans : ℕ) → spans < 2 ^ 32 → IsHeldBy to (gauge spans) }
    ensures converted { (to : Form) (spans : ℕ) → spans ≤ 1000000 → GaugeIsConverted to spans }
{
    proto_wire::laws::shortest_record();
    span_convert::laws::converts_to_itself();
    span_convert::laws::equal_texts();
}
