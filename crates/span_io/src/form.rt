//! The forms of spans, and their words.
ghost use Rattle.std.specs.Prelude.{◌≡◌, ◌↔◌, Some};
ghost use Rattle.span_io.specs.Forms.{form_word};
ghost use Rattle.span_io.specs.declared.form.Form.{Form};

/// A form of spans that is read and written so far.
#[derive(Clone, Copy, PartialEq, Eq)]
pub enum Form {
    /// OTLP `ExportTraceServiceRequest` in the proto3 wire format.
    OtlpProto,
    /// The same message in OTLP/JSON.
    OtlpJson,
    /// Batches of `jaeger.thrift`, one after the other, in the Thrift binary protocol.
    JaegerBinary,
    /// The same batches in the Thrift compact protocol.
    JaegerCompact,
    /// Spans of the Zipkin v2 API, in a JSON array.
    ZipkinJson,
}

impl Form {
    /// The form that a word of the command line names, as `otlp-proto`.
    pub fn of_word(word: &[u8]) -> Option<Form>
        ensures { (form : Form) → (result ≡ Some form) ↔ (word.now ≡ form_word form) }
    {
        if word == b"otlp-proto".as_slice() {
            return Some(Form::OtlpProto);
        }
        if word == b"otlp-json".as_slice() {
            return Some(Form::OtlpJson);
        }
        if word == b"jaeger-binary".as_slice() {
            return Some(Form::JaegerBinary);
        }
        if word == b"jaeger-compact".as_slice() {
            return Some(Form::JaegerCompact);
        }
        if word == b"zipkin-json".as_slice() {
            return Some(Form::ZipkinJson);
        }
        None
    }
}
