//! What a path takes, and in which media types.
ghost use Rattle.std.specs.Prelude.{◌≡◌};
ghost use Rattle.http_conn.specs.Services.{form_taken, is_type, service_at};

use crate::media::is_type;
use span_io::Form;

/// What is served at a path.
#[derive(Clone, Copy, PartialEq, Eq)]
pub enum Service {
    /// OTLP/HTTP's `/v1/traces`.
    Otlp,
    /// Jaeger's `/api/traces`.
    Jaeger,
    /// Zipkin's `/api/v2/spans`.
    Zipkin,
}

impl Service {
    /// What is served at a path, if anything is.
    pub fn at(path: &[u8]) -> Option<Service>
        ensures { result ≡ service_at path.now }
    {
        if path == b"/v1/traces".as_slice() {
            return Some(Service::Otlp);
        }
        if path == b"/api/traces".as_slice() {
            return Some(Service::Jaeger);
        }
        if path == b"/api/v2/spans".as_slice() {
            return Some(Service::Zipkin);
        }
        None
    }

    /// The form of a body of this media type (RFC 9110, section 8.3.1), if it is taken.
    pub fn form_of(self, media: &[u8]) -> Option<Form>
        ensures { result ≡ form_taken self media.now }
    {
        match self {
            Service::Otlp => otlp_form(media),
            Service::Jaeger => jaeger_form(media),
            Service::Zipkin => zipkin_form(media),
        }
    }
}

fn otlp_form(media: &[u8]) -> Option<Form>
    ensures { result ≡ form_taken Service.Otlp media.now }
{
    if is_type(media, b"application/x-protobuf") {
        return Some(Form::OtlpProto);
    }
    if is_type(media, b"application/json") {
        return Some(Form::OtlpJson);
    }
    None
}

fn jaeger_form(media: &[u8]) -> Option<Form>
    ensures { result ≡ form_taken Service.Jaeger media.now }
{
    if is_type(media, b"application/x-thrift") {
        return Some(Form::JaegerBinary);
    }
    if is_type(media, b"application/vnd.apache.thrift.binary") {
        return Some(Form::JaegerBinary);
    }
    None
}

fn zipkin_form(media: &[u8]) -> Option<Form>
    ensures { result ≡ form_taken Service.Zipkin media.now }
{
    if is_type(media, b"application/json") {
        return Some(Form::ZipkinJson);
    }
    None
}
