//! What the values under keys of the table say.
ghost use Rattle.std.specs.Prelude.{◌≡◌, option_map};
ghost use Rattle.map_jaeger.specs.ColumnWords as meant;

use span_tags::text_in;
use trace_model::{Kind, Value};

/// `span.kind`.
pub(crate) fn kind_in(value: Option<&Value>) -> Option<Kind>
    ensures { result ≡ meant.kind_in (option_map (λ v. v.now) value.entry) }
{
    let text = text_in(value)?;
    kind_named(text)
}

fn kind_named(text: &str) -> Option<Kind>
    ensures { result ≡ meant.kind_named text.now }
{
    if text == "client" {
        return Some(Kind::Client);
    }
    if text == "consumer" {
        return Some(Kind::Consumer);
    }
    if text == "internal" {
        return Some(Kind::Internal);
    }
    if text == "producer" {
        return Some(Kind::Producer);
    }
    if text == "server" {
        return Some(Kind::Server);
    }
    None
}

/// `error`.
pub(crate) fn error_in(value: Option<&Value>) -> Option<bool>
    ensures { result ≡ meant.error_in (option_map (λ v. v.now) value.entry) }
{
    let value = value?;
    truth_of(value)
}

fn truth_of(value: &Value) -> Option<bool>
    ensures { result ≡ meant.error_in (Some value.now) }
{
    match value {
        Value::Truth(truth) => Some(*truth),
        Value::Text(text) => truth_named(text.as_str()),
        _ => None,
    }
}

fn truth_named(text: &str) -> Option<bool>
    ensures { result ≡ meant.truth_named text.now }
{
    if text == "true" {
        return Some(true);
    }
    if text == "false" {
        return Some(false);
    }
    None
}
