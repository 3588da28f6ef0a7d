//! Keys to which the table gives a meaning of their own.
ghost use Rattle.std.specs.Prelude.{◌≡◌, false, option_map};
ghost use Rattle.std.specs.List.{list_any};
ghost use Rattle.map_zipkin.specs.Keys as told;
ghost use Rattle.map_zipkin.specs.OwnColumns as own;
ghost use Rattle.map_zipkin.specs.Reading as meant;
ghost use Rattle.map_zipkin.specs.Writing as written;

use crate::columns::is_column;
use crate::own::{OWN_KEYS, is_key_of, may_be_own};
use span_tags::Reserves;
use trace_model::Attrs;

/// The key of the resource's attribute, behind the prefix.
pub(crate) fn resource_key(key: &str) -> Option<&str>
    ensures { option_map (λ key. key.now) result ≡ told.resource_key key.now }
{
    key.strip_prefix("otel.resource.")
}

// Whether a key may be reserved: it begins with the same byte as one that is, as few others do.
fn may_be_reserved(key: &str) -> bool
    ensures { result ≡ false → told.is_zipkin_reserved key.now ≡ false }
{
    matches!(key.as_bytes(), [b'e' | b'o' | b'w', ..])
}

/// The keys that are reserved on a span.
pub(crate) struct Spans;

impl Reserves for Spans {
    ghost reserved = { told.is_zipkin_reserved };

    fn is_reserved(key: &str) -> bool {
        may_be_reserved(key) && (is_column(key) || resource_key(key).is_some())
    }
}

/// Whether one of the tags may stand under a reserved key. Those of most spans don't.
pub(crate) fn may_hold_reserved(tags: &Attrs) -> bool
    ensures { result ≡ false → list_any (λ tag. told.is_zipkin_reserved tag.0) tags.now ≡ false }
{
    'tags: for tag in tags.as_slice() {
        if may_be_reserved(tag.0.as_str()) {
            return true;
        }
    }
    false
}

/// Whether it is one of Zipkin's own.
pub(crate) fn is_own(key: &str) -> bool
    ensures { result ≡ own.is_own key.now }
{
    may_be_own(key) && is_key_of(key, &OWN_KEYS)
}

/// Whether an attribute of the key is written as a tag.
pub(crate) fn is_told(key: &str) -> bool
    ensures { result ≡ written.is_told key.now }
{
    !is_own(key) && "peer.service" != key
}

/// Whether a tag of the key is an attribute.
pub(crate) fn is_free(key: &str) -> bool
    ensures { result ≡ meant.is_free_tag key.now }
{
    !Spans::is_reserved(key) && is_told(key)
}
