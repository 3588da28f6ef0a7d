//! The keys of Zipkin's own.
ghost use Rattle.std.specs.Prelude.{◌≡◌, false, is_some, option_map};
ghost use Rattle.span_tags.specs.Columns.{is_key};
ghost use Rattle.map_zipkin.specs.OwnColumns as columns;
ghost use Rattle.map_zipkin.specs.OwnColumns.{own_in, own_row};

use span_io::Text;
use trace_model::{Attrs, Value};

/// An attribute under a key of Zipkin's own: what a span has there and a trace has no place for.
#[derive(Clone, Copy)]
pub(crate) enum Own {
    Debug,
    LocalIpv4,
    LocalIpv6,
    LocalPort,
    RemoteIpv4,
    RemoteIpv6,
    RemotePort,
    Shared,
}

/// All of them, by rising keys.
pub(crate) const OWN_KEYS: [Own; 8] = [
    Own::Debug,
    Own::LocalIpv4,
    Own::LocalIpv6,
    Own::LocalPort,
    Own::RemoteIpv4,
    Own::RemoteIpv6,
    Own::RemotePort,
    Own::Shared,
];

impl Own {
    pub(crate) fn key(self) -> &'static str
        ensures { result.now ≡ (own_row self).key }
    {
        match self {
            Own::Debug => "zipkin.debug",
            Own::LocalIpv4 => "zipkin.local.ipv4",
            Own::LocalIpv6 => "zipkin.local.ipv6",
            Own::LocalPort => "zipkin.local.port",
            Own::RemoteIpv4 => "zipkin.remote.ipv4",
            Own::RemoteIpv6 => "zipkin.remote.ipv6",
            Own::RemotePort => "zipkin.remote.port",
            Own::Shared => "zipkin.shared",
        }
    }
}

/// Whether it is one of these keys.
pub(crate) fn is_key_of(key: &str, keys: &[Own]) -> bool
    ensures { result ≡ is_key own_row keys.now key.now }
{
    'keys: for own in keys {
        if key == own.key() {
            return true;
        }
    }
    false
}

/// Whether a key may be one of these: it begins with the same byte, as few others do.
pub(crate) fn may_be_own(key: &str) -> bool
    ensures { result ≡ false → columns.is_own key.now ≡ false }
{
    matches!(key.as_bytes(), [b'z', ..])
}

/// The attributes from the first on whose key may be one of these. They hold what all hold there.
pub(crate) fn own_part(attributes: &Attrs) -> &[(Text, Value)]
    ensures { own_in result.now ≡ own_in attributes.now }
{
    let mut part = attributes.as_slice();
    'pairs: while let Some((pair, behind)) = part.split_first() {
        if may_be_own(pair.0.as_str()) {
            return part;
        }
        part = behind;
    }
    part
}

/// What pairs hold there.
pub(crate) fn own_held(pairs: &[(Text, Value)], own: Own) -> Option<&Value>
    ensures { option_map (λ value. value.now) result ≡ own_in pairs.now own }
{
    let key = own.key();
    'pairs: for pair in pairs {
        if key == pair.0.as_str() {
            return Some(&pair.1);
        }
    }
    None
}

/// Whether pairs hold anything there.
pub(crate) fn has_own(pairs: &[(Text, Value)], own: Own) -> bool
    ensures { result ≡ is_some (own_in pairs.now own) }
{
    own_held(pairs, own).is_some()
}
