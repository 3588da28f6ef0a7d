//! Values under their keys.
ghost use Rattle.std.specs.Prelude.{◌≡◌, option_map};
ghost use Rattle.trace_model.specs.Attributes.{at};

use crate::value::{Attrs, Value};

/// The value of the first pair of this key.
pub fn find<'a>(attributes: &'a Attrs, key: &str) -> Option<&'a Value>
    ensures { option_map (λ value. value.now) result ≡ at key.now attributes.now }
{
    'pairs: for pair in attributes.as_slice() {
        if key == pair.0.as_str() {
            return Some(&pair.1);
        }
    }
    None
}
