//! Numbers of JSON (RFC 8259, section 6).
ghost use Rattle.std.specs.Prelude.{◌≡◌, ◌==◌, ◌<◌, false, true, length, slice_index, IsTrue, option_map};
ghost use Rattle.serde_json.specs.Find.{as_u64, as_i64};
ghost use Rattle.serde_json.specs.Read.{number_of, number_from, float_of};
ghost use Rattle.json_nodes.specs.Nodes.{num_of};

use fast_float::Numeral;

/// A number. A whole one has neither point nor exponent, isn't `-0` and has 64 bits at most; any other is the nearest
/// double.
#[derive(Clone, Copy)]
pub enum Number {
    Unsigned(u64),
    Negative(i64),
    Double(f64),
}

impl Number {
    pub fn as_u64(&self) -> Option<u64>
        ensures { result ≡ as_u64 (num_of self.now) }
    {
        if let Number::Unsigned(n) = self {
            Some(*n)
        } else {
            None
        }
    }

    pub fn as_i64(&self) -> Option<i64>
        ensures { result ≡ as_i64 (num_of self.now) }
    {
        match self {
            Number::Unsigned(n) => if *n <= i64::MAX as u64 {
                Some(*n as i64)
            } else {
                None
            },
            Number::Negative(n) => Some(*n),
            Number::Double(_) => None,
        }
    }

    // The number that such a text writes, unless it is too large for a double.
    #[inline(always)]
    pub(crate) fn parse(text: &str) -> Option<Number>
        ensures { option_map num_of result ≡ number_of text.now }
    {
        let bytes = text.as_bytes();
        if has_minus(bytes) {
            Number::negative(&Numeral::scan(&bytes[1..]))
        } else {
            Number::unsigned(&Numeral::scan(bytes))
        }
    }

    #[inline(always)]
    fn unsigned(numeral: &Numeral<'_>) -> Option<Number>
        ensures { option_map num_of result ≡ number_from false numeral.now }
    {
        match numeral.to_u64() {
            Some(n) => Some(Number::Unsigned(n)),
            None => Number::nearest(false, numeral),
        }
    }

    #[inline(always)]
    fn negative(numeral: &Numeral<'_>) -> Option<Number>
        ensures { option_map num_of result ≡ number_from true numeral.now }
    {
        if let Some(n) = numeral.to_i64(true) {
            if n < 0 {
                return Some(Number::Negative(n));
            }
        }
        Number::nearest(true, numeral)
    }

    #[inline(always)]
    fn nearest(negative: bool, numeral: &Numeral<'_>) -> Option<Number>
        ensures { option_map num_of result ≡ float_of negative numeral.now }
    {
        let x = numeral.to_float::<f64>(negative);
        if x.is_finite() {
            Some(Number::Double(x))
        } else {
            None
        }
    }
}

#[inline(always)]
fn has_minus(bytes: &[u8]) -> bool
    ensures value { result ≡ (slice_index bytes.now 0 == 45) }
    ensures some { IsTrue result → 0 < length bytes.now }
{
    !bytes.is_empty() && bytes[0] == b'-'
}
