//! Identifiers spelled in hexadecimal digits.
ghost use Rattle.std.specs.Prelude.{◌≡◌, ◌<◌, ◌≤◌, ◌↔◌, ◌^◌, length, All, IsTrue, ◌⊎◌};
ghost use Rattle.std.specs.Char.{IsAsciiHexdigit};
ghost use Rattle.std.specs.Str.Parse.{digits_value};
ghost use Rattle.span_ids.specs.HexTexts.{IsLowerDigit, IsOfRule};

/// Which hexadecimal texts are identifiers.
#[derive(Clone, Copy, PartialEq, Eq)]
pub enum IdRule {
    /// All digits, of either case (OTLP/JSON).
    Exact,
    /// All digits, in lower case (W3C Trace Context).
    ExactLower,
    /// 16 digits or all, of either case (B3).
    Half,
    /// At least one digit, of either case; zeros at the left may be left out (Zipkin v2,
    /// `uber-trace-id`).
    Padded,
}

impl IdRule {
    // Whether the text is of the rule, where an identifier has `full` digits.
    pub(crate) fn takes(self, text: &[u8], full: usize) -> bool
        ensures { IsTrue result ↔ IsOfRule self full text.now }
    {
        match self {
            IdRule::Exact => text.len() == full && is_hex(text),
            IdRule::ExactLower => text.len() == full && is_lower_hex(text),
            IdRule::Half => is_half_or_all(text.len(), full) && is_hex(text),
            IdRule::Padded => !text.is_empty() && text.len() <= full && is_hex(text),
        }
    }
}

fn is_half_or_all(len: usize, full: usize) -> bool
    ensures { IsTrue result ↔ ((len ≡ 16) ⊎ (len ≡ full)) }
{
    len == 16 || len == full
}

fn is_hex(text: &[u8]) -> bool
    ensures { IsTrue result ↔ All IsAsciiHexdigit text.now }
{
    text.iter().all(|c| c.is_ascii_hexdigit())
}

fn is_lower_hex(text: &[u8]) -> bool
    ensures { IsTrue result ↔ All IsLowerDigit text.now }
{
    text.iter().all(|&c| is_lower_digit(c))
}

fn is_lower_digit(c: u8) -> bool
    ensures { IsTrue result ↔ IsLowerDigit c }
{
    matches!(c, b'0'..=b'9' | b'a'..=b'f')
}

/// So many digits write a number of 64 bits.
const HALF: usize = 16;

// The number that up to 32 digits write.
pub(crate) fn hex_number(text: &[u8]) -> u128
    requires digits { All IsAsciiHexdigit text.now }
    requires fits { length text.now ≤ 32 }
    ensures value { result ≡ digits_value 16 text.now }
    ensures half { length text.now ≤ 16 → result < 2 ^ 64 }
{
    let (high, low) = text.split_at(text.len().saturating_sub(HALF));
    u128::from(half_number(high)) * (1 << 64) + u128::from(half_number(low))
}

// The number that up to 16 digits write, 0 where there are none.
fn half_number(text: &[u8]) -> u64
    requires digits { All IsAsciiHexdigit text.now }
    requires fits { length text.now ≤ 16 }
    ensures value { result ≡ digits_value 16 text.now }
{
    if text.is_empty() {
        return 0;
    }
    let text = std::str::from_utf8(text).unwrap();
    u64::from_str_radix(text, 16).unwrap()
}
