//! Numbers in words.
ghost use Rattle.std.specs.Prelude.{ℕ, ◌≡◌, ◌↔◌, Some, decimal, bytes_eq};
ghost use Rattle.span_notes.specs.Pairs.{IsDecimal};

use itoa::Buffer;
use std::str::FromStr;

/// The number of 32 bits whose decimal, without leading zeros, a text is.
pub fn decimal_of(text: &str) -> Option<u32>
    ensures { (number : ℕ) → (result ≡ Some number) ↔ IsDecimal text.now number }
{
    let Ok(number) = u32::from_str(text) else {
        return None;
    };
    if is_decimal_of(text, number) {
        return Some(number);
    }
    None
}

fn is_decimal_of(text: &str, number: u32) -> bool
    ensures { result ≡ bytes_eq (decimal number) text.now }
{
    let mut buffer = Buffer::new();
    buffer.format(number) == text
}
