//! Texts that are decimals.
ghost use Rattle.std.specs.Prelude.{◌≡◌, decimal, option_and_then};
ghost use Rattle.std.specs.Str.{bytes_eq};
ghost use Rattle.span_tags.specs.TagWords as told;

use std::str::FromStr;

/// The number of 32 bits whose decimal, without leading zeros, the text is.
pub fn decimal_in(text: &str) -> Option<u32>
    ensures { result ≡ option_and_then (told.at_most 4294967295) (told.decimal_in text.now) }
{
    let Ok(number) = u32::from_str(text) else {
        return None;
    };
    if is_decimal_of(text, number) {
        return Some(number);
    }
    None
}

fn is_decimal_of(text: &str, number: u32) -> bool
    ensures { result ≡ bytes_eq (decimal number) text.now }
{
    let mut buffer = itoa::Buffer::new();
    buffer.format(number) == text
}
