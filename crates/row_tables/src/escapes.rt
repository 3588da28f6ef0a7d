//! Escapes in the texts of rows.
ghost use Rattle.std.specs.Prelude.{◌≡◌, ◌<◌, IfOk, IfSome, Some};
ghost use Rattle.row_tables.specs.Escapes.{digit_of, digits_meant, escape_meant, first_meant, letter_of, meant};

use std::alloc::Global;
use std::test::Fail;

fn digit(byte: u8) -> Option<u8>
    ensures value { result ≡ digit_of byte }
    ensures small { IfSome result (λ number. number < 16) }
{
    match byte {
        b'0'..=b'9' => Some(byte - b'0'),
        b'a'..=b'f' => Some(byte - b'a' + 10),
        _ => None,
    }
}

// The byte that a letter behind a backslash stands for.
fn letter(byte: u8) -> Option<u8>
    ensures { result ≡ letter_of byte }
{
    match byte {
        b'n' => Some(b'\n'),
        b'r' => Some(b'\r'),
        b't' => Some(b'\t'),
        b'0' => Some(0),
        b'\\' => Some(b'\\'),
        _ => None,
    }
}

// The byte at the front of a text, and how many bytes tell it.
fn first_byte(text: &[u8]) -> Option<(u8, usize)>
    ensures { result ≡ first_meant text.now }
{
    let (byte, behind) = text.split_first()?;
    match *byte {
        b'\\' => escape(behind),
        byte => Some((byte, 1)),
    }
}

fn escape(text: &[u8]) -> Option<(u8, usize)>
    ensures { result ≡ escape_meant text.now }
{
    let (byte, behind) = text.split_first()?;
    match *byte {
        b'x' => digits(behind),
        byte => Some((letter(byte)?, 2)),
    }
}

fn digits(text: &[u8]) -> Option<(u8, usize)>
    ensures { result ≡ digits_meant text.now }
{
    let (high, behind) = text.split_first()?;
    let (low, _) = behind.split_first()?;
    Some((digit(*high)? * 16 + digit(*low)?, 4))
}

/// The bytes of a text in which `\n`, `\r`, `\t`, `\0` and `\\` stand for one byte each, and `\x` with two digits in
/// lower case for the byte that they tell.
pub fn unescaped(alloc: Global, text: &str) -> Result<Vec<u8>, Fail>
    ensures { IfOk result (λ bytes. meant text.now ≡ Some bytes.items) }
{
    let mut bytes = Vec::new(alloc);
    let mut rest = text.as_bytes();
    'bytes: while !rest.is_empty() {
        let Some((byte, size)) = first_byte(rest) else {
            return Err(Fail::new(format_args!("no escape: {text}")));
        };
        bytes.push(byte)?;
        rest = &rest[size..];
    }
    Ok(bytes)
}
