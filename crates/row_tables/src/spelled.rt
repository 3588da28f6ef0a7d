//! Bytes spelled in the letters of a row.
ghost use Rattle.std.specs.Prelude.{◌≡◌, ◌-◌, ◌≤◌, OnOk, IfOk, Some, slice_range, MatchOption, length, true, false};
ghost use Rattle.std.specs.List.{position_or_len};
ghost use Rattle.row_tables.specs.private.TakenParts.{TakesPart};
ghost use Rattle.row_tables.specs.Words.{bytes_of_word, is_quoted, is_space, with_spelled};

use std::alloc::Global;
use std::test::Fail;

/// Appends the bytes that a text spells in words, with a blank or a newline between: two hexadecimal digits a byte, or a text
/// in single quotes.
pub fn append_spelled(alloc: Global, bytes: &mut Vec<u8>, text: &str) -> Result<(), Fail>
    ensures { OnOk result (with_spelled bytes.old.items text.now ≡ Some bytes.new.items) }
{
    let mut rest = text.as_bytes();
    'words: while !rest.is_empty() {
        let (word, behind) = first_word(rest);
        rest = behind;
        let more = word_bytes(alloc, word)?;
        bytes.extend_from_slice(more.as_slice())?;
    }
    Ok(())
}

// The word at the front of a text, and what stands behind the blank or newline that ends it.
fn first_word(text: &[u8]) -> (&[u8], &[u8])
    ensures { TakesPart is_space text.now result.0.now result.1.now }
{
    let size = word_size(text);
    if size == text.len() {
        return (text, &[]);
    }
    (&text[..size], &text[size + 1..])
}

// How many bytes stand in front of the first blank or newline.
fn word_size(text: &[u8]) -> usize
    ensures value { result ≡ position_or_len is_space text.now }
    ensures bound { result ≤ length text.now }
{
    let mut size = 0;
    'bytes: while size < text.len() {
        if is_space(text[size]) {
            return size;
        }
        size += 1;
    }
    size
}

fn is_space(byte: u8) -> bool
    ensures { result ≡ is_space byte }
{
    byte == b' ' || byte == b'\n'
}

// The bytes that a word spells.
fn word_bytes(alloc: Global, word: &[u8]) -> Result<Vec<u8>, Fail>
    ensures { IfOk result (λ bytes. bytes_of_word word.now ≡ Some bytes.items) }
{
    if let Some(text) = quoted(word) {
        let mut bytes = Vec::new(alloc);
        bytes.extend_from_slice(text)?;
        return Ok(bytes);
    }
    match hex::decode(alloc, word) {
        Ok(bytes) => Ok(bytes),
        Err(_) => Err(Fail::new("no hexadecimal digits")),
    }
}

// What stands in the quotes of a word.
fn quoted(word: &[u8]) -> Option<&[u8]>
    ensures { MatchOption result (is_quoted word.now ≡ false)
        (λ inside. (is_quoted word.now ≡ true)
        × (inside.now ≡ slice_range word.now 1 (length word.now - 1))) }
{
    let size = word.len();
    if size > 1 && word[0] == b'\'' && word[size - 1] == b'\'' {
        return Some(&word[1..size - 1]);
    }
    None
}
