//! Words in pairs: an option, and its word behind it, each option once, in any order.
ghost use Rattle.std.specs.Prelude.{ℕ, ◌≡◌, ◌↔◌, ◌≤◌, ◌<◌, length, slice_get, Some, IsTrue};
ghost use Rattle.span_io.specs.declared.form.Form.{Form};
ghost use Rattle.span_notes.specs.Pairs.{CountStands, FormStands, PlaceStands, texts};

use crate::numbers::decimal_of;
use span_io::Form;

/// The place of the word of an option, in pairs that begin at `first`, where the option stands in one of them.
pub fn word_place(words: &[String], first: usize, option: &[u8]) -> Option<usize>
    requires { first ≤ length words.now }
    ensures { (place : ℕ)
        → (result ≡ Some place) ↔ PlaceStands (texts words.now) first option.now place }
{
    let mut found = None;
    let mut at = first;
    'pairs: while words.len() - at >= 2 {
        if is_at(words, at, option) {
            if found.is_some() {
                return None;
            }
            found = Some(at + 1);
        }
        at += 2;
    }
    found
}

/// The form that the word of such an option names.
pub fn form_at(words: &[String], first: usize, option: &[u8]) -> Option<Form>
    requires { first ≤ length words.now }
    ensures { (form : Form)
        → (result ≡ Some form) ↔ FormStands (texts words.now) first option.now form }
{
    let place = word_place(words, first, option)?;
    Form::of_word(words[place].as_bytes())
}

/// The count that the word of such an option tells, from 1 on, without leading zeros.
pub fn count_at(words: &[String], first: usize, option: &[u8]) -> Option<u32>
    requires { first ≤ length words.now }
    ensures { (count : ℕ)
        → (result ≡ Some count) ↔ CountStands (texts words.now) first option.now count }
{
    let place = word_place(words, first, option)?;
    let count = decimal_of(words[place].as_str())?;
    if count == 0 {
        return None;
    }
    Some(count)
}

/// Whether the word at a place is this one.
pub fn is_at(words: &[String], place: usize, word: &[u8]) -> bool
    requires { place < length words.now }
    ensures { IsTrue result ↔ (slice_get (texts words.now) place ≡ Some word.now) }
{
    words[place].as_bytes() == word
}
