//! Media types, and what stands in front of a mark.
ghost use Rattle.std.specs.Prelude.{◌≡◌, ◌≢◌, ◌<◌, ◌≤◌, ℕ, length, reverse, slice_index};
ghost use Rattle.std.specs.Str.{str_eq_ignore_ascii_case};
ghost use Rattle.httparse.specs.Grammar.{is_ows, skip_ows, trim_ows};
ghost use Rattle.http_conn.specs.Fields.{before};
ghost use Rattle.http_conn.specs.MediaTypes as forms;
ghost use Rattle.http_conn.specs.Services as told;

use span_io::Form;

/// The media type of a text in a form.
pub fn type_of(form: Form) -> &'static str
    ensures { result.now ≡ forms.type_of form }
{
    match form {
        Form::OtlpProto => "application/x-protobuf",
        Form::OtlpJson => "application/json",
        Form::JaegerBinary => "application/vnd.apache.thrift.binary",
        Form::JaegerCompact => "application/vnd.apache.thrift.compact",
        Form::ZipkinJson => "application/json",
    }
}

// Whether two texts are equal in all but the case of letters.
pub(crate) fn same_word(text: &[u8], word: &[u8]) -> bool
    ensures { result ≡ str_eq_ignore_ascii_case text.now word.now }
{
    text.eq_ignore_ascii_case(word)
}

// Whether a value names this type, whatever parameters it has.
pub(crate) fn is_type(value: &[u8], name: &[u8]) -> bool
    ensures { result ≡ told.is_type name.now value.now }
{
    same_word(trimmed(text_before(value, b';')), name)
}

// What stands in front of the first byte of a kind.
pub(crate) fn text_before(text: &[u8], mark: u8) -> &[u8]
    ensures { result.now ≡ before mark text.now }
{
    &text[..place_of(text, mark)]
}

// The place of the first byte of a kind, or the length.
fn place_of(text: &[u8], mark: u8) -> usize
    ensures within { result ≤ length text.now }
    ensures before { (k : ℕ) → k < result → slice_index text.now k ≢ mark }
    ensures found { result < length text.now → slice_index text.now result ≡ mark }
{
    for (place, byte) in text.iter().enumerate() {
        if *byte == mark {
            return place;
        }
    }
    text.len()
}

// A text without the white space at its ends.
fn trimmed(text: &[u8]) -> &[u8]
    ensures { result.now ≡ trim_ows text.now }
{
    without_end(without_front(text))
}

fn without_front(text: &[u8]) -> &[u8]
    ensures { result.now ≡ skip_ows text.now }
{
    let mut rest = text;
    'blanks: while let [first, behind @ ..] = rest {
        if !is_white(*first) {
            return rest;
        }
        rest = behind;
    }
    rest
}

fn without_end(text: &[u8]) -> &[u8]
    ensures { result.now ≡ reverse (skip_ows (reverse text.now)) }
{
    let mut rest = text;
    'blanks: while let [front @ .., last] = rest {
        if !is_white(*last) {
            return rest;
        }
        rest = front;
    }
    rest
}

fn is_white(byte: u8) -> bool
    ensures { result ≡ is_ows byte }
{
    byte == b' ' || byte == b'\t'
}
