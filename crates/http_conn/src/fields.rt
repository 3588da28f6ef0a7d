//! The fields that the steps look at, as far as they were found (RFC 9110, section 5).
ghost use Rattle.std.specs.Prelude.{◌≡◌, ◌++◌, ◌∷◌, [], ℕ, List, IfSome, IsSomeAnd};
ghost use Rattle.http_conn.specs.Fields.{Line, is_named, values};
ghost use Rattle.http_conn.specs.private.FoundFields.{FoundIn, HoldsOnce, has_close, has_coding};

use crate::media::same_word;

// The value of a field that may stand once at most.
#[derive(Clone, Copy)]
pub(crate) enum Once<'a> {
    Missing,
    At(&'a [u8]),
    Twice,
}

impl<'a> Once<'a> {
    // With one value more.
    fn and(self, value: &'a [u8]) -> Once<'a>
        ensures { (values : List (List ℕ)) → HoldsOnce self.entry values
            → HoldsOnce result (values ++ value.now ∷ []) }
    {
        match self {
            Once::Missing => Once::At(value),
            Once::At(_) => Once::Twice,
            Once::Twice => Once::Twice,
        }
    }

    // With the value of a line more, where it is of the wanted field.
    fn noted(self, wanted: &[u8], name: &[u8], value: &'a [u8]) -> Once<'a>
        ensures { (lines : List Line) → HoldsOnce self.entry (values wanted.now lines)
            → HoldsOnce result (values wanted.now (lines ++ (name.now, value.now) ∷ [])) }
    {
        if same_word(name, wanted) {
            self.and(value)
        } else {
            self
        }
    }
}

#[derive(Clone, Copy)]
pub(crate) struct Fields<'a> {
    // "Connection: close" stands there.
    pub(crate) close: bool,
    // A content coding was applied.
    pub(crate) encoded: bool,
    // "Transfer-Encoding" stands there.
    pub(crate) transfer: bool,
    // "Content-Length".
    pub(crate) length: Once<'a>,
    // "Content-Type".
    pub(crate) media: Once<'a>,
}

impl<'a> Fields<'a> {
    pub(crate) fn new() -> Fields<'a>
        ensures { FoundIn result [] }
    {
        Fields {
            close: false,
            encoded: false,
            transfer: false,
            length: Once::Missing,
            media: Once::Missing,
        }
    }

    // With one line more.
    pub(crate) fn with(self, name: &[u8], value: &'a [u8]) -> Fields<'a>
        ensures { (lines : List Line) → FoundIn self.entry lines
            → FoundIn result (lines ++ (name.now, value.now) ∷ []) }
    {
        Fields {
            close: self.close || is_close(name, value),
            encoded: self.encoded || is_coding(name, value),
            transfer: self.transfer || same_word(name, b"Transfer-Encoding"),
            length: self.length.noted(b"Content-Length", name, value),
            media: self.media.noted(b"Content-Type", name, value),
        }
    }
}

// Whether a line is "Connection: close" (RFC 9112, section 9.6).
fn is_close(name: &[u8], value: &[u8]) -> bool
    ensures { result ≡ has_close ((name.now, value.now) ∷ []) }
{
    same_word(name, b"Connection") && same_word(value, b"close")
}

// Whether a line tells a content coding other than `identity` (RFC 9110, section 8.4).
fn is_coding(name: &[u8], value: &[u8]) -> bool
    ensures { result ≡ has_coding ((name.now, value.now) ∷ []) }
{
    same_word(name, b"Content-Encoding") && !same_word(value, b"identity")
}
