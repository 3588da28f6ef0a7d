//! The forms of headers, and their words.
ghost use Rattle.std.specs.Prelude.{◌≡◌, ◌↔◌, Some};
ghost use Rattle.propagation.specs.HeaderForms.{header_form_word};
ghost use Rattle.propagation.specs.declared.header_form.HeaderForm.{HeaderForm};

/// A form of headers that pass a context.
#[derive(Clone, Copy, PartialEq, Eq)]
pub enum HeaderForm {
    /// `traceparent` and `tracestate` (W3C Trace Context Level 1).
    W3c,
    /// The one header `b3`.
    B3,
    /// The headers whose names begin with `X-B3-`.
    B3Multi,
    /// Jaeger's `uber-trace-id`.
    Uber,
}

impl HeaderForm {
    /// The form that a word of the command line names, as `b3-multi`.
    pub fn of_word(word: &[u8]) -> Option<HeaderForm>
        ensures { (form : HeaderForm) → (result ≡ Some form) ↔ (word.now ≡ header_form_word form) }
    {
        if word == b"w3c".as_slice() {
            return Some(HeaderForm::W3c);
        }
        if word == b"b3".as_slice() {
            return Some(HeaderForm::B3);
        }
        if word == b"b3-multi".as_slice() {
            return Some(HeaderForm::B3Multi);
        }
        if word == b"uber".as_slice() {
            return Some(HeaderForm::Uber);
        }
        None
    }
}
