//! The headers that tell a context, as far as they were found.
ghost use Rattle.std.specs.Prelude.{◌≡◌, ◌≢◌, ◌↔◌, ◌++◌, ◌∷◌, [], ℕ, List, Option, IsTrue, IfSome, IsSomeAnd, MatchOption};
ghost use Rattle.std.specs.Option.{option_copied, option_to_list};
ghost use Rattle.propagation.specs.Blocks.{Header};
ghost use Rattle.propagation.specs.Heads.{is_named, header_values, MissesMulti, HasNoForm, IsFirstForm};
ghost use Rattle.propagation.specs.private.FoundHeaders.{HoldsOnce, FoundMulti, FoundIn};

use crate::header_form::HeaderForm;

// The value of a header that may stand once at most.
#[derive(Clone, Copy)]
pub(crate) enum Once<'a> {
    Missing,
    At(&'a [u8]),
    Twice,
}

impl<'a> Once<'a> {
    // With one value more.
    fn and(self, value: &'a [u8]) -> Once<'a>
        ensures { (values : List (List ℕ)) → HoldsOnce self.entry values
            → HoldsOnce result (values ++ value.now ∷ []) }
    {
        match self {
            Once::Missing => Once::At(value),
            Once::At(_) => Once::Twice,
            Once::Twice => Once::Twice,
        }
    }

    // With the value of a header more, where it has the wanted name.
    fn noted(self, wanted: &[u8], name: &[u8], value: &'a [u8]) -> Once<'a>
        ensures { (headers : List Header) → HoldsOnce self.entry (header_values wanted.now headers)
            → HoldsOnce result
            (header_values wanted.now
            (headers ++ (record { name = name.now; value = value.now }) ∷ [])) }
    {
        if is_name(wanted, name) {
            self.and(value)
        } else {
            self
        }
    }

    pub(crate) fn is_missing(&self) -> bool
        ensures { (values : List (List ℕ)) → HoldsOnce self.now values
            → IsTrue result ↔ (values ≡ []) }
    {
        matches!(self, Once::Missing)
    }

    // The value of a header that stands once.
    pub(crate) fn once(&self) -> Option<&'a [u8]>
        ensures value { (values : List (List ℕ)) → HoldsOnce self.now values
            → IfSome result (λ value. values ≡ value.now ∷ []) }
        ensures only { (values : List (List ℕ)) (value : List ℕ) → HoldsOnce self.now values
            → values ≡ value ∷ []
            → IsSomeAnd result (λ r. r.now ≡ value) }
    {
        match self {
            Once::At(value) => Some(*value),
            Once::Missing | Once::Twice => None,
        }
    }

    // The value of a header that stands once at most, if it has one. None is one that stands twice.
    pub(crate) fn at_most_once(&self) -> Option<Option<&'a [u8]>>
        ensures value { (values : List (List ℕ)) → HoldsOnce self.now values
            → IfSome result (λ r. values ≡ option_to_list (option_copied r)) }
        ensures only { (values : List (List ℕ)) (value : Option (List ℕ))
            → HoldsOnce self.now values
            → values ≡ option_to_list value
            → IsSomeAnd result (λ r. option_copied r ≡ value) }
    {
        match self {
            Once::Missing => Some(None),
            Once::At(value) => Some(Some(*value)),
            Once::Twice => None,
        }
    }
}

// Whether a name is the wanted one, in any case of letters.
pub(crate) fn is_name(wanted: &[u8], name: &[u8]) -> bool
    ensures { (value : List ℕ)
        → result ≡ is_named wanted.now (record { name = name.now; value = value }) }
{
    name.eq_ignore_ascii_case(wanted)
}

// The headers whose names begin with `X-B3-`.
#[derive(Clone, Copy)]
pub(crate) struct Multi<'a> {
    pub(crate) trace: Once<'a>,
    pub(crate) span: Once<'a>,
    pub(crate) parent: Once<'a>,
    pub(crate) sampled: Once<'a>,
    pub(crate) flags: Once<'a>,
}

impl<'a> Multi<'a> {
    fn with(self, name: &[u8], value: &'a [u8]) -> Multi<'a>
        ensures { (headers : List Header) → FoundMulti self.entry headers
            → FoundMulti result (headers ++ (record { name = name.now; value = value.now }) ∷ []) }
    {
        Multi {
            trace: self.trace.noted(b"X-B3-TraceId", name, value),
            span: self.span.noted(b"X-B3-SpanId", name, value),
            parent: self.parent.noted(b"X-B3-ParentSpanId", name, value),
            sampled: self.sampled.noted(b"X-B3-Sampled", name, value),
            flags: self.flags.noted(b"X-B3-Flags", name, value),
        }
    }

    fn is_missing(&self) -> bool
        ensures { (headers : List Header) → FoundMulti self.now headers
            → IsTrue result ↔ MissesMulti headers }
    {
        self.trace.is_missing()
            && self.span.is_missing()
            && self.parent.is_missing()
            && self.sampled.is_missing()
            && self.flags.is_missing()
    }
}

// The headers that tell a context, of those read so far.
#[derive(Clone, Copy)]
pub(crate) struct Found<'a> {
    pub(crate) traceparent: Once<'a>,
    pub(crate) state: Once<'a>,
    pub(crate) b3: Once<'a>,
    pub(crate) multi: Multi<'a>,
    pub(crate) uber: Once<'a>,
}

impl<'a> Found<'a> {
    pub(crate) fn new() -> Found<'a>
        ensures { FoundIn result [] }
    {
        Found {
            traceparent: Once::Missing,
            state: Once::Missing,
            b3: Once::Missing,
            multi: Multi {
                trace: Once::Missing,
                span: Once::Missing,
                parent: Once::Missing,
                sampled: Once::Missing,
                flags: Once::Missing,
            },
            uber: Once::Missing,
        }
    }

    // With one header more.
    pub(crate) fn with(self, name: &[u8], value: &'a [u8]) -> Found<'a>
        ensures { (headers : List Header) → FoundIn self.entry headers
            → FoundIn result (headers ++ (record { name = name.now; value = value.now }) ∷ []) }
    {
        Found {
            traceparent: self.traceparent.noted(b"traceparent", name, value),
            state: self.state.noted(b"tracestate", name, value),
            b3: self.b3.noted(b"b3", name, value),
            multi: self.multi.with(name, value),
            uber: self.uber.noted(b"uber-trace-id", name, value),
        }
    }

    // The form that is read.
    pub(crate) fn first_form(&self) -> Option<HeaderForm>
        ensures { (headers : List Header) → FoundIn self.now headers
            → MatchOption result (HasNoForm headers) (λ form. IsFirstForm form headers) }
    {
        if !self.traceparent.is_missing() {
            return Some(HeaderForm::W3c);
        }
        if !self.b3.is_missing() {
            return Some(HeaderForm::B3);
        }
        if !self.multi.is_missing() {
            return Some(HeaderForm::B3Multi);
        }
        if !self.uber.is_missing() {
            return Some(HeaderForm::Uber);
        }
        None
    }
}
