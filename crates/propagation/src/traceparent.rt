//! The header `traceparent` of W3C Trace Context, read and written.
ghost use Rattle.std.specs.Prelude.{◌≡◌, ◌↔◌, IsTrue, Some, IfSome};
ghost use Rattle.std.specs.Str.Parse.{digits_value};
ghost use Rattle.propagation.specs.Traceparent.{ReadsTraceparent, IsLowerPair, IsVersion, IsMore, IsTraceparentForm, flagged_sampling, sampling_flags, traceparent_text};
ghost use Rattle.propagation.specs.declared.ids.Ids.{Ids};
ghost use Rattle.propagation.specs.declared.sampling.Sampling.{Sampling};

use crate::digits::{digits, digits_and_dash, is_lower_pair, read_pair, small_number};
use crate::ids::Ids;
use crate::letters::{put, put_span, put_trace};
use crate::sampling::Sampling;
use span_ids::IdRule;

/// Reads a value of `traceparent` (W3C Trace Context Level 1, section 3.2). None is one that isn't of
/// the form.
pub fn read_traceparent(value: &[u8]) -> Option<(Ids, Sampling)>
    ensures value { IfSome result (λ read. ReadsTraceparent value.now read.0 read.1) }
    // Whatever the value tells is the answer.
    ensures only { (ids : Ids) (sampling : Sampling) → ReadsTraceparent value.now ids sampling
        → result ≡ Some (ids, sampling) }
{
    let (version, rest) = digits_and_dash(value)?;
    let (trace, rest) = digits_and_dash(rest)?;
    let (span, rest) = digits_and_dash(rest)?;
    let (flags, more) = digits(rest);
    if !is_formed(version, flags, more) {
        return None;
    }
    let (trace, span) = read_pair(trace, span, IdRule::ExactLower, IdRule::ExactLower)?;
    let ids = Ids {
        trace,
        span,
        parent: None,
    };
    Some((ids, read_flags(flags)))
}

fn is_formed(version: &[u8], flags: &[u8], more: &[u8]) -> bool
    ensures { IsTrue result ↔ IsTraceparentForm version.now flags.now more.now }
{
    is_version(version) && is_lower_pair(flags) && is_more(version, more)
}

fn is_version(text: &[u8]) -> bool
    ensures { IsTrue result ↔ IsVersion text.now }
{
    is_lower_pair(text) && text != b"ff".as_slice()
}

// Whether this may stand behind the flags of this version.
fn is_more(version: &[u8], more: &[u8]) -> bool
    ensures { IsTrue result ↔ IsMore version.now more.now }
{
    match more {
        [] => true,
        [c, ..] => *c == b'-' && version != b"00".as_slice(),
    }
}

fn read_flags(flags: &[u8]) -> Sampling
    requires { IsLowerPair flags.now }
    ensures { result ≡ flagged_sampling (digits_value 16 flags.now) }
{
    if small_number(flags) % 2 == 1 {
        Sampling::Yes
    } else {
        Sampling::No
    }
}

/// Writes the value of `traceparent`, of version 00: a debug trace is a recorded one.
pub fn write_traceparent(ids: &Ids, sampling: Sampling, out: &mut [u8; 55])
    ensures { out.new ≡ traceparent_text ids.now sampling }
{
    let place = put(out, 0, b"00-");
    let place = put_trace(out, place, ids.trace);
    let place = put(out, place, b"-");
    let place = put_span(out, place, ids.span);
    let place = put(out, place, b"-");
    put(out, place, flags_of(sampling));
}

fn flags_of(sampling: Sampling) -> &'static [u8]
    ensures { result.now ≡ sampling_flags sampling }
{
    match sampling {
        Sampling::Absent | Sampling::No => b"00",
        Sampling::Yes | Sampling::Debug => b"01",
    }
}
