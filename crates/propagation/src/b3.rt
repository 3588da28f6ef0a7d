//! The single header `b3`, read and written.
ghost use Rattle.std.specs.Prelude.{◌≡◌, ◌≤◌, ℕ, Option, Some, length, take, IfSome};
ghost use Rattle.std.specs.Option.{option_copied};
ghost use Rattle.propagation.specs.B3.{ReadsB3, IsB3State, IsB3End, HoldsB3, b3_state, b3_text};
ghost use Rattle.propagation.specs.declared.ids.Ids.{Ids};
ghost use Rattle.propagation.specs.declared.sampling.Sampling.{Sampling};

use crate::digits::{behind, digits, read_pair};
use crate::ids::Ids;
use crate::letters::{put, put_span, put_trace};
use crate::sampling::Sampling;
use span_ids::{IdRule, SpanId};

/// Reads a value of the one header `b3` (B3 propagation, "Single Header"). None is one that isn't of the
/// form.
pub fn read_b3(value: &[u8]) -> Option<(Option<Ids>, Sampling)>
    ensures value { IfSome result (λ read. ReadsB3 value.now read.0 read.1) }
    // Whatever the value tells is the answer.
    ensures only { (ids : Option Ids) (sampling : Sampling) → ReadsB3 value.now ids sampling
        → result ≡ Some (ids, sampling) }
{
    let (trace, rest) = digits(value);
    if rest.is_empty() {
        let sampling = read_state(trace)?;
        return Some((None, sampling));
    }
    let rest = behind(rest, b"-")?;
    let (span, end) = digits(rest);
    let (trace, span) = read_pair(trace, span, IdRule::Half, IdRule::Exact)?;
    let (sampling, parent) = read_end(end)?;
    let ids = Ids {
        trace,
        span,
        parent,
    };
    Some((Some(ids), sampling))
}

// Reads what stands behind the identifier of the span.
fn read_end(end: &[u8]) -> Option<(Sampling, Option<SpanId>)>
    ensures value { IfSome result (λ read. IsB3End end.now read.0 read.1) }
    ensures only { (sampling : Sampling) (parent : Option ℕ) → IsB3End end.now sampling parent
        → result ≡ Some (sampling, parent) }
{
    if end.is_empty() {
        return Some((Sampling::Absent, None));
    }
    let rest = behind(end, b"-")?;
    let (state, rest) = digits(rest);
    let sampling = read_state(state)?;
    if rest.is_empty() {
        return Some((sampling, None));
    }
    let parent = behind(rest, b"-")?;
    let Ok(parent) = SpanId::read_hex(parent, IdRule::Exact) else {
        return None;
    };
    Some((sampling, Some(parent)))
}

pub(crate) fn read_state(text: &[u8]) -> Option<Sampling>
    ensures value { IfSome result (λ sampling. IsB3State text.now sampling) }
    ensures only { (sampling : Sampling) → IsB3State text.now sampling → result ≡ Some sampling }
{
    if text == b"0".as_slice() {
        return Some(Sampling::No);
    }
    if text == b"1".as_slice() {
        return Some(Sampling::Yes);
    }
    if text == b"d".as_slice() {
        return Some(Sampling::Debug);
    }
    None
}

/// Writes the value of `b3`, and answers how many bytes it has. A parent without a state is left out.
pub fn write_b3(ids: Option<&Ids>, sampling: Sampling, out: &mut [u8; 68]) -> usize
    requires { HoldsB3 (option_copied ids) sampling }
    ensures count { result ≤ 68 }
    ensures written { take result out.new ≡ b3_text (option_copied ids.entry) sampling }
{
    let Some(ids) = ids else {
        return put(out, 0, state_of(sampling));
    };
    let place = put_trace(out, 0, ids.trace);
    let place = put(out, place, b"-");
    let place = put_span(out, place, ids.span);
    if sampling == Sampling::Absent {
        return place;
    }
    let place = put(out, place, b"-");
    let place = put(out, place, state_of(sampling));
    let Some(parent) = ids.parent else {
        return place;
    };
    let place = put(out, place, b"-");
    put_span(out, place, parent)
}

fn state_of(sampling: Sampling) -> &'static [u8]
    ensures value { result.now ≡ b3_state sampling }
    ensures count { length result.now ≤ 1 }
{
    match sampling {
        Sampling::Absent => b"",
        Sampling::No => b"0",
        Sampling::Yes => b"1",
        Sampling::Debug => b"d",
    }
}
