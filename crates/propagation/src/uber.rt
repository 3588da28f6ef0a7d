//! The header `uber-trace-id` of Jaeger, read and written.
ghost use Rattle.std.specs.Prelude.{◌≡◌, ◌+◌, ◌≤◌, ℕ, List, ◌++◌, ◌↔◌, Option, Some, None, All, length, take, IsTrue, IfSome, IsSomeAnd};
ghost use Rattle.std.specs.Char.{IsAsciiHexdigit};
ghost use Rattle.std.specs.Str.Parse.{digits_value};
ghost use Rattle.propagation.specs.Uber.{ReadsUber, IsColon, IsUberParent, IsUberFlags, uber_sampling, uber_parent, uber_flags, uber_text};
ghost use Rattle.propagation.specs.declared.ids.Ids.{Ids};
ghost use Rattle.propagation.specs.declared.sampling.Sampling.{Sampling};

use crate::digits::{behind, digits, read_pair, small_number};
use crate::ids::Ids;
use crate::letters::{put, put_span, put_trace};
use crate::sampling::Sampling;
use span_ids::{IdRule, SpanId};

/// Reads a value of `uber-trace-id` (Jaeger's propagation format). None is one that isn't of the form.
pub fn read_uber(value: &[u8]) -> Option<(Ids, Sampling)>
    ensures value { IfSome result (λ read. ReadsUber value.now read.0 read.1) }
    // Whatever the value tells is the answer.
    ensures only { (ids : Ids) (sampling : Sampling) → ReadsUber value.now ids sampling
        → result ≡ Some (ids, sampling) }
{
    let (trace, rest) = digits_and_colon(value)?;
    let (span, rest) = digits_and_colon(rest)?;
    let (parent, flags) = digits_and_colon(rest)?;
    let (trace, span) = read_pair(trace, span, IdRule::Padded, IdRule::Padded)?;
    let parent = read_parent(parent)?;
    let sampling = read_flags(flags)?;
    let ids = Ids {
        trace,
        span,
        parent,
    };
    Some((ids, sampling))
}

// The digits, and what stands behind the colon that ends them.
fn digits_and_colon(text: &[u8]) -> Option<(&[u8], &[u8])>
    ensures text { IfSome result
        (λ r. (colon : List ℕ) × IsColon colon × (text.now ≡ r.0.now ++ (colon ++ r.1.now))) }
    ensures kind { IfSome result (λ r. All IsAsciiHexdigit r.0.now) }
    ensures only { (front colon rest : List ℕ) → All IsAsciiHexdigit front → IsColon colon
        → text.now ≡ front ++ (colon ++ rest)
        → IsSomeAnd result (λ r. (r.0.now ≡ front) × (r.1.now ≡ rest)) }
{
    let (front, rest) = digits(text);
    let rest = behind_colon(rest)?;
    Some((front, rest))
}

fn behind_colon(text: &[u8]) -> Option<&[u8]>
    ensures value { IfSome result
        (λ rest. (colon : List ℕ) × IsColon colon × (text.now ≡ colon ++ rest.now)) }
    ensures only { (colon rest : List ℕ) → IsColon colon → text.now ≡ colon ++ rest
        → IsSomeAnd result (λ r. r.now ≡ rest) }
{
    if let Some(rest) = behind(text, b":") {
        return Some(rest);
    }
    if let Some(rest) = behind(text, b"%3A") {
        return Some(rest);
    }
    behind(text, b"%3a")
}

fn read_parent(text: &[u8]) -> Option<Option<SpanId>>
    ensures value { IfSome result (λ parent. IsUberParent text.now parent) }
    ensures only { (parent : Option ℕ) → IsUberParent text.now parent → result ≡ Some parent }
{
    if is_zero(text) {
        return Some(None);
    }
    let Ok(parent) = SpanId::read_hex(text, IdRule::Padded) else {
        return None;
    };
    Some(Some(parent))
}

fn is_zero(text: &[u8]) -> bool
    ensures { IsTrue result ↔ IsUberParent text.now None }
{
    !text.is_empty() && text.len() <= 16 && text.iter().all(|&c| c == b'0')
}

fn read_flags(text: &[u8]) -> Option<Sampling>
    ensures value { IfSome result
        (λ sampling. IsUberFlags text.now × (sampling ≡ uber_sampling (digits_value 16 text.now))) }
    ensures only { IsUberFlags text.now → result ≡ Some (uber_sampling (digits_value 16 text.now)) }
{
    if !is_flags(text) {
        return None;
    }
    let flags = small_number(text);
    if flags / 2 % 2 == 1 {
        return Some(Sampling::Debug);
    }
    if flags % 2 == 1 {
        return Some(Sampling::Yes);
    }
    Some(Sampling::No)
}

fn is_flags(text: &[u8]) -> bool
    ensures { IsTrue result ↔ IsUberFlags text.now }
{
    !text.is_empty() && text.len() <= 2 && text.iter().all(|c| c.is_ascii_hexdigit())
}

/// Writes the value of `uber-trace-id`, and answers how many bytes it has. No parent is the digit `0`.
pub fn write_uber(ids: &Ids, sampling: Sampling, out: &mut [u8; 68]) -> usize
    ensures count { result ≤ 68 }
    ensures written { take result out.new ≡ uber_text ids.now sampling }
{
    let place = put_trace(out, 0, ids.trace);
    let place = put(out, place, b":");
    let place = put_span(out, place, ids.span);
    let place = put(out, place, b":");
    let place = put_parent(out, place, ids.parent);
    let place = put(out, place, b":");
    put(out, place, flags_of(sampling))
}

fn put_parent(out: &mut [u8], place: usize, parent: Option<SpanId>) -> usize
    requires { place + 16 ≤ length out.old }
    ensures count { result ≡ place + length (uber_parent parent) }
    ensures few { length (uber_parent parent) ≤ 16 }
    ensures front { take result out.new ≡ take place out.old ++ uber_parent parent }
{
    match parent {
        None => put(out, place, b"0"),
        Some(id) => put_span(out, place, id),
    }
}

fn flags_of(sampling: Sampling) -> &'static [u8]
    ensures value { result.now ≡ uber_flags sampling }
    ensures count { length result.now ≡ 1 }
{
    match sampling {
        Sampling::Absent | Sampling::No => b"0",
        Sampling::Yes => b"1",
        Sampling::Debug => b"3",
    }
}
