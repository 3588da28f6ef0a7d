//! Hexadecimal digits in the values of headers: those at the front of a text, what separates them, and
//! what they write.
ghost use Rattle.std.specs.Prelude.{◌≡◌, ℕ, List, ◌∷◌, ◌++◌, ◌<◌, length, All, IsTrue, ◌↔◌, IfSome, IsSomeAnd, Some};
ghost use Rattle.std.specs.Char.{IsAsciiHexdigit, digit_value};
ghost use Rattle.std.specs.Str.Parse.{digits_value};
ghost use Rattle.span_ids.specs.HexTexts.{IsLowerDigit, SpellsInHex};
ghost use Rattle.propagation.specs.Fronts.{Leads};
ghost use Rattle.propagation.specs.Digits.{dash};
ghost use Rattle.propagation.specs.Traceparent.{IsLowerPair};

use span_ids::{IdRule, SpanId, TraceId};

// The digits, and what stands behind them.
pub(crate) fn digits(text: &[u8]) -> (&[u8], &[u8])
    ensures { Leads IsAsciiHexdigit text.now result.0.now result.1.now }
{
    let is_end = |c: &u8| !c.is_ascii_hexdigit();
    let count = text.iter().position(is_end).unwrap_or(text.len());
    text.split_at(count)
}

// What stands behind this front.
pub(crate) fn behind<'a>(text: &'a [u8], front: &[u8]) -> Option<&'a [u8]>
    ensures value { IfSome result (λ rest. text.now ≡ front.now ++ rest.now) }
    ensures only { (rest : List ℕ) → text.now ≡ front.now ++ rest
        → IsSomeAnd result (λ r. r.now ≡ rest) }
{
    text.strip_prefix(front)
}

// The digits, and what stands behind the dash that ends them.
pub(crate) fn digits_and_dash(text: &[u8]) -> Option<(&[u8], &[u8])>
    ensures text { IfSome result (λ r. text.now ≡ r.0.now ++ dash ∷ r.1.now) }
    ensures kind { IfSome result (λ r. All IsAsciiHexdigit r.0.now) }
    ensures only { (front rest : List ℕ) → All IsAsciiHexdigit front
        → text.now ≡ front ++ dash ∷ rest
        → IsSomeAnd result (λ r. (r.0.now ≡ front) × (r.1.now ≡ rest)) }
{
    let (front, rest) = digits(text);
    let rest = behind(rest, b"-")?;
    Some((front, rest))
}

// Whether the text is two digits in lower case.
pub(crate) fn is_lower_pair(text: &[u8]) -> bool
    ensures { IsTrue result ↔ IsLowerPair text.now }
{
    text.len() == 2 && is_lower(text)
}

fn is_lower(text: &[u8]) -> bool
    ensures { IsTrue result ↔ All IsLowerDigit text.now }
{
    text.iter().all(|&c| is_lower_digit(c))
}

fn is_lower_digit(c: u8) -> bool
    ensures { IsTrue result ↔ IsLowerDigit c }
{
    matches!(c, b'0'..=b'9' | b'a'..=b'f')
}

// The number that up to two digits write.
pub(crate) fn small_number(text: &[u8]) -> u8
    requires { length text.now < 3 }
    ensures { All IsAsciiHexdigit text.now → result ≡ digits_value 16 text.now }
{
    match text {
        [low] => digit_number(*low),
        [high, low] => digit_number(*high) * 16 + digit_number(*low),
        _ => 0,
    }
}

fn digit_number(c: u8) -> u8
    ensures value { IsAsciiHexdigit c → result ≡ digit_value c }
    ensures fits { result < 16 }
{
    match c {
        b'0'..=b'9' => c - b'0',
        b'a'..=b'f' => c - b'a' + 10,
        b'A'..=b'F' => c - b'A' + 10,
        _ => 0,
    }
}

// The identifiers that two texts spell, each by its rule.
pub(crate) fn read_pair(
    trace: &[u8],
    span: &[u8],
    trace_rule: IdRule,
    span_rule: IdRule,
) -> Option<(TraceId, SpanId)>
    ensures trace { IfSome result (λ r. SpellsInHex trace_rule 32 trace.now r.0) }
    ensures span { IfSome result (λ r. SpellsInHex span_rule 16 span.now r.1) }
    ensures only { (t s : ℕ) → SpellsInHex trace_rule 32 trace.now t
        → SpellsInHex span_rule 16 span.now s → result ≡ Some (t, s) }
{
    let Ok(trace) = TraceId::read_hex(trace, trace_rule) else {
        return None;
    };
    let Ok(span) = SpanId::read_hex(span, span_rule) else {
        return None;
    };
    Some((trace, span))
}
