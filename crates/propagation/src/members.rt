//! Members of a `tracestate`.
ghost use Rattle.std.specs.Prelude.{◌≡◌, ◌≢◌, ◌↔◌, ◌≤◌, ℕ, List, ◌++◌, ◌∷◌, length, reverse, All, IsTrue, IfSome, IsSomeAnd};
ghost use Rattle.propagation.specs.Fronts.{BeginsWithout, Leads};
ghost use Rattle.propagation.specs.Tracestate.{equals, at_sign, IsBlank, IsLowerLetter, IsDigit, IsKeyByte, IsTenantStart, IsWord, IsStateKey, IsStateByte, IsStateValue, StateMember, IsStateMember, state_member_text};
ghost use Rattle.propagation.specs.private.Trimming.{Trims};

use crate::digits::behind;

// The key and the value of a member.
pub(crate) fn read_member(text: &[u8]) -> Option<(&[u8], &[u8])>
    ensures text { IfSome result (λ r. text.now ≡ r.0.now ++ equals ∷ r.1.now) }
    ensures key { IfSome result (λ r. IsStateKey r.0.now) }
    ensures value { IfSome result (λ r. IsStateValue r.1.now) }
    ensures only { (m : StateMember) → IsStateMember m → text.now ≡ state_member_text m
        → IsSomeAnd result (λ r. (r.0.now ≡ m.key) × (r.1.now ≡ m.value)) }
{
    let (key, rest) = before_equals(text);
    let value = behind(rest, b"=")?;
    if !is_state_key(key) || !is_state_value(value) {
        return None;
    }
    Some((key, value))
}

fn before_equals(text: &[u8]) -> (&[u8], &[u8])
    ensures { Leads (λ c. c ≢ equals) text.now result.0.now result.1.now }
{
    let count = text.iter().position(|&c| c == b'=').unwrap_or(text.len());
    text.split_at(count)
}

fn before_at_sign(text: &[u8]) -> (&[u8], &[u8])
    ensures { Leads (λ c. c ≢ at_sign) text.now result.0.now result.1.now }
{
    let count = text.iter().position(|&c| c == b'@').unwrap_or(text.len());
    text.split_at(count)
}

fn is_state_key(key: &[u8]) -> bool
    ensures { IsTrue result ↔ IsStateKey key.now }
{
    let (tenant, rest) = before_at_sign(key);
    match behind(rest, b"@") {
        None => is_word(key, 255),
        Some(system) => is_tenant(tenant) && is_word(system, 13),
    }
}

fn is_word(text: &[u8], most: usize) -> bool
    ensures { IsTrue result ↔ IsWord IsLowerLetter most text.now }
{
    match text {
        [] => false,
        [first, rest @ ..] => is_lower_letter(*first) && are_key_bytes(rest) && rest.len() <= most,
    }
}

fn is_tenant(text: &[u8]) -> bool
    ensures { IsTrue result ↔ IsWord IsTenantStart 240 text.now }
{
    match text {
        [] => false,
        [first, rest @ ..] => is_tenant_start(*first) && are_key_bytes(rest) && rest.len() <= 240,
    }
}

fn are_key_bytes(text: &[u8]) -> bool
    ensures { IsTrue result ↔ All IsKeyByte text.now }
{
    text.iter().all(|&c| is_key_byte(c))
}

fn is_lower_letter(c: u8) -> bool
    ensures { IsTrue result ↔ IsLowerLetter c }
{
    matches!(c, b'a'..=b'z')
}

fn is_tenant_start(c: u8) -> bool
    ensures { IsTrue result ↔ IsTenantStart c }
{
    matches!(c, b'a'..=b'z' | b'0'..=b'9')
}

fn is_key_byte(c: u8) -> bool
    ensures { IsTrue result ↔ IsKeyByte c }
{
    matches!(c, b'a'..=b'z' | b'0'..=b'9' | b'_' | b'-' | b'*' | b'/')
}

fn is_state_value(value: &[u8]) -> bool
    ensures { IsTrue result ↔ IsStateValue value.now }
{
    match value {
        [] => false,
        [.., last] => value.len() <= 256 && are_state_bytes(value) && *last != b' ',
    }
}

fn are_state_bytes(text: &[u8]) -> bool
    ensures { IsTrue result ↔ All IsStateByte text.now }
{
    text.iter().all(|&c| is_state_byte(c))
}

fn is_state_byte(c: u8) -> bool
    ensures { IsTrue result ↔ IsStateByte c }
{
    matches!(c, b' '..=b'~') && c != b',' && c != b'='
}

// The blanks at the front of a text, and what stands behind them.
fn blanks(text: &[u8]) -> (&[u8], &[u8])
    ensures { Leads IsBlank text.now result.0.now result.1.now }
{
    let count = text
        .iter()
        .position(|&c| !is_blank(c))
        .unwrap_or(text.len());
    text.split_at(count)
}

fn is_blank(c: u8) -> bool
    ensures { IsTrue result ↔ IsBlank c }
{
    c == b' ' || c == b'\t'
}

// A text without the blanks at its ends.
pub(crate) fn trimmed(text: &[u8]) -> &[u8]
    ensures { Trims text.now result.now }
{
    let (_, rest) = blanks(text);
    without_end(rest)
}

// A text without the blanks at its end.
fn without_end(text: &[u8]) -> &[u8]
    ensures after { (after : List ℕ) × All IsBlank after × (text.now ≡ result.now ++ after) }
    ensures ends { BeginsWithout IsBlank (reverse result.now) }
{
    let mut end = text.len();
    'blanks: while end > 0 {
        if !is_blank(text[end - 1]) {
            return &text[..end];
        }
        end -= 1;
    }
    &text[..0]
}
