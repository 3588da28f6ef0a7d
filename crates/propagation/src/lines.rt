//! Header lines: a name, a colon and a value with blanks round it.
ghost use Rattle.std.specs.Prelude.{◌≡◌, ◌≢◌, ◌<◌, ◌↔◌, List, [], ◌∷◌, ◌++◌, ℕ, length, All, IsTrue, IfOk, IfErr, IfSome, IsSomeAnd, MatchOption};
ghost use Rattle.propagation.specs.Fronts.{Leads};
ghost use Rattle.propagation.specs.Blocks.{Header, HeaderLine, HasHeaders, IsNameByte, IsValueByte, IsHeaderLine, header_line_text};
ghost use Rattle.propagation.specs.Blocks.HeaderLine.{told};
ghost use Rattle.propagation.specs.private.HeaderLines.{CutsLine, HeadersThen, IsToldLine, RefusesLine};

use crate::digits::behind;
use crate::header_cause::HeaderCause;
use crate::members::trimmed;

// The first header of some lines, and the lines behind its own.
#[derive(Clone, Copy)]
pub(crate) struct FirstHeader<'a> {
    pub(crate) name: &'a [u8],
    pub(crate) value: &'a [u8],
    pub(crate) rest: &'a [u8],
}

// The first header of some lines, if they have one.
pub(crate) fn first_header(text: &[u8]) -> Result<Option<FirstHeader<'_>>, HeaderCause>
    ensures value { IfOk result (λ read. MatchOption read (HasHeaders text.now [])
        (λ first. HeadersThen text.now
        ((record { name = first.name.now; value = first.value.now }) ∷ []) first.rest.now)) }
    ensures nearer { IfOk result
        (λ read. IfSome read (λ first. length first.rest.now < length text.now)) }
    ensures line { IfErr result (λ cause. RefusesLine cause text.now) }
{
    let mut rest = text;
    'lines: while !rest.is_empty() {
        let (line, behind) = cut_line(rest);
        rest = behind;
        if line.is_empty() {
            continue;
        }
        let Some((name, value)) = read_line(line) else {
            return Err(HeaderCause::HeaderLine);
        };
        return Ok(Some(FirstHeader { name, value, rest }));
    }
    Ok(None)
}

// The line at the front of a text without its end, and what stands behind it.
fn cut_line(text: &[u8]) -> (&[u8], &[u8])
    ensures { CutsLine text.now result.0.now result.1.now }
{
    let (line, rest) = before_lf(text);
    let Some(rest) = behind(rest, b"\n") else {
        return (line, rest);
    };
    match before_cr(line) {
        None => (line, rest),
        Some(line) => (line, rest),
    }
}

fn before_lf(text: &[u8]) -> (&[u8], &[u8])
    ensures { Leads (λ c. c ≢ 10) text.now result.0.now result.1.now }
{
    let count = text.iter().position(|&c| c == b'\n').unwrap_or(text.len());
    text.split_at(count)
}

// A line without the CR at its end, if it has one.
fn before_cr(line: &[u8]) -> Option<&[u8]>
    ensures { MatchOption result ((front : List ℕ) → line.now ≢ front ++ 13 ∷ [])
        (λ front. line.now ≡ front.now ++ 13 ∷ []) }
{
    line.strip_suffix(b"\r")
}

// The name and the value on a line that isn't empty.
fn read_line(line: &[u8]) -> Option<(&[u8], &[u8])>
    ensures value { IfSome result (λ r. (before after : List ℕ)
        × IsToldLine (record { name = r.0.now; value = r.1.now }) before after line.now) }
    ensures only { (h : Header) (before after : List ℕ) → IsToldLine h before after line.now
        → IsSomeAnd result (λ r. (r.0.now ≡ h.name) × (r.1.now ≡ h.value)) }
{
    let (name, rest) = name_bytes(line);
    let rest = behind(rest, b":")?;
    let value = trimmed(rest);
    if name.is_empty() || !are_value_bytes(value) {
        return None;
    }
    Some((name, value))
}

// The characters of a name at the front of a line, and what stands behind them.
fn name_bytes(line: &[u8]) -> (&[u8], &[u8])
    ensures { Leads IsNameByte line.now result.0.now result.1.now }
{
    let count = line
        .iter()
        .position(|&c| !is_name_byte(c))
        .unwrap_or(line.len());
    line.split_at(count)
}

fn is_name_byte(c: u8) -> bool
    ensures { IsTrue result ↔ IsNameByte c }
{
    c.is_ascii_alphanumeric() || c == b'-' || c == b'_'
}

fn are_value_bytes(text: &[u8]) -> bool
    ensures { IsTrue result ↔ All IsValueByte text.now }
{
    text.iter().all(|&c| is_value_byte(c))
}

fn is_value_byte(c: u8) -> bool
    ensures { IsTrue result ↔ IsValueByte c }
{
    matches!(c, b' '..=b'~' | b'\t')
}
