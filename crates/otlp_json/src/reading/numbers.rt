//! Numbers and enums.
ghost use Rattle.std.specs.Prelude.{◌≡◌, ◌≤◌, ◌^◌, ℤ, Some, IfOk, IfSome, IfNone, FitsSigned};
ghost use Rattle.std.specs.Int.{w128};
ghost use Rattle.json_nodes.specs.Lents.{lent_view as view};
ghost use Rattle.span_io.specs.Paths.{optional, JudgesByCause, Given};
ghost use Rattle.trace_model.specs.declared.span.Code.TheVariants as statuses;
ghost use Rattle.trace_model.specs.declared.span.Kind.TheVariants as kinds;
ghost use Rattle.json_members.specs.Members.{member, IsCount};
ghost use Rattle.otlp_json.specs.Numbers.{integer_in_text, integer_in, unsigned_in, signed_in, IsJsonCount, json_count_offends, IsJsonTime, json_time_offends, IsJsonSigned, signed_offends, enum_offends, IsJsonKind, IsJsonCode};

use json_members::member_of;
use json_nodes::Lent;
use span_ids::Nanos;
use span_io::Cause;
use trace_model::{Code, Kind};

// An optional minus and one or more digits, where they have 128 bits at most.
fn integer_of_text(text: &str) -> Option<i128>
    ensures some { IfSome result (λ z. integer_in_text text.now ≡ Some z) }
    ensures none { IfNone result
        ((z : ℤ) → integer_in_text text.now ≡ Some z → ¬ FitsSigned w128 z) }
{
    let bytes = text.as_bytes();
    if bytes.is_empty() || bytes[0] == b'+' {
        return None;
    }
    if let Ok(short) = text.parse::<i64>() {
        return Some(i128::from(short));
    }
    text.parse::<i128>().ok()
}

// A whole number, where it has 128 bits at most.
fn integer_of(v: &Lent<'_, '_>) -> Option<i128>
    ensures some { IfSome result (λ z. integer_in (view v.now) ≡ Some z) }
    ensures none { IfNone result
        ((z : ℤ) → integer_in (view v.now) ≡ Some z → ¬ FitsSigned w128 z) }
{
    if let Some(text) = v.as_str() {
        return integer_of_text(text);
    }
    if let Some(count) = v.as_u64() {
        return Some(i128::from(count));
    }
    match v.as_i64() {
        Some(integer) => Some(i128::from(integer)),
        None => None,
    }
}

#[tactic(auto, using(crate::proofs::NumberLemmas::in_range))]
fn unsigned_32(v: &Lent<'_, '_>) -> Option<u32>
    ensures { result ≡ unsigned_in (2 ^ 32) (view v.now) }
{
    let Some(integer) = integer_of(v) else {
        return None;
    };
    u32::try_from(integer).ok()
}

#[tactic(auto, using(crate::proofs::NumberLemmas::in_range))]
fn unsigned_64(v: &Lent<'_, '_>) -> Option<u64>
    ensures { result ≡ unsigned_in (2 ^ 64) (view v.now) }
{
    let Some(integer) = integer_of(v) else {
        return None;
    };
    u64::try_from(integer).ok()
}

#[tactic(auto, using(crate::proofs::NumberLemmas::in_range))]
fn signed_64(v: &Lent<'_, '_>) -> Option<i64>
    ensures { result ≡ signed_in (view v.now) }
{
    let Some(integer) = integer_of(v) else {
        return None;
    };
    i64::try_from(integer).ok()
}

pub fn signed_of(v: &Lent<'_, '_>) -> Result<i64, Cause>
    ensures value { IfOk result (λ z. IsJsonSigned z (view v.now)) }
    ensures judged { JudgesByCause result (signed_offends (view v.now)) }
{
    match signed_64(v) {
        Some(integer) => Ok(integer),
        None => Err(Cause::BadShape),
    }
}

fn count_of(v: &Lent<'_, '_>) -> Result<u32, Cause>
    ensures value { IfOk result (λ n. IsJsonCount n (view v.now)) }
    ensures judged { JudgesByCause result (json_count_offends (view v.now)) }
{
    match unsigned_32(v) {
        Some(count) => Ok(count),
        None => Err(Cause::BadShape),
    }
}

// A count or flags that may be absent, which are 0 then.
pub fn count(v: &Lent<'_, '_>, name: &str) -> Result<u32, Cause>
    ensures value { IfOk result (λ n. Given IsJsonCount (λ c. c ≡ 0) n
        (member name.now (view v.now))) }
    ensures judged { JudgesByCause result
        (optional json_count_offends (member name.now (view v.now))) }
{
    match member_of(v, name) {
        None => Ok(0),
        Some(found) => count_of(&found),
    }
}

fn time_of(v: &Lent<'_, '_>) -> Result<Nanos, Cause>
    ensures value { IfOk result (λ n. IsJsonTime n (view v.now)) }
    ensures judged { JudgesByCause result (json_time_offends (view v.now)) }
{
    match unsigned_64(v) {
        Some(count) => Ok(Nanos(count)),
        None => Err(Cause::BadShape),
    }
}

// A time that may be absent, which is 0 then.
pub fn time(v: &Lent<'_, '_>, name: &str) -> Result<Nanos, Cause>
    ensures value { IfOk result (λ n. Given IsJsonTime (λ t. t ≡ 0) n
        (member name.now (view v.now))) }
    ensures judged { JudgesByCause result
        (optional json_time_offends (member name.now (view v.now))) }
{
    match member_of(v, name) {
        None => Ok(Nanos(0)),
        Some(found) => time_of(&found),
    }
}

// The number of an enum, of which the last has this number.
#[tactic(auto, using(crate::proofs::NumberLemmas::enums))]
fn enum_number(v: &Lent<'_, '_>, last: u64) -> Result<u64, Cause>
    ensures value { IfOk result (λ n. IsCount n (view v.now) × (n ≤ last)) }
    ensures judged { JudgesByCause result (enum_offends last (view v.now)) }
{
    let Some(number) = v.as_u64() else {
        if v.is_i64() {
            return Err(Cause::BadEnum);
        }
        return Err(Cause::BadShape);
    };
    if number > last {
        return Err(Cause::BadEnum);
    }
    Ok(number)
}

fn kind_of(v: &Lent<'_, '_>) -> Result<Kind, Cause>
    ensures value { IfOk result (λ kind. IsJsonKind kind (view v.now)) }
    ensures judged { JudgesByCause result (enum_offends 5 (view v.now)) }
{
    let number = enum_number(v, 5)?;
    Kind::of_number(number).ok_or(Cause::BadEnum)
}

// A kind that may be absent.
pub fn kind(v: &Lent<'_, '_>, name: &str) -> Result<Kind, Cause>
    ensures value { IfOk result (λ kind. Given IsJsonKind (λ k. k ≡ kinds.Unspecified) kind
        (member name.now (view v.now))) }
    ensures judged { JudgesByCause result
        (optional (enum_offends 5) (member name.now (view v.now))) }
{
    match member_of(v, name) {
        None => Ok(Kind::Unspecified),
        Some(found) => kind_of(&found),
    }
}

fn code_of(v: &Lent<'_, '_>) -> Result<Code, Cause>
    ensures value { IfOk result (λ code. IsJsonCode code (view v.now)) }
    ensures judged { JudgesByCause result (enum_offends 2 (view v.now)) }
{
    let number = enum_number(v, 2)?;
    Code::of_number(number).ok_or(Cause::BadEnum)
}

// A code that may be absent.
pub fn code(v: &Lent<'_, '_>, name: &str) -> Result<Code, Cause>
    ensures value { IfOk result (λ code. Given IsJsonCode (λ c. c ≡ statuses.Unset) code
        (member name.now (view v.now))) }
    ensures judged { JudgesByCause result
        (optional (enum_offends 2) (member name.now (view v.now))) }
{
    match member_of(v, name) {
        None => Ok(Code::Unset),
        Some(found) => code_of(&found),
    }
}
