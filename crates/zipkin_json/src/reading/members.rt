//! Members of an object, by their kinds.
ghost use Rattle.std.specs.Prelude.{◌≡◌, ◌+◌, ◌≤◌, [], false, IfOk, option_map};
ghost use Rattle.json_nodes.specs.Lents.{lent_view as view};
ghost use Rattle.span_io.specs.Paths.{required, optional, JudgesValue, JudgesByCause, Given, Never};
ghost use Rattle.span_ids.specs.Times.{last_micros};
ghost use Rattle.json_members.specs.Members.{IsText, text_offends, IsTruth, truth_offends, IsCount};
ghost use Rattle.zipkin_json.specs.Members.{IsPort, port_offends, count_offends};

use json_members::{text_of, truth_of};
use json_nodes::Lent;
use span_io::{Cause, Halt, Text};
use std::alloc::Global;

/// The last count of microseconds whose nanoseconds fit 64 bits.
pub const LAST_MICROS: u64 = u64::MAX / 1000;

pub fn required_text(alloc: Global, found: Option<Lent<'_, '_>>) -> Result<Text, Halt<Cause>>
    ensures value { IfOk result (λ text. Given IsText Never text (option_map view found.entry)) }
    ensures judged { JudgesValue result (required text_offends (option_map view found.entry)) }
{
    match found {
        None => Err(Halt::Why(Cause::Missing)),
        Some(found) => text_of(alloc, &found),
    }
}

// A truth value that may be absent, which is false then.
pub fn truth(found: Option<Lent<'_, '_>>) -> Result<bool, Cause>
    ensures value { IfOk result (λ truth. Given IsTruth (λ t. t ≡ false) truth
        (option_map view found.entry)) }
    ensures judged { JudgesByCause result (optional truth_offends (option_map view found.entry)) }
{
    match found {
        None => Ok(false),
        Some(found) => truth_of(&found),
    }
}

// A port that may be absent, which is 0 then.
pub fn port(found: Option<Lent<'_, '_>>) -> Result<u16, Cause>
    ensures value { IfOk result (λ port. Given IsPort (λ p. p ≡ 0) port
        (option_map view found.entry)) }
    ensures judged { JudgesByCause result (optional port_offends (option_map view found.entry)) }
{
    let Some(found) = found else {
        return Ok(0);
    };
    let Some(number) = found.as_u64() else {
        return Err(Cause::BadShape);
    };
    match u16::try_from(number) {
        Ok(port) => Ok(port),
        Err(_) => Err(Cause::BadShape),
    }
}

// A count of microseconds that come behind `start`.
fn micros_of(v: &Lent<'_, '_>, start: u64) -> Result<u64, Cause>
    requires { start ≤ last_micros }
    ensures value { IfOk result (λ count. IsCount count (view v.now)) }
    ensures sum { IfOk result (λ count. start + count ≤ last_micros) }
    ensures judged { JudgesByCause result (count_offends start (view v.now)) }
{
    let Some(count) = v.as_u64() else {
        if v.is_i64() {
            return Err(Cause::BadTime);
        }
        return Err(Cause::BadShape);
    };
    if count > LAST_MICROS - start {
        return Err(Cause::BadTime);
    }
    Ok(count)
}

// A count that may be absent, which is 0 then.
pub fn micros(found: Option<Lent<'_, '_>>, start: u64) -> Result<u64, Cause>
    requires { start ≤ last_micros }
    ensures value { IfOk result (λ count. Given IsCount (λ c. c ≡ 0) count
        (option_map view found.entry)) }
    ensures sum { IfOk result (λ count. start + count ≤ last_micros) }
    ensures judged { JudgesByCause result
        (optional (count_offends start) (option_map view found.entry)) }
{
    match found {
        None => Ok(0),
        Some(found) => micros_of(&found, start),
    }
}

pub fn required_micros(found: Option<Lent<'_, '_>>) -> Result<u64, Cause>
    ensures value { IfOk result (λ count. Given IsCount Never count
        (option_map view found.entry)) }
    ensures sum { IfOk result (λ count. count ≤ last_micros) }
    ensures judged { JudgesByCause result
        (required (count_offends 0) (option_map view found.entry)) }
{
    match found {
        None => Err(Cause::Missing),
        Some(found) => micros_of(&found, 0),
    }
}
