//! The context that a block of header lines tells.
ghost use Rattle.std.specs.Prelude.{◌≡◌, ◌↔◌, [], ◌∷◌, ◌++◌, List, false, Option, Some, Ok, Err, IsTrue, IfOk, IfErr, IfSome, IfNone, OnOk, OnErr};
ghost use Rattle.span_io.specs.declared.halt.Halt.TheVariants as halts;
ghost use Rattle.propagation.specs.Blocks.{Header, HasHeaders};
ghost use Rattle.propagation.specs.private.HeaderLines.{RefusesLine};
ghost use Rattle.propagation.specs.Heads.{Head, Misses, IsFirstForm, IsHeaderCause, TellsState, header_values, tracestate_name};
ghost use Rattle.propagation.specs.private.FoundHeaders.{FoundIn};
ghost use Rattle.propagation.specs.private.HeadSteps.{stateless, behind_commas, IsStateOf, AnswersForm, AnswersStateless};
ghost use Rattle.propagation.specs.HeadAnswers.{OnCause, IfOutOfMemory};
ghost use Rattle.propagation.specs.declared.header_form.HeaderForm.TheVariants as forms;

use crate::b3::read_b3;
use crate::context::Context;
use crate::found::{Found, Once, is_name};
use crate::header_cause::HeaderCause;
use crate::header_form::HeaderForm;
use crate::ids::Ids;
use crate::lines::first_header;
use crate::multi::read_multi;
use crate::sampling::Sampling;
use crate::traceparent::read_traceparent;
use crate::tracestate::read_tracestate;
use crate::uber::read_uber;
use span_io::{Blob, Halt, OutOfMemory, Text};
use std::alloc::Global;

/// Reads the context that a block of header lines tells, by the first form that is there, and whether its
/// `tracestate` isn't of the form and was dropped; or why it tells none.
pub fn read_headers(alloc: Global, block: &[u8]) -> Result<(Context, bool), Halt<HeaderCause>>
    ensures value { IfOk result (λ read. Head read.0 read.1 block.now) }
    ensures cause { OnCause result (λ cause. IsHeaderCause cause block.now) }
    // Memory is taken for the states of a `tracestate` alone.
    ensures memory { IfOutOfMemory result ((headers : List Header) × HasHeaders block.now headers
        × IsFirstForm forms.W3c headers × ¬ (Misses tracestate_name headers)) }
{
    let found = match find_headers(block) {
        Ok(found) => found,
        Err(cause) => return Err(Halt::Why(cause)),
    };
    match found.first_form() {
        None => Err(Halt::Why(HeaderCause::NoContext)),
        Some(HeaderForm::W3c) => match read_w3c(alloc, block, &found)? {
            Some(read) => Ok(read),
            None => Err(Halt::Why(HeaderCause::BadTraceparent)),
        },
        Some(HeaderForm::B3) => without_state(alloc, read_single(&found), HeaderCause::BadB3),
        Some(HeaderForm::B3Multi) => {
            without_state(alloc, read_multi(&found.multi), HeaderCause::BadB3)
        }
        Some(HeaderForm::Uber) => without_state(alloc, read_jaeger(&found), HeaderCause::BadUber),
    }
}

// What tells a context, of all lines.
fn find_headers(block: &[u8]) -> Result<Found<'_>, HeaderCause>
    ensures found { IfOk result
        (λ found. (headers : List Header) × HasHeaders block.now headers × FoundIn found headers) }
    ensures line { IfErr result (λ cause. RefusesLine cause block.now) }
{
    let mut found = Found::new();
    let mut rest = block;
    'headers: loop {
        let Some(first) = first_header(rest)? else {
            return Ok(found);
        };
        found = found.with(first.name, first.value);
        rest = first.rest;
    }
}

// A context that has no state, or the cause.
fn without_state(
    alloc: Global,
    read: Option<(Option<Ids>, Sampling)>,
    cause: HeaderCause,
) -> Result<(Context, bool), Halt<HeaderCause>>
    ensures some { IfSome read (λ r. result ≡ Ok (stateless r.0 r.1, false)) }
    ensures none { IfNone read (result ≡ Err (halts.Why cause)) }
{
    let Some((ids, sampling)) = read else {
        return Err(Halt::Why(cause));
    };
    let context = Context {
        ids,
        sampling,
        state: Text::new(alloc),
    };
    Ok((context, false))
}

fn read_single(found: &Found<'_>) -> Option<(Option<Ids>, Sampling)>
    ensures { (headers : List Header) → FoundIn found.now headers
        → AnswersStateless forms.B3 headers result }
{
    let value = found.b3.once()?;
    read_b3(value)
}

fn read_jaeger(found: &Found<'_>) -> Option<(Option<Ids>, Sampling)>
    ensures { (headers : List Header) → FoundIn found.now headers
        → AnswersStateless forms.Uber headers result }
{
    let value = found.uber.once()?;
    let (ids, sampling) = read_uber(value)?;
    Some((Some(ids), sampling))
}

fn read_w3c(
    alloc: Global,
    block: &[u8],
    found: &Found<'_>,
) -> Result<Option<(Context, bool)>, OutOfMemory>
    ensures value { (headers : List Header) → HasHeaders block.now headers
        → FoundIn found.now headers
        → IfOk result (AnswersForm forms.W3c headers) }
    ensures memory { (headers : List Header) → FoundIn found.now headers
        → OnErr result (¬ (Misses tracestate_name headers)) }
{
    let Some(value) = found.traceparent.once() else {
        return Ok(None);
    };
    let Some((ids, sampling)) = read_traceparent(value) else {
        return Ok(None);
    };
    let (state, dropped) = read_states(alloc, block, found)?;
    let context = Context {
        ids: Some(ids),
        sampling,
        state,
    };
    Ok(Some((context, dropped)))
}

// The state of all lines, and whether it isn't of the form and was dropped.
fn read_states(alloc: Global, block: &[u8], found: &Found<'_>) -> Result<(Text, bool), OutOfMemory>
    ensures value { (headers : List Header) → HasHeaders block.now headers
        → FoundIn found.now headers
        → IfOk result (λ read. TellsState headers read.0 read.1) }
    ensures memory { (headers : List Header) → FoundIn found.now headers
        → OnErr result (¬ (Misses tracestate_name headers)) }
{
    match &found.state {
        Once::Missing => Ok((Text::new(alloc), false)),
        Once::At(value) => read_state(alloc, value),
        Once::Twice => {
            let joined = states_behind_commas(alloc, block)?;
            match joined.as_slice() {
                [] => Ok((Text::new(alloc), false)),
                [_, states @ ..] => read_state(alloc, states),
            }
        }
    }
}

// The state, or nothing where the value isn't of the form.
fn read_state(alloc: Global, value: &[u8]) -> Result<(Text, bool), OutOfMemory>
    ensures { IfOk result (λ read. IsStateOf value.now read.0 read.1) }
{
    match read_tracestate(alloc, value)? {
        Some(state) => Ok((state, false)),
        None => Ok((Text::new(alloc), true)),
    }
}

// The values of `tracestate`, each behind a comma.
fn states_behind_commas(alloc: Global, block: &[u8]) -> Result<Blob, OutOfMemory>
    ensures { (headers : List Header) → HasHeaders block.now headers
        → IfOk result (λ joined. joined ≡ behind_commas (header_values tracestate_name headers)) }
{
    let mut joined = Blob::new(alloc);
    let mut rest = block;
    'states: loop {
        match first_header(rest) {
            Ok(Some(first)) => {
                append_state(&mut joined, first.name, first.value)?;
                rest = first.rest;
            }
            Ok(None) => return Ok(joined),
            // A block that has headers has no such line.
            Err(_) => return Ok(joined),
        }
    }
}

// Appends the value of a header behind a comma, where its name is `tracestate`.
fn append_state(joined: &mut Blob, name: &[u8], value: &[u8]) -> Result<(), OutOfMemory>
    ensures { OnOk result (joined.new ≡ joined.old ++ behind_commas (header_values tracestate_name
        ((record { name = name.now; value = value.now }) ∷ []))) }
{
    if is_name(b"tracestate", name) {
        return joined.append_both(b",", value);
    }
    Ok(())
}
