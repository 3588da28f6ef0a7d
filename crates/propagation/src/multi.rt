//! The context that the headers tell whose names begin with `X-B3-`.
ghost use Rattle.std.specs.Prelude.{◌≡◌, ◌↔◌, ℕ, List, Option, Some, IfSome, IsTrue, codes};
ghost use Rattle.std.specs.Option.{option_copied};
ghost use Rattle.propagation.specs.Blocks.{Header};
ghost use Rattle.propagation.specs.Heads.{TellsMultiIds, TellsSampled, TellsMultiSampling};
ghost use Rattle.propagation.specs.private.FoundHeaders.{FoundMulti};
ghost use Rattle.propagation.specs.private.HeadSteps.{AnswersStateless};
ghost use Rattle.propagation.specs.declared.header_form.HeaderForm.TheVariants as forms;
ghost use Rattle.propagation.specs.declared.ids.Ids.{Ids};
ghost use Rattle.propagation.specs.declared.sampling.Sampling.{Sampling};

use crate::digits::read_pair;
use crate::found::Multi;
use crate::ids::Ids;
use crate::sampling::Sampling;
use span_ids::{IdRule, SpanId};

// Reads the headers, each of which stands once at most. None is where they tell no context.
pub(crate) fn read_multi(multi: &Multi<'_>) -> Option<(Option<Ids>, Sampling)>
    ensures { (headers : List Header) → FoundMulti multi.now headers
        → AnswersStateless forms.B3Multi headers result }
{
    let trace = multi.trace.at_most_once()?;
    let span = multi.span.at_most_once()?;
    let parent = multi.parent.at_most_once()?;
    let sampled = multi.sampled.at_most_once()?;
    let flags = multi.flags.at_most_once()?;
    let ids = read_multi_ids(trace, span, parent)?;
    let sampling = read_multi_sampling(sampled, flags)?;
    if ids.is_none() && sampling == Sampling::Absent {
        return None;
    }
    Some((ids, sampling))
}

// Reads identifiers: those of trace and span stand both or neither, and a parent only with them.
fn read_multi_ids(
    trace: Option<&[u8]>,
    span: Option<&[u8]>,
    parent: Option<&[u8]>,
) -> Option<Option<Ids>>
    ensures value { IfSome result (λ ids.
        TellsMultiIds (option_copied trace.entry) (option_copied span.entry)
        (option_copied parent.entry) ids) }
    ensures only { (ids : Option Ids)
        → TellsMultiIds (option_copied trace.entry) (option_copied span.entry)
        (option_copied parent.entry) ids
        → result ≡ Some ids }
{
    match (trace, span, parent) {
        (None, None, None) => Some(None),
        (Some(trace), Some(span), None) => {
            let (trace, span) = read_pair(trace, span, IdRule::Half, IdRule::Exact)?;
            Some(Some(Ids {
                trace,
                span,
                parent: None,
            }))
        }
        (Some(trace), Some(span), Some(parent)) => {
            let (trace, span) = read_pair(trace, span, IdRule::Half, IdRule::Exact)?;
            let Ok(parent) = SpanId::read_hex(parent, IdRule::Exact) else {
                return None;
            };
            Some(Some(Ids {
                trace,
                span,
                parent: Some(parent),
            }))
        }
        _ => None,
    }
}

// A flag 1 is debug, and then nothing else is looked at.
fn read_multi_sampling(sampled: Option<&[u8]>, flags: Option<&[u8]>) -> Option<Sampling>
    ensures value { IfSome result (λ sampling.
        TellsMultiSampling (option_copied sampled.entry) (option_copied flags.entry) sampling) }
    ensures only { (sampling : Sampling)
        → TellsMultiSampling (option_copied sampled.entry) (option_copied flags.entry) sampling
        → result ≡ Some sampling }
{
    if is_debug(flags) {
        return Some(Sampling::Debug);
    }
    read_sampled(sampled)
}

fn is_debug(flags: Option<&[u8]>) -> bool
    ensures { IsTrue result ↔ (option_copied flags.entry ≡ Some (codes "1")) }
{
    match flags {
        None => false,
        Some(flags) => flags == b"1".as_slice(),
    }
}

fn read_sampled(sampled: Option<&[u8]>) -> Option<Sampling>
    ensures value { IfSome result
        (λ sampling. TellsSampled (option_copied sampled.entry) sampling) }
    ensures only { (sampling : Sampling) → TellsSampled (option_copied sampled.entry) sampling
        → result ≡ Some sampling }
{
    let Some(text) = sampled else {
        return Some(Sampling::Absent);
    };
    if text == b"0".as_slice() || text == b"false".as_slice() {
        return Some(Sampling::No);
    }
    if text == b"1".as_slice() || text == b"true".as_slice() {
        return Some(Sampling::Yes);
    }
    None
}
