//! Laws over all values of headers and all contexts. The functions do little: their contracts are the laws.
ghost use Rattle.std.specs.Prelude.{IsUtf8};
ghost use Rattle.propagation.specs.StatedLaws.{IsProperIds, AreProperIds, ValuesReadBack, ContextsAreNormal, OneHeaderVerdict, HeadsAreSound, StatesAreSound, HeadersReadBack};

use crate::context::Context;
use crate::ids::Ids;
use span_ids::proper_parent;

/// The identifiers in hand are in their ranges.
pub fn proper_ids(ids: Ids)
    ensures { IsProperIds ids }
{
    ids.trace.known();
    ids.span.known();
    proper_parent(ids.parent);
}

/// The identifiers of a context in hand are in their ranges, and its state is a text.
pub fn proper_context(context: &Context)
    ensures ids { AreProperIds context.now.ids }
    ensures state { IsUtf8 context.now.state }
{
    context.state.as_str();
    if let Some(ids) = context.ids {
        proper_ids(ids);
    }
}

/// A value that is written is of its form, and tells what the form holds of the identifiers and the
/// sampling.
pub fn values_read_back()
    ensures { ValuesReadBack }
{
    span_ids::laws::identifiers_read_back();
}

/// What a form holds of a context is its normal form, which is its own, and is written by the same lines.
pub fn contexts_are_normal()
    ensures { ContextsAreNormal }
{
    // The clause is the law.
}

/// A block of header lines tells one context, or is refused for one cause.
pub fn one_verdict()
    ensures { OneHeaderVerdict }
{
    // The clause is the law.
}

/// The context that a block of header lines tells is one that can be written.
pub fn heads_are_sound()
    ensures { HeadsAreSound }
{
    // The clause is the law.
}

/// The state that a value of `tracestate` tells is one that can be written: it is its own canonical
/// text, and a context that has identifiers may hold it.
pub fn states_are_sound()
    ensures { StatesAreSound }
{
    // The clause is the law.
}

/// The lines that are written for a context tell its normal form.
pub fn headers_read_back()
    ensures { HeadersReadBack }
{
    span_ids::laws::identifiers_read_back();
}
