//! Spans, each with its number in the group.
ghost use Rattle.std.specs.Prelude.{◌≡◌, ◌++◌, ◌+◌, ◌<◌, ◌^◌, length, OnOk};
ghost use Rattle.span_tags.specs.Losses.{losses_of};
ghost use Rattle.map_jaeger.specs.Losses as told;

use crate::losing::attributes::lose_values;
use crate::losing::events::lose_events;
use crate::losing::links::lose_links;
use span_io::{Items, OutOfMemory};
use span_tags::{has_text, is_unspecified, lose};
use std::alloc::Global;
use trace_model::{Code, Loss, LossRow, Place, Span, Status};

/// Adds the losses of spans, with so many spans of the group before them.
pub(crate) fn lose_spans(
    alloc: Global,
    losses: &mut Items<Loss>,
    before: u32,
    spans: &Items<Span>,
) -> Result<(), OutOfMemory>
    requires counted { before + length spans.now < 2 ^ 32 }
    ensures { OnOk result
        (losses.new ≡ losses.old ++ losses_of told.span_losses (before + 1) spans.now) }
{
    let mut number = before;
    'spans: for span in spans.as_slice() {
        number += 1;
        lose_span(alloc, losses, number, span)?;
    }
    Ok(())
}

fn lose_span(
    alloc: Global,
    losses: &mut Items<Loss>,
    number: u32,
    span: &Span,
) -> Result<(), OutOfMemory>
    ensures { OnOk result (losses.new ≡ losses.old ++ told.span_losses number span.now) }
{
    lose_own(alloc, losses, number, span)?;
    lose_events(alloc, losses, number, &span.events)?;
    lose_links(alloc, losses, number, &span.links)
}

// Adds the losses of a span itself.
fn lose_own(
    alloc: Global,
    losses: &mut Items<Loss>,
    number: u32,
    span: &Span,
) -> Result<(), OutOfMemory>
    ensures { OnOk result (losses.new ≡ losses.old ++ told.own_losses number span.now) }
{
    let place = Place::Span(number);
    lose_values(alloc, losses, place, &span.attributes)?;
    let start = span.start.0 != span.start.floor().0;
    lose(alloc, losses, place, LossRow::Start, start)?;
    let end = span.end.0 != span.end.floor().0;
    lose(alloc, losses, place, LossRow::End, end)?;
    let kind = is_unspecified(span.kind);
    lose(alloc, losses, place, LossRow::Kind, kind)?;
    let message = message_goes(&span.status);
    lose(alloc, losses, place, LossRow::Message, message)?;
    let flags = span.flags != span.flags % 2;
    lose(alloc, losses, place, LossRow::Flags, flags)
}

// Whether there is a message without a code.
fn message_goes(status: &Status) -> bool
    ensures { result ≡ told.message_goes status.now.code status.now.message }
{
    match status.code {
        Code::Unset => has_text(&status.message),
        Code::Okay | Code::Fail => false,
    }
}
