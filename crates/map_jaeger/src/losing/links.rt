//! Links, each with its number in its span.
ghost use Rattle.std.specs.Prelude.{◌≡◌, ◌++◌, OnOk};
ghost use Rattle.span_tags.specs.Losses.{losses_of};
ghost use Rattle.map_jaeger.specs.Losses as told;

use crate::writing::is_child_of;
use span_io::{Items, OutOfMemory, Text};
use span_tags::{has_text, lose};
use std::alloc::Global;
use trace_model::{Attrs, Link, Loss, LossRow, Place, Value};

/// Adds the losses of the links of the span of this number.
pub(crate) fn lose_links(
    alloc: Global,
    losses: &mut Items<Loss>,
    span: u32,
    links: &Items<Link>,
) -> Result<(), OutOfMemory>
    ensures { OnOk result
        (losses.new ≡ losses.old ++ losses_of (told.link_losses span) 1 links.now) }
{
    // The length of a list fits 32 bits.
    'links: for i in 0..links.len() {
        let link = &links.as_slice()[i];
        lose_link(alloc, losses, span, i as u32 + 1, link)?;
    }
    Ok(())
}

fn lose_link(
    alloc: Global,
    losses: &mut Items<Loss>,
    span: u32,
    number: u32,
    link: &Link,
) -> Result<(), OutOfMemory>
    ensures { OnOk result (losses.new ≡ losses.old ++ told.link_losses span number link.now) }
{
    let place = Place::Link(span, number);
    let dropped = link.dropped != 0;
    lose(alloc, losses, place, LossRow::DroppedCount, dropped)?;
    let attributes = !are_kept(&link.attributes);
    lose(alloc, losses, place, LossRow::Attributes, attributes)?;
    lose(alloc, losses, place, LossRow::Flags, link.flags != 0)?;
    let state = has_text(&link.state);
    lose(alloc, losses, place, LossRow::State, state)
}

// Whether the attribute is the mark of CHILD_OF.
fn is_mark(pair: &(Text, Value)) -> bool
    ensures { result ≡ told.is_mark pair.now }
{
    "opentracing.ref_type" == pair.0.as_str() && is_child_of(Some(&pair.1))
}

// Whether the attributes of a link stay: there are none, or the mark of CHILD_OF alone.
fn are_kept(attributes: &Attrs) -> bool
    ensures { result ≡ told.are_kept attributes.now }
{
    match attributes.as_slice() {
        [] => true,
        [pair] => is_mark(pair),
        _ => false,
    }
}
