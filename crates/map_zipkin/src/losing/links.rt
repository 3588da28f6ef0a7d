//! Links, each with its number in its span. Zipkin has none.
ghost use Rattle.std.specs.Prelude.{◌≡◌, ◌++◌, OnOk};
ghost use Rattle.span_tags.specs.Losses.{losses_of};
ghost use Rattle.map_zipkin.specs.Losses as told;

use span_io::{Items, OutOfMemory};
use span_tags::lose;
use std::alloc::Global;
use trace_model::{Link, Loss, LossRow, Place};

/// Adds the links of the span of this number.
pub(crate) fn lose_links(
    alloc: Global,
    losses: &mut Items<Loss>,
    span: u32,
    links: &Items<Link>,
) -> Result<(), OutOfMemory>
    ensures { OnOk result
        (losses.new ≡ losses.old ++ losses_of (told.link_losses span) 1 links.now) }
{
    // The length of a list fits 32 bits.
    'links: for i in 0..links.len() {
        let place = Place::Link(span, i as u32 + 1);
        lose(alloc, losses, place, LossRow::Link, true)?;
    }
    Ok(())
}
