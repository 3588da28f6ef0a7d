//! Remarks on a span.
ghost use Rattle.std.specs.Prelude.{◌≡◌, ◌++◌, IfOk};
ghost use Rattle.trace_model.specs.Remarks.{equal_keys, link_dropped};
ghost use Rattle.trace_model.specs.declared.place.Place.TheVariants as places;

use span_io::{Items, OutOfMemory, Text};
use std::alloc::Global;
use trace_model::{Place, Remark, remark_all, remark_dropped, remark_keys};

/// The remarks on the span of this number, in the order of their places: on the keys of its
/// attributes, on dropped links, on its events and on its links.
pub fn remarks_of(
    alloc: Global,
    number: u32,
    keys: Items<Text>,
    dropped: bool,
    events: Items<Remark>,
    links: Items<Remark>,
) -> Result<Items<Remark>, OutOfMemory>
    ensures { IfOk result (λ remarks. remarks ≡ equal_keys (places.Span number) keys
        ++ (link_dropped (places.Span number) dropped ++ (events ++ links))) }
{
    let mut remarks = Items::new(alloc);
    remark_keys(&mut remarks, Place::Span(number), keys)?;
    remark_dropped(alloc, &mut remarks, Place::Span(number), dropped)?;
    remark_all(&mut remarks, events)?;
    remark_all(&mut remarks, links)?;
    Ok(remarks)
}
