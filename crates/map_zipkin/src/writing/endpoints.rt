//! The endpoints of a span.
ghost use Rattle.std.specs.Prelude.{◌≡◌, option_and_then, option_map, false, IfOk};
ghost use Rattle.span_tags.specs.Doubles.{double_at};
ghost use Rattle.span_tags.specs.TagKeys.{service_key};
ghost use Rattle.span_tags.specs.TagWords as words;
ghost use Rattle.trace_model.specs.Attributes.{at};
ghost use Rattle.trace_model.specs.EventTexts.{holds_double};
ghost use Rattle.map_zipkin.specs.Keys.{peer_key};
ghost use Rattle.map_zipkin.specs.OwnColumns.{own_in};
ghost use Rattle.map_zipkin.specs.TagColumns as columns;
ghost use Rattle.map_zipkin.specs.private.Unfit.{port_unfit, ports_unfit};
ghost use Rattle.map_zipkin.specs.Writing as told;

use crate::own::{Own, own_held};
use span_io::{OutOfMemory, Text};
use span_tags::{decimal_in, text_in, text_or_empty, text_or_none};
use std::alloc::Global;
use trace_model::{Attrs, Value, find};
use zipkin_json::Endpoint;

// The number of 32 bits whose decimal the value is.
fn number_in(value: Option<&Value>) -> Option<u32>
    ensures { result ≡ option_and_then (words.at_most 4294967295)
        (option_and_then words.decimal_in
        (words.text_in (option_map (λ value. value.now) value.entry))) }
{
    let text = text_in(value)?;
    decimal_in(text)
}

fn port_told(value: Option<&Value>) -> u16
    requires { port_unfit (option_map (λ value. value.now) value) ≡ false }
    ensures { result ≡ columns.port_told (option_map (λ value. value.now) value.entry) }
{
    let number = number_in(value).unwrap_or(0);
    match u16::try_from(number) {
        Ok(port) => port,
        Err(_) => 0,
    }
}

// The endpoint of the span, which is of the resource's service.
fn local_endpoint(
    alloc: Global,
    resource: &Attrs,
    part: &[(Text, Value)],
) -> Result<Endpoint, OutOfMemory>
    requires plain { double_at (at service_key resource.now) ≡ false }
    requires ports { ports_unfit part.now ≡ false }
    ensures { IfOk result
        (λ endpoint. endpoint ≡ told.local_endpoint resource.now (own_in part.now)) }
{
    Ok(Endpoint {
        service: text_or_none(alloc, find(resource, "service.name"))?,
        ipv4: text_or_empty(alloc, own_held(part, Own::LocalIpv4))?,
        ipv6: text_or_empty(alloc, own_held(part, Own::LocalIpv6))?,
        port: port_told(own_held(part, Own::LocalPort)),
    })
}

// The endpoint at the other end.
fn remote_endpoint(
    alloc: Global,
    attributes: &Attrs,
    part: &[(Text, Value)],
) -> Result<Endpoint, OutOfMemory>
    requires plain { double_at (at peer_key attributes.now) ≡ false }
    requires ports { ports_unfit part.now ≡ false }
    ensures { IfOk result
        (λ endpoint. endpoint ≡ told.remote_endpoint attributes.now (own_in part.now)) }
{
    Ok(Endpoint {
        service: text_or_none(alloc, find(attributes, "peer.service"))?,
        ipv4: text_or_empty(alloc, own_held(part, Own::RemoteIpv4))?,
        ipv6: text_or_empty(alloc, own_held(part, Own::RemoteIpv6))?,
        port: port_told(own_held(part, Own::RemotePort)),
    })
}

/// The endpoint of the span, and the one at the other end, by its attributes and the part of them that
/// holds what stands under keys of Zipkin's own.
#[tactic(auto, using(crate::proofs::PlainTags::at_plain))]
pub(crate) fn endpoints_of(
    alloc: Global,
    resource: &Attrs,
    attributes: &Attrs,
    part: &[(Text, Value)],
) -> Result<(Endpoint, Endpoint), OutOfMemory>
    requires resource { holds_double resource.now ≡ false }
    requires attributes { holds_double attributes.now ≡ false }
    requires ports { ports_unfit part.now ≡ false }
    ensures local { IfOk result
        (λ ends. ends.0 ≡ told.local_endpoint resource.now (own_in part.now)) }
    ensures remote { IfOk result
        (λ ends. ends.1 ≡ told.remote_endpoint attributes.now (own_in part.now)) }
{
    let local = local_endpoint(alloc, resource, part)?;
    let remote = remote_endpoint(alloc, attributes, part)?;
    Ok((local, remote))
}
