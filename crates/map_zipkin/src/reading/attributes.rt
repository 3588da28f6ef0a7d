//! The attributes of a span and of its resource.
ghost use Rattle.std.specs.Prelude.{◌≡◌, [], ◌∷◌, ◌++◌, filter, option_map, IfOk, OnOk};
ghost use Rattle.span_tags.specs.TagKeys.{service_key};
ghost use Rattle.span_tags.specs.TagWords.{row, without};
ghost use Rattle.map_zipkin.specs.Keys.{peer_key};
ghost use Rattle.map_zipkin.specs.OwnColumns as told;
ghost use Rattle.map_zipkin.specs.OwnColumns.{end_rows, own_rows, own_told};
ghost use Rattle.map_zipkin.specs.private.ReadColumns.{ArePartedBy, ArePlaced};
ghost use Rattle.map_zipkin.specs.Reading as meant;

use crate::count_texts::count_text;
use crate::keys::{Spans, is_free, resource_key};
use crate::own::Own;
use span_io::{Items, OutOfMemory, Text};
use span_tags::{add_row, text_in, text_kept, unescaped, word_given};
use std::alloc::Global;
use trace_model::{Attrs, Value, attrs_of};
use zipkin_json::Endpoint;

/// What a span tells under keys of Zipkin's own.
#[derive(Drop)]
struct Ends {
    pub debug: bool,
    pub shared: bool,
    pub local: Endpoint,
    pub remote: Endpoint,
}

/// The attributes that the marks and the endpoints of a span tell, where the service at the other end
/// is this and that tag names one. Its marks are whether it is for debugging and whether it is shared.
pub(crate) fn ends_of(
    alloc: Global,
    marks: (bool, bool),
    local: Endpoint,
    remote: Endpoint,
    service: Text,
    tag: Option<&Value>,
) -> Result<Attrs, OutOfMemory>
    ensures { IfOk result (λ pairs. pairs
        ≡ row peer_key (meant.peer_of service (option_map (λ v. v.now) tag.entry))
        ++ own_rows
        (own_told (record { debug = marks.0; shared = marks.1; local = local; remote = remote }))) }
{
    let ends = Ends {
        debug: marks.0,
        shared: marks.1,
        local,
        remote,
    };
    let mut pairs = Items::new(alloc);
    let peer = peer_of(alloc, service, tag)?;
    add_row(alloc, &mut pairs, "peer.service", peer)?;
    add_own(alloc, &mut pairs, ends)?;
    Ok(pairs)
}

// The service at the other end: that of the endpoint counts before the tag.
fn peer_of(alloc: Global, service: Text, tag: Option<&Value>) -> Result<Option<Value>, OutOfMemory>
    ensures { IfOk result
        (λ peer. peer ≡ meant.peer_of service (option_map (λ v. v.now) tag.entry)) }
{
    if let Some(peer) = text_kept(service) {
        return Ok(Some(peer));
    }
    match text_in(tag) {
        Some(text) => Ok(text_kept(Text::of(alloc, text)?)),
        None => Ok(None),
    }
}

fn truth_given(alloc: Global, truth: bool) -> Result<Option<Value>, OutOfMemory>
    ensures { IfOk result (λ value. value ≡ told.truth_given truth) }
{
    if truth {
        return word_given(alloc, "true");
    }
    Ok(None)
}

// Adds the addresses and the port of an endpoint under these keys.
fn add_end(
    alloc: Global,
    pairs: &mut Attrs,
    end: Endpoint,
    keys: (Own, Own, Own),
) -> Result<(), OutOfMemory>
    ensures { OnOk result (pairs.new ≡ pairs.old ++ end_rows keys end) }
{
    add_row(alloc, pairs, keys.0.key(), text_kept(end.ipv4))?;
    add_row(alloc, pairs, keys.1.key(), text_kept(end.ipv6))?;
    let port = count_text(alloc, u32::from(end.port))?;
    add_row(alloc, pairs, keys.2.key(), port)
}

// Adds the attributes under keys of Zipkin's own.
fn add_own(alloc: Global, pairs: &mut Attrs, ends: Ends) -> Result<(), OutOfMemory>
    ensures { OnOk result (pairs.new ≡ pairs.old ++ own_rows (own_told ends)) }
{
    let debug = truth_given(alloc, ends.debug)?;
    let shared = truth_given(alloc, ends.shared)?;
    let local = (Own::LocalIpv4, Own::LocalIpv6, Own::LocalPort);
    let remote = (Own::RemoteIpv4, Own::RemoteIpv6, Own::RemotePort);
    add_row(alloc, pairs, Own::Debug.key(), debug)?;
    add_end(alloc, pairs, ends.local, local)?;
    add_end(alloc, pairs, ends.remote, remote)?;
    add_row(alloc, pairs, Own::Shared.key(), shared)
}

/// Tags as attributes of the resource and of the span.
#[derive(Drop)]
pub(crate) struct Parted {
    pub resource: Attrs,
    pub attributes: Attrs,
}

impl Parted {
    // Adds a tag to its part, unless it is none of either.
    fn add(&mut self, alloc: Global, tag: (Text, Value)) -> Result<(), OutOfMemory>
        ensures resource { OnOk result (self.new.resource
            ≡ self.old.resource ++ without service_key (meant.resource_tags (tag ∷ []))) }
        ensures attributes { OnOk result (self.new.attributes
            ≡ self.old.attributes ++ filter (λ tag. meant.is_free_tag tag.0) (tag ∷ [])) }
    {
        let (key, value) = tag;
        if is_free(key.as_str()) {
            return self.attributes.push((key, value));
        }
        match resource_key(key.as_str()) {
            Some(key) => add_resource(alloc, &mut self.resource, key, value),
            None => Ok(()),
        }
    }
}

// Adds an attribute of the resource, unless it is the service.
fn add_resource(
    alloc: Global,
    resource: &mut Attrs,
    key: &str,
    value: Value,
) -> Result<(), OutOfMemory>
    ensures { OnOk result
        (resource.new ≡ resource.old ++ without service_key ((key.now, value) ∷ [])) }
{
    if "service.name" == key {
        return Ok(());
    }
    resource.push((Text::of(alloc, key)?, value))
}

// Adds pairs at the end.
fn add_pairs(list: &mut Attrs, pairs: Attrs) -> Result<(), OutOfMemory>
    ensures { OnOk result (list.new ≡ list.old ++ pairs) }
{
    'pairs: for pair in pairs.into_vec() {
        list.push(pair)?;
    }
    Ok(())
}

/// The tags in two parts, with this service and these pairs, each of which has a place of its own.
/// The pairs are put behind the tags, since their keys are above those of most tags: what rises isn't sorted.
#[tactic(auto, using(crate::proofs::OwnBehind::own_behind))]
pub(crate) fn parted_by(
    alloc: Global,
    service: Text,
    pairs: Attrs,
    tags: Attrs,
) -> Result<Parted, OutOfMemory>
    requires { ArePlaced pairs }
    ensures { IfOk result (ArePartedBy service pairs tags) }
{
    let mut resource = Items::new(alloc);
    add_row(alloc, &mut resource, "service.name", text_kept(service))?;
    let room = tags.len().saturating_add(pairs.len());
    let mut parted = Parted {
        resource,
        attributes: Items::with_room(alloc, room)?,
    };
    'tags: for tag in tags.into_vec() {
        parted.add(alloc, tag)?;
    }
    add_pairs(&mut parted.attributes, pairs)?;
    let resource = attrs_of(alloc, parted.resource)?;
    let (attributes, _) = attrs_of(alloc, parted.attributes)?;
    let attributes = unescaped::<Spans>(alloc, attributes)?;
    Ok(Parted {
        resource: resource.0,
        attributes,
    })
}
