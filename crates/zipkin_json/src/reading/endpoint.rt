//! `Endpoint` of Zipkin v2.
ghost use Rattle.std.specs.Prelude.{◌≡◌, IfOk, option_map, codes};
ghost use Rattle.json_nodes.specs.Lents.{lent_view as view};
ghost use Rattle.span_io.specs.Paths.{optional, JudgesValue, Given};
ghost use Rattle.json_members.specs.Members.{member};
ghost use Rattle.zipkin_json.specs.Span.{IsEndpoint, endpoint_members, endpoint_offends, no_endpoint};

use crate::reading::members::port;
use crate::span::Endpoint;
use json_members::{Table, bare_member, member, members_of, object, text_found};
use json_nodes::Lent;
use span_io::{Cause, Halt, Text};
use std::alloc::Global;

impl Endpoint {
    // What stands for one that is absent.
    fn none(alloc: Global) -> Endpoint
        ensures { result ≡ no_endpoint }
    {
        Endpoint {
            service: Text::new(alloc),
            ipv4: Text::new(alloc),
            ipv6: Text::new(alloc),
            port: 0,
        }
    }
}

// The members of an endpoint.
struct EndpointTable;

impl Table for EndpointTable {
    ghost parts = { endpoint_members };
}

// The members of an endpoint that are there.
#[derive(Clone, Copy)]
struct EndpointMembers<'v, 'a> {
    service: Option<Lent<'v, 'a>>,
    ipv4: Option<Lent<'v, 'a>>,
    ipv6: Option<Lent<'v, 'a>>,
    port: Option<Lent<'v, 'a>>,
}

impl<'v, 'a> EndpointMembers<'v, 'a> {
    fn of(v: &Lent<'v, 'a>) -> EndpointMembers<'v, 'a>
        ensures service { option_map view result.service
            ≡ member (codes "serviceName") (view v.now) }
        ensures ipv4 { option_map view result.ipv4 ≡ member (codes "ipv4") (view v.now) }
        ensures ipv6 { option_map view result.ipv6 ≡ member (codes "ipv6") (view v.now) }
        ensures port { option_map view result.port ≡ member (codes "port") (view v.now) }
    {
        let mut found = [None; 4];
        members_of(v, &["serviceName", "ipv4", "ipv6", "port"], &mut found);
        let [service, ipv4, ipv6, port] = found;
        EndpointMembers {
            service,
            ipv4,
            ipv6,
            port,
        }
    }
}

#[tactic(auto, using(json_members::proofs::PartLaws::reading), unfolding(crate::specs::Span::endpoint_members))]
fn read_endpoint(alloc: Global, v: &Lent<'_, '_>) -> Result<Endpoint, Halt<Cause>>
    ensures value { IfOk result (λ e. IsEndpoint e (view v.now)) }
    ensures judged { JudgesValue result (endpoint_offends (view v.now)) }
{
    object::<EndpointTable>(v)?;
    let found = EndpointMembers::of(v);
    let service = member::<EndpointTable, _>(v, 0, text_found(alloc, found.service))?;
    let ipv4 = member::<EndpointTable, _>(v, 1, text_found(alloc, found.ipv4))?;
    let ipv6 = member::<EndpointTable, _>(v, 2, text_found(alloc, found.ipv6))?;
    let port = bare_member::<EndpointTable, _>(v, 3, port(found.port))?;
    Ok(Endpoint {
        service,
        ipv4,
        ipv6,
        port,
    })
}

// An endpoint that may be absent, of which nothing is given then.
pub fn endpoint_of(alloc: Global, found: Option<Lent<'_, '_>>) -> Result<Endpoint, Halt<Cause>>
    ensures value { IfOk result (λ e. Given IsEndpoint (λ e. e ≡ no_endpoint) e
        (option_map view found.entry)) }
    ensures judged { JudgesValue result (optional endpoint_offends (option_map view found.entry)) }
{
    match found {
        None => Ok(Endpoint::none(alloc)),
        Some(found) => read_endpoint(alloc, &found),
    }
}
