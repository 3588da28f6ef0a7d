//! Each part of a span in hand is proper, as its type keeps it. The functions read their argument,
//! and do nothing else.
ghost use Rattle.std.specs.Prelude.{◌<◌, ◌^◌, All};
ghost use Rattle.zipkin_json.specs.Proper.{IsProperEndpoint, IsProperAnnotation, IsProperZTag, IsProperZSpan};

use crate::span::{Endpoint, ZSpan};
use span_ids::{Nanos, proper_parent};
use span_io::{Items, Text};

fn proper_time(time: Nanos)
    ensures { time < 2 ^ 64 }
{
    let _nanos = time.0;
}

fn proper_endpoint(endpoint: &Endpoint)
    ensures { IsProperEndpoint endpoint.now }
{
    endpoint.service.as_str();
    endpoint.ipv4.as_str();
    endpoint.ipv6.as_str();
    let _port = endpoint.port;
}

fn proper_annotations(annotations: &Items<(Nanos, Text)>)
    ensures { All IsProperAnnotation annotations.now }
{
    'annotations: for annotation in annotations.as_slice() {
        proper_time(annotation.0);
        annotation.1.as_str();
    }
}

fn proper_tags(tags: &Items<(Text, Text)>)
    ensures { All IsProperZTag tags.now }
{
    'tags: for tag in tags.as_slice() {
        tag.0.as_str();
        tag.1.as_str();
    }
}

/// A span in hand is proper. It is read as a whole, and nothing else is done.
pub fn proper_span(span: &ZSpan)
    ensures { IsProperZSpan span.now }
{
    span.trace.known();
    span.id.known();
    proper_parent(span.parent);
    span.name.as_str();
    proper_time(span.start);
    proper_time(span.end);
    proper_endpoint(&span.local);
    proper_endpoint(&span.remote);
    proper_annotations(&span.annotations);
    proper_tags(&span.tags);
}
