//! A span of OTLP, with its status, events and links.
ghost use Rattle.std.specs.Prelude.{◌≡◌, ◌<◌, ◌↔◌, None, IfSome};
ghost use Rattle.trace_model.specs.OtlpParts.{code_number, kind_number};

use crate::value::Attrs;
use span_ids::{Nanos, SpanId, TraceId};
use span_io::{Items, Text};

/// What a span does for its callers (OTLP `SpanKind`).
#[derive(Clone, Copy, PartialEq, Eq)]
pub enum Kind {
    Unspecified,
    Internal,
    Server,
    Client,
    Producer,
    Consumer,
}

impl Kind {
    /// Its number in OTLP.
    pub fn number(self) -> u32
        ensures { result ≡ kind_number self }
    {
        match self {
            Kind::Unspecified => 0,
            Kind::Internal => 1,
            Kind::Server => 2,
            Kind::Client => 3,
            Kind::Producer => 4,
            Kind::Consumer => 5,
        }
    }

    /// The kind of this number, unless the number is beyond the last.
    pub fn of_number(number: u64) -> Option<Kind>
        ensures kind { IfSome result (λ kind. number ≡ kind_number kind) }
        ensures none { (result ≡ None) ↔ (5 < number) }
    {
        match number {
            0 => Some(Kind::Unspecified),
            1 => Some(Kind::Internal),
            2 => Some(Kind::Server),
            3 => Some(Kind::Client),
            4 => Some(Kind::Producer),
            5 => Some(Kind::Consumer),
            _ => None,
        }
    }
}

/// How a span ended (OTLP `Status.StatusCode`).
#[derive(Clone, Copy, PartialEq, Eq)]
pub enum Code {
    Unset,
    Okay,
    Fail,
}

impl Code {
    /// Its number in OTLP.
    pub fn number(self) -> u32
        ensures { result ≡ code_number self }
    {
        match self {
            Code::Unset => 0,
            Code::Okay => 1,
            Code::Fail => 2,
        }
    }

    /// The code of this number, unless the number is beyond the last.
    pub fn of_number(number: u64) -> Option<Code>
        ensures code { IfSome result (λ code. number ≡ code_number code) }
        ensures none { (result ≡ None) ↔ (2 < number) }
    {
        match number {
            0 => Some(Code::Unset),
            1 => Some(Code::Okay),
            2 => Some(Code::Fail),
            _ => None,
        }
    }
}

/// How a span ended, and why (OTLP `Status`).
#[derive(Drop)]
pub struct Status {
    pub code: Code,
    pub message: Text,
}

/// Something that happened in a span (OTLP `Span.Event`).
#[derive(Drop)]
pub struct Event {
    pub time: Nanos,
    pub name: Text,
    pub attributes: Attrs,
    /// The number of attributes that were dropped.
    pub dropped: u32,
}

/// A span that caused or concerns this one (OTLP `Span.Link`).
#[derive(Drop)]
pub struct Link {
    pub trace: TraceId,
    pub span: SpanId,
    /// The `tracestate` of W3C Trace Context.
    pub state: Text,
    pub attributes: Attrs,
    /// The number of attributes that were dropped.
    pub dropped: u32,
    pub flags: u32,
}

/// A span (OTLP `Span`).
#[derive(Drop)]
pub struct Span {
    pub trace: TraceId,
    pub id: SpanId,
    /// The `tracestate` of W3C Trace Context.
    pub state: Text,
    pub parent: Option<SpanId>,
    pub name: Text,
    pub kind: Kind,
    pub start: Nanos,
    pub end: Nanos,
    pub attributes: Attrs,
    pub dropped_attributes: u32,
    pub events: Items<Event>,
    pub dropped_events: u32,
    pub links: Items<Link>,
    pub dropped_links: u32,
    pub status: Status,
    pub flags: u32,
}
