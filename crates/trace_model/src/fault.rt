//! What a target form can't hold, each with its number.
ghost use Rattle.std.specs.Prelude.{◌≡◌};
ghost use Rattle.trace_model.specs.Faults.{fault_number, fault_name};

use span_io::Text;

/// What a target can't hold of a trace. Each fault has a number, which never changes, and a name,
/// which notes print. 21 was a reserved key, which is no fault now, and isn't given again.
#[derive(Debug, Drop)]
pub enum Fault {
    /// A span's end in nanoseconds is less than its start (Jaeger and Zipkin).
    EndBeforeStart,
    /// A span's attribute under one of the target's own keys is not of its form: `jaeger.flags`
    /// (Jaeger), or a key under `zipkin.` (Zipkin). It holds the key.
    OwnKey(Text),
    /// An event without attributes has a name that reads as event text (Zipkin).
    EventText,
    /// A child_of link of the span's own trace stands in a root or names the parent (Jaeger).
    ChildOfLink,
    /// A double anywhere (OTLP JSON); in an attribute of a resource, span or event (Zipkin); inside
    /// a list or map of such an attribute, or as `service.name` (Jaeger).
    DoubleInText,
}

impl Fault {
    pub fn number(&self) -> u8
        ensures { result ≡ fault_number self.now }
    {
        match self {
            Fault::EndBeforeStart => 20,
            Fault::OwnKey(_) => 22,
            Fault::EventText => 23,
            Fault::ChildOfLink => 24,
            Fault::DoubleInText => 25,
        }
    }

    pub fn name(&self) -> &'static str
        ensures { result.now ≡ fault_name self.now }
    {
        match self {
            Fault::EndBeforeStart => "EndBeforeStart",
            Fault::OwnKey(_) => "OwnKey",
            Fault::EventText => "EventText",
            Fault::ChildOfLink => "ChildOfLink",
            Fault::DoubleInText => "DoubleInText",
        }
    }
}
