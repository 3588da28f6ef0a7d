//! What a move to another form loses.
ghost use Rattle.std.specs.Prelude.{◌≡◌};
ghost use Rattle.trace_model.specs.Losses.{row_name};

use crate::place::Place;
use span_io::Text;

/// What a move to another form takes from a trace. At one place losses are told in this order.
#[derive(Clone, Copy, PartialEq, Eq)]
pub enum LossRow {
    /// An attribute stays with another value (of a resource, span or event).
    Value,
    /// The count of dropped attributes (of a resource, scope, event or link).
    DroppedCount,
    /// The schema URL (of a group, which stands at its resource, or of a scope).
    SchemaUrl,
    /// An attribute goes, since its text is empty (of a resource or span).
    Empty,
    /// The attributes of a scope or link.
    Attributes,
    /// The nanoseconds of a span's start.
    Start,
    /// The nanoseconds of a span's end.
    End,
    /// The nanoseconds of an event's time.
    Time,
    /// That a span's kind is unspecified.
    Kind,
    /// The message of a span's status.
    Message,
    /// The flags of a span or link.
    Flags,
    /// The state of a link.
    State,
    /// A link.
    Link,
    /// A scope without spans.
    ScopeEmpty,
    /// That a scope is another than that of the span before.
    ScopeJoined,
    /// A group without spans.
    UnitEmpty,
    /// That a group is another than that of the span before.
    UnitJoined,
}

impl LossRow {
    pub fn name(&self) -> &'static str
        ensures { result.now ≡ row_name self.now }
    {
        match self {
            LossRow::Value => "value",
            LossRow::DroppedCount => "dropped-count",
            LossRow::SchemaUrl => "schema-url",
            LossRow::Empty => "empty",
            LossRow::Attributes => "attributes",
            LossRow::Start => "start",
            LossRow::End => "end",
            LossRow::Time => "time",
            LossRow::Kind => "kind",
            LossRow::Message => "message",
            LossRow::Flags => "flags",
            LossRow::State => "state",
            LossRow::Link => "link",
            LossRow::ScopeEmpty => "scope-empty",
            LossRow::ScopeJoined => "scope-joined",
            LossRow::UnitEmpty => "unit-empty",
            LossRow::UnitJoined => "unit-joined",
        }
    }
}

/// What a move to another form loses at a place of a group.
#[derive(Drop)]
pub struct Loss {
    pub place: Place,
    pub row: LossRow,
    /// The key of the attribute in the rows `Value` and `Empty`, else empty.
    pub key: Text,
}
