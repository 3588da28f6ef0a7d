//! The columns of a span's tags.
ghost use Rattle.std.specs.Prelude.{◌≡◌, ◌==◌, length, find};
ghost use Rattle.map_jaeger.specs.Columns as told;
ghost use Rattle.map_jaeger.specs.Columns.{row_of};
ghost use Rattle.map_jaeger.specs.Keys.{is_event_reserved};

use span_tags::Reserves;

/// A tag of a span to which the table gives a meaning of its own.
#[derive(Clone, Copy)]
pub(crate) enum Column {
    Error,
    Flags,
    DroppedAttributes,
    DroppedEvents,
    DroppedLinks,
    LibraryName,
    LibraryVersion,
    ScopeName,
    ScopeVersion,
    Code,
    Description,
    Kind,
    State,
}

/// All columns, by rising keys.
pub(crate) const COLUMNS: [Column; 13] = [
    Column::Error,
    Column::Flags,
    Column::DroppedAttributes,
    Column::DroppedEvents,
    Column::DroppedLinks,
    Column::LibraryName,
    Column::LibraryVersion,
    Column::ScopeName,
    Column::ScopeVersion,
    Column::Code,
    Column::Description,
    Column::Kind,
    Column::State,
];

impl Column {
    pub(crate) fn key(self) -> &'static str
        ensures { result.now ≡ (row_of self).key }
    {
        match self {
            Column::Error => "error",
            Column::Flags => "jaeger.flags",
            Column::DroppedAttributes => "otel.dropped_attributes_count",
            Column::DroppedEvents => "otel.dropped_events_count",
            Column::DroppedLinks => "otel.dropped_links_count",
            Column::LibraryName => "otel.library.name",
            Column::LibraryVersion => "otel.library.version",
            Column::ScopeName => "otel.scope.name",
            Column::ScopeVersion => "otel.scope.version",
            Column::Code => "otel.status_code",
            Column::Description => "otel.status_description",
            Column::Kind => "span.kind",
            Column::State => "w3c.tracestate",
        }
    }
}

// The first of these columns whose key has so many bytes.
fn of_length(columns: &[Column], bytes: usize) -> Option<Column>
    ensures { result ≡ find (λ column. length (row_of column).key == bytes) columns.now }
{
    'columns: for column in columns {
        if column.key().len() == bytes {
            return Some(*column);
        }
    }
    None
}

// Whether it is the key of a column. No two keys have one length, so one of them is compared at most;
// the loop over their lengths is compiled to a jump.
#[tactic(auto, using(crate::proofs::ColumnLemmas::key_by_length))]
fn has_column(key: &str) -> bool
    ensures { result ≡ told.has_column key.now }
{
    match of_length(&COLUMNS, key.len()) {
        Some(column) => key == column.key(),
        None => false,
    }
}

/// Whether no tag of the table stands under the key.
pub(crate) fn is_free(key: &str) -> bool
    ensures { result ≡ told.is_free key.now }
{
    !has_column(key)
}

/// The keys that are reserved among the tags of a span.
pub(crate) struct Spans;

impl Reserves for Spans {
    ghost reserved = { told.is_reserved };

    fn is_reserved(key: &str) -> bool {
        has_column(key) && "jaeger.flags" != key
    }
}

/// The keys that are reserved among the fields of a log.
pub(crate) struct Events;

impl Reserves for Events {
    ghost reserved = { is_event_reserved };

    fn is_reserved(key: &str) -> bool {
        "event" == key
    }
}
