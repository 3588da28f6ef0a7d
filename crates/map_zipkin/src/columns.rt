//! The columns of a span's tags.
ghost use Rattle.std.specs.Prelude.{◌≡◌, ◌==◌, length, find};
ghost use Rattle.map_zipkin.specs.TagColumns as told;
ghost use Rattle.map_zipkin.specs.TagColumns.{row_of};

/// A tag of a span to which the table gives a meaning of its own.
#[derive(Clone, Copy)]
pub(crate) enum Column {
    Error,
    DroppedAttributes,
    DroppedEvents,
    DroppedLinks,
    LibraryName,
    LibraryVersion,
    ScopeName,
    ScopeVersion,
    Code,
    State,
}

/// All columns, by rising keys.
const COLUMNS: [Column; 10] = [
    Column::Error,
    Column::DroppedAttributes,
    Column::DroppedEvents,
    Column::DroppedLinks,
    Column::LibraryName,
    Column::LibraryVersion,
    Column::ScopeName,
    Column::ScopeVersion,
    Column::Code,
    Column::State,
];

impl Column {
    pub(crate) fn key(self) -> &'static str
        ensures { result.now ≡ (row_of self).key }
    {
        match self {
            Column::Error => "error",
            Column::DroppedAttributes => "otel.dropped_attributes_count",
            Column::DroppedEvents => "otel.dropped_events_count",
            Column::DroppedLinks => "otel.dropped_links_count",
            Column::LibraryName => "otel.library.name",
            Column::LibraryVersion => "otel.library.version",
            Column::ScopeName => "otel.scope.name",
            Column::ScopeVersion => "otel.scope.version",
            Column::Code => "otel.status_code",
            Column::State => "w3c.tracestate",
        }
    }
}

// The first of these columns whose key has so many bytes.
fn of_length(columns: &[Column], bytes: usize) -> Option<Column>
    ensures { result ≡ find (λ column. length (row_of column).key == bytes) columns.now }
{
    'columns: for column in columns {
        if column.key().len() == bytes {
            return Some(*column);
        }
    }
    None
}

/// Whether it is the key of a column. No two keys have one length, so one of them is compared at most.
#[tactic(auto, using(crate::proofs::ColumnLemmas::key_by_length))]
pub(crate) fn is_column(key: &str) -> bool
    ensures { result ≡ told.is_column key.now }
{
    match of_length(&COLUMNS, key.len()) {
        Some(column) => key == column.key(),
        None => false,
    }
}
