//! `ScopeSpans` (OTLP trace.proto).
ghost use Rattle.std.specs.Prelude.{◌≡◌, ◌+◌, ◌<◌, ◌≤◌, ◌^◌, [], ℕ, List, length, IfOk, OnOk};
ghost use Rattle.span_io.specs.Offences.{Offence, Judges};
ghost use Rattle.span_io.specs.Tables.{givens};
ghost use Rattle.proto_wire.specs.Messages.{messages};
ghost use Rattle.otlp_proto.specs.private.ReadParts.{IsReadScope};
ghost use Rattle.otlp_proto.specs.Rows.{MeansMessage};
ghost use Rattle.span_io.specs.RowsSoFar.{Sets};
ghost use Rattle.span_io.specs.private.RowSteps.{Adds, JudgesMessage};
ghost use Rattle.otlp_proto.specs.Scope.{IsInstrumentationScope, instrumentation_scope_rules, scope_table, scope_rules};
ghost use Rattle.trace_model.specs.OtlpParts.{no_instrumentation_scope};
ghost use Rattle.otlp_proto.specs.private.ScopeSoFar.{GatheredSpans, GatheredScope, MakesScope};
ghost use Rattle.otlp_proto.specs.Span.{span_rules};

use crate::laws::message_rules;
use crate::reading::instrumentation_scope::read_instrumentation_scope;
use crate::reading::message::{Rows, read_rows};
use crate::reading::span::read_span;
use proto_wire::{Payload, WireRecord};
use span_io::{Cause, Halt, Items, OutOfMemory, Text, once, text_row};
use std::alloc::Global;
use trace_model::{
    Attrs, InstrumentationScope, Noted, Place, Remark, Scope, Span, remark_all, remark_keys,
};

/// The spans that were read of a scope, and the remarks on them.
#[derive(Drop)]
struct SpanList {
    /// The number of the first of them in its group.
    first: u32,
    spans: Items<Span>,
    remarks: Items<Remark>,
}

/// What was gathered of a scope so far.
#[derive(Drop)]
struct ScopeRows {
    instrumentation: Option<Noted<InstrumentationScope, Items<Text>>>,
    spans: SpanList,
    schema_url: Option<Text>,
}

// Sets the row of the instrumentation scope.
fn instrumentation_row(
    alloc: Global,
    row: &mut Option<Noted<InstrumentationScope, Items<Text>>>,
    held: &[u8],
) -> Result<(), Halt<Cause>>
    ensures ok { OnOk result (Sets (MeansMessage IsInstrumentationScope) held.now row.old row.new) }
    ensures judged { JudgesMessage messages
        (MeansMessage IsInstrumentationScope) instrumentation_scope_rules
        row.old held.now result }
{
    once(row)?;
    *row = Some(read_instrumentation_scope(alloc, held)?);
    Ok(())
}

impl SpanList {
    // Nothing was read.
    #[tactic(auto, unfolding(trace_model::specs::Remarks::numbered))]
    fn none(alloc: Global, first: u32) -> SpanList
        ensures nothing { GatheredSpans first [] result }
        ensures empty { result.spans ≡ [] }
    {
        SpanList {
            first,
            spans: Items::new(alloc),
            remarks: Items::new(alloc),
        }
    }

    // Reads one more span.
    fn add(&mut self, alloc: Global, held: &[u8]) -> Result<(), Halt<Cause>>
        requires counted { self.old.first + length self.old.spans + length held.now < 2 ^ 32 }
        ensures ok { OnOk result
            ((first : ℕ) → Adds (GatheredSpans first) held.now self.old self.new) }
        ensures judged { Judges result (Offence messages span_rules held.now) }
        ensures first { OnOk result (self.new.first ≡ self.old.first) }
        ensures one_more { OnOk result (length self.new.spans ≡ length self.old.spans + 1) }
    {
        let number = self.first + self.spans.len() as u32;
        let read = read_span(alloc, number, held)?;
        remark_all(&mut self.remarks, read.notes)?;
        self.spans.push(read.means)?;
        Ok(())
    }
}

impl ScopeRows {
    // Nothing was read.
    fn none(alloc: Global, first: u32) -> ScopeRows
        ensures at { result.spans.first ≡ first }
        ensures no_spans { result.spans.spans ≡ [] }
        ensures nothing { GatheredScope first result (givens scope_table []) }
    {
        ScopeRows {
            instrumentation: None,
            spans: SpanList::none(alloc, first),
            schema_url: None,
        }
    }
}

impl Rows for ScopeRows {
    ghost use Rattle.std.specs.Prelude.{◌+◌, [], ◌∷◌, length};
    ghost use Rattle.span_io.specs.Tables.{givens, no_ends};
    ghost use Rattle.otlp_proto.specs.Scope.{scope_table};
    ghost use Rattle.otlp_proto.specs.private.ScopeSoFar.{GatheredScope};

    ghost table = { scope_table };

    ghost ends = { no_ends };

    ghost gathered = { λ first rows seen. GatheredScope first.spans.first rows (givens scope_table seen) };

    ghost counts = { λ rows. (rows.spans.first + length rows.spans.spans) ∷ [] };

    fn gather(&mut self, alloc: Global, found: &WireRecord<'_>) -> Result<(), Halt<Cause>> {
        match found.payload {
            Payload::Bytes(held) => match found.number {
                1 => instrumentation_row(alloc, &mut self.instrumentation, held),
                2 => self.spans.add(alloc, held),
                3 => text_row(alloc, &mut self.schema_url, held),
                _ => Ok(()),
            },
            Payload::Varint(_) | Payload::Fixed64(_) | Payload::Fixed32(_) => Ok(()),
        }
    }
}

// What stands for an instrumentation scope that is absent.
fn empty_instrumentation_scope(alloc: Global) -> Noted<InstrumentationScope, Items<Text>>
    ensures { result ≡ no_instrumentation_scope }
{
    Noted {
        means: InstrumentationScope {
            name: Text::new(alloc),
            version: Text::new(alloc),
            attributes: Attrs::new(alloc),
            dropped: 0,
        },
        notes: Items::new(alloc),
    }
}

// The scope of the rows, which has this number in its group.
fn scope_of(
    alloc: Global,
    number: u32,
    rows: ScopeRows,
) -> Result<Noted<Scope, Items<Remark>>, OutOfMemory>
    ensures value { IfOk result (λ read. MakesScope number rows read) }
    ensures spans { IfOk result (λ read. read.means.spans ≡ rows.spans.spans) }
{
    let empty = empty_instrumentation_scope(alloc);
    let instrumentation = rows.instrumentation.unwrap_or(empty);
    let list = rows.spans;
    let mut notes = Items::new(alloc);
    remark_keys(&mut notes, Place::Scope(number), instrumentation.notes)?;
    remark_all(&mut notes, list.remarks)?;
    let instrumentation = instrumentation.means;
    let means = Scope {
        name: instrumentation.name,
        version: instrumentation.version,
        attributes: instrumentation.attributes,
        dropped: instrumentation.dropped,
        schema_url: rows.schema_url.unwrap_or(Text::new(alloc)),
        spans: list.spans,
    };
    Ok(Noted { means, notes })
}

/// Reads a scope from the message of its `ScopeSpans`: it has this number in its group, and its
/// first span has the number `first`.
pub fn read_scope(
    alloc: Global,
    number: u32,
    first: u32,
    bytes: &[u8],
) -> Result<Noted<Scope, Items<Remark>>, Halt<Cause>>
    requires counted { first + length bytes.now < 2 ^ 32 }
    ensures value { IfOk result (λ read. IsReadScope number first read bytes.now) }
    ensures judged { Judges result (Offence messages scope_rules bytes.now) }

    // Each span takes bytes.
    ensures spans { IfOk result (λ read. length read.means.spans ≤ length bytes.now) }
{
    message_rules();
    let rows = read_rows(alloc, ScopeRows::none(alloc, first), bytes)?;
    let read = scope_of(alloc, number, rows)?;
    Ok(read)
}
