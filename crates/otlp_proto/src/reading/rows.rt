//! Rows of a message's table, as a reader sets them.
ghost use Rattle.std.specs.Prelude.{ℕ, List, IfOk, OnOk};
ghost use Rattle.span_io.specs.Tables.{Twice};
ghost use Rattle.otlp_proto.specs.Identifiers.{MeansTraceId, MeansSpanId, WrongLength, JudgesIdentifier};
ghost use Rattle.otlp_proto.specs.Rows.{MeansNumber, MeansCount};
ghost use Rattle.span_io.specs.RowsSoFar.{Gave, Sets};
ghost use Rattle.span_io.specs.private.RowSteps.{JudgesCause};

use span_ids::{SpanId, TraceId};
use span_io::{Cause, once};

/// Sets a row that holds a time.
pub fn time_row(row: &mut Option<u64>, n: u64) -> Result<(), Cause>
    ensures ok { OnOk result (Sets MeansNumber n row.old row.new) }
    ensures judged { (earlier : List ℕ) → Gave MeansNumber earlier row.old
        → JudgesCause result (λ number. Twice earlier number) }
{
    once(row)?;
    *row = Some(n);
    Ok(())
}

/// Sets a row that holds flags.
pub fn flags_row(row: &mut Option<u32>, n: u32) -> Result<(), Cause>
    ensures ok { OnOk result (Sets MeansNumber n row.old row.new) }
    ensures judged { (earlier : List ℕ) → Gave MeansNumber earlier row.old
        → JudgesCause result (λ number. Twice earlier number) }
{
    once(row)?;
    *row = Some(n);
    Ok(())
}

/// Sets a row that holds a count, by the low 32 bits of its number.
pub fn count_row(row: &mut Option<u32>, n: u64) -> Result<(), Cause>
    ensures ok { OnOk result (Sets MeansCount n row.old row.new) }
    ensures judged { (earlier : List ℕ) → Gave MeansCount earlier row.old
        → JudgesCause result (λ number. Twice earlier number) }
{
    once(row)?;
    *row = Some((n % 4_294_967_296) as u32);
    Ok(())
}

// The identifier of a trace that these bytes spell; no bytes, or zeros, are none.
fn trace_id_of(held: &[u8]) -> Result<Option<TraceId>, Cause>
    ensures value { IfOk result (λ id. MeansTraceId held.now id) }
    ensures judged { JudgesCause result (WrongLength 16 held.now) }
{
    if held.is_empty() {
        return Ok(None);
    }
    if held.len() != 16 {
        return Err(Cause::BadId);
    }
    Ok(TraceId::from_bytes(held).ok())
}

// The identifier of a span that these bytes spell; no bytes, or zeros, are none.
fn span_id_of(held: &[u8]) -> Result<Option<SpanId>, Cause>
    ensures value { IfOk result (λ id. MeansSpanId held.now id) }
    ensures judged { JudgesCause result (WrongLength 8 held.now) }
{
    if held.is_empty() {
        return Ok(None);
    }
    if held.len() != 8 {
        return Err(Cause::BadId);
    }
    Ok(SpanId::from_bytes(held).ok())
}

/// Sets a row that holds the identifier of a trace.
pub fn trace_id_row(row: &mut Option<Option<TraceId>>, held: &[u8]) -> Result<(), Cause>
    ensures ok { OnOk result (Sets MeansTraceId held.now row.old row.new) }
    ensures judged { JudgesIdentifier MeansTraceId 16 row.old held.now result }
{
    once(row)?;
    *row = Some(trace_id_of(held)?);
    Ok(())
}

/// Sets a row that holds the identifier of a span.
pub fn span_id_row(row: &mut Option<Option<SpanId>>, held: &[u8]) -> Result<(), Cause>
    ensures ok { OnOk result (Sets MeansSpanId held.now row.old row.new) }
    ensures judged { JudgesIdentifier MeansSpanId 8 row.old held.now result }
{
    once(row)?;
    *row = Some(span_id_of(held)?);
    Ok(())
}
