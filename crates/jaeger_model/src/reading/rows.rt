//! Rows of a struct's table, as a reader sets them.
ghost use Rattle.std.specs.Prelude.{IfOk, OnOk};
ghost use Rattle.span_io.specs.RowsSoFar.{Sets};
ghost use Rattle.span_io.specs.private.RowSteps.{JudgesCause};
ghost use Rattle.jaeger_model.specs.Meanings.{Means, MeansTime};
ghost use Rattle.jaeger_model.specs.Rows.{BadTime, nothing_wrong};
ghost use Rattle.jaeger_model.specs.private.RowsSoFar.{JudgesBytes, JudgesField};

use span_ids::Nanos;
use span_io::{Bytes, Cause, Halt, once};
use std::alloc::Global;

/// Sets a row that holds bytes.
pub fn bytes_row(alloc: Global, row: &mut Option<Bytes>, held: &[u8]) -> Result<(), Halt<Cause>>
    ensures ok { OnOk result (Sets Means held.now row.old row.new) }
    ensures judged { JudgesBytes row.old held.now result }
{
    once(row)?;
    *row = Some(Bytes::of(alloc, held)?);
    Ok(())
}

/// Sets a row that holds a number.
pub fn number_row(row: &mut Option<i64>, held: i64) -> Result<(), Cause>
    ensures ok { OnOk result (Sets Means held row.old row.new) }
    ensures judged { JudgesField Means nothing_wrong row.old held result }
{
    once(row)?;
    *row = Some(held);
    Ok(())
}

/// Sets a row that holds a truth value.
pub fn truth_row(row: &mut Option<bool>, held: bool) -> Result<(), Cause>
    ensures ok { OnOk result (Sets Means held row.old row.new) }
    ensures judged { JudgesField Means nothing_wrong row.old held result }
{
    once(row)?;
    *row = Some(held);
    Ok(())
}

/// Sets a row that holds the eight bytes of a double.
pub fn double_row(row: &mut Option<[u8; 8]>, held: [u8; 8]) -> Result<(), Cause>
    ensures ok { OnOk result (Sets Means held row.old row.new) }
    ensures judged { JudgesField Means nothing_wrong row.old held result }
{
    once(row)?;
    *row = Some(held);
    Ok(())
}

/// Sets a row that holds a number of 32 bits.
pub fn int_row(row: &mut Option<i32>, held: i32) -> Result<(), Cause>
    ensures ok { OnOk result (Sets Means held row.old row.new) }
    ensures judged { JudgesField Means nothing_wrong row.old held result }
{
    once(row)?;
    *row = Some(held);
    Ok(())
}

// The moment or length of so many microseconds.
fn time_of(held: i64) -> Result<Nanos, Cause>
    ensures value { IfOk result (λ time. MeansTime held time) }
    ensures judged { JudgesCause result (BadTime held) }
{
    let Ok(micros) = u64::try_from(held) else {
        return Err(Cause::BadTime);
    };
    Nanos::of_micros(micros).ok_or(Cause::BadTime)
}

/// Sets a row that holds a time.
pub fn time_row(row: &mut Option<Nanos>, held: i64) -> Result<(), Cause>
    ensures ok { OnOk result (Sets MeansTime held row.old row.new) }
    ensures judged { JudgesField MeansTime BadTime row.old held result }
{
    once(row)?;
    *row = Some(time_of(held)?);
    Ok(())
}
