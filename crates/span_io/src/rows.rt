//! Rows of a message's table, as a reader sets them.
ghost use Rattle.std.specs.Prelude.{◌≡◌, None, Err, IsSome, IfOk, OnOk, OnErr};
ghost use Rattle.span_io.specs.Offences.{JudgesHere};
ghost use Rattle.span_io.specs.RowsSoFar.{Sets, JudgesText};
ghost use Rattle.span_io.specs.Tables.{MeansText, NotText};
ghost use Rattle.span_io.specs.declared.cause.Cause.TheVariants as causes;

use crate::cause::Cause;
use crate::halt::Halt;
use crate::text::Text;
use std::alloc::Global;

/// Refuses a second record of a singular row.
pub fn once<T>(row: &Option<T>) -> Result<(), Cause>
    ensures ok { OnOk result (row.now ≡ None) }
    ensures err { OnErr result ((result ≡ Err causes.FieldTwice) × IsSome row.now) }
{
    if row.is_some() {
        return Err(Cause::FieldTwice);
    }
    Ok(())
}

/// The text of these bytes.
pub fn text_of(alloc: Global, held: &[u8]) -> Result<Text, Halt<Cause>>
    ensures value { IfOk result (λ text. MeansText held.now text) }
    ensures judged { JudgesHere result (NotText held.now) }
{
    let Ok(text) = str::from_utf8(held) else {
        return Err(Halt::Why(Cause::NotText));
    };
    Ok(Text::of(alloc, text)?)
}

/// Sets a row that holds a text.
pub fn text_row(alloc: Global, row: &mut Option<Text>, held: &[u8]) -> Result<(), Halt<Cause>>
    ensures ok { OnOk result (Sets MeansText held.now row.old row.new) }
    ensures judged { JudgesText row.old held.now result }
{
    once(row)?;
    *row = Some(text_of(alloc, held)?);
    Ok(())
}
