//! Members of objects beside those that all JSON forms share.
ghost use Rattle.std.specs.Prelude.{◌∷◌, [], Some};
ghost use Rattle.std.specs.Fmt.{decimal};
ghost use Rattle.json.specs.Token.{begin_array, key};
ghost use Rattle.serde_json.specs.Data.{string};
ghost use Rattle.json_members.specs.Canonical.{count_data};
ghost use Rattle.json_members.specs.Writing.{Appends, given_tokens};
ghost use Rattle.otlp_json.specs.Canonical.{decimal_data};

use json::Writer;
use json_members::{count_member, name_of, open_array, whole_text_member};
use span_ids::Nanos;
use span_io::OutOfMemory;

/// The name and the bracket of a member that is a list.
pub fn open_list(out: &mut Writer, name: &str) -> Result<(), OutOfMemory>
    ensures { Appends result out.old out.new (key name.now ∷ begin_array ∷ []) }
{
    name_of(out, name)?;
    open_array(out)
}

/// A number of 32 bits, unless it is 0.
pub fn number_member(out: &mut Writer, name: &str, count: u32) -> Result<(), OutOfMemory>
    ensures { Appends result out.old out.new (given_tokens name.now (count_data count)) }
{
    count_member(out, name, u64::from(count))
}

// A number as its decimal text, whatever it is.
fn whole_decimal_member(out: &mut Writer, name: &str, count: u64) -> Result<(), OutOfMemory>
    ensures { Appends result out.old out.new
        (given_tokens name.now (Some (string (decimal count)))) }
{
    let mut buffer = itoa::Buffer::new();
    whole_text_member(out, name, buffer.format(count))
}

// A number as its decimal text, unless it is 0.
#[tactic(auto, using(crate::proofs::WritingLemmas::written))]
fn decimal_member(out: &mut Writer, name: &str, count: u64) -> Result<(), OutOfMemory>
    ensures { Appends result out.old out.new (given_tokens name.now (decimal_data count)) }
{
    if count == 0 {
        return Ok(());
    }
    whole_decimal_member(out, name, count)
}

/// A time in nanoseconds, unless it is 0.
pub fn time_member(out: &mut Writer, name: &str, time: Nanos) -> Result<(), OutOfMemory>
    ensures { Appends result out.old out.new (given_tokens name.now (decimal_data time)) }
{
    decimal_member(out, name, time.0)
}
