//! Parts of objects and arrays, written as tokens.
ghost use Rattle.std.specs.Prelude.{◌≡◌, ◌∷◌, [], Some, true, option_map};
ghost use Rattle.json.specs.Token.{begin_object, end_object, begin_array, end_array, key};
ghost use Rattle.serde_json.specs.Data.{number, string, unsigned, boolean};
ghost use Rattle.json_members.specs.Canonical.{text_data, count_data, truth_data, trace_id_text, span_id_text};
ghost use Rattle.json_members.specs.Writing.{Appends, given_tokens};

use json::Writer;
use span_ids::{SpanId, TraceId};
use span_io::{OutOfMemory, Text};

/// Appends the brace before the members of an object.
pub fn open_object(out: &mut Writer) -> Result<(), OutOfMemory>
    ensures { Appends result out.old out.new (begin_object ∷ []) }
{
    out.begin_object()?;
    Ok(())
}

/// Appends the brace behind the members of an object.
pub fn close_object(out: &mut Writer) -> Result<(), OutOfMemory>
    ensures { Appends result out.old out.new (end_object ∷ []) }
{
    out.end_object()?;
    Ok(())
}

/// Appends the bracket before the elements of an array.
pub fn open_array(out: &mut Writer) -> Result<(), OutOfMemory>
    ensures { Appends result out.old out.new (begin_array ∷ []) }
{
    out.begin_array()?;
    Ok(())
}

/// Appends the bracket behind the elements of an array.
pub fn close_array(out: &mut Writer) -> Result<(), OutOfMemory>
    ensures { Appends result out.old out.new (end_array ∷ []) }
{
    out.end_array()?;
    Ok(())
}

/// Appends the name of a member, whose value is to follow.
pub fn name_of(out: &mut Writer, name: &str) -> Result<(), OutOfMemory>
    ensures { Appends result out.old out.new (key name.now ∷ []) }
{
    out.key(name)?;
    Ok(())
}

/// Appends a member that is a text, whatever it is.
pub fn whole_text_member(out: &mut Writer, name: &str, text: &str) -> Result<(), OutOfMemory>
    ensures { Appends result out.old out.new (given_tokens name.now (Some (string text.now))) }
{
    out.key(name)?;
    out.string(text)?;
    Ok(())
}

/// Appends a member that is a text, unless it is empty.
#[tactic(auto, using(crate::proofs::WritingLaws::written))]
pub fn text_member(out: &mut Writer, name: &str, text: &str) -> Result<(), OutOfMemory>
    ensures { Appends result out.old out.new (given_tokens name.now (text_data text.now)) }
{
    if text.is_empty() {
        return Ok(());
    }
    whole_text_member(out, name, text)
}

/// Appends a member that is an owned text, whatever it is.
pub fn own_text_member(out: &mut Writer, name: &str, text: &Text) -> Result<(), OutOfMemory>
    ensures { Appends result out.old out.new (given_tokens name.now (Some (string text.now))) }
{
    whole_text_member(out, name, text.as_str())
}

/// Appends a member that is an owned text, unless it is empty.
pub fn given_text_member(out: &mut Writer, name: &str, text: &Text) -> Result<(), OutOfMemory>
    ensures { Appends result out.old out.new (given_tokens name.now (text_data text.now)) }
{
    text_member(out, name, text.as_str())
}

/// Appends a member that is a number, whatever it is.
pub fn whole_count_member(out: &mut Writer, name: &str, count: u64) -> Result<(), OutOfMemory>
    ensures { Appends result out.old out.new
        (given_tokens name.now (Some (number (unsigned count)))) }
{
    out.key(name)?;
    out.u64(count)?;
    Ok(())
}

/// Appends a member that is a number, unless it is 0.
#[tactic(auto, using(crate::proofs::WritingLaws::written))]
pub fn count_member(out: &mut Writer, name: &str, count: u64) -> Result<(), OutOfMemory>
    ensures { Appends result out.old out.new (given_tokens name.now (count_data count)) }
{
    if count == 0 {
        return Ok(());
    }
    whole_count_member(out, name, count)
}

/// Appends a member that is true.
pub fn true_member(out: &mut Writer, name: &str) -> Result<(), OutOfMemory>
    ensures { Appends result out.old out.new (given_tokens name.now (Some (boolean true))) }
{
    out.key(name)?;
    out.boolean(true)?;
    Ok(())
}

/// Appends a member that is a truth value, unless it is false.
pub fn truth_member(out: &mut Writer, name: &str, truth: bool) -> Result<(), OutOfMemory>
    ensures { Appends result out.old out.new (given_tokens name.now (truth_data truth)) }
{
    if truth {
        true_member(out, name)
    } else {
        Ok(())
    }
}

/// Appends a member that is a span's identifier.
pub fn id_member(out: &mut Writer, name: &str, id: SpanId) -> Result<(), OutOfMemory>
    ensures { Appends result out.old out.new
        (given_tokens name.now (Some (string (span_id_text id)))) }
{
    let mut digits = [0; 16];
    id.write_hex(&mut digits);
    let text = str::from_utf8(&digits).unwrap();
    whole_text_member(out, name, text)
}

/// Appends a member that is a trace's identifier.
pub fn trace_member(out: &mut Writer, name: &str, trace: TraceId) -> Result<(), OutOfMemory>
    ensures { Appends result out.old out.new (given_tokens name.now
        (Some (string (trace_id_text trace)))) }
{
    let mut hex = [0; 32];
    trace.write_hex(&mut hex);
    let text = str::from_utf8(&hex).unwrap();
    whole_text_member(out, name, text)
}

/// Appends a member that is a parent's identifier, unless there is none.
pub fn parent_member(out: &mut Writer, name: &str, id: Option<SpanId>) -> Result<(), OutOfMemory>
    ensures { Appends result out.old out.new (given_tokens name.now
        (option_map (λ i. string (span_id_text i)) id)) }
{
    match id {
        None => Ok(()),
        Some(id) => id_member(out, name, id),
    }
}
