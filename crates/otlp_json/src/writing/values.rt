//! Values and attributes.
ghost use Rattle.std.specs.Prelude.{◌≡◌, ◌∷◌, ◌++◌, [], Some, codes};
ghost use Rattle.std.specs.Fmt.{signed_decimal};
ghost use Rattle.base64.specs.GeneralPurpose.{encode_of};
ghost use Rattle.base64.specs.Engines.{standard};
ghost use Rattle.json.specs.Token.{begin_object, end_object, begin_array, end_array, key};
ghost use Rattle.serde_json.specs.Data.{string, boolean, null};
ghost use Rattle.json_members.specs.Writing.{Appends, data_tokens, given_tokens};
ghost use Rattle.json_members.specs.private.Pieces.{pieces};
ghost use Rattle.otlp_json.specs.Canonical.{one_member, any_value_data, unless_bare, list_data, attributes_data};
ghost use Rattle.otlp_json.specs.private.Writing.{value_tokens, key_value_tokens};

use crate::writing::members::open_list;
use base64::engine::general_purpose::STANDARD;
use json::Writer;
use json_members::{
    close_array, close_object, given_text_member, name_of, open_object, whole_text_member,
};
use span_io::{OutOfMemory, Text};
use std::alloc::Global;
use trace_model::{Attrs, Value};

// A value that is a text.
fn text_value(out: &mut Writer, name: &str, text: &str) -> Result<(), OutOfMemory>
    ensures { Appends result out.old out.new (data_tokens (one_member name.now (string text.now))) }
{
    open_object(out)?;
    whole_text_member(out, name, text)?;
    close_object(out)
}

fn boolean_member(out: &mut Writer, name: &str, truth: bool) -> Result<(), OutOfMemory>
    ensures { Appends result out.old out.new (given_tokens name.now (Some (boolean truth))) }
{
    out.key(name)?;
    out.boolean(truth)?;
    Ok(())
}

fn truth_value(out: &mut Writer, truth: bool) -> Result<(), OutOfMemory>
    ensures { Appends result out.old out.new
        (data_tokens (one_member (codes "boolValue") (boolean truth))) }
{
    open_object(out)?;
    boolean_member(out, "boolValue", truth)?;
    close_object(out)
}

fn null_member(out: &mut Writer, name: &str) -> Result<(), OutOfMemory>
    ensures { Appends result out.old out.new (given_tokens name.now (Some null)) }
{
    out.key(name)?;
    out.null()?;
    Ok(())
}

// A double, in whose place null is written.
fn double_value(out: &mut Writer) -> Result<(), OutOfMemory>
    ensures { Appends result out.old out.new
        (data_tokens (one_member (codes "doubleValue") null)) }
{
    open_object(out)?;
    null_member(out, "doubleValue")?;
    close_object(out)
}

fn signed_member(out: &mut Writer, name: &str, number: &i64) -> Result<(), OutOfMemory>
    ensures { Appends result out.old out.new
        (given_tokens name.now (Some (string (signed_decimal number.now)))) }
{
    let mut buffer = itoa::Buffer::new();
    whole_text_member(out, name, buffer.format(*number))
}

fn number_value(out: &mut Writer, number: &i64) -> Result<(), OutOfMemory>
    ensures { Appends result out.old out.new
        (data_tokens (one_member (codes "intValue") (string (signed_decimal number.now)))) }
{
    open_object(out)?;
    signed_member(out, "intValue", number)?;
    close_object(out)
}

fn bytes_value(alloc: Global, out: &mut Writer, bytes: &[u8]) -> Result<(), OutOfMemory>
    ensures { Appends result out.old out.new
        (data_tokens (one_member (codes "bytesValue") (string (encode_of standard bytes.now)))) }
{
    let text = STANDARD.encode(alloc, bytes)?;
    text_value(out, "bytesValue", text.as_str())
}

fn nothing_value(out: &mut Writer) -> Result<(), OutOfMemory>
    ensures { Appends result out.old out.new (begin_object ∷ end_object ∷ []) }
{
    open_object(out)?;
    close_object(out)
}

// The beginning of a value that is an object.
fn open_value(out: &mut Writer, name: &str) -> Result<(), OutOfMemory>
    ensures { Appends result out.old out.new (begin_object ∷ key name.now ∷ begin_object ∷ []) }
{
    open_object(out)?;
    name_of(out, name)?;
    open_object(out)
}

fn close_value(out: &mut Writer) -> Result<(), OutOfMemory>
    ensures { Appends result out.old out.new (end_object ∷ end_object ∷ []) }
{
    close_object(out)?;
    close_object(out)
}

#[cycle(value_writers)]
fn write_value(alloc: Global, out: &mut Writer, value: &Value) -> Result<(), OutOfMemory>
    ensures { Appends result out.old out.new (value_tokens value.now) }
{
    match value {
        Value::Text(text) => text_value(out, "stringValue", text.as_str()),
        Value::Truth(truth) => truth_value(out, *truth),
        Value::Number(number) => number_value(out, number),
        Value::Eight(_) => double_value(out),
        Value::List(members) => list_value(alloc, out, members.as_slice()),
        Value::Map(pairs) => map_value(alloc, out, pairs.as_slice()),
        Value::Bytes(bytes) => bytes_value(alloc, out, bytes.as_slice()),
        Value::Nothing => nothing_value(out),
    }
}

#[cycle(value_writers)]
fn list_value(alloc: Global, out: &mut Writer, members: &[Value]) -> Result<(), OutOfMemory>
    ensures { Appends result out.old out.new (begin_object ∷ key (codes "arrayValue") ∷ begin_object
        ∷ (given_tokens (codes "values") (list_data any_value_data members.now)
        ++ end_object ∷ end_object ∷ [])) }
{
    open_value(out, "arrayValue")?;
    values_member(alloc, out, members)?;
    close_value(out)
}

#[cycle(value_writers)]
fn map_value(alloc: Global, out: &mut Writer, pairs: &[(Text, Value)]) -> Result<(), OutOfMemory>
    ensures { Appends result out.old out.new
        (begin_object ∷ key (codes "kvlistValue") ∷ begin_object
        ∷ (given_tokens (codes "values") (attributes_data pairs.now)
        ++ end_object ∷ end_object ∷ [])) }
{
    open_value(out, "kvlistValue")?;
    pairs_member(alloc, out, "values", pairs)?;
    close_value(out)
}

// The values of a list, unless there are none.
#[cycle(value_writers)]
fn values_member(alloc: Global, out: &mut Writer, members: &[Value]) -> Result<(), OutOfMemory>
    ensures { Appends result out.old out.new
        (given_tokens (codes "values") (list_data any_value_data members.now)) }
{
    if members.is_empty() {
        return Ok(());
    }
    named_values(alloc, out, members)
}

#[cycle(value_writers)]
fn named_values(alloc: Global, out: &mut Writer, members: &[Value]) -> Result<(), OutOfMemory>
    ensures { Appends result out.old out.new (key (codes "values") ∷ begin_array
        ∷ (pieces value_tokens members.now ++ end_array ∷ [])) }
{
    open_list(out, "values")?;
    write_values(alloc, out, members)?;
    close_array(out)
}

#[cycle(value_writers)]
fn write_values(alloc: Global, out: &mut Writer, members: &[Value]) -> Result<(), OutOfMemory>
    ensures { Appends result out.old out.new (pieces value_tokens members.now) }
{
    'members: for member in members {
        write_value(alloc, out, member)?;
    }
    Ok(())
}

// The value of a key, unless it is nothing.
#[cycle(value_writers)]
fn held_member(alloc: Global, out: &mut Writer, value: &Value) -> Result<(), OutOfMemory>
    ensures { Appends result out.old out.new
        (given_tokens (codes "value") (unless_bare (any_value_data value.now))) }
{
    match value {
        Value::Nothing => Ok(()),
        _ => named_value(alloc, out, value),
    }
}

#[cycle(value_writers)]
fn named_value(alloc: Global, out: &mut Writer, value: &Value) -> Result<(), OutOfMemory>
    ensures { Appends result out.old out.new (key (codes "value") ∷ value_tokens value.now) }
{
    name_of(out, "value")?;
    write_value(alloc, out, value)
}

#[cycle(value_writers)]
fn write_pair(alloc: Global, out: &mut Writer, key: &Text, value: &Value) -> Result<(), OutOfMemory>
    ensures { Appends result out.old out.new (key_value_tokens (key.now, value.now)) }
{
    open_object(out)?;
    given_text_member(out, "key", key)?;
    held_member(alloc, out, value)?;
    close_object(out)
}

#[cycle(value_writers)]
fn write_pairs(alloc: Global, out: &mut Writer, pairs: &[(Text, Value)]) -> Result<(), OutOfMemory>
    ensures { Appends result out.old out.new (pieces key_value_tokens pairs.now) }
{
    'pairs: for pair in pairs {
        write_pair(alloc, out, &pair.0, &pair.1)?;
    }
    Ok(())
}

#[cycle(value_writers)]
fn named_pairs(
    alloc: Global,
    out: &mut Writer,
    name: &str,
    pairs: &[(Text, Value)],
) -> Result<(), OutOfMemory>
    ensures { Appends result out.old out.new
        (key name.now ∷ begin_array ∷ (pieces key_value_tokens pairs.now ++ end_array ∷ [])) }
{
    open_list(out, name)?;
    write_pairs(alloc, out, pairs)?;
    close_array(out)
}

// Pairs, unless there are none.
#[cycle(value_writers)]
fn pairs_member(
    alloc: Global,
    out: &mut Writer,
    name: &str,
    pairs: &[(Text, Value)],
) -> Result<(), OutOfMemory>
    ensures { Appends result out.old out.new (given_tokens name.now (attributes_data pairs.now)) }
{
    if pairs.is_empty() {
        return Ok(());
    }
    named_pairs(alloc, out, name, pairs)
}

/// Attributes, unless there are none.
pub fn attributes_member(
    alloc: Global,
    out: &mut Writer,
    name: &str,
    attributes: &Attrs,
) -> Result<(), OutOfMemory>
    ensures { Appends result out.old out.new
        (given_tokens name.now (attributes_data attributes.now)) }
{
    pairs_member(alloc, out, name, attributes.as_slice())
}
