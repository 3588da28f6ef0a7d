//! Values as compact JSON.
ghost use Rattle.std.specs.Prelude.{◌≡◌, [], ◌∷◌, IfOk, OnOk};
ghost use Rattle.std.specs.Fmt.{signed_decimal};
ghost use Rattle.base64.specs.GeneralPurpose.{encode_of};
ghost use Rattle.base64.specs.Engines.{standard};
ghost use Rattle.json.specs.Token.{number, string};
ghost use Rattle.trace_model.specs.ValueTexts.{json_text};
ghost use Rattle.trace_model.specs.private.WrittenTokens.{Wrote, tokens_of, list_tokens, map_tokens};

use crate::value::Value;
use base64::engine::general_purpose::STANDARD;
use json::Writer;
use span_io::{OutOfMemory, Text};
use std::alloc::Global;

/// The compact JSON of a value. A double in it is written as null.
pub fn json_of_value(alloc: Global, value: &Value) -> Result<Text, OutOfMemory>
    ensures { IfOk result (λ text. text ≡ json_text value.now) }
{
    let mut out = Writer::new(Vec::new(alloc));
    write_value(alloc, &mut out, value)?;
    match String::from_utf8(out.into_inner()) {
        Ok(text) => Text::from_string(text),
        Err(_) => unreachable!(),
    }
}

#[cycle(writes)]
fn write_value(alloc: Global, out: &mut Writer, value: &Value) -> Result<(), OutOfMemory>
    ensures { OnOk result (Wrote out.old out.new (tokens_of value.now)) }
{
    match value {
        Value::Text(text) => Ok(out.string(text.as_str())?),
        Value::Truth(truth) => Ok(out.boolean(*truth)?),
        Value::Number(n) => write_number(out, n),
        Value::Bytes(bytes) => write_bytes(alloc, out, bytes.as_slice()),
        Value::List(members) => write_list(alloc, out, members.as_slice()),
        Value::Map(pairs) => write_map(alloc, out, pairs.as_slice()),
        Value::Eight(_) | Value::Nothing => Ok(out.null()?),
    }
}

fn write_number(out: &mut Writer, n: &i64) -> Result<(), OutOfMemory>
    ensures { OnOk result (Wrote out.old out.new (number (signed_decimal n.now) ∷ [])) }
{
    Ok(out.i64(*n)?)
}

fn write_bytes(alloc: Global, out: &mut Writer, bytes: &[u8]) -> Result<(), OutOfMemory>
    ensures { OnOk result (Wrote out.old out.new (string (encode_of standard bytes.now) ∷ [])) }
{
    let text = STANDARD.encode(alloc, bytes)?;
    Ok(out.string(text.as_str())?)
}

#[cycle(writes)]
fn write_list(alloc: Global, out: &mut Writer, members: &[Value]) -> Result<(), OutOfMemory>
    ensures { OnOk result (Wrote out.old out.new (list_tokens members.now)) }
{
    out.begin_array()?;
    'members: for member in members {
        write_value(alloc, out, member)?;
    }
    Ok(out.end_array()?)
}

#[cycle(writes)]
pub fn write_map(
    alloc: Global,
    out: &mut Writer,
    pairs: &[(Text, Value)],
) -> Result<(), OutOfMemory>
    ensures { OnOk result (Wrote out.old out.new (map_tokens pairs.now)) }
{
    out.begin_object()?;
    'pairs: for pair in pairs {
        out.key(pair.0.as_str())?;
        write_value(alloc, out, &pair.1)?;
    }
    Ok(out.end_object()?)
}
