//! Values as JSON values.
ghost use Rattle.std.specs.Prelude.{◌≡◌, ◌↔◌, true, Err, Some, IfOk, OnOk};
ghost use Rattle.serde_json.specs.Data.{put};
ghost use Rattle.serde_json.specs.Read.{of_json};
ghost use Rattle.serde_json.specs.View.{view, members_view};
ghost use Rattle.span_io.specs.declared.halt.Halt.TheVariants as halts;
ghost use Rattle.trace_model.specs.ValueTexts.{has_double, json_of};
ghost use Rattle.trace_model.specs.declared.value.Value.TheVariants as values;

use crate::value::Value;
use base64::engine::general_purpose::STANDARD;
use serde_json::{Map, Value as Json};
use span_io::{Halt, OutOfMemory, Text};
use std::alloc::Global;

/// The JSON value of a value: bytes as their base64, nothing as null. `Why` where a double stands in it.
pub fn value_json(alloc: Global, value: &Value) -> Result<Json, Halt<()>>
    ensures json { IfOk result (λ json. of_json (json_of value.now) ≡ Some (view json)) }
    ensures double { (result ≡ Err (halts.Why tt)) ↔ (has_double value.now ≡ true) }
{
    if value.holds_double() {
        return Err(Halt::Why(()));
    }
    Ok(json_value(alloc, value)?)
}

#[cycle(makes)]
fn json_value(alloc: Global, value: &Value) -> Result<Json, OutOfMemory>
    ensures { IfOk result (λ json. of_json (json_of value.now) ≡ Some (view json)) }
{
    match value {
        Value::Text(text) => json_text(alloc, text),
        Value::Truth(truth) => Ok(Json::Bool(*truth)),
        Value::Number(n) => Ok(json_number(n)),
        Value::Bytes(bytes) => json_bytes(alloc, bytes.as_slice()),
        Value::List(members) => json_array(alloc, members.as_slice()),
        Value::Map(pairs) => json_object(alloc, pairs.as_slice()),
        Value::Eight(_) | Value::Nothing => Ok(Json::Null),
    }
}

fn json_text(alloc: Global, text: &Text) -> Result<Json, OutOfMemory>
    ensures { IfOk result (λ json. of_json (json_of (values.Text text.now)) ≡ Some (view json)) }
{
    Ok(Json::try_from_str(alloc, text.as_str())?)
}

fn json_number(n: &i64) -> Json
    ensures { of_json (json_of (values.Number n.now)) ≡ Some (view result) }
{
    json_integer(*n)
}

fn json_integer(n: i64) -> Json
    ensures { of_json (json_of (values.Number n)) ≡ Some (view result) }
{
    Json::from(n)
}

fn json_bytes(alloc: Global, bytes: &[u8]) -> Result<Json, OutOfMemory>
    ensures { IfOk result (λ json. of_json (json_of (values.Bytes bytes.now)) ≡ Some (view json)) }
{
    let text = STANDARD.encode(alloc, bytes)?;
    Ok(Json::String(text))
}

#[cycle(makes)]
fn json_array(alloc: Global, members: &[Value]) -> Result<Json, OutOfMemory>
    ensures { IfOk result (λ json. of_json (json_of (values.List members.now)) ≡ Some (view json)) }
{
    let mut elements = Vec::new(alloc);
    'members: for member in members {
        let json = json_value(alloc, member)?;
        elements.push(json)?;
    }
    Ok(Json::Array(elements))
}

#[cycle(makes)]
fn json_object(alloc: Global, pairs: &[(Text, Value)]) -> Result<Json, OutOfMemory>
    ensures { IfOk result (λ json. of_json (json_of (values.Map pairs.now)) ≡ Some (view json)) }
{
    let mut members = Map::new(alloc);
    'pairs: for pair in pairs {
        let json = json_value(alloc, &pair.1)?;
        put_member(alloc, &mut members, &pair.0, json)?;
    }
    Ok(Json::Object(members))
}

/// Puts a member under its key, in the place of one that is there.
fn put_member(
    alloc: Global,
    members: &mut Map<String, Json>,
    key: &Text,
    json: Json,
) -> Result<(), OutOfMemory>
    ensures { OnOk result (members_view members.new.entries
        ≡ put key.now (view json) (members_view members.old.entries)) }
{
    let name = String::from_str(alloc, key.as_str())?;
    drop(members.insert(name, json)?);
    Ok(())
}
