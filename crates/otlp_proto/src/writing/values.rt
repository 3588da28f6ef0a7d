//! Values and attributes.
ghost use Rattle.std.specs.Prelude.{◌≡◌, ◌++◌, OnOk, OnErr};
ghost use Rattle.span_io.specs.Outside.{GrowsFront};
ghost use Rattle.proto_wire.specs.Records.{IsFieldNumber};
ghost use Rattle.otlp_proto.specs.Canonical.{bytes_field, filled_field, list_text, value_text, key_value_text, attributes_text};

use crate::writing::enclosed::{close_field, close_filled};
use crate::writing::fields::write_text;
use proto_wire::{Payload, open_record, write_record};
use span_io::{Blob, OutOfMemory, Text};
use trace_model::Value;

// Appends a value.
#[cycle(value_writers)]
#[tactic(auto, using(crate::proofs::Growth::in_field))]
fn write_value(out: &mut Blob, value: &Value) -> Result<(), OutOfMemory>
    ensures ok { OnOk result (out.new ≡ out.old ++ value_text value.now) }
    ensures err { OnErr result (GrowsFront out.old out.new (value_text value.now)) }
{
    match value {
        Value::Text(text) => write_record(out, 1, Payload::Bytes(text.as_str().as_bytes())),
        Value::Truth(truth) => write_record(out, 2, Payload::Varint(u64::from(*truth))),
        Value::Number(n) => write_record(out, 3, Payload::Varint(n.cast_unsigned())),
        Value::Eight(double) => {
            write_record(out, 4, Payload::Fixed64(u64::from_be_bytes(*double)))
        }
        Value::List(members) => write_list(out, members.as_slice()),
        Value::Map(pairs) => write_map(out, pairs.as_slice()),
        Value::Bytes(held) => write_record(out, 7, Payload::Bytes(held.as_slice())),
        Value::Nothing => Ok(()),
    }
}

// Appends the values of a list as a value.
#[cycle(value_writers)]
#[tactic(auto, using(crate::proofs::Growth::in_field))]
fn write_list(out: &mut Blob, members: &[Value]) -> Result<(), OutOfMemory>
    ensures ok { OnOk result
        (out.new ≡ out.old ++ bytes_field 5 (list_text 1 value_text members.now)) }
    ensures err { OnErr result
        (GrowsFront out.old out.new (bytes_field 5 (list_text 1 value_text members.now))) }
{
    let begins = out.len();
    open_record(out, 5)?;
    let written = write_members(out, members);
    close_field(out, 5, begins, written)
}

// Appends the pairs of a map as a value.
#[cycle(value_writers)]
#[tactic(auto, using(crate::proofs::Growth::in_field))]
fn write_map(out: &mut Blob, pairs: &[(Text, Value)]) -> Result<(), OutOfMemory>
    ensures ok { OnOk result (out.new ≡ out.old ++ bytes_field 6 (attributes_text 1 pairs.now)) }
    ensures err { OnErr result
        (GrowsFront out.old out.new (bytes_field 6 (attributes_text 1 pairs.now))) }
{
    let begins = out.len();
    open_record(out, 6)?;
    let written = write_attributes(out, 1, pairs);
    close_field(out, 6, begins, written)
}

// Appends a value as an element of a list.
#[cycle(value_writers)]
#[tactic(auto, using(crate::proofs::Growth::in_field))]
fn write_member(out: &mut Blob, member: &Value) -> Result<(), OutOfMemory>
    ensures ok { OnOk result (out.new ≡ out.old ++ bytes_field 1 (value_text member.now)) }
    ensures err { OnErr result
        (GrowsFront out.old out.new (bytes_field 1 (value_text member.now))) }
{
    let begins = out.len();
    open_record(out, 1)?;
    let written = write_value(out, member);
    close_field(out, 1, begins, written)
}

// Appends the values of a list.
#[cycle(value_writers)]
#[tactic(auto, using(crate::proofs::Growth::in_field))]
fn write_members(out: &mut Blob, members: &[Value]) -> Result<(), OutOfMemory>
    ensures ok { OnOk result (out.new ≡ out.old ++ list_text 1 value_text members.now) }
    ensures err { OnErr result (GrowsFront out.old out.new (list_text 1 value_text members.now)) }
{
    'members: for member in members {
        write_member(out, member)?;
    }
    Ok(())
}

// Appends a value as that of a key.
#[cycle(value_writers)]
#[tactic(auto, using(crate::proofs::Growth::in_field))]
fn write_held(out: &mut Blob, value: &Value) -> Result<(), OutOfMemory>
    ensures ok { OnOk result (out.new ≡ out.old ++ filled_field 2 (value_text value.now)) }
    ensures err { OnErr result
        (GrowsFront out.old out.new (filled_field 2 (value_text value.now))) }
{
    let begins = out.len();
    open_record(out, 2)?;
    let written = write_value(out, value);
    close_filled(out, 2, begins, written)
}

// Appends a key with its value.
#[cycle(value_writers)]
#[tactic(auto, using(crate::proofs::Growth::in_pieces))]
fn write_key_value(out: &mut Blob, key: &Text, value: &Value) -> Result<(), OutOfMemory>
    ensures ok { OnOk result (out.new ≡ out.old ++ key_value_text (key.now, value.now)) }
    ensures err { OnErr result (GrowsFront out.old out.new (key_value_text (key.now, value.now))) }
{
    write_text(out, 1, key)?;
    write_held(out, value)
}

// Appends a key with its value as an element of attributes.
#[cycle(value_writers)]
#[tactic(auto, using(crate::proofs::Growth::in_field))]
fn write_entry(out: &mut Blob, number: u32, key: &Text, value: &Value) -> Result<(), OutOfMemory>
    requires { IsFieldNumber number }
    ensures ok { OnOk result
        (out.new ≡ out.old ++ bytes_field number (key_value_text (key.now, value.now))) }
    ensures err { OnErr result
        (GrowsFront out.old out.new (bytes_field number (key_value_text (key.now, value.now)))) }
{
    let begins = out.len();
    open_record(out, number)?;
    let written = write_key_value(out, key, value);
    close_field(out, number, begins, written)
}

/// Appends attributes.
#[cycle(value_writers)]
#[tactic(auto, using(crate::proofs::Growth::in_field))]
pub fn write_attributes(
    out: &mut Blob,
    number: u32,
    pairs: &[(Text, Value)],
) -> Result<(), OutOfMemory>
    requires { IsFieldNumber number }
    ensures ok { OnOk result (out.new ≡ out.old ++ attributes_text number pairs.now) }
    ensures err { OnErr result (GrowsFront out.old out.new (attributes_text number pairs.now)) }
{
    'pairs: for pair in pairs {
        write_entry(out, number, &pair.0, &pair.1)?;
    }
    Ok(())
}
