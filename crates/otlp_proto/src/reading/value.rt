//! Reading the messages that values are made of: `AnyValue`, `ArrayValue`, `KeyValueList` and
//! `KeyValue` (OTLP common.proto).
ghost use Rattle.std.specs.Prelude.{◌≡◌, ◌+◌, IfOk, OnOk};
ghost use Rattle.span_io.specs.Offences.{Offence, Judges};
ghost use Rattle.proto_wire.specs.Records.{plain_record};
ghost use Rattle.proto_wire.specs.Messages.{messages};
ghost use Rattle.span_io.specs.private.RowSteps.{Adds, JudgesCause};
ghost use Rattle.otlp_proto.specs.Values.{array_value, kvlist_value, IsListText, IsMapText, value_in, key_value_in, value_at, key_value_at, list_rules, map_rules, value_rules, key_value_rules};
ghost use Rattle.otlp_proto.specs.private.ValuesSoFar.{GatheredList, GatheredMap, GatheredMembers, GatheredValue, GatheredKeyValue, JudgesMember};
ghost use Rattle.span_io.specs.private.Gathering.{JudgesNext};

use crate::laws::reading_laws;
use crate::reading::plain::plain_pair;
use crate::reading::value_rows::{
    KeyValueRows, ListRows, MapRows, NotedValue, bytes_member, key_value_of, leaf_member, leaf_of,
    text_member, value_of,
};
use proto_wire::laws::message_cuts;
use proto_wire::{Payload, WireRecord, next_record};
use span_io::{Cause, Cursor, Halt, once, text_row};
use std::alloc::Global;
use trace_model::{KeyValue, Value};

// The levels below a value or `KeyValue` of a list or map.
fn level_below(left: u8) -> Result<u8, Cause>
    ensures value { IfOk result (λ below. left ≡ below + 1) }
    ensures judged { JudgesCause result (λ n. (n ≡ 5) × (left ≡ 0)) }
{
    left.checked_sub(1).ok_or(Cause::TooDeep)
}

// Adds a record of a list.
#[cycle(values)]
fn add_value(
    alloc: Global,
    left: u8,
    rows: &mut ListRows,
    found: &WireRecord<'_>,
) -> Result<(), Halt<Cause>>
    ensures ok { OnOk result (Adds (GatheredList left) (plain_record found.now) rows.old rows.new) }
    ensures judged { JudgesNext (list_rules left) (GatheredList left) rows.old
        (plain_record found.now) result }
{
    match found.payload {
        Payload::Bytes(held) if found.number == 1 => {
            let below = level_below(left)?;
            let read = read_value(alloc, below, held)?;
            rows.push(read)?;
            Ok(())
        }
        _ => Ok(()),
    }
}

// Adds a record of a map.
#[cycle(values)]
fn add_key_value(
    alloc: Global,
    left: u8,
    rows: &mut MapRows,
    found: &WireRecord<'_>,
) -> Result<(), Halt<Cause>>
    ensures ok { OnOk result (Adds (GatheredMap left) (plain_record found.now) rows.old rows.new) }
    ensures judged { JudgesNext (map_rules left) (GatheredMap left) rows.old
        (plain_record found.now) result }
{
    match found.payload {
        Payload::Bytes(held) if found.number == 1 => {
            let below = level_below(left)?;
            let read = read_key_value(alloc, below, held)?;
            rows.push(read)?;
            Ok(())
        }
        _ => Ok(()),
    }
}

// Sets the row of a value by a list.
#[cycle(values)]
fn list_member(
    alloc: Global,
    left: u8,
    row: &mut Option<NotedValue>,
    held: &[u8],
) -> Result<(), Halt<Cause>>
    ensures ok { OnOk result (Adds (GatheredMembers left) (array_value held.now) row.old row.new) }
    ensures judged { JudgesMember left row.old (array_value held.now) result }
{
    once(row)?;
    *row = Some(read_list(alloc, left, held)?);
    Ok(())
}

// Sets the row of a value by a map.
#[cycle(values)]
fn map_member(
    alloc: Global,
    left: u8,
    row: &mut Option<NotedValue>,
    held: &[u8],
) -> Result<(), Halt<Cause>>
    ensures ok { OnOk result (Adds (GatheredMembers left) (kvlist_value held.now) row.old row.new) }
    ensures judged { JudgesMember left row.old (kvlist_value held.now) result }
{
    once(row)?;
    *row = Some(read_map(alloc, left, held)?);
    Ok(())
}

// Adds a record of a value.
#[cycle(values)]
fn add_member(
    alloc: Global,
    left: u8,
    row: &mut Option<NotedValue>,
    found: &WireRecord<'_>,
) -> Result<(), Halt<Cause>>
    ensures ok { OnOk result (Adds (GatheredValue left) (plain_record found.now) row.old row.new) }
    ensures judged { JudgesNext (value_rules left) (GatheredValue left) row.old
        (plain_record found.now) result }
{
    match found.payload {
        Payload::Bytes(held) => match found.number {
            1 => text_member(alloc, row, held),
            5 => list_member(alloc, left, row, held),
            6 => map_member(alloc, left, row, held),
            7 => bytes_member(alloc, row, held),
            _ => Ok(()),
        },
        Payload::Varint(n) => match found.number {
            2 => Ok(leaf_member(alloc, row, Value::Truth(n != 0))?),
            3 => Ok(leaf_member(alloc, row, Value::Number(n.cast_signed()))?),
            _ => Ok(()),
        },
        Payload::Fixed64(n) => match found.number {
            4 => Ok(leaf_member(alloc, row, Value::Eight(n.to_be_bytes()))?),
            _ => Ok(()),
        },
        Payload::Fixed32(_) => Ok(()),
    }
}

// Adds a record of a `KeyValue`.
#[cycle(values)]
fn add_field(
    alloc: Global,
    left: u8,
    rows: &mut KeyValueRows,
    found: &WireRecord<'_>,
) -> Result<(), Halt<Cause>>
    ensures ok { OnOk result
        (Adds (GatheredKeyValue left) (plain_record found.now) rows.old rows.new) }
    ensures judged { JudgesNext (key_value_rules left) (GatheredKeyValue left) rows.old
        (plain_record found.now) result }
{
    match found.payload {
        Payload::Bytes(held) => match found.number {
            1 => text_row(alloc, &mut rows.key, held),
            2 => {
                once(&rows.value)?;
                rows.value = Some(read_value(alloc, left, held)?);
                Ok(())
            }
            _ => Ok(()),
        },
        _ => Ok(()),
    }
}

/// Reads a value below which so many levels are left.
#[cycle(values)]
pub fn read_value(alloc: Global, left: u8, bytes: &[u8]) -> Result<NotedValue, Halt<Cause>>
    ensures value { IfOk result (λ r. value_at left bytes.now r) }
    ensures judged { Judges result (Offence messages (value_rules left) bytes.now) }
{
    message_cuts();
    let mut row = None;
    let mut cursor = Cursor::new(bytes);
    'members: loop {
        match next_record(&mut cursor) {
            Ok(None) => return Ok(value_of(alloc, row)),
            Ok(Some(found)) => add_member(alloc, left, &mut row, &found)?,
            Err(cause) => return Err(Halt::Why(cause)),
        }
    }
}

// Reads a list below which so many levels are left.
#[cycle(values)]
fn read_list(alloc: Global, left: u8, bytes: &[u8]) -> Result<NotedValue, Halt<Cause>>
    ensures value { IfOk result (λ r. IsListText (value_in left) bytes.now r) }
    ensures judged { Judges result (Offence messages (list_rules left) bytes.now) }
{
    message_cuts();
    let mut rows = ListRows::none(alloc);
    let mut cursor = Cursor::new(bytes);
    'values: loop {
        match next_record(&mut cursor) {
            Ok(None) => return Ok(rows.finish()),
            Ok(Some(found)) => add_value(alloc, left, &mut rows, &found)?,
            Err(cause) => return Err(Halt::Why(cause)),
        }
    }
}

// Reads a map below which so many levels are left.
#[cycle(values)]
fn read_map(alloc: Global, left: u8, bytes: &[u8]) -> Result<NotedValue, Halt<Cause>>
    ensures value { IfOk result (λ r. IsMapText (key_value_in left) bytes.now r) }
    ensures judged { Judges result (Offence messages (map_rules left) bytes.now) }
{
    message_cuts();
    let mut rows = MapRows::none(alloc);
    let mut cursor = Cursor::new(bytes);
    'pairs: loop {
        match next_record(&mut cursor) {
            Ok(None) => return Ok(rows.finish(alloc)?),
            Ok(Some(found)) => add_key_value(alloc, left, &mut rows, &found)?,
            Err(cause) => return Err(Halt::Why(cause)),
        }
    }
}

/// Reads a `KeyValue` below whose value so many levels are left.
#[cycle(values)]
pub fn read_key_value(alloc: Global, left: u8, bytes: &[u8]) -> Result<KeyValue, Halt<Cause>>
    ensures value { IfOk result (λ p. key_value_at left bytes.now p) }
    ensures judged { Judges result (Offence messages (key_value_rules left) bytes.now) }
{
    reading_laws();
    if let Some(plain) = plain_pair(bytes) {
        let (key, value) = plain.owned(alloc)?;
        let value = leaf_of(alloc, value);
        return Ok(KeyValue { key, value });
    }
    walk_key_value(alloc, left, bytes)
}

/// Reads a `KeyValue` record by record.
#[cycle(values)]
pub fn walk_key_value(alloc: Global, left: u8, bytes: &[u8]) -> Result<KeyValue, Halt<Cause>>
    ensures value { IfOk result (λ p. key_value_at left bytes.now p) }
    ensures judged { Judges result (Offence messages (key_value_rules left) bytes.now) }
{
    message_cuts();
    let mut rows = KeyValueRows {
        key: None,
        value: None,
    };
    let mut cursor = Cursor::new(bytes);
    'fields: loop {
        match next_record(&mut cursor) {
            Ok(None) => return Ok(key_value_of(alloc, rows)),
            Ok(Some(found)) => add_field(alloc, left, &mut rows, &found)?,
            Err(cause) => return Err(Halt::Why(cause)),
        }
    }
}
