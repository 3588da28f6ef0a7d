//! Values of traces, and their texts.
use crate::requests::{group_in, unit_of};
use row_tables::sides;
use span_io::Halt;
use std::alloc::Global;
use std::test::Fail;
use trace_model::{Value, value_json, value_text};

// Pairs without a key, each a value as protobuf has it, and the text of the value. A value with a double in it has none.
const TEXTS: &str = r#"
pair 1206 0a04 6122c3a9 => a"é
pair 1202 1001 => true
pair 1202 1000 => false
pair 120b 18fbffffffffffffffff01 => -5
pair 1204 3a02 fbff => +/8=
pair 1200 =>
pair 1209 21 000000000000f03f => none
pair 1202 2a00 => []
pair 121d 321b 0a07 0a01 'b' 1202 1802 0a10 0a01 'c' 120b 18ffffffffffffffffff01 => {"b":2,"c":-1}
pair @NESTED => ["a\"\\/\n\u0001é",-9223372036854775808,null,"AP8QIA==",[],{"":true,"k\"":{}}]
pair 1216 3214 0a12 0a01 'k' 120d 2a0b 0a09 21 000000000000f03f => none
"#;

// The same, and the value as JSON.
const JSON: &str = r#"
pair 121d 321b 0a19 0a01 'k' 1214 2a12 0a04 3a02 fbff 0a00 0a02 1001 0a04 0a02 'a"' => {"k":["+/8=",null,true,"a\""]}
pair 120b 18fbffffffffffffffff01 => -5
pair 1212 3210 0a0e 0a01 'k' 1209 21 000000000000f03f => none
"#;

fn has_text(alloc: Global, value: &Value, wanted: &str) -> bool {
    match value_text(alloc, value) {
        Ok(text) => text.as_str() == wanted,
        Err(Halt::Why(())) => wanted == "none",
        Err(Halt::OutOfMemory) => false,
    }
}

// Whether a value and a copy of it have this text.
fn is_told(alloc: Global, value: &Value, wanted: &str) -> bool {
    match value.copy(alloc) {
        Ok(copy) => {
            has_text(alloc, value, wanted)
                && has_text(alloc, &copy, wanted)
                && value.holds_double() == (wanted == "none")
        }
        Err(_) => false,
    }
}

fn has_json(alloc: Global, value: &Value, wanted: &str) -> bool {
    let json = match value_json(alloc, value) {
        Ok(json) => json,
        Err(Halt::Why(())) => return wanted == "none",
        Err(Halt::OutOfMemory) => return false,
    };
    match json.to_string(alloc) {
        Ok(text) => text.as_str() == wanted,
        Err(_) => false,
    }
}

// Whether the value of a pair is told so, as a text or as JSON.
fn holds(alloc: Global, row: &str, json: bool) -> Result<bool, Fail> {
    let (pair, wanted) = sides(row)?;
    let unit = unit_of(alloc, pair)?;
    let Ok((group, _)) = group_in(alloc, unit.as_slice()) else {
        return Ok(false);
    };
    match group.resource.as_slice() {
        [(_, value)] if json => Ok(has_json(alloc, value, wanted)),
        [(_, value)] => Ok(is_told(alloc, value, wanted)),
        _ => Ok(false),
    }
}

#[test]
fn tells_values_as_texts(rt: HostRuntime) -> Result<(), Fail> {
    for row in TEXTS.trim_matches('\n').lines() {
        assert!(rt; holds(rt.alloc(), row, false)?, "{row}");
    }
    Ok(())
}

#[test]
fn makes_json_values(rt: HostRuntime) -> Result<(), Fail> {
    for row in JSON.trim_matches('\n').lines() {
        assert!(rt; holds(rt.alloc(), row, true)?, "{row}");
    }
    Ok(())
}
