//! Events as texts: a name, and behind it its attributes as an object of JSON.
use crate::requests::{group_in, unit_of};
use span_io::{Halt, Text};
use std::alloc::Global;
use std::test::Fail;
use trace_model::{Attrs, Value, event_text, read_event_text, value_text};

// A name, the attributes as those of a resource in protobuf, and the text: none where there is a double.
const EVENTS: [(&str, &str, Option<&str>); 4] = [
    ("a\"", "resource", Some("a\"")),
    (
        "a",
        "resource 0a10 0a01 'k' 120b 18ffffffffffffffffff01",
        Some(r#""a":{"k":-1}"#),
    ),
    (
        "a\"\n",
        "resource 0a0c 120a 2a08 0a04 3a02 fbff 0a00",
        Some(r#""a\"\n":{"":["+/8=",null]}"#),
    ),
    (
        "a",
        "resource 0a17 0a01 'k' 1212 3210 0a0e 0a01 'l' 1209 21 000000000000f03f",
        None,
    ),
];

fn is_event(alloc: Global, name: &str, attributes: &Attrs, wanted: Option<&str>) -> bool {
    let Ok(name) = Text::of(alloc, name) else {
        return false;
    };
    match event_text(alloc, &name, attributes) {
        Ok(text) => wanted == Some(text.as_str()),
        Err(Halt::Why(())) => wanted == None,
        Err(Halt::OutOfMemory) => false,
    }
}

fn is_written(alloc: Global, name: &str, words: &str, wanted: Option<&str>) -> Result<bool, Fail> {
    let unit = unit_of(alloc, words)?;
    match group_in(alloc, unit.as_slice()) {
        Ok((group, _)) => Ok(is_event(alloc, name, &group.resource, wanted)),
        Err(_) => Ok(false),
    }
}

#[test]
fn writes_events_as_texts(rt: HostRuntime) -> Result<(), Fail> {
    for (name, words, wanted) in &EVENTS {
        assert!(rt;
            is_written(rt.alloc(), name, words, *wanted)?,
            "{name} and {words}"
        );
    }
    Ok(())
}

// Texts, and the name and the attributes that are read. Whole numbers have 64 bits, and values 24 levels.
const TEXTS: &str = r#"
"a":{"k":1} => 'a' {"k":1}
 "a" : { "k" : [ true , null ] }  => 'a' {"k":[true,null]}
"a\"\u00e9":{"\n":"\/"} => 'a"é' {"\n":"/"}
"":{"b":{},"a":"AQ=="} => '' {"a":"AQ==","b":{}}
"a":{"k":1,"k":2} => 'a' {"k":2}
"a":{"k":1},"a":{"l":2} => 'a' {"l":2}
"a":{"k":1},"b":{"l":2} => none
"a":{} => none
"a":[1] => none
"a":1 => none
{"a":{"k":1}} => none
"a":{"k":1}} => none
 => none
a => none
"a" => none
"a":{"k":[-9223372036854775808,9223372036854775807]} => 'a' {"k":[-9223372036854775808,9223372036854775807]}
"a":{"k":9223372036854775808} => none
"a":{"k":-9223372036854775809} => none
"a":{"k":-0} => none
"a":{"k":{"l":1.0}} => none
"a":{"k":[1e3]} => none
"a":{"k":[[[[[[[[[[[[[[[[]]]]]]]]]]]]]]]]} => 'a' {"k":[[[[[[[[[[[[[[[[]]]]]]]]]]]]]]]]}
"a":{"k":[[[[[[[[[[[[[[[0]]]]]]]]]]]]]]]} => 'a' {"k":[[[[[[[[[[[[[[[0]]]]]]]]]]]]]]]}
"a":{"k":[[[[[[[[[[[[[[[[[]]]]]]]]]]]]]]]]]} => 'a' {"k":[[[[[[[[[[[[[[[[[]]]]]]]]]]]]]]]]]}
"a":{"k":[[[[[[[[[[[[[[[[0]]]]]]]]]]]]]]]]} => 'a' {"k":[[[[[[[[[[[[[[[[0]]]]]]]]]]]]]]]]}
"a":{"k":{"l":[[[[[[[[[[[[[[[0]]]]]]]]]]]]]]]}} => 'a' {"k":{"l":[[[[[[[[[[[[[[[0]]]]]]]]]]]]]]]}}
"a":{"k":[[[[[[[[[[[[[[[[[[[[[[[[]]]]]]]]]]]]]]]]]]]]]]]]} => 'a' {"k":[[[[[[[[[[[[[[[[[[[[[[[[]]]]]]]]]]]]]]]]]]]]]]]]}
"a":{"k":[[[[[[[[[[[[[[[[[[[[[[[0]]]]]]]]]]]]]]]]]]]]]]]} => 'a' {"k":[[[[[[[[[[[[[[[[[[[[[[[0]]]]]]]]]]]]]]]]]]]]]]]}
"a":{"k":{"l":[[[[[[[[[[[[[[[[[[[[[[0]]]]]]]]]]]]]]]]]]]]]]}} => 'a' {"k":{"l":[[[[[[[[[[[[[[[[[[[[[[0]]]]]]]]]]]]]]]]]]]]]]}}
"a":{"k":[[[[[[[[[[[[[[[[[[[[[[[[[]]]]]]]]]]]]]]]]]]]]]]]]]} => none
"a":{"k":[[[[[[[[[[[[[[[[[[[[[[[[0]]]]]]]]]]]]]]]]]]]]]]]]} => none
"a":{"k":{"l":[[[[[[[[[[[[[[[[[[[[[[[0]]]]]]]]]]]]]]]]]]]]]]]}} => none
"#;

// What stands behind a name in quotes and a blank.
fn behind<'a>(wanted: &'a str, name: &str) -> Option<&'a str> {
    wanted
        .strip_prefix('\'')?
        .strip_prefix(name)?
        .strip_prefix("' ")
}

fn are_parts(alloc: Global, name: &Text, attributes: Attrs, wanted: &str) -> bool {
    match value_text(alloc, &Value::Map(attributes)) {
        Ok(json) => behind(wanted, name.as_str()) == Some(json.as_str()),
        Err(_) => false,
    }
}

// Whether the text is read as a name, here in quotes, with attributes that have this JSON, or is none of an event.
fn is_read(alloc: Global, text: &str, wanted: &str) -> bool {
    let Ok(text) = Text::of(alloc, text) else {
        return false;
    };
    match read_event_text(alloc, &text) {
        Ok(Some((name, attributes))) => are_parts(alloc, &name, attributes, wanted),
        Ok(None) => wanted == "none",
        Err(_) => false,
    }
}

#[test]
fn reads_events_from_texts(rt: HostRuntime) {
    for row in TEXTS.trim_matches('\n').lines() {
        let (text, wanted) = row.split_once(" => ").expect(&rt, row);
        assert!(rt; is_read(rt.alloc(), text, wanted), "{row}");
    }
}
