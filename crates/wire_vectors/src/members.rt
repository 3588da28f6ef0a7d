//! Members of objects of JSON.
use json::{Scratch, Writer};
use json_members::{
    close_array, close_object, count_member, given_text_member, id_member, member_of, name_of,
    open_array, open_object, own_text_member, parent_member, text, text_member, text_of,
    trace_member, truth_member, truth_of, unread, whole_count_member, whole_text_member,
};
use json_nodes::{Lent, bytes_nodes, text_nodes};
use span_ids::{SpanId, TraceId};
use span_io::{Cause, Halt, OutOfMemory, Refusal, Text};
use std::alloc::Global;
use std::test::Fail;

// An object, and its member `a` as a number.
const MEMBERS: [(&str, Option<u64>); 7] = [
    (r#"{"a":7}"#, Some(7)),
    (r#"{"b":7}"#, None),
    (r#"{"a":null}"#, None),
    (r#"{"a":7,"a":8}"#, Some(8)),
    (r#"{"a":7,"a":null}"#, None),
    (r#"[7]"#, None),
    ("7", None),
];

fn has_number(alloc: Global, given: &str, number: Option<u64>) -> bool {
    let mut scratch = Scratch::new(alloc);
    let Ok(nodes) = text_nodes(alloc, given, &mut scratch) else {
        return false;
    };
    match member_of(&Lent::of(nodes.as_slice()), "a") {
        Some(member) => member.as_u64() == number,
        None => number == None,
    }
}

#[test]
fn finds_members(rt: HostRuntime) {
    for (given, number) in &MEMBERS {
        assert!(rt; has_number(rt.alloc(), given, *number), "{given}");
    }
}

// A value, the text that it is, and the truth value.
const LEAVES: [(&str, Option<&str>, Option<bool>); 8] = [
    (r#""ü""#, Some("ü"), None),
    (r#""""#, Some(""), None),
    (r#""true""#, Some("true"), None),
    ("true", None, Some(true)),
    ("false", None, Some(false)),
    ("null", None, None),
    ("1", None, None),
    ("[]", None, None),
];

// Whether a text is read, or else refused for its shape.
fn is_text(read: Result<Text, Halt<Cause>>, wanted: Option<&str>) -> bool {
    match read {
        Ok(text) => wanted == Some(text.as_str()),
        Err(halt) => wanted == None && halt == Halt::Why(Cause::BadShape),
    }
}

fn is_truth(read: Result<bool, Cause>, wanted: Option<bool>) -> bool {
    match read {
        Ok(truth) => wanted == Some(truth),
        Err(cause) => wanted == None && cause == Cause::BadShape,
    }
}

fn is_leaf(alloc: Global, given: &str, wanted: Option<&str>, truth: Option<bool>) -> bool {
    let mut scratch = Scratch::new(alloc);
    let Ok(nodes) = text_nodes(alloc, given, &mut scratch) else {
        return false;
    };
    let v = Lent::of(nodes.as_slice());
    is_truth(truth_of(&v), truth) && is_text(text_of(alloc, &v), wanted)
}

#[test]
fn reads_texts_and_truth_values(rt: HostRuntime) {
    for (given, wanted, truth) in &LEAVES {
        assert!(rt; is_leaf(rt.alloc(), given, *wanted, *truth), "{given}");
    }
}

// An object, and the text of its member `a`, which may be absent.
const TEXTS: [(&str, Option<&str>); 4] = [
    (r#"{"a":"x"}"#, Some("x")),
    (r#"{"a":null}"#, Some("")),
    (r#"{}"#, Some("")),
    (r#"{"a":1}"#, None),
];

fn has_text(alloc: Global, given: &str, wanted: Option<&str>) -> bool {
    let mut scratch = Scratch::new(alloc);
    match text_nodes(alloc, given, &mut scratch) {
        Ok(nodes) => is_text(text(alloc, &Lent::of(nodes.as_slice()), "a"), wanted),
        Err(_) => false,
    }
}

#[test]
fn reads_texts_that_may_be_absent(rt: HostRuntime) {
    for (given, wanted) in &TEXTS {
        assert!(rt; has_text(rt.alloc(), given, *wanted), "{given}");
    }
}

// What is no value of JSON.
const NO_VALUES: [&[u8]; 4] = [b"", b"[1,]", b"\"\xff\"", b"{} {}"];

fn is_no_value(alloc: Global, bytes: &[u8]) -> bool {
    let mut scratch = Scratch::new(alloc);
    let refusal = Refusal {
        unit: 0,
        cause: Cause::BadJson,
    };
    match bytes_nodes(alloc, bytes, &mut scratch) {
        Ok(_) => false,
        Err(why) => unread(why) == Halt::Why(refusal),
    }
}

#[test]
fn refuses_what_is_no_value(rt: HostRuntime) {
    for bytes in &NO_VALUES {
        assert!(rt; is_no_value(rt.alloc(), bytes), "{bytes:?}");
    }
}

// An object with texts, numbers, a truth value and an empty array, each left out or not as its writer does.
fn write_values(
    out: &mut Writer,
    text: &Text,
    number: u64,
    truth: bool,
) -> Result<(), OutOfMemory> {
    open_object(out)?;
    text_member(out, "a", text.as_str())?;
    given_text_member(out, "b", text)?;
    own_text_member(out, "c", text)?;
    whole_text_member(out, "d", text.as_str())?;
    count_member(out, "e", number)?;
    whole_count_member(out, "f", number)?;
    truth_member(out, "g", truth)?;
    name_of(out, "h")?;
    open_array(out)?;
    close_array(out)?;
    close_object(out)
}

// A text, a number, a truth value, and what is written of them.
const VALUES: [(&str, u64, bool, &str); 2] = [
    ("", 0, false, r#"{"c":"","d":"","f":0,"h":[]}"#),
    (
        "\"ü\n",
        7,
        true,
        r#"{"a":"\"ü\n","b":"\"ü\n","c":"\"ü\n","d":"\"ü\n","e":7,"f":7,"g":true,"h":[]}"#,
    ),
];

fn are_written(
    alloc: Global,
    text: &str,
    number: u64,
    truth: bool,
    written: &str,
) -> Result<bool, OutOfMemory> {
    let text = Text::of(alloc, text)?;
    let mut out = Writer::new(Vec::new(alloc));
    write_values(&mut out, &text, number, truth)?;
    Ok(out.into_inner().as_slice() == written.as_bytes())
}

#[test]
fn writes_values(rt: HostRuntime) -> Result<(), Fail> {
    for (text, number, truth, written) in &VALUES {
        let same = are_written(rt.alloc(), text, *number, *truth, written)?;
        assert!(rt; same, "{written}");
    }
    Ok(())
}

// An object with the three identifiers of a span.
fn write_identifiers(
    out: &mut Writer,
    trace: TraceId,
    id: SpanId,
    parent: Option<SpanId>,
) -> Result<(), OutOfMemory> {
    open_object(out)?;
    id_member(out, "id", id)?;
    parent_member(out, "parent", parent)?;
    trace_member(out, "trace", trace)?;
    close_object(out)
}

const WITHOUT_PARENT: &str =
    r#"{"id":"00000000000000ef","trace":"00000000000000ab00000000000000cd"}"#;

const WITH_PARENT: &str =
    r#"{"id":"00000000000000ef","parent":"00000000000000ef","trace":"00000000000000ab00000000000000cd"}"#;

fn are_identifiers(
    alloc: Global,
    id: SpanId,
    parent: Option<SpanId>,
    written: &str,
) -> Result<bool, OutOfMemory> {
    let Ok(trace) = TraceId::from_halves(0xab, 0xcd) else {
        return Ok(false);
    };
    let mut out = Writer::new(Vec::new(alloc));
    write_identifiers(&mut out, trace, id, parent)?;
    Ok(out.into_inner().as_slice() == written.as_bytes())
}

#[test]
fn writes_identifiers(rt: HostRuntime) -> Result<(), Fail> {
    let id = SpanId::from_number(0xef)?;
    let alone = are_identifiers(rt.alloc(), id, None, WITHOUT_PARENT)?;
    let below = are_identifiers(rt.alloc(), id, Some(id), WITH_PARENT)?;
    assert!(rt; alone && below);
    Ok(())
}
