//! Groups in OTLP/JSON: what is written of those that are read, and how many remarks there are.
use otlp_json::{read_text, write_group};
use row_tables::texts::{BARE_GROUP, FULL_GROUP, LINKED, SDK_GROUPS, VALUES_GROUP};
use row_tables::{Row, rows};
use span_io::{Blob, Items};
use std::alloc::Global;
use std::test::Fail;
use trace_model::{Group, Remark};

// A text of groups, the text that is written of them, and the number of remarks on the first.
const ROWS: &str = r#"
a group with attributes, a scope and a span
text @SDK_GROUPS
written @SDK_GROUPS
remarks 0

a link
text @LINKED
written @LINKED
remarks 0

every field
text @FULL_GROUP
written @FULL_GROUP
remarks 0

identifiers alone
text @BARE_GROUP
written @BARE_GROUP
remarks 0

each value
text {"resourceSpans":[{"resource":{"attributes":[{},{"key":"text","value":{"stringValue":""}},{"key":"false",
 "value":{"boolValue":false}},{"key":"zero","value":{"intValue":"0"}},{"key":"low",
 "value":{"intValue":"-9223372036854775808"}},{"key":"bytes","value":{"bytesValue":""}},{"key":"list",
 "value":{"arrayValue":{}}},{"key":"map","value":{"kvlistValue":{}}},{"key":"nested","value":{"arrayValue":{"values":[{},
 {"arrayValue":{"values":[{"boolValue":true}]}},{"kvlistValue":{"values":[{"key":"k"},{"value":{"intValue":"300"}}]}}]}}}]}}]}
written @VALUES_GROUP
remarks 0

a key that stands twice
text {"resourceSpans":[{"resource":{"attributes":[{"key":"a"},{"key":"a","value":{"intValue":7}}]}},{}]}
written {"resourceSpans":[{"resource":{"attributes":[{"key":"a","value":{"intValue":"7"}}]}},{}]}
remarks 1
"#;

fn named(text: &str) -> &str {
    match text {
        "@SDK_GROUPS" => SDK_GROUPS,
        "@LINKED" => LINKED,
        "@FULL_GROUP" => FULL_GROUP,
        "@BARE_GROUP" => BARE_GROUP,
        "@VALUES_GROUP" => VALUES_GROUP,
        _ => text,
    }
}

// Appends the text of groups, if it can.
fn append_groups(out: &mut Blob, groups: &[(Group, Items<Remark>)]) -> bool {
    let mut well = out.append(br#"{"resourceSpans":"#).is_ok();
    let mut between = b'[';
    for (group, _) in groups {
        well = well && out.append(&[between]).is_ok() && write_group(out, group).is_ok();
        between = b',';
    }
    well && out.append(b"]}").is_ok()
}

// Whether there are so many remarks on the first of groups.
fn are_many(groups: &[(Group, Items<Remark>)], count: usize) -> bool {
    match groups {
        [(_, remarks), ..] => remarks.len() == count,
        [] => false,
    }
}

// Whether the groups that a text holds are written so, with so many remarks on the first.
fn is_written(alloc: Global, text: &str, wanted: &str, count: usize) -> bool {
    if text.len() > u32::MAX as usize {
        return false;
    }
    let Ok(groups) = read_text(alloc, text.as_bytes()) else {
        return false;
    };
    let mut out = Blob::new(alloc);
    are_many(groups.as_slice(), count)
        && append_groups(&mut out, groups.as_slice())
        && out.as_slice() == wanted.as_bytes()
}

fn expect_row(alloc: Global, row: &Row) -> Result<(), Fail> {
    row.expect_keys(&["text", "written", "remarks"])?;
    let text = named(row.text("text")?);
    let wanted = named(row.text("written")?);
    let count = row.count("remarks")?;
    if is_written(alloc, text, wanted, count) {
        return Ok(());
    }
    Err(row.fail("not written", wanted))
}

#[test]
fn writes_groups(rt: HostRuntime) -> Result<(), Fail> {
    for row in &rows(rt.alloc(), ROWS)? {
        expect_row(rt.alloc(), row)?;
    }
    Ok(())
}
