//! Remarks in rows: a place, a kind and, where there is one, a key.
use row_tables::Row;
use trace_model::{Place, Remark, RemarkKind};

// The word of a place, and the numbers behind it.
fn parts_of(place: Place) -> (&'static str, Option<u32>, Option<u32>) {
    match place {
        Place::Whole => ("whole", None, None),
        Place::Resource => ("resource", None, None),
        Place::Scope(scope) => ("scope", Some(scope), None),
        Place::Span(span) => ("span", Some(span), None),
        Place::Event(span, event) => ("event", Some(span), Some(event)),
        Place::Link(span, link) => ("link", Some(span), Some(link)),
    }
}

// What stands behind a word in front of a text, and behind a number, if there is one.
fn behind_word<'a>(text: &'a str, word: &str) -> Option<&'a str> {
    let (found, rest) = text.split_once(' ').unwrap_or((text, ""));
    if found == word { Some(rest) } else { None }
}

fn behind_number(text: &str, number: Option<u32>) -> Option<&str> {
    let Some(number) = number else {
        return Some(text);
    };
    let (found, rest) = text.split_once(' ').unwrap_or((text, ""));
    if found.parse::<u32>().ok() == Some(number) {
        Some(rest)
    } else {
        None
    }
}

fn word_of(kind: RemarkKind) -> &'static str {
    match kind {
        RemarkKind::EqualKey => "EqualKey",
        RemarkKind::LinkDropped => "LinkDropped",
        RemarkKind::TagDropped => "TagDropped",
    }
}

// The key that a text tells of a remark with this place and kind.
fn key_told<'a>(text: &'a str, place: Place, kind: RemarkKind) -> Option<&'a str> {
    let (word, first, second) = parts_of(place);
    let rest = behind_word(text, word)?;
    let rest = behind_number(rest, first)?;
    let rest = behind_number(rest, second)?;
    behind_word(rest, word_of(kind))
}

/// Whether these are the remarks of a row, in order.
pub(crate) fn are_remarks(remarks: &[Remark], row: &Row) -> bool {
    let mut left = remarks;
    for field in row.fields() {
        if field.key() != "remark" {
            continue;
        }
        let [remark, others @ ..] = left else {
            return false;
        };
        if key_told(field.text(), remark.place, remark.kind) != Some(remark.key.as_str()) {
            return false;
        }
        left = others;
    }
    left.is_empty()
}
