//! Whether what the relay did is what a row tells of it.
use crate::texts::{bytes_of, form_of, numbers_of, often, spelled, truth};
use row_tables::{Row, Words};
use span_io::{Form, MemDuplex};
use span_relay::{Round, Sent};
use span_spool::Kept;
use std::alloc::Global;
use std::process::Abort;
use std::test::Fail;

/// Fails where something of a row isn't as it tells.
pub(crate) fn expect(rt: &impl Abort, row: &Row, what: &str, holds: bool) {
    assert!(rt; holds, "{what} of {}", row.name());
}

fn is_kept(kept: &Kept, number: u64, form: Form, body: &[u8]) -> bool {
    kept.number == number && kept.form == form && kept.body.as_slice() == body
}

// What stands behind rows with these numbers, this form and this body, if they are the first.
fn behind_rows<'a>(
    rows: &'a [Kept],
    (first, last): (u64, u64),
    form: Form,
    body: &[u8],
) -> Option<&'a [Kept]> {
    let mut left = rows;
    for number in first..last.saturating_add(1) {
        let (kept, behind) = left.split_first()?;
        if !is_kept(kept, number, form, body) {
            return None;
        }
        left = behind;
    }
    Some(left)
}

// What stands behind the rows that a text tells, by their numbers, their form and their body.
fn behind_told<'a>(
    alloc: Global,
    row: &Row,
    rows: &'a [Kept],
    text: &str,
) -> Result<Option<&'a [Kept]>, Fail> {
    let mut words = Words::of(text);
    let numbers = numbers_of(row, words.word())?;
    let form = form_of(row, words.word())?;
    let body = bytes_of(alloc, row, words.rest())?;
    Ok(behind_rows(rows, numbers, form, body.as_slice()))
}

/// Whether these are the rows that are left in a keeper.
pub(crate) fn are_left(alloc: Global, row: &Row, rows: &[Kept]) -> Result<bool, Fail> {
    let mut left = rows;
    for field in row.fields() {
        if field.key() != "left" {
            continue;
        }
        match behind_told(alloc, row, left, field.text())? {
            Some(behind) => left = behind,
            None => return Ok(false),
        }
    }
    Ok(left.is_empty())
}

// What stands behind so many bodies that were sent and answered with a status.
fn behind_answered(sent: &[Sent], status: u64, times: usize) -> Option<(&[Sent], &[Sent])> {
    let (firsts, behind) = sent.split_at_checked(times)?;
    for one in firsts {
        if u64::from(one.status) != status {
            return None;
        }
    }
    Some((firsts, behind))
}

// Whether all of these went to an address.
fn are_for(alloc: Global, row: &Row, sent: &[Sent], word: &str) -> Result<bool, Fail> {
    let address = spelled(alloc, row, word)?;
    for one in sent {
        if one.address.as_str() != address.as_str() {
            return Ok(false);
        }
    }
    Ok(true)
}

// Whether all of these have a form and a body.
fn are_bodies(
    alloc: Global,
    row: &Row,
    sent: &[Sent],
    form: Form,
    text: &str,
) -> Result<bool, Fail> {
    let body = bytes_of(alloc, row, text)?;
    for one in sent {
        if one.form != form || one.body.as_slice() != body.as_slice() {
            return Ok(false);
        }
    }
    Ok(true)
}

// What stands behind the bodies that a text tells, by their status, their address, their form and their body.
fn behind_sent<'a>(
    alloc: Global,
    row: &Row,
    sent: &'a [Sent],
    text: &str,
) -> Result<Option<&'a [Sent]>, Fail> {
    let mut words = Words::of(text);
    let (status, times) = often(row, words.word())?;
    let Some((firsts, behind)) = behind_answered(sent, row.number_in(status)?, times) else {
        return Ok(None);
    };
    let well = are_for(alloc, row, firsts, words.word())?;
    let form = form_of(row, words.word())?;
    if well && are_bodies(alloc, row, firsts, form, words.rest())? {
        return Ok(Some(behind));
    }
    Ok(None)
}

/// Whether this is what a peer got.
pub(crate) fn are_sent(alloc: Global, row: &Row, sent: &[Sent]) -> Result<bool, Fail> {
    let mut left = sent;
    for field in row.fields() {
        if field.key() != "sent" {
            continue;
        }
        match behind_sent(alloc, row, left, field.text())? {
            Some(behind) => left = behind,
            None => return Ok(false),
        }
    }
    Ok(left.is_empty())
}

// What stands behind so many outcomes.
fn behind_outcomes(outcomes: &[bool], outcome: bool, times: usize) -> Option<&[bool]> {
    let (firsts, behind) = outcomes.split_at_checked(times)?;
    for one in firsts {
        if *one != outcome {
            return None;
        }
    }
    Some(behind)
}

/// Whether these are the outcomes that a text tells in words.
pub(crate) fn are_outcomes(row: &Row, outcomes: &[bool], text: &str) -> Result<bool, Fail> {
    let mut left = outcomes;
    for word in text.split_ascii_whitespace() {
        let (word, times) = often(row, word)?;
        match behind_outcomes(left, truth(row, word)?, times) {
            Some(behind) => left = behind,
            None => return Ok(false),
        }
    }
    Ok(left.is_empty())
}

// Whether a round is the one that a text tells: how many bodies left, and its outcomes.
fn is_round(row: &Row, round: &Round, text: &str) -> Result<bool, Fail> {
    let mut words = Words::of(text);
    if round.gone != row.number_in(words.word())? {
        return Ok(false);
    }
    are_outcomes(row, round.outcomes.as_slice(), words.rest())
}

/// Whether these are the rounds of a row.
pub(crate) fn are_rounds(row: &Row, rounds: &[Round]) -> Result<bool, Fail> {
    let mut left = rounds;
    for field in row.fields() {
        if field.key() != "round" {
            continue;
        }
        let Some((round, behind)) = left.split_first() else {
            return Ok(false);
        };
        if !is_round(row, round, field.text())? {
            return Ok(false);
        }
        left = behind;
    }
    Ok(left.is_empty())
}

/// Whether a connection took the bytes that a text means.
pub(crate) fn took(alloc: Global, row: &Row, conn: &MemDuplex, text: &str) -> Result<bool, Fail> {
    let wanted = bytes_of(alloc, row, text)?;
    Ok(conn.written() == wanted.as_slice())
}

/// Whether these connections were given back, each of which took what is told.
pub(crate) fn are_taken(alloc: Global, row: &Row, conns: &[MemDuplex]) -> Result<bool, Fail> {
    let mut left = conns;
    for field in row.fields() {
        if field.key() != "took" {
            continue;
        }
        let Some((conn, behind)) = left.split_first() else {
            return Ok(false);
        };
        if !took(alloc, row, conn, field.text())? {
            return Ok(false);
        }
        left = behind;
    }
    Ok(left.is_empty())
}

// What stands behind a line of the notes, or behind the front of one.
fn behind_note<'a>(notes: &'a [u8], key: &str, text: &str) -> Option<&'a [u8]> {
    match key {
        "note" => notes
            .strip_prefix(text.as_bytes())?
            .strip_prefix(b"\n".as_slice()),
        "note-front" => notes.strip_prefix(text.as_bytes()),
        "usage" => notes.strip_prefix(b"usage: spanx_relay OPTIONS\n".as_slice()),
        _ => Some(notes),
    }
}

/// Whether these are the notes of a row.
pub(crate) fn are_notes(row: &Row, notes: &[u8]) -> bool {
    let mut left = notes;
    for field in row.fields() {
        match behind_note(left, field.key(), field.text()) {
            Some(behind) => left = behind,
            None => return false,
        }
    }
    left.is_empty()
}
