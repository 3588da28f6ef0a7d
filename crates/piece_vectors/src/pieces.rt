//! Conversions in pieces: each row is held against its converter in pieces of some sizes, and cut at each byte.
ghost use Rattle.std.specs.Prelude.{◌<◌};

use crate::conversion::Conversion;
use crate::rows::{TABLES, Worked};
use row_tables::{Row, rows};
use std::alloc::Global;
use std::process::Abort;
use std::test::Fail;

// Converts a row in pieces of so many bytes.
fn expect_pieces(rt: &impl Abort, alloc: Global, worked: &Worked, size: usize)
    requires { 0 < size }
{
    let mut conversion = Conversion::new(rt, alloc, worked);
    'pieces: for piece in worked.input.as_slice().chunks(size) {
        conversion.feed(rt, piece);
    }
    conversion.finish(rt);
}

// Converts it in three pieces, of which the first ends at a place, and the second at it or behind it.
fn expect_cuts(rt: &impl Abort, alloc: Global, worked: &Worked, first: usize, second: usize) {
    let input = worked.input.as_slice();
    let (front, last) = input.split_at(second.min(input.len()));
    let (front, middle) = front.split_at(first.min(front.len()));
    let mut conversion = Conversion::new(rt, alloc, worked);
    conversion.feed(rt, front);
    conversion.feed(rt, middle);
    conversion.feed(rt, last);
    conversion.finish(rt);
}

// Converts it in two pieces that end at a place.
fn expect_cut(rt: &impl Abort, alloc: Global, worked: &Worked, cut: usize) {
    let input = worked.input.as_slice();
    let (front, last) = input.split_at(cut.min(input.len()));
    let mut conversion = Conversion::new(rt, alloc, worked);
    conversion.feed(rt, front);
    conversion.feed(rt, last);
    conversion.finish(rt);
}

// Converts it in two pieces for each place of a cut.
fn expect_each_cut(rt: &impl Abort, alloc: Global, worked: &Worked) {
    for cut in 0..worked.input.len().saturating_add(1) {
        expect_cut(rt, alloc, worked, cut);
    }
}

// Converts it in three pieces, of which the first ends at this place.
fn expect_cuts_behind(rt: &impl Abort, alloc: Global, worked: &Worked, first: usize) {
    for second in first..worked.input.len().saturating_add(1) {
        expect_cuts(rt, alloc, worked, first, second);
    }
}

// Converts it in three pieces for each pair of places. Among them are empty pieces at each place.
fn expect_each_pair(rt: &impl Abort, alloc: Global, worked: &Worked) {
    for first in 0..worked.input.len().saturating_add(1) {
        expect_cuts_behind(rt, alloc, worked, first);
    }
}

// Whether a row is cut at each pair of places, too.
fn in_pairs(row: &Row) -> Result<bool, Fail> {
    match row.text_if_any("cuts")? {
        None => Ok(false),
        Some("2") => Ok(true),
        Some(text) => Err(row.fail("no cuts", text)),
    }
}

// Converts a row in pieces of each size, and cut once at each place, or twice, too.
fn expect_row(rt: &impl Abort, alloc: Global, row: &Row) -> Result<(), Fail> {
    let pairs = in_pairs(row)?;
    let worked = Worked::read(alloc, row)?;
    expect_pieces(rt, alloc, &worked, 1);
    expect_pieces(rt, alloc, &worked, 2);
    expect_pieces(rt, alloc, &worked, 7);
    expect_pieces(rt, alloc, &worked, 65_536);
    expect_each_cut(rt, alloc, &worked);
    if pairs {
        expect_each_pair(rt, alloc, &worked);
    }
    Ok(())
}

fn expect_rows(rt: &impl Abort, alloc: Global, table: &'static str) -> Result<(), Fail> {
    for row in &rows(alloc, table)? {
        expect_row(rt, alloc, row)?;
    }
    Ok(())
}

#[test]
fn cuts_rows(rt: HostRuntime) -> Result<(), Fail> {
    for table in &TABLES {
        expect_rows(&rt, rt.alloc(), table)?;
    }
    Ok(())
}
