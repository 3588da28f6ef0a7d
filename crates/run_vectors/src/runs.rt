//! Runs of the top call, over sources, sinks and doors in memory.

mod batches;
mod batches_of_requests;
mod batches_stops;
mod compact;
mod compact_stops;
mod devices;
mod documents;
mod escaped_batches;
mod escaped_spans;
mod failing_connections;
mod gauges;
mod groups;
mod groups_again;
mod groups_numbers;
mod groups_stops;
mod headers;
mod headers_multi;
mod headers_states;
mod headers_stops;
mod headers_stops_b3;
mod joined;
mod long;
mod losses;
mod reports;
mod requests;
mod servings;
mod sizes;
mod spans;
mod spans_stops;
mod there_and_back;
mod to_groups;
mod to_spans;
mod trace;

use crate::bench::{Bench, Fails, WHOLE};
use row_tables::{Row, rows};
use std::alloc::Global;
use std::process::Abort;
use std::test::Fail;

const CONVERSIONS: [&str; 13] = [
    requests::WRITTEN,
    batches::PROCESSES,
    batches::TAGS,
    batches_of_requests::WRITTEN,
    compact::WRITTEN,
    to_spans::WRITTEN,
    spans::WRITTEN,
    spans::TAGS,
    to_groups::WRITTEN,
    groups::WRITTEN,
    groups_again::MEMBERS,
    groups_again::VALUES,
    groups_numbers::WRITTEN,
];

// Of attributes under keys that a form reserves.
const ESCAPED: [&str; 6] = [
    escaped_batches::TO_BATCHES,
    escaped_batches::OF_BATCHES,
    escaped_batches::KEYS,
    escaped_spans::TO_SPANS,
    escaped_spans::OF_SPANS,
    escaped_spans::KEYS,
];

const STOPS: [&str; 8] = [
    requests::STOPPED,
    batches_of_requests::FAULTS,
    batches_stops::STOPPED,
    compact_stops::STOPPED,
    spans_stops::FAULTS,
    spans_stops::CAUSES,
    groups_stops::FAULTS,
    groups_stops::CAUSES,
];

const HEADERS: [&str; 12] = [
    headers::TRACEPARENTS,
    headers::B3,
    headers::UBER,
    headers::LINES,
    headers_multi::MULTI,
    headers_states::STATES,
    headers_states::DROPPED,
    headers_stops::LINES,
    headers_stops::TRACEPARENTS,
    headers_stops::UBER,
    headers_stops_b3::B3,
    headers_stops_b3::MULTI,
];

// Inputs of several units, reports and losses.
const REPORTS: [&str; 7] = [
    joined::JOINED,
    reports::SHOWN,
    reports::CHECKED,
    losses::TO_JAEGER,
    losses::TO_ZIPKIN,
    losses::JOINED,
    losses::TOLD,
];

const DEVICES: [&str; 5] = [
    devices::CASES,
    devices::HEADER_CASES,
    devices::REPORT_CASES,
    devices::LOSS_CASES,
    gauges::GAUGES,
];

const KEYS: [&str; 17] = [
    "run",
    "last-word",
    "input",
    "input-hex",
    "input-lines",
    "input-times",
    "input-fails",
    "output",
    "output-hex",
    "output-lines",
    "output-times",
    "output-fails",
    "notes-fail",
    "stops",
    "status",
    "note",
    "note-lines",
];

// The most bytes that a source gives at a call.
const CUTS: [usize; 3] = [1, 7, WHOLE];

fn fails_told(row: &Row) -> Result<Fails, Fail> {
    Ok(Fails {
        input: row.number_if_any("input-fails")?,
        output: row.number_if_any("output-fails")?,
        notes: row.number_if_any("notes-fail")?,
    })
}

// Runs a row on pieces of each size, and looks at each answer. Where it tells no output or no note, there is none.
fn expect_row(
    rt: &impl Abort,
    alloc: Global,
    bench: &mut Bench,
    row: &Row,
    cuts: &[usize],
) -> Result<(), Fail> {
    row.expect_keys(&KEYS)?;
    bench.read_words(rt, alloc, row)?;
    bench.read_input(alloc, row, "input")?;
    bench.read_output(alloc, row, "output")?;
    bench.read_ending(alloc, row)?;
    let fails = fails_told(row)?;
    bench.expect_cuts(rt, alloc, row.name(), cuts, fails);
    Ok(())
}

fn expect_rows(rt: &impl Abort, alloc: Global, rows: &[Row], cuts: &[usize]) -> Result<(), Fail> {
    let mut bench = Bench::new(rt, alloc);
    for row in rows {
        expect_row(rt, alloc, &mut bench, row, cuts)?;
    }
    Ok(())
}

fn expect_table(
    rt: &impl Abort,
    alloc: Global,
    table: &'static str,
    cuts: &[usize],
) -> Result<(), Fail> {
    let rows = rows(alloc, table)?;
    expect_rows(rt, alloc, rows.as_slice(), cuts)
}

fn expect_tables(
    rt: &impl Abort,
    alloc: Global,
    tables: &[&'static str],
    cuts: &[usize],
) -> Result<(), Fail> {
    for table in tables {
        expect_table(rt, alloc, *table, cuts)?;
    }
    Ok(())
}

#[test]
fn converts(rt: HostRuntime) -> Result<(), Fail> {
    expect_tables(&rt, rt.alloc(), &CONVERSIONS, &CUTS)
}

#[test]
fn converts_escaped_keys(rt: HostRuntime) -> Result<(), Fail> {
    expect_tables(&rt, rt.alloc(), &ESCAPED, &CUTS)
}

#[test]
fn stops(rt: HostRuntime) -> Result<(), Fail> {
    expect_tables(&rt, rt.alloc(), &STOPS, &CUTS)
}

#[test]
fn reads_headers(rt: HostRuntime) -> Result<(), Fail> {
    expect_tables(&rt, rt.alloc(), &HEADERS, &CUTS)
}

#[test]
fn reports_and_tells_losses(rt: HostRuntime) -> Result<(), Fail> {
    expect_tables(&rt, rt.alloc(), &REPORTS, &CUTS)
}

#[test]
fn answers_of_devices(rt: HostRuntime) -> Result<(), Fail> {
    expect_tables(&rt, rt.alloc(), &DEVICES, &[WHOLE])
}

#[test]
fn goes_through_long_inputs(rt: HostRuntime) -> Result<(), Fail> {
    expect_table(&rt, rt.alloc(), long::LONG, &[WHOLE])
}
