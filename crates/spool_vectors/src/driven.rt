//! Orders with their replies, on both keepers.
ghost use Rattle.std.specs.Prelude.{◌≤◌, IfOk};
ghost use Rattle.span_spool.specs.Spools.{most_room};

use crate::told::{append_orders, are_left, are_replies, leave};
use row_tables::{Row, rows};
use span_io::Items;
use span_spool::{Halted, Keeper, MemKeeper, Order, Reply, SqlKeeper, drive};
use std::alloc::Global;
use std::process::Abort;
use std::test::Fail;

// Of each row the room of a keeper, and orders. Behind `=>` stands what is answered: a number under which a body is kept, a
// copy of the first row (its number, form and bytes), whether the first row is dropped or stays. `left` are the rows that are
// left.
const DRIVEN: &str = r"
room for two
room 2
keep zipkin-json [] => kept 1
keep zipkin-json [1] => kept 2
keep zipkin-json [2] => full
first => 1 zipkin-json []
drop 2 => stays
drop 1 => dropped
first => 2 zipkin-json [1]
left 2 zipkin-json [1]

room for one
room 1
keep otlp-proto a => kept 1
keep otlp-proto b => full
drop 1 => dropped
keep otlp-proto c => kept 2
keep otlp-proto d => full
first => 2 otlp-proto c
left 2 otlp-proto c

nothing kept
room 1000000
first => none
drop 0 => stays
drop 1 => stays
drop 18446744073709551615 => stays

the number before, behind, 0 and its own
room 3
keep otlp-proto a => kept 1
keep otlp-proto b => kept 2
keep otlp-proto c => kept 3
drop 1 => dropped
drop 1 => stays
drop 3 => stays
drop 0 => stays
drop 9223372036854775807 => stays
drop 9223372036854775808 => stays
drop 2 => dropped
drop 3 => dropped
drop 4 => stays
first => none

no number comes twice
room 1
keep otlp-proto a => kept 1
drop 1 => dropped
keep otlp-proto b => kept 2
drop 1 => stays
drop 2 => dropped
keep otlp-proto c => kept 3
left 3 otlp-proto c

each form, and a body without bytes
room 5
keep otlp-proto => kept 1
keep otlp-json {} => kept 2
keep jaeger-binary a => kept 3
keep jaeger-compact a => kept 4
keep zipkin-json [] => kept 5
first => 1 otlp-proto
drop 1 => dropped
first => 2 otlp-json {}
drop 2 => dropped
first => 3 jaeger-binary a
drop 3 => dropped
first => 4 jaeger-compact a
left 4 jaeger-compact a
left 5 zipkin-json []

more come than leave
room 4
keep otlp-proto a => kept 1
keep otlp-proto b => kept 2
keep otlp-proto c => kept 3
drop 1 => dropped
drop 2 => dropped
keep otlp-proto d => kept 4
keep otlp-proto e => kept 5
drop 3 => dropped
keep otlp-proto f => kept 6
keep otlp-proto g => kept 7
keep otlp-proto h => full
left 4 otlp-proto d
left 5 otlp-proto e
left 6 otlp-proto f
left 7 otlp-proto g
";

// The same, with the call that fails. The order that makes it and those behind it have no answer.
const FAILING: &str = r"
the second call, with one row
room 2
fails 2
keep zipkin-json [] => kept 1
drop 1
left 1 zipkin-json []

the first call
room 2
fails 1
keep zipkin-json []
keep zipkin-json [1]
first
drop 1

the second call
room 2
fails 2
keep zipkin-json [] => kept 1
keep zipkin-json [1]
first
drop 1
left 1 zipkin-json []

the third call
room 2
fails 3
keep zipkin-json [] => kept 1
keep zipkin-json [1] => kept 2
first
drop 1
left 1 zipkin-json []
left 2 zipkin-json [1]

the fourth call
room 2
fails 4
keep zipkin-json [] => kept 1
keep zipkin-json [1] => kept 2
first => 1 zipkin-json []
drop 1
left 1 zipkin-json []
left 2 zipkin-json [1]

the sixth call, behind a row that left
room 2
fails 6
keep zipkin-json [] => kept 1
keep zipkin-json [1] => kept 2
first => 1 zipkin-json []
drop 1 => dropped
keep zipkin-json [2] => kept 3
keep zipkin-json [3]
first
left 2 zipkin-json [1]
left 3 zipkin-json [2]

a keep for which there is no room
room 1
fails 2
keep zipkin-json [] => kept 1
keep zipkin-json [1]
left 1 zipkin-json []

a drop of another number
room 1
fails 2
keep zipkin-json [] => kept 1
drop 2
left 1 zipkin-json []

an empty spool
room 1
fails 1
first
";

const KEYS: [&str; 6] = ["room", "fails", "keep", "first", "drop", "left"];

// The room that a row tells, which is room for a keeper.
fn room_of(row: &Row) -> Result<u64, Fail>
    ensures { IfOk result (λ room. (1 ≤ room) × (room ≤ most_room)) }
{
    let room = row.number("room")?;
    if room < 1 || room > 1_000_000 {
        return Err(row.fail("no room", "room"));
    }
    Ok(room)
}

// A list of the call that fails, if one does.
fn calls_of(alloc: Global, row: &Row) -> Result<Items<u64>, Fail> {
    let mut calls = Vec::new(alloc);
    if let Some(call) = row.number_if_any("fails")? {
        calls.push(call)?;
    }
    Ok(Items::from_vec(calls))
}

// Whether that is how the orders of a row end: behind the call that fails, if one does.
fn is_end(row: &Row, end: &Result<Items<Reply>, Halted>, fails: Option<u64>) -> bool {
    match (end, fails) {
        (Ok(replies), None) => are_replies(row, replies.as_slice()),
        (Err(halted), Some(call)) => {
            halted.failed
                && call.checked_sub(1) == Some(halted.done)
                && are_replies(row, halted.replies.as_slice())
        }
        _ => false,
    }
}

// Carries out the orders of a row.
fn expect_end<K: Keeper>(
    rt: &impl Abort,
    alloc: Global,
    row: &Row,
    orders: &Items<Order>,
    keeper: &mut K,
) -> Result<(), Fail> {
    let fails = row.number_if_any("fails")?;
    let name = row.name();
    assert!(rt;
        is_end(row, &drive(alloc, keeper, orders), fails),
        "replies of {name}"
    );
    Ok(())
}

fn expect_in_memory(
    rt: &impl Abort,
    alloc: Global,
    row: &Row,
    orders: &Items<Order>,
) -> Result<(), Fail> {
    let name = row.name();
    let mut keeper = MemKeeper::new(alloc, room_of(row)?, calls_of(alloc, row)?);
    expect_end(rt, alloc, row, orders, &mut keeper)?;
    assert!(rt;
        are_left(row, keeper.rows()) && leave(row, &mut keeper),
        "rows of {name}"
    );
    Ok(())
}

fn expect_in_table(
    rt: &impl Abort,
    alloc: Global,
    row: &Row,
    orders: &Items<Order>,
) -> Result<(), Fail> {
    let name = row.name();
    let mut keeper = SqlKeeper::new(alloc, room_of(row)?);
    expect_end(rt, alloc, row, orders, &mut keeper)?;
    assert!(rt; leave(row, &mut keeper), "rows of {name}");
    Ok(())
}

fn orders_of(alloc: Global, row: &Row) -> Result<Items<Order>, Fail> {
    row.expect_keys(&KEYS)?;
    let mut orders = Items::new(alloc);
    append_orders(alloc, row, &mut orders)?;
    Ok(orders)
}

#[test]
fn keeps_in_memory(rt: HostRuntime) -> Result<(), Fail> {
    for row in &rows(rt.alloc(), DRIVEN)? {
        expect_in_memory(&rt, rt.alloc(), row, &orders_of(rt.alloc(), row)?)?;
    }
    Ok(())
}

#[test]
fn stops_where_a_call_fails(rt: HostRuntime) -> Result<(), Fail> {
    for row in &rows(rt.alloc(), FAILING)? {
        expect_in_memory(&rt, rt.alloc(), row, &orders_of(rt.alloc(), row)?)?;
    }
    Ok(())
}

#[test]
fn keeps_in_a_table(rt: HostRuntime) -> Result<(), Fail> {
    for row in &rows(rt.alloc(), DRIVEN)? {
        expect_in_table(&rt, rt.alloc(), row, &orders_of(rt.alloc(), row)?)?;
    }
    Ok(())
}
