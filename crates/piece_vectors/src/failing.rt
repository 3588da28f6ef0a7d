//! Runs over devices of which each call fails in turn: a source that gives 10 bytes a call, an output that takes 3 bytes a
//! call, and notes that take nothing. Each tells how much of the text stands then.
use crate::devices::{Case, Wanted, sink, source};
use row_tables::row_named;
use std::alloc::Global;
use std::process::Abort;
use std::test::Fail;

// 111 bytes, of which 247 are written.
const GROUPS: &str = r#"
three groups
forms otlp-proto zipkin-json
frame 82 @ONE_SPAN
frame 164 @ONE_SPAN
frame 246 @ONE_SPAN
output [{"id":"0000000000000002","name":"a","traceId":"00000000000000000000000000000001"},{"id":"0000000000000002","name":"a",
 "traceId":"00000000000000000000000000000001"},{"id":"0000000000000002","name":"a",
 "traceId":"00000000000000000000000000000001"}]
whole 3 3
"#;

fn three_groups(alloc: Global) -> Result<Case, Fail> {
    Case::read(alloc, &row_named(alloc, GROUPS, "three groups")?)
}

// The bytes of a note that is taken, and of one of which nothing is, since each call fails.
const NOTES: [usize; 2] = [100, 0];

const WHOLE: Wanted = Wanted {
    status: 0,
    written: 247,
    note: "",
};

// What is wanted where the notes have so much room.
fn noted(wanted: Wanted, room: usize) -> Wanted {
    match room {
        0 => Wanted { note: "", ..wanted },
        _ => wanted,
    }
}

// Twelve reads give bytes, and the one behind them tells the end.
const READS: u64 = 13;

// What is wanted where a read fails: the units in the bytes that came before are written.
fn behind_read(case: &Case, call: u64) -> Wanted {
    if call > READS {
        return WHOLE;
    }
    let came = call.saturating_sub(1).saturating_mul(10) as usize;
    Wanted {
        status: 5,
        written: case.worked.written(came),
        note: "input failed\n",
    }
}

// Runs over a source that fails at a call.
fn expect_read(
    rt: &impl Abort,
    alloc: Global,
    case: &mut Case,
    call: u64,
    room: usize,
) -> Result<(), Fail> {
    let wanted = noted(behind_read(case, call), room);
    let input = source(alloc, case.worked.input.as_slice(), 10, call)?;
    let output = sink(alloc, 247, 3, 0)?;
    let notes = sink(alloc, room, 65_536, 0)?;
    case.expect(rt, alloc, input, output, notes, wanted);
    Ok(())
}

// The last read that fails is one that doesn't come.
#[test]
fn fails_with_each_read(rt: HostRuntime) -> Result<(), Fail> {
    let mut case = three_groups(rt.alloc())?;
    for room in &NOTES {
        for call in 1..READS.saturating_add(2) {
            expect_read(&rt, rt.alloc(), &mut case, call, *room)?;
        }
    }
    Ok(())
}

// The text of a unit is written by 28 calls, of which the last takes one byte; what closes the text, by one.
const WRITES: usize = 85;

// How many bytes so many writes take.
fn taken(calls: usize) -> usize {
    let units = (calls / 28).saturating_mul(82);
    let more = (calls % 28).saturating_mul(3).min(82);
    units.saturating_add(more).min(247)
}

// What is wanted behind so many writes.
fn behind_writes(calls: usize) -> Wanted {
    if calls >= WRITES {
        return WHOLE;
    }
    Wanted {
        status: 6,
        written: taken(calls),
        note: "output failed\n",
    }
}

// Runs over an output that takes so many calls, since the one behind them fails or its room ends there.
fn expect_writes(
    rt: &impl Abort,
    alloc: Global,
    case: &mut Case,
    calls: usize,
    (room, fails, notes): (usize, u64, usize),
) -> Result<(), Fail> {
    let wanted = noted(behind_writes(calls), notes);
    let input = source(alloc, case.worked.input.as_slice(), 10, 0)?;
    let output = sink(alloc, room, 3, fails)?;
    let notes = sink(alloc, notes, 65_536, 0)?;
    case.expect(rt, alloc, input, output, notes, wanted);
    Ok(())
}

#[test]
fn fails_with_each_write(rt: HostRuntime) -> Result<(), Fail> {
    let mut case = three_groups(rt.alloc())?;
    for room in &NOTES {
        for calls in 0..WRITES.saturating_add(1) {
            let fails = (calls as u64).saturating_add(1);
            expect_writes(&rt, rt.alloc(), &mut case, calls, (247, fails, *room))?;
        }
    }
    Ok(())
}

// Where an output has less room than a call would take, that call fails, though a part would fit.
#[test]
fn fails_where_its_room_ends(rt: HostRuntime) -> Result<(), Fail> {
    let mut case = three_groups(rt.alloc())?;
    let mut calls = 0_usize;
    for room in 0..248_usize {
        if taken(calls.saturating_add(1)) <= room && calls < WRITES {
            calls = calls.saturating_add(1);
        }
        expect_writes(&rt, rt.alloc(), &mut case, calls, (room, 0, 100))?;
    }
    Ok(())
}
