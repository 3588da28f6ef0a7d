//! Inputs that break off: each front of a row's input is run as a whole one.
use crate::devices::{Case, Wanted, sink};
use crate::rows::{batches, documents, requests};
use row_tables::row_named;
use std::alloc::Global;
use std::process::Abort;
use std::test::Fail;

// The batch of a client as a request.
const CLIENT: &str = r"
the batch of a client to a request
forms jaeger-compact otlp-proto
frame 154 @CLIENT_COMPACT
output 0a97010a3b0a100a08686f73746e616d6512040a0268310a100a026970120a0a0831302e302e302e310a150a0c736572766963652e6e616d6512050a03
 617069125812560a100000000000000000000000000000000512080000000000000007220800000000000000052a0367657430023900ca9a3b0000000041
 909a9e3b000000005a0f09a0509c3b000000001204646f6e65850101000000
whole 1 1
";

// Rows of units that write something each, by their tables and names.
const UNITS: [(&str, &str); 8] = [
    (requests::REQUESTS, "a request as an SDK writes it"),
    (requests::REQUESTS, "two groups"),
    (requests::REQUESTS, "empty groups"),
    (batches::SDK, "the batch of an SDK to a request"),
    (
        batches::SDK,
        "the batch of an SDK in the compact protocol to a request",
    ),
    (CLIENT, "the batch of a client to a request"),
    (batches::BATCHES, "two batches of the binary protocol again"),
    (
        batches::BATCHES,
        "two batches of the compact protocol again",
    ),
];

// What is noted of the unit behind so many that is cut.
const CUT: [&str; 3] = [
    "unit 1: cause 1 Truncated\n",
    "unit 2: cause 1 Truncated\n",
    "unit 3: cause 1 Truncated\n",
];

// Runs the first bytes of an input as a whole one.
fn expect_front(
    rt: &impl Abort,
    alloc: Global,
    case: &mut Case,
    size: usize,
    wanted: Wanted,
) -> Result<(), Fail> {
    let input = case.front(alloc, size)?;
    let output = sink(alloc, 1_000, 65_536, 0)?;
    let notes = sink(alloc, 100, 65_536, 0)?;
    case.expect(rt, alloc, input, output, notes, wanted);
    Ok(())
}

// Where so many bytes are written of a front, and so many units were written before it: a front that ends with a unit is
// whole, and of another the last unit is cut.
fn wanted(written: usize, ended: bool, units: usize) -> Wanted {
    match CUT.get(units) {
        Some(note) if !ended => Wanted {
            status: 3,
            written,
            note,
        },
        _ => Wanted {
            status: 0,
            written,
            note: "",
        },
    }
}

// Runs each front of a row, the empty one and the whole input among them.
fn expect_fronts(rt: &impl Abort, alloc: Global, case: &mut Case) -> Result<(), Fail> {
    let mut units = 0_usize;
    let mut before = 0;
    for size in 0..case.worked.input.len().saturating_add(1) {
        let written = case.worked.written(size);
        let ended = size == 0 || written > before;
        expect_front(rt, alloc, case, size, wanted(written, ended, units))?;
        if written > before {
            units = units.saturating_add(1);
        }
        before = written;
    }
    Ok(())
}

// The units that ended are written, and the one that didn't is cut. A front of no bytes is an input of no unit.
#[test]
fn writes_the_units_of_a_front(rt: HostRuntime) -> Result<(), Fail> {
    for (table, name) in &UNITS {
        let row = row_named(rt.alloc(), table, name)?;
        let mut case = Case::read(rt.alloc(), &row)?;
        expect_fronts(&rt, rt.alloc(), &mut case)?;
    }
    Ok(())
}

// Texts in JSON, of which no front is one.
const IN_JSON: [&str; 2] = ["groups to a request", "spans of a client"];

const NO_JSON: Wanted = Wanted {
    status: 3,
    written: 0,
    note: "unit 0: cause 10 BadJson\n",
};

#[test]
fn refuses_the_front_of_a_document(rt: HostRuntime) -> Result<(), Fail> {
    for name in &IN_JSON {
        let row = row_named(rt.alloc(), documents::DOCUMENTS, name)?;
        let mut case = Case::read(rt.alloc(), &row)?;
        for size in 0..case.worked.input.len() {
            expect_front(&rt, rt.alloc(), &mut case, size, NO_JSON)?;
        }
    }
    Ok(())
}
