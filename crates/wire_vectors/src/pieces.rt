//! Frames whose bytes come in pieces, cut at every byte.
use crate::texts::{bytes_of, is_count, is_step, lines, sides, word_of};
use crate::wire;
use proto_wire::UnitScanner;
use span_io::{Blob, Cause, OutOfMemory, Scan, Step};
use std::alloc::Global;
use std::test::Fail;
use thrift_binary::Binary;
use thrift_compact::Compact;
use thrift_core::StructScanner;

// Whether a refusal stays, whatever comes.
fn stays<S: Scan>(scanner: &mut S, piece: &[u8], step: Step) -> bool {
    scanner.push(piece) == step && scanner.push(b"") == step && scanner.push(piece) == step
}

// Whether two pieces give this step, which is counted from where the first begins.
fn gives<S: Scan + Drop>(limit: usize, first: &[u8], second: &[u8], wanted: Step) -> bool {
    let mut scanner = S::new(limit);
    let (step, size) = match scanner.push(first) {
        Step::Need => (scanner.push(second), first.len()),
        step => (step, 0),
    };
    match step {
        Step::Need => wanted == step,
        Step::Unit(n) => wanted == Step::Unit(size.saturating_add(n)),
        Step::Refused(_) => wanted == step && stays(&mut scanner, second, step),
    }
}

// Where a text is cut so that its two pieces give another step than this.
fn other_cut<S: Scan + Drop>(limit: usize, text: &[u8], step: Step) -> Option<usize> {
    for cut in 0..text.len() + 1 {
        let (first, second) = text.split_at(cut);
        if !gives::<S>(limit, first, second, step) {
            return Some(cut);
        }
    }
    None
}

// Where a text is cut so that more isn't needed behind the first piece, though the last byte hasn't come.
fn early_cut<S: Scan + Drop>(limit: usize, text: &[u8]) -> Option<usize> {
    for cut in 0..text.len() {
        let (first, _) = text.split_at(cut);
        if S::new(limit).push(first) != Step::Need {
            return Some(cut);
        }
    }
    None
}

fn whole_step<S: Scan + Drop>(limit: usize, text: &[u8]) -> Step {
    S::new(limit).push(text)
}

// Whether a frame of exactly the limit is found, and the next one behind it; empty pieces change nothing.
fn finds_the_next<S: Scan + Drop>(text: &[u8]) -> bool {
    if text.is_empty() {
        return false;
    }
    let (first, rest) = text.split_at(1);
    let mut scanner = S::new(text.len());
    for _ in 0..3_u32 {
        let needed = scanner.push(b"") == Step::Need
            && scanner.push(first) == Step::Need
            && scanner.push(b"") == Step::Need;
        if !needed || scanner.push(rest) != Step::Unit(rest.len()) {
            return false;
        }
    }
    true
}

// So many heads of a field that holds a struct, each in the one before, and what stands in the last. Structs nest to level 32.
fn nested(alloc: Global, head: &[u8], many: u32, inner: &[u8]) -> Result<Blob, OutOfMemory> {
    let mut text = Blob::new(alloc);
    for _ in 0..many {
        text.append(head)?;
    }
    text.append(inner)?;
    Ok(text)
}

const BINARY_FRAMES: &str = "
9 => need
9 0005 => unit 1
99 0b0001ffffffff => BadSize
99 0b000180 => BadSize
99 05 => BadWire
99 0f00010c7fffffff000000 => need
11 0b000100000003 'ab' => need
11 0b000100000005 'ab' => UnitTooLong
11 0b000100000003 'abc' 0000 => unit 11
10 0b000100000003 'abc' 00 => UnitTooLong
200 @BATCH => unit 103
103 @BATCH => unit 103
999 @BATCH => unit 103
";

// The last two claim a length that ends at the limit, and one that ends a byte beyond it.
const BINARY_REFUSED: &str = "
99 01 => BadWire
99 0f0001ff000001 => BadWire
99 0d0001ff0c00000001 => BadWire
99 0b000180 => BadSize
99 0f00010b80 => BadSize
99 0d00010b0b80 => BadSize
7 0a000100000000 => UnitTooLong
10 0b000100000003 'abc' => UnitTooLong
10 0b000100000004 => UnitTooLong
";

const COMPACT_FRAMES: &str = "
9 => need
9 0005 => unit 1
9 111200 => unit 3
99 1d => BadWire
99 188080808008 => BadSize
99 19fcffff => need
6 1803 'ab' => need
6 1805 'ab' => UnitTooLong
6 1803 'abc' 0000 => unit 6
5 1803 'abc' 00 => UnitTooLong
";

const COMPACT_REFUSED: &str = "
99 1d => BadWire
99 10 => BadWire
99 05808004 => BadWire
99 191d => BadWire
99 19fd01 => BadWire
99 1b03dc => BadWire
99 @OVERLONG => BadVarint
99 148080808010 => BadVarint
99 158080808010 => BadVarint
99 16ffffffffffffffffff02 => BadVarint
99 188080808008 => BadSize
99 188080808010 => BadSize
99 19f88080808008 => BadSize
99 1b8080808008 => BadSize
3 168080 => UnitTooLong
5 1803 'abc' => UnitTooLong
5 1804 => UnitTooLong
";

// The last four claim lengths that end at the limit, in their shortest spelling and in one of a byte more, and then the same a
// byte beyond it.
const RECORDS: &str = "
64 => need
64 0a => need
64 0a0261 => need
64 0a0161 => unit 3
64 0a0161ff => unit 3
64 0b => BadWire
64 ffffffffffffffffff02 => BadVarint
3 0a0161 => unit 3
3 0a01 'aaaa' => unit 3
3 0a02 => UnitTooLong
3 0a02 'aa' => UnitTooLong
2 0880 => UnitTooLong
1 08 => UnitTooLong
1 0b => BadWire
1 8b00 => UnitTooLong
2 8b00 => BadWire
9 ffffffffffffffffff02 => UnitTooLong
64 0a80808080808080808001 => UnitTooLong
64 0affffffffffffffffff01 => UnitTooLong
9 0900000000000000 => need
5 0a03 'abc' => unit 5
6 0a8300 'abc' => unit 6
5 0a04 'abcd' => UnitTooLong
5 0a8300 'abc' => UnitTooLong
";

const RECORDS_REFUSED: &str = "
99 00 => BadWire
99 0b => BadWire
99 0c => BadWire
99 0e => BadWire
99 0f => BadWire
99 8080808010 => BadWire
99 ffffffffffffffffff02 => BadVarint
99 0880808080808080808002 => BadVarint
99 8a0081808080808080808080 => BadVarint
2 0880 => UnitTooLong
5 0a04 => UnitTooLong
5 0a8300 => UnitTooLong
";

/// What finds frames.
#[derive(Clone, Copy)]
enum Frames {
    Binary,
    Compact,
    Records,
}

impl Frames {
    fn whole_step(self, limit: usize, text: &[u8]) -> Step {
        match self {
            Frames::Binary => whole_step::<StructScanner<Binary>>(limit, text),
            Frames::Compact => whole_step::<StructScanner<Compact>>(limit, text),
            Frames::Records => whole_step::<UnitScanner>(limit, text),
        }
    }

    fn other_cut(self, limit: usize, text: &[u8], step: Step) -> Option<usize> {
        match self {
            Frames::Binary => other_cut::<StructScanner<Binary>>(limit, text, step),
            Frames::Compact => other_cut::<StructScanner<Compact>>(limit, text, step),
            Frames::Records => other_cut::<UnitScanner>(limit, text, step),
        }
    }

    fn early_cut(self, limit: usize, text: &[u8]) -> Option<usize> {
        match self {
            Frames::Binary => early_cut::<StructScanner<Binary>>(limit, text),
            Frames::Compact => early_cut::<StructScanner<Compact>>(limit, text),
            Frames::Records => early_cut::<UnitScanner>(limit, text),
        }
    }

    fn finds_the_next(self, text: &[u8]) -> bool {
        match self {
            Frames::Binary => finds_the_next::<StructScanner<Binary>>(text),
            Frames::Compact => finds_the_next::<StructScanner<Compact>>(text),
            Frames::Records => finds_the_next::<UnitScanner>(text),
        }
    }
}

// What a row tells of the first step over its text.
#[derive(Clone, Copy)]
enum Told {
    // The step, with the limit in front of the text.
    Step,
    // A step that the last byte brings, wherever the text is cut before.
    LastByte,
    // A record in its shortest spelling.
    Shortest,
    // What a text begins with that is a record, or why it isn't.
    Read,
}

impl Told {
    // The limit and the bytes in words.
    fn given(self, text: &str) -> Option<(usize, &str)> {
        match self {
            Told::Step | Told::LastByte => {
                let (limit, rest) = word_of(text);
                Some((limit.parse::<usize>().ok()?, rest))
            }
            Told::Shortest | Told::Read => Some((99, text)),
        }
    }

    fn is_step(self, told: &str, step: Step, size: usize) -> bool {
        match self {
            Told::Step | Told::LastByte => is_step(told, step),
            Told::Shortest => step == Step::Unit(size),
            Told::Read => begins_so(told, step),
        }
    }
}

fn begins_so(told: &str, step: Step) -> bool {
    let (place, what) = word_of(told);
    match step {
        Step::Need => what == "Truncated",
        Step::Unit(size) => size != 0 && is_count(place, size as u64),
        Step::Refused(cause) => cause != Cause::Truncated && what == cause.name(),
    }
}

// Where the text of a row is cut so that not the step that the row tells comes.
fn wrong_cut(frames: Frames, told: Told, limit: usize, text: &[u8], wanted: &str) -> Option<usize> {
    let size = text.len();
    let limit = match told {
        Told::Shortest => size,
        _ => limit,
    };
    let step = frames.whole_step(limit, text);
    if !told.is_step(wanted, step, size) {
        return Some(size);
    }
    match (told, frames.early_cut(limit, text)) {
        (Told::LastByte, Some(cut)) => Some(cut),
        _ => frames.other_cut(limit, text, step),
    }
}

fn cuts_row(alloc: Global, frames: Frames, told: Told, row: &str) -> Result<Option<usize>, Fail> {
    let Some((given, wanted)) = sides(row) else {
        return Ok(Some(0));
    };
    let Some((limit, spelled)) = told.given(given) else {
        return Ok(Some(0));
    };
    let text = bytes_of(alloc, spelled)?;
    Ok(wrong_cut(frames, told, limit, text.as_slice(), wanted))
}

fn cuts_rows(alloc: Global, frames: Frames, told: Told, table: &'static str) -> Result<(), Fail> {
    for row in lines(table) {
        if let Some(cut) = cuts_row(alloc, frames, told, row)? {
            return Err(Fail::new(format_args!("{row} cut at {cut}")));
        }
    }
    Ok(())
}

const TABLES: [(Frames, Told, &str); 8] = [
    (Frames::Binary, Told::Step, BINARY_FRAMES),
    (Frames::Binary, Told::LastByte, BINARY_REFUSED),
    (Frames::Compact, Told::Step, COMPACT_FRAMES),
    (Frames::Compact, Told::LastByte, COMPACT_REFUSED),
    (Frames::Records, Told::Step, RECORDS),
    (Frames::Records, Told::LastByte, RECORDS_REFUSED),
    (Frames::Records, Told::Shortest, wire::SHORTEST),
    (Frames::Records, Told::Read, wire::READ),
];

#[test]
fn cuts_texts(rt: HostRuntime) -> Result<(), Fail> {
    for (frames, told, table) in &TABLES {
        cuts_rows(rt.alloc(), *frames, *told, table)?;
    }
    Ok(())
}

// The head of a field that holds a struct, how many stand in each other, and what is too deep in the last.
const DEEP: [(Frames, &[u8], u32, &[u8]); 4] = [
    (Frames::Binary, b"\x0c\0\x01", 31, b"\x0c"),
    (
        Frames::Binary,
        b"\x0c\0\x01",
        30,
        b"\x0f\0\x01\x0c\0\0\0\x01",
    ),
    (Frames::Compact, b"\x1c", 31, b"\x1c"),
    (Frames::Compact, b"\x1c", 30, b"\x19\x1c"),
];

#[test]
fn refuses_what_is_too_deep(rt: HostRuntime) -> Result<(), Fail> {
    for (frames, head, many, inner) in &DEEP {
        let text = nested(rt.alloc(), head, *many, inner)?;
        let cut = wrong_cut(*frames, Told::LastByte, 999, text.as_slice(), "TooDeep");
        assert!(rt; cut == None, "{many} around {inner:?}");
    }
    Ok(())
}

#[test]
fn finds_frames_behind_frames(rt: HostRuntime) -> Result<(), Fail> {
    let batch = bytes_of(rt.alloc(), "@BATCH")?;
    assert!(rt; Frames::Binary.finds_the_next(batch.as_slice()));
    assert!(rt; Frames::Compact.finds_the_next(b"\x18\x03abc\0"));
    assert!(rt; Frames::Records.finds_the_next(b"\x12\x07testing"));
    Ok(())
}
