//! Conversions by a converter and in one call: limits of their own, long texts, and what stays behind a refusal.
ghost use Rattle.std.specs.Prelude.{◌≢◌, true, IfOk, IfSome};
ghost use Rattle.span_convert.specs.Converters.{has_ended};
ghost use Rattle.span_io.specs.Limits.{AreLimits};

use crate::bench::sink;
use crate::told::append_bytes;
use row_tables::texts::ONE_SPAN;
use row_tables::{Row, rows};
use span_convert::{Bad, Converter, Stop, Tally, Why, Written, convert_all};
use span_io::{Blob, Cause, Form, Limits, MemSink, Refusal};
use std::alloc::Global;
use std::process::Abort;
use std::test::Fail;

const TO_REQUEST: Written = Written::Form(Form::OtlpProto);

// A refusal that is told: its unit, and the number of its cause.
#[derive(Clone, Copy, PartialEq)]
struct Refused {
    unit: u64,
    cause: u64,
}

impl Refused {
    fn of(refusal: &Refusal) -> Refused {
        Refused {
            unit: refusal.unit,
            cause: u64::from(refusal.cause.number()),
        }
    }

    // What a converter tells of the refusal behind which it stopped, if it was one.
    fn by(converter: &Converter) -> Option<Refused> {
        match converter.why() {
            Why::Refusal(refusal) => Some(Refused::of(refusal)),
            Why::Fault(_) | Why::Nothing => None,
        }
    }
}

fn proto_converter(alloc: Global) -> Converter {
    Converter::new(alloc, Form::OtlpProto, TO_REQUEST, &Limits::shipped())
}

fn check_going(rt: &impl Abort, converter: &Converter)
    ensures { has_ended converter.now ≢ true }
{
    assert!(rt; !converter.ended(), "a converter ended");
}

// Feeds a piece to a converter that hasn't ended.
fn fed(
    rt: &impl Abort,
    converter: &mut Converter,
    piece: &[u8],
    out: &mut MemSink,
) -> Result<(), Stop> {
    check_going(rt, converter);
    converter.feed(piece, out)
}

// Ends the input of a converter that hasn't ended.
fn finished(rt: &impl Abort, converter: &mut Converter, out: &mut MemSink) -> Result<Tally, Stop> {
    check_going(rt, converter);
    converter.finish(out)
}

// Feeds an input as one piece, and ends it. Where that stops, the answer is its refusal, if it was one.
fn converted(
    rt: &impl Abort,
    converter: &mut Converter,
    input: &[u8],
    out: &mut MemSink,
) -> Result<Tally, Option<Refused>> {
    if fed(rt, converter, input, out).is_err() {
        return Err(Refused::by(converter));
    }
    match finished(rt, converter, out) {
        Ok(tally) => Ok(tally),
        Err(_) => Err(Refused::by(converter)),
    }
}

// Converts an input to a request in one call.
fn at_once(alloc: Global, from: Form, input: &[u8], limits: &Limits) -> Result<Blob, Bad>
    requires { AreLimits limits.now }
{
    convert_all(alloc, from, Form::OtlpProto, input, limits)
}

// The refusal of an input in one call, if it is refused.
fn refused_at_once(alloc: Global, from: Form, input: &[u8], limits: &Limits) -> Option<Refused>
    requires { AreLimits limits.now }
{
    match at_once(alloc, from, input, limits) {
        Err(Bad::Refused(refusal)) => Some(Refused::of(&refusal)),
        _ => None,
    }
}

// The shipped limits but for the one of this word.
fn limits_of(lowered: Option<&str>) -> Option<Limits>
    ensures { IfSome result AreLimits }
{
    let mut limits = Limits::shipped();
    match lowered {
        None => {}
        Some("unit-64") => limits.unit = 64,
        Some("binary-40") => limits.binary = 40,
        Some("json-100") => limits.json = 100,
        Some("json-2") => limits.json = 2,
        Some(_) => return None,
    }
    Some(limits)
}

// Inputs under limits, what is written of each as a request, and the unit and the cause of its refusal.
const LIMITED: &str = r#"
a request
form otlp-proto
input-hex @ONE_SPAN
output-hex @ONE_SPAN

a request that is cut
form otlp-proto
input-hex @ONE_SPAN
input-hex @CUT_SPAN
output-hex @ONE_SPAN
unit 2
cause 1

a request that is longer than its form may be
form otlp-proto
lowered binary-40
input-hex @ONE_SPAN
input-hex @CUT_SPAN
output-hex @ONE_SPAN
unit 2
cause 17

a unit as long as one may be
form otlp-proto
lowered unit-64
input-hex @LONG_NAME
output-hex @LONG_NAME

a unit that is longer
form otlp-proto
lowered unit-64
input-hex @LONGER_NAME
unit 1
cause 6

a document of groups that is too long
form otlp-json
lowered json-100
input @ONE_GROUP
unit 0
cause 17

a document of spans that is too long
form zipkin-json
lowered json-2
input [ ]
unit 0
cause 17
"#;

const KEYS: [&str; 8] = [
    "form",
    "lowered",
    "input",
    "input-hex",
    "output",
    "output-hex",
    "unit",
    "cause",
];

fn form_told(row: &Row) -> Result<Form, Fail> {
    let word = row.text("form")?;
    match Form::of_word(word.as_bytes()) {
        Some(form) => Ok(form),
        None => Err(row.fail("no form", word)),
    }
}

fn limits_told(row: &Row) -> Result<Limits, Fail>
    ensures { IfOk result AreLimits }
{
    match limits_of(row.text_if_any("lowered")?) {
        Some(limits) => Ok(limits),
        None => Err(row.fail("no limit", "lowered")),
    }
}

// The refusal that a row tells, if it tells one.
fn refusal_told(row: &Row) -> Result<Option<Refused>, Fail> {
    match row.number_if_any("cause")? {
        Some(cause) => Ok(Some(Refused {
            unit: row.number("unit")?,
            cause,
        })),
        None => Ok(None),
    }
}

// Looks at whether refusals and bytes are those that are wanted.
fn expect(
    rt: &impl Abort,
    name: &str,
    given: (Option<Refused>, &[u8]),
    wanted: (Option<Refused>, &[u8]),
) {
    assert!(rt; given.0 == wanted.0, "refusal of {name}");
    assert!(rt; given.1 == wanted.1, "text of {name}");
}

// What is read of the rows: an input, and what is written of it.
#[derive(Drop)]
struct Texts {
    input: Blob,
    output: Blob,
}

fn read_texts(alloc: Global, row: &Row, texts: &mut Texts) -> Result<(), Fail> {
    row.expect_keys(&KEYS)?;
    texts.input.clear();
    texts.output.clear();
    append_bytes(alloc, row, "input", &mut texts.input)?;
    append_bytes(alloc, row, "output", &mut texts.output)
}

fn expect_limited(
    rt: &impl Abort,
    alloc: Global,
    row: &Row,
    texts: &mut Texts,
) -> Result<(), Fail> {
    read_texts(alloc, row, texts)?;
    let form = form_told(row)?;
    let limits = limits_told(row)?;
    let refusal = refusal_told(row)?;
    let input = texts.input.as_slice();
    let output = texts.output.as_slice();
    let mut out = sink(rt, alloc, 100, None);
    let mut converter = Converter::new(alloc, form, TO_REQUEST, &limits);
    let answer = converted(rt, &mut converter, input, &mut out);
    let given = (answer.err().unwrap_or(None), out.bytes());
    expect(rt, row.name(), given, (refusal, output));
    let at_once = refused_at_once(alloc, form, input, &limits);
    expect(rt, row.name(), (at_once, output), (refusal, output));
    Ok(())
}

#[test]
fn keeps_limits(rt: HostRuntime) -> Result<(), Fail> {
    let mut texts = Texts {
        input: Blob::new(rt.alloc()),
        output: Blob::new(rt.alloc()),
    };
    for row in &rows(rt.alloc(), LIMITED)? {
        expect_limited(&rt, rt.alloc(), row, &mut texts)?;
    }
    Ok(())
}

fn digit(n: u32) -> u8 {
    b'0' + (n % 10) as u8
}

// Appends a group whose resource has 1,000 attributes without values, of keys k0000 to k0999, rising or falling.
fn append_keys(rt: &impl Abort, group: &mut Blob, falling: bool) {
    let front = [0x0a, 0xab, 0x46, 0x0a, 0xa8, 0x46].as_slice();
    group.append(front).expect(rt, "front");
    for n in 0..1000_u32 {
        let number = if falling {
            999_u32.saturating_sub(n)
        } else {
            n
        };
        let last = digit(number);
        let key = [
            0x0a,
            7,
            0x0a,
            5,
            b'k',
            b'0',
            digit(number / 100),
            digit(number / 10),
            last,
        ];
        group.append(key.as_slice()).expect(rt, "a key");
    }
}

// The same of one key with 1,000 numbers, the last of which is 103.
fn append_values(rt: &impl Abort, group: &mut Blob) {
    let front = [0x0a, 0xcb, 0x65, 0x0a, 0xc8, 0x65].as_slice();
    group.append(front).expect(rt, "front");
    for n in 0..1000_u32 {
        let number = (n % 128) as u8;
        let pair = [
            0x0a, 11, 0x0a, 5, b'k', b'0', b'0', b'0', b'0', 0x12, 2, 0x18, number,
        ];
        group.append(pair.as_slice()).expect(rt, "a pair");
    }
}

const LAST_VALUE: [u8; 17] = [
    0x0a, 15, 0x0a, 13, 0x0a, 11, 0x0a, 5, b'k', b'0', b'0', b'0', b'0', 0x12, 2, 0x18, 103,
];

// Converts a request to one in one call.
fn expect_request(rt: &impl Abort, alloc: Global, name: &str, input: &[u8], output: &[u8]) {
    let Ok(text) = at_once(alloc, Form::OtlpProto, input, &Limits::shipped()) else {
        panic!(rt; "refused");
    };
    expect(rt, name, (None, text.as_slice()), (None, output));
}

#[test]
fn keeps_the_last_of_equal_keys(rt: HostRuntime) {
    let mut rising = Blob::new(rt.alloc());
    let mut other = Blob::new(rt.alloc());
    append_keys(&rt, &mut rising, false);
    append_keys(&rt, &mut other, true);
    let keys = rising.as_slice();
    expect_request(&rt, rt.alloc(), "rising keys", keys, keys);
    expect_request(&rt, rt.alloc(), "falling keys", other.as_slice(), keys);
    other.clear();
    append_values(&rt, &mut other);
    let last = LAST_VALUE.as_slice();
    expect_request(&rt, rt.alloc(), "one key", other.as_slice(), last);
}

// Appends so many groups of 9,006 bytes each.
fn append_groups(rt: &impl Abort, input: &mut Blob, groups: u32) {
    for _ in 0..groups {
        append_keys(rt, input, false);
    }
}

// Converts the input with an output that fails at a call, and looks at the answer and at how much was written.
fn expect_taken(
    rt: &impl Abort,
    alloc: Global,
    input: &[u8],
    call: u64,
    (units, taken): (u64, usize),
) {
    let mut out = sink(rt, alloc, 150_000, Some(call));
    let mut converter = proto_converter(alloc);
    let answer = converted(rt, &mut converter, input, &mut out);
    let wanted = if units > 0 {
        Ok(Tally { units, spans: 0 })
    } else {
        Err(None)
    };
    assert!(rt; answer == wanted, "call {call}");
    assert!(rt; Some(out.bytes()) == input.get(..taken), "call {call}");
}

// Each eighth group fills the text that is written at once. The output fails at no call, the first or
// the second; then it has what was written before.
#[test]
fn writes_long_texts(rt: HostRuntime) {
    let mut input = Blob::new(rt.alloc());
    append_groups(&rt, &mut input, 16);
    expect_taken(&rt, rt.alloc(), input.as_slice(), 9, (16, 144_096));
    expect_taken(&rt, rt.alloc(), input.as_slice(), 1, (0, 0));
    expect_taken(&rt, rt.alloc(), input.as_slice(), 2, (0, 72_048));
}

// An output that grows to more than 2 ^ 20 bytes.
#[test]
fn grows_with_its_text(rt: HostRuntime) {
    let mut long = Blob::new(rt.alloc());
    append_groups(&rt, &mut long, 120);
    let text = long.as_slice();
    expect_request(&rt, rt.alloc(), "many groups", text, text);
}

// Feeds a piece behind which the converter is stopped.
fn expect_refused(rt: &impl Abort, converter: &mut Converter, piece: &[u8], out: &mut MemSink) {
    let fed = fed(rt, converter, piece, out);
    assert!(rt; fed == Err(Stop::Refused), "fed");
    let refusal = Refused {
        unit: 2,
        cause: u64::from(Cause::BadWire.number()),
    };
    let given = (Refused::by(converter), out.bytes());
    expect(rt, "a stop", given, (Some(refusal), [0x0a, 0].as_slice()));
}

// Behind a refusal each call answers the same, and writes nothing.
#[test]
fn stays_stopped(rt: HostRuntime) {
    let mut out = sink(&rt, rt.alloc(), 40, None);
    let mut converter = proto_converter(rt.alloc());
    let more = hex::decode(rt.alloc(), ONE_SPAN).expect(&rt, "a span");
    expect_refused(&rt, &mut converter, &[0x0a, 0, 0x0b], &mut out);
    let finished = finished(&rt, &mut converter, &mut out);
    assert!(rt; finished == Err(Stop::Refused), "finished");
    expect_refused(&rt, &mut converter, more.as_slice(), &mut out);
    assert!(rt; !converter.ended(), "ended");
}
