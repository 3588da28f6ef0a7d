//! Identifiers and times. The trace and the span are those of the `traceparent` that W3C Trace Context
//! has as an example for a trace of several services.
use crate::texts::word_of;
use span_ids::{BadId, IdRule, Nanos, SpanId, TraceId};
use std::test::Fail;

// Bytes, and the two halves of the trace identifier that they are, as jaeger.thrift has it.
pub(crate) const TRACES: &str = "
0af7651916cd43dd8448eb211c80319c => 0af7651916cd43dd 8448eb211c80319c
00000000000000000000000000000001 => 0000000000000000 0000000000000001
00000000000000010000000000000000 => 0000000000000001 0000000000000000
";

// Bytes, and the number of the span identifier that they are.
pub(crate) const SPANS: &str = "
b7ad6b7169203331 => b7ad6b7169203331
0000000000000001 => 0000000000000001
";

// Bytes that are no identifier of a trace, or none of a span.
const NO_TRACES: [&[u8]; 3] = [&[0; 16], &[1; 15], &[1; 17]];

const NO_SPANS: [&[u8]; 3] = [&[0; 8], &[1; 7], &[1; 9]];

// The number of a word in hexadecimal.
fn hex_of(word: &str) -> Option<u64> {
    u64::from_str_radix(word, 16).ok()
}

// The halves of a trace identifier, and what stands behind them.
fn halves_of(text: &str) -> Option<(u64, u64, &str)> {
    let (high, rest) = word_of(text);
    let (low, rest) = word_of(rest);
    Some((hex_of(high)?, hex_of(low)?, rest))
}

/// Whether these bytes are the trace identifier of which a row tells the halves.
pub(crate) fn is_trace(bytes: &[u8], wanted: &str) -> bool {
    let Some((high, low, "")) = halves_of(wanted) else {
        return false;
    };
    match (TraceId::from_bytes(bytes), TraceId::from_halves(high, low)) {
        (Ok(trace), Ok(back)) => {
            trace.halves() == (high, low) && back.to_bytes().as_slice() == bytes
        }
        _ => false,
    }
}

/// The same of a span identifier and its number.
pub(crate) fn is_span(bytes: &[u8], wanted: &str) -> bool {
    let Some(number) = hex_of(wanted) else {
        return false;
    };
    match (SpanId::from_bytes(bytes), SpanId::from_number(number)) {
        (Ok(span), Ok(back)) => span.number() == number && back.to_bytes().as_slice() == bytes,
        _ => false,
    }
}

#[test]
fn refuses_bytes_and_numbers(rt: HostRuntime) {
    for bytes in &NO_TRACES {
        assert!(rt; TraceId::from_bytes(bytes) == Err(BadId));
    }
    for bytes in &NO_SPANS {
        assert!(rt; SpanId::from_bytes(bytes) == Err(BadId));
    }
    let numbers = TraceId::from_halves(0, 0) == Err(BadId) && SpanId::from_number(0) == Err(BadId);
    assert!(rt; numbers);
}

const RULES: [IdRule; 4] = [
    IdRule::Exact,
    IdRule::ExactLower,
    IdRule::Half,
    IdRule::Padded,
];

// A text, the two halves of the trace identifier that it is, and for each rule whether it takes the text.
pub(crate) const TRACE_TEXTS: &str = "
0af7651916cd43dd8448eb211c80319c => 0af7651916cd43dd 8448eb211c80319c yes yes yes yes
0AF7651916CD43DD8448EB211C80319C => 0af7651916cd43dd 8448eb211c80319c yes no yes yes
0af7651916cd43dd8448eb211c80319C => 0af7651916cd43dd 8448eb211c80319c yes no yes yes
af7651916cd43dd8448eb211c80319c => 0af7651916cd43dd 8448eb211c80319c no no no yes
463ac35c9f6413ad => 0000000000000000 463ac35c9f6413ad no no yes yes
1 => 0000000000000000 0000000000000001 no no no yes
00000000000000000000000000000001 => 0000000000000000 0000000000000001 yes yes yes yes
00000000000000000000000000000000 => 0000000000000000 0000000000000001 no no no no
0 => 0000000000000000 0000000000000001 no no no no
 => 0000000000000000 0000000000000001 no no no no
+0000000000000000000000000000001 => 0000000000000000 0000000000000001 no no no no
000000000000000000000000000000001 => 0000000000000000 0000000000000001 no no no no
";

// The same of a span identifier and its number.
pub(crate) const SPAN_TEXTS: &str = "
b7ad6b7169203331 => b7ad6b7169203331 yes yes yes yes
B7AD6B7169203331 => b7ad6b7169203331 yes no yes yes
1 => 0000000000000001 no no no yes
0000000000000000 => 0000000000000001 no no no no
 => 0000000000000001 no no no no
00000000000000001 => 0000000000000001 no no no no
b7ad6b716920333g => 0000000000000001 no no no no
-000000000000001 => 0000000000000001 no no no no
";

/// Whether a text is read as the identifier that a row tells, by the rules for which it says `yes`, and by no other.
pub(crate) fn is_trace_text(text: &str, wanted: &str) -> bool {
    let Some((high, low, mut rest)) = halves_of(wanted) else {
        return false;
    };
    let id = TraceId::from_halves(high, low);
    for rule in &RULES {
        let (answer, others) = word_of(rest);
        rest = others;
        let same = match answer {
            "yes" => TraceId::read_hex(text.as_bytes(), *rule) == id,
            "no" => TraceId::read_hex(text.as_bytes(), *rule) == Err(BadId),
            _ => false,
        };
        if !same {
            return false;
        }
    }
    rest.is_empty()
}

/// The same of a span identifier.
pub(crate) fn is_span_text(text: &str, wanted: &str) -> bool {
    let (number, mut rest) = word_of(wanted);
    let Some(number) = hex_of(number) else {
        return false;
    };
    let id = SpanId::from_number(number);
    for rule in &RULES {
        let (answer, others) = word_of(rest);
        rest = others;
        let same = match answer {
            "yes" => SpanId::read_hex(text.as_bytes(), *rule) == id,
            "no" => SpanId::read_hex(text.as_bytes(), *rule) == Err(BadId),
            _ => false,
        };
        if !same {
            return false;
        }
    }
    rest.is_empty()
}

fn are_in_hex(trace: TraceId, span: SpanId) -> bool {
    let mut text = [0; 32];
    trace.write_hex(&mut text);
    let mut short = [0; 16];
    span.write_hex(&mut short);
    &text == b"0af7651916cd43dd8448eb211c80319c" && &short == b"b7ad6b7169203331"
}

// Nanoseconds, their microseconds, and the nanoseconds of these. The last time that fits is in the year 2554.
const TIMES: [(u64, u64, u64); 4] = [
    (0, 0, 0),
    (999, 0, 0),
    (
        1_472_470_996_199_000_123,
        1_472_470_996_199_000,
        1_472_470_996_199_000_000,
    ),
    (u64::MAX, 18_446_744_073_709_551, 18_446_744_073_709_551_000),
];

fn is_time(nanos: u64, micros: u64, floor: u64) -> bool {
    let time = Nanos(nanos);
    time.micros() == micros
        && time.floor() == Nanos(floor)
        && Nanos::of_micros(micros) == Some(Nanos(floor))
}

#[test]
fn counts_microseconds(rt: HostRuntime) {
    for (nanos, micros, floor) in &TIMES {
        assert!(rt; is_time(*nanos, *micros, *floor), "{nanos}");
    }
    let above = Nanos::of_micros(18_446_744_073_709_552);
    assert!(rt; above == None && Nanos::of_micros(u64::MAX) == None);
}

// The first byte counts most.
fn are_ordered(trace: TraceId, span: SpanId) -> bool {
    let (Ok(above), Ok(later)) = (
        TraceId::from_bytes(&[0x0b; 16]),
        SpanId::from_bytes(&[0xb8, 0, 0, 0, 0, 0, 0, 0]),
    ) else {
        return false;
    };
    trace < above
        && span < later
        && Nanos(1_544_712_660_000_000_000) < Nanos(1_544_712_661_000_000_000)
}

#[test]
fn writes_hex_and_orders(rt: HostRuntime) -> Result<(), Fail> {
    let trace = TraceId::from_halves(0x0af7_6519_16cd_43dd, 0x8448_eb21_1c80_319c)?;
    let span = SpanId::from_number(0xb7ad_6b71_6920_3331)?;
    assert!(rt; are_in_hex(trace, span));
    assert!(rt; are_ordered(trace, span));
    Ok(())
}
