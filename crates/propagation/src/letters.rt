//! Texts that are written one behind the other into bytes that a caller lends.
ghost use Rattle.std.specs.Prelude.{◌≡◌, ◌+◌, ◌≤◌, ◌++◌, length, take};
ghost use Rattle.propagation.specs.Digits.{trace_digits, span_digits};

use span_ids::{SpanId, TraceId};

// Puts a text at a place, and answers the place behind it.
pub(crate) fn put(out: &mut [u8], place: usize, piece: &[u8]) -> usize
    requires { place + length piece.now ≤ length out.old }
    ensures count { result ≡ place + length piece.now }
    ensures front { take result out.new ≡ take place out.old ++ piece.now }
{
    let end = place + piece.len();
    out[place..end].copy_from_slice(piece);
    end
}

// Puts the 32 digits of a trace's identifier.
pub(crate) fn put_trace(out: &mut [u8], place: usize, trace: TraceId) -> usize
    requires { place + 32 ≤ length out.old }
    ensures count { result ≡ place + 32 }
    ensures front { take result out.new ≡ take place out.old ++ trace_digits trace }
{
    let mut digits = [0; 32];
    trace.write_hex(&mut digits);
    put(out, place, &digits)
}

// Puts the 16 digits of a span's identifier.
pub(crate) fn put_span(out: &mut [u8], place: usize, span: SpanId) -> usize
    requires { place + 16 ≤ length out.old }
    ensures count { result ≡ place + 16 }
    ensures front { take result out.new ≡ take place out.old ++ span_digits span }
{
    let mut digits = [0; 16];
    span.write_hex(&mut digits);
    put(out, place, &digits)
}
