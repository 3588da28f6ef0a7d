//! The answer to one request.
ghost use Rattle.std.specs.Prelude.{OnOk};
ghost use Rattle.span_io.specs.Limits.{AreLimits};
ghost use Rattle.conn_service.specs.Services.{Appends, IsAsked};
ghost use Rattle.span_gateway.specs.Answers.{AppendsFormAnswer, Converts};

use http_conn::{Request, answer, type_of};
use span_answers::{answer_fault, answer_refusal};
use span_convert::{Bad, convert_all};
use span_io::{Blob, Form, Limits, OutOfMemory};
use std::alloc::Global;

/// Appends the answer to the request that these bytes are.
pub(crate) fn answer_request(
    alloc: Global,
    out: &mut Blob,
    request: &Request,
    bytes: &[u8],
    to: Form,
    limits: &Limits,
) -> Result<(), OutOfMemory>
    requires limits { AreLimits limits.now }
    requires asked { IsAsked request.now bytes.now }
    ensures { OnOk result
        (Appends (Converts limits.now) to to request.now bytes.now out.old out.new) }
{
    match request.form {
        None => answer(out, request.verdict, "", b"", request.close),
        Some(from) => {
            let body = &bytes[request.body_at..];
            answer_body(alloc, out, from, to, body, request.close, limits)
        }
    }
}

// Appends the answer to a request with this body.
fn answer_body(
    alloc: Global,
    out: &mut Blob,
    from: Form,
    to: Form,
    body: &[u8],
    close: bool,
    limits: &Limits,
) -> Result<(), OutOfMemory>
    requires { AreLimits limits.now }
    ensures { OnOk result (AppendsFormAnswer from to limits.now body.now close out.old out.new) }
{
    match convert_all(alloc, from, to, body, limits) {
        Ok(text) if text.len() > limits.reply => answer(out, 413, "", b"", close),
        Ok(text) => answer(out, 200, type_of(to), text.as_slice(), close),
        Err(Bad::Refused(refusal)) => answer_refusal(alloc, out, &refusal, close),
        Err(Bad::Faulted(found)) => answer_fault(alloc, out, &found, close),
        Err(Bad::OutOfMemory) => Err(OutOfMemory),
    }
}
