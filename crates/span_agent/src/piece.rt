//! The converted text of a datagram.
ghost use Rattle.std.specs.Prelude.{◌≡◌, ◌≤◌, ◌++◌, ℕ, List, Result, length, IfOk, OnErr, Err};
ghost use Rattle.span_io.specs.Limits.{AreLimits};
ghost use Rattle.span_convert.specs.OneBatches.{IsOneBatch};
ghost use Rattle.span_convert.specs.Verdicts.{Verdict, IsVerdict};
ghost use Rattle.span_agent.specs.Pieces.{IsPiece, SaysPiece, SaysVerdict, batch_form, batch_halt, piece_end};
ghost use Rattle.span_agent.specs.Posts.{most_bytes};
ghost use Rattle.span_agent.specs.declared.piece.AgentBad.{AgentBad};

use crate::message::{AgentCause, read_message};
use span_convert::{Bad, convert_batch};
use span_io::{Blob, Form, Halt, Limits, OutOfMemory};
use std::alloc::Global;
use trace_model::Fault;

/// Why a datagram has no converted text.
#[derive(Drop)]
pub enum AgentBad {
    /// It has no message with a batch, or the batch can't be read.
    Message(AgentCause),
    /// The target can't hold the batch.
    Faulted(Fault),
}

/// Converts the batch in a datagram: the text is the one that the batch alone has as an input, and a line feed
/// behind it where that is JSON.
pub fn convert_datagram(
    alloc: Global,
    datagram: &[u8],
    to: Form,
    limits: &Limits,
) -> Result<Blob, Halt<AgentBad>>
    requires limits { AreLimits limits.now }
    requires small { length datagram.now ≤ most_bytes }
    requires unit { most_bytes ≤ limits.now.unit }
    requires binary { most_bytes ≤ limits.now.binary }

    // There is a piece of the datagram, or why it has none, whatever is answered, and the answer is by it.
    ensures exists { (told : Result (List ℕ) AgentBad) × IsPiece to limits.now datagram.now told }
    ensures piece { (told : Result (List ℕ) AgentBad) → IsPiece to limits.now datagram.now told
        → SaysPiece told result }
{
    match read_message(datagram) {
        Ok(message) => piece_of(alloc, form_in(message.compact), to, message.batch, limits),
        Err(cause) => Err(Halt::Why(AgentBad::Message(cause))),
    }
}

// The form of a batch in this protocol.
fn form_in(compact: bool) -> Form
    ensures { result ≡ batch_form compact }
{
    if compact {
        return Form::JaegerCompact;
    }
    Form::JaegerBinary
}

// The piece of a batch.
fn piece_of(
    alloc: Global,
    from: Form,
    to: Form,
    batch: &[u8],
    limits: &Limits,
) -> Result<Blob, Halt<AgentBad>>
    requires limits { AreLimits limits.now }
    requires one { IsOneBatch from batch.now }
    requires unit { length batch.now ≤ limits.now.unit }
    requires binary { length batch.now ≤ limits.now.binary }
    ensures exists { (verdict : Verdict) × IsVerdict from to limits.now batch.now verdict }
    ensures piece { SaysVerdict from to limits.now batch.now result }
{
    match convert_batch(alloc, from, to, batch, limits) {
        Ok(text) => ended(text, to),
        Err(bad) => Err(halt_of(bad)),
    }
}

// Why a datagram has no piece whose batch has no text.
fn halt_of(bad: Bad) -> Halt<AgentBad>
    ensures { result ≡ batch_halt bad }
{
    match bad {
        Bad::Refused(refusal) => Halt::Why(AgentBad::Message(AgentCause::Reading(refusal.cause))),
        Bad::Faulted(found) => Halt::Why(AgentBad::Faulted(found.fault)),
        Bad::OutOfMemory => Halt::OutOfMemory,
    }
}

// A text with what ends its piece.
fn ended(text: Blob, to: Form) -> Result<Blob, Halt<AgentBad>>
    ensures ok { IfOk result (λ piece. piece ≡ text ++ piece_end to) }
    ensures err { OnErr result (result ≡ Err Halt.OutOfMemory) }
{
    let mut piece = text;
    match to {
        Form::OtlpJson | Form::ZipkinJson => match piece.append(b"\n") {
            Ok(()) => Ok(piece),
            Err(OutOfMemory) => Err(Halt::OutOfMemory),
        },
        Form::OtlpProto | Form::JaegerBinary | Form::JaegerCompact => Ok(piece),
    }
}
