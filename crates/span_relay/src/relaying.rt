//! The service of a relay: it has the text of each good body kept, and answers by whether it was.
ghost use Rattle.std.specs.Prelude.{◌≡◌, ◌<◌, ◌≤◌, ◌++◌, [], IfOk, OnErr, OnOk, length, vec_capacity, vec_len};
ghost use Rattle.span_io.specs.Limits.{AreLimits};
ghost use Rattle.span_io.specs.Sizes.{longest};
ghost use Rattle.span_spool.specs.Spools.{IsSpool};
ghost use Rattle.std.proofs.Common.{refl, ◌∙◌};
ghost use Rattle.span_relay.specs.RelayReplies.{IsFrontOf, outcome_answer};
ghost use Rattle.span_relay.specs.private.RelayPoints.{Points};
ghost use Rattle.span_relay.specs.private.RelaySteps.{AppendsForm, AppendsOffer, HaltsForm, HaltsOffer, KeepsOr, RelayHalts, Relays, front_then, none_behind, state_of};

use conn_service::{Ended, ServeFault, Service, serve};
use http_conn::{Request, answer, type_of};
use span_answers::{answer_fault, answer_refusal};
use span_convert::{Bad, convert_all};
use span_io::{Blob, Duplex, Form, LONGEST, Limits, OutOfMemory};
use span_spool::{KeepFault, Keeper};
use std::alloc::Global;

/// A keeper, what became so far of the texts that it was offered, and the form of these.
#[derive(Drop)]
pub(crate) struct Relaying<'a, K> {
    keeper: &'a mut K,
    outcomes: &'a mut Vec<bool>,
    to: Form,
}

impl<'a, K: Keeper> Relaying<'a, K> {
    pub(crate) fn new(keeper: &'a mut K, outcomes: &'a mut Vec<bool>, to: Form) -> Relaying<'a, K>
        ensures same_keeper { result.keeper.ghost_name ≡ keeper.entry.ghost_name }
        ensures same_outcomes { result.outcomes.ghost_name ≡ outcomes.entry.ghost_name }
        ensures keeper { result.keeper.now ≡ keeper.old }
        ensures outcomes { result.outcomes.now ≡ outcomes.old }
        ensures to { result.to ≡ to }
    {
        Relaying {
            keeper,
            outcomes,
            to,
        }
    }

    /// Serves one connection to its end, where there is no outcome yet.
    pub(crate) fn serve<C: Duplex>(
        &mut self,
        alloc: Global,
        conn: &mut C,
        limits: &Limits,
    ) -> Result<Ended, ServeFault>
        requires limits { AreLimits limits.now }
        requires none { self.old.outcomes.now.items ≡ [] }
        ensures same_keeper { self.new.keeper.ghost_name ≡ self.old.keeper.ghost_name }
        ensures same_outcomes { self.new.outcomes.ghost_name ≡ self.old.outcomes.ghost_name }
        ensures points { Points self.old.to limits.now (C.link conn.old) (C.link conn.new)
            (K.spool self.old.keeper.now)
            (K.spool self.new.keeper.now) self.new.outcomes.now.items result }
    {
        serve(alloc, conn, self, limits)
    }

    // Appends the answer to a request with this body.
    fn answer_body(
        &mut self,
        alloc: Global,
        out: &mut Blob,
        from: Form,
        body: &[u8],
        close: bool,
        limits: &Limits,
    ) -> Result<(), OutOfMemory>
        requires { AreLimits limits.now }
        ensures same_keeper { self.new.keeper.ghost_name ≡ self.old.keeper.ghost_name }
        ensures same_outcomes { self.new.outcomes.ghost_name ≡ self.old.outcomes.ghost_name }
        ensures same_form { self.new.to ≡ self.old.to }
        ensures ok { OnOk result (AppendsForm self.old.to limits.now from body.now close
            (state_of (K.spool self.old.keeper.now) self.old.outcomes.now.items)
            (state_of (K.spool self.new.keeper.now) self.new.outcomes.now.items) out.old out.new) }
        ensures err { OnErr result (HaltsForm self.old.to limits.now from body.now close
            (state_of (K.spool self.old.keeper.now) self.old.outcomes.now.items)
            (state_of (K.spool self.new.keeper.now) self.new.outcomes.now.items)) }
    {
        match convert_all(alloc, from, self.to, body, limits) {
            Ok(text) if text.len() > limits.reply => answer(out, 413, "", b"", close),
            Ok(text) => self.answer_offer(out, from, text.as_slice(), close),
            Err(Bad::Refused(refusal)) => answer_refusal(alloc, out, &refusal, close),
            Err(Bad::Faulted(found)) => answer_fault(alloc, out, &found, close),
            Err(Bad::OutOfMemory) => Err(OutOfMemory),
        }
    }

    // Has a text kept, where it can be, and appends the answer by whether it was.
    fn answer_offer(
        &mut self,
        out: &mut Blob,
        from: Form,
        text: &[u8],
        close: bool,
    ) -> Result<(), OutOfMemory>
        ensures same_keeper { self.new.keeper.ghost_name ≡ self.old.keeper.ghost_name }
        ensures same_outcomes { self.new.outcomes.ghost_name ≡ self.old.outcomes.ghost_name }
        ensures same_form { self.new.to ≡ self.old.to }
        ensures ok { OnOk result (AppendsOffer self.old.to from close
            (state_of (K.spool self.old.keeper.now) self.old.outcomes.now.items)
            (state_of
            (K.spool self.new.keeper.now) self.new.outcomes.now.items) text.now out.old out.new) }
        ensures err { OnErr result (HaltsOffer self.old.to from close
            (state_of (K.spool self.old.keeper.now) self.old.outcomes.now.items)
            (state_of (K.spool self.new.keeper.now) self.new.outcomes.now.items) text.now) }
    {
        take_room(self.outcomes)?;
        let kept = keep(self.keeper, self.to, text)?;
        match self.outcomes.push(kept) {
            Ok(()) => answer_outcome(out, from, kept, close),
            Err(_) => unreachable!(),
        }
    }
}

impl<'a, K: Keeper> Service for Relaying<'a, K> {
    ghost answers = { λ limits a request bytes text b. (b.keeper.ghost_name ≡ a.keeper.ghost_name)
        × (b.outcomes.ghost_name ≡ a.outcomes.ghost_name)
        × (b.to ≡ a.to)
        × Relays a.to limits (state_of (K.spool a.keeper.now) a.outcomes.now.items) request bytes text
        (state_of (K.spool b.keeper.now) b.outcomes.now.items) };

    ghost halts = { λ limits a request bytes b. (b.keeper.ghost_name ≡ a.keeper.ghost_name)
        × (b.outcomes.ghost_name ≡ a.outcomes.ghost_name)
        × (b.to ≡ a.to)
        × RelayHalts a.to limits (state_of (K.spool a.keeper.now) a.outcomes.now.items) request bytes
        (state_of (K.spool b.keeper.now) b.outcomes.now.items) };

    ghost leads = { λ a b. (b.keeper.ghost_name ≡ a.keeper.ghost_name)
        × (b.outcomes.ghost_name ≡ a.outcomes.ghost_name)
        × (b.to ≡ a.to)
        × IsFrontOf a.outcomes.now.items b.outcomes.now.items };

    ghost leads_none = { λ s. (refl, refl, refl, none_behind s.outcomes.now.items) };

    ghost leads_then = { λ a b c p q. (
      q.0 ∙ p.0,
      q.1 ∙ p.1,
      q.2 ∙ p.2,
      front_then a.outcomes.now.items b.outcomes.now.items c.outcomes.now.items p.3 q.3,
    ) };

    fn answer(
        &mut self,
        alloc: Global,
        out: &mut Blob,
        request: &Request,
        bytes: &[u8],
        limits: &Limits,
    ) -> Result<(), OutOfMemory> {
        match request.form {
            None => answer(out, request.verdict, "", b"", request.close),
            Some(from) => {
                let body = &bytes[request.body_at..];
                self.answer_body(alloc, out, from, body, request.close, limits)
            }
        }
    }
}

// Room for one more outcome.
fn take_room(outcomes: &mut Vec<bool>) -> Result<(), OutOfMemory>
    ensures same { outcomes.new.items ≡ outcomes.old.items }
    ensures room { OnOk result (vec_len outcomes.new < vec_capacity outcomes.new) }
    ensures short { OnOk result (length outcomes.new.items < longest) }
{
    if outcomes.len() >= LONGEST {
        return Err(OutOfMemory);
    }
    outcomes.reserve(1)?;
    Ok(())
}

// Whether the keeper kept a text.
fn keep<K: Keeper>(keeper: &mut K, to: Form, text: &[u8]) -> Result<bool, OutOfMemory>
    ensures ok { IfOk result
        (λ kept. KeepsOr to text.now (K.spool keeper.old) (K.spool keeper.new) kept) }
    ensures err { OnErr result (K.spool keeper.new ≡ K.spool keeper.old) }
    ensures counted { (K.spool keeper.old).faults ≤ (K.spool keeper.new).faults }
    ensures sound { IsSpool (K.spool keeper.old) × IsSpool (K.spool keeper.new) }
{
    match keeper.keep(to, text) {
        Ok(_) => Ok(true),
        Err(KeepFault::Failed | KeepFault::Full | KeepFault::Spent) => Ok(false),
        Err(KeepFault::OutOfMemory) => Err(OutOfMemory),
    }
}

// Appends the answer to a good request in this form, by whether its text was kept.
fn answer_outcome(out: &mut Blob, from: Form, kept: bool, close: bool) -> Result<(), OutOfMemory>
    ensures { OnOk result (out.new ≡ out.old ++ outcome_answer from close kept) }
{
    if !kept {
        return answer(out, 503, "", b"", close);
    }
    match from {
        Form::OtlpProto => answer(out, 200, type_of(from), b"", close),
        Form::OtlpJson => answer(out, 200, type_of(from), b"{}", close),
        Form::JaegerBinary | Form::JaegerCompact | Form::ZipkinJson => answer(
            out, 202, "", b"", close,
        ),
    }
}
