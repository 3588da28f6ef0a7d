//! What a walk over the units of an input has written so far.
ghost use Rattle.std.specs.Prelude.{◌≡◌, ℕ, ◌+◌, ◌<◌, ◌++◌, min, [], ◌∷◌, List, length, if◌then◌else◌, IfOk, IfErr, OnOk, OnErr, Err};
ghost use Rattle.span_io.specs.Outside.{Outlet, Gains, OutputFails, OutputHolds, FailsWithin, last_count};
ghost use Rattle.trace_model.specs.OtlpParts.{NotedGroup};
ghost use Rattle.trace_model.specs.Soundness.{IsSoundGroup};
ghost use Rattle.zipkin_json.specs.Canonical.{zspan_text};
ghost use Rattle.map_zipkin.specs.NotedGroups.{noted_group};
ghost use Rattle.span_convert.specs.Outlooks.{SinkTold};
ghost use Rattle.span_convert.specs.private.PenTargets.{StartsAs, pen_target};
ghost use Rattle.span_convert.specs.Pens.{written_by};
ghost use Rattle.span_convert.specs.Reports.{written_target};
ghost use Rattle.span_convert.specs.SpanFiles.{left_text};
ghost use Rattle.span_convert.specs.private.TargetSteps.{TargetLaws};
ghost use Rattle.span_convert.specs.Units.{span_count};
ghost use Rattle.span_convert.specs.private.WalkSteps.{AddsNothing, AddsUnit, Converted, EndsText, IfWhy, StopsText, WritesOut, with_text};
ghost use Rattle.span_convert.specs.Walks.{StandsFor};
ghost use Rattle.span_convert.specs.declared.written.Written.{Written};

use crate::pen::Pen;
use crate::span_file::{SpansLeft, append_span};
use crate::tally::Tally;
use crate::target_fault::TargetFault;
use crate::units::append_if;
use span_io::laws::gains_then;
use span_io::{Blob, Cause, Failed, Halt, Items, OutOfMemory, Refusal, Sink, write_all};
use std::alloc::Global;
use trace_model::{Fault, Group, Remark};
use zipkin_json::ZSpan;

/// Why a walk goes no further.
#[derive(Drop)]
pub(crate) enum WalkStop {
    Refused(Refusal),
    /// The target can't hold a unit.
    Faulted(TargetFault),
    /// The sink failed.
    Write,
    OutOfMemory,
}

/// The text that isn't written yet, how much was converted, and what writes the next unit.
#[derive(Drop)]
pub(crate) struct Progress {
    unwritten: Blob,
    tally: Tally,
    pen: Pen,
}

// How many spans a group has, at the most where the count stands still.
fn spans_in(group: &Group) -> u64
    ensures { result ≡ min (span_count (group.now ∷ [])) last_count }
{
    let mut count: u64 = 0;
    for scope in group.scopes.as_slice() {
        count = count.saturating_add(scope.spans.len() as u64);
    }
    count
}

/// Room for the text of a small input, with which its growth begins.
const ROOM: usize = 4096;

// An empty text, with that room where there is memory for it.
fn some_room(alloc: Global) -> Blob
    ensures { result ≡ [] }
{
    match Blob::with_room(alloc, ROOM) {
        Ok(text) => text,
        Err(OutOfMemory) => Blob::new(alloc),
    }
}

impl Progress {
    /// The number of bytes that aren't written yet.
    pub(crate) fn unwritten(&self) -> usize
        ensures { result ≡ length self.now.unwritten }
    {
        self.unwritten.len()
    }

    /// Writes the text that isn't written yet.
    pub(crate) fn flush<K: Sink>(&mut self, out: &mut K) -> Result<(), Failed>
        ensures tally { self.new.tally ≡ self.old.tally }
        ensures pen { self.new.pen ≡ self.old.pen }
        ensures ok { OnOk result
            ((self.new.unwritten ≡ [])
            × Gains (K.outlet out.old) (K.outlet out.new) self.old.unwritten) }
        ensures failed { OnErr result (OutputFails (K.outlet out.old) (K.outlet out.new)) }
        ensures within { OnErr result
            (FailsWithin (K.outlet out.old) (K.outlet out.new) self.old.unwritten) }
        ensures holds { OnOk result (OutputHolds (K.outlet out.old) (K.outlet out.new)) }
    {
        write_all(out, self.unwritten.as_slice())?;
        self.unwritten.clear();
        Ok(())
    }

    // The number of the next unit.
    fn next_unit(&self) -> u64
        requires { self.now.tally.units < last_count }
        ensures { result ≡ self.now.tally.units + 1 }
    {
        self.tally.units + 1
    }

    /// Writes the last text, behind which the input is refused.
    pub(crate) fn refuse<K: Sink>(&mut self, cause: Cause, out: &mut K) -> WalkStop
        requires { self.old.tally.units < last_count }
        ensures written { WritesOut result
            (WalkStop.Refused (record { unit = self.old.tally.units + 1; cause = cause }))
            self.old.unwritten (K.outlet out.old) (K.outlet out.new) }
        ensures pen { self.new.pen ≡ self.old.pen }
        ensures sink { SinkTold (result ≡ WalkStop.Write) (K.outlet out.old) (K.outlet out.new) }
    {
        let unit = self.next_unit();
        match self.flush(out) {
            Ok(()) => WalkStop::Refused(Refusal { unit, cause }),
            Err(Failed) => WalkStop::Write,
        }
    }

    /// Writes the last text, behind which the target can't hold the next unit.
    pub(crate) fn stop_at_fault<K: Sink>(&mut self, fault: Fault, out: &mut K) -> WalkStop
        requires { self.old.tally.units < last_count }
        ensures written { WritesOut result
            (WalkStop.Faulted (record { unit = self.old.tally.units + 1; fault = fault }))
            self.old.unwritten (K.outlet out.old) (K.outlet out.new) }
        ensures pen { self.new.pen ≡ self.old.pen }
        ensures sink { SinkTold (result ≡ WalkStop.Write) (K.outlet out.old) (K.outlet out.new) }
    {
        let unit = self.next_unit();
        match self.flush(out) {
            Ok(()) => WalkStop::Faulted(TargetFault { unit, fault }),
            Err(Failed) => WalkStop::Write,
        }
    }

    /// Nothing was converted yet.
    pub(crate) fn new(alloc: Global, pen: Pen) -> Progress
        ensures fresh { (what : Written) → StartsAs what pen
            → StandsFor what [] result × (result.unwritten ≡ []) }
        ensures none { result.tally.units ≡ 0 }
        ensures pen { result.pen ≡ pen }
    {
        Progress {
            unwritten: some_room(alloc),
            tally: Tally { units: 0, spans: 0 },
            pen,
        }
    }

    /// What the target of its units keeps.
    pub(crate) fn target_laws(&self)
        ensures { TargetLaws (pen_target self.now.pen) }
    {
        self.pen.target_laws();
    }

    /// Adds what is written of a unit, but for the spans that it answers, which are left to be written,
    /// and counts it and its spans.
    pub(crate) fn add_unit(
        &mut self,
        alloc: Global,
        unit: (Group, Items<Remark>),
    ) -> Result<SpansLeft, Halt<Fault>>
        requires room { self.old.tally.units < last_count }
        requires sound { IsSoundGroup unit.0 }
        ensures same { written_by self.new.pen ≡ written_by self.old.pen }
        ensures ok { IfOk result
            (λ left. AddsUnit (noted_group unit) self.old (with_text self.new (left_text left))) }
        ensures why { IfWhy result
            (λ fault. AddsNothing (noted_group unit) fault self.old self.new) }
    {
        let spans = spans_in(&unit.0);
        let left = self
            .pen
            .write(alloc, &mut self.unwritten, self.tally, unit)?;
        self.tally.units += 1;
        self.tally.spans = self.tally.spans.saturating_add(spans);
        Ok(left)
    }

    /// Adds the text of a span, behind a comma where a span stands before it.
    pub(crate) fn add_span(
        &mut self,
        text: &mut Blob,
        behind: bool,
        span: &ZSpan,
    ) -> Result<(), OutOfMemory>
        ensures pen { self.new.pen ≡ self.old.pen }
        ensures tally { self.new.tally ≡ self.old.tally }
        ensures ok { OnOk result (self.new.unwritten
            ≡ self.old.unwritten ++ ((if behind then 44 ∷ [] else []) ++ zspan_text span.now)) }
    {
        append_if(&mut self.unwritten, behind, b",")?;
        append_span(&mut self.unwritten, text, span)
    }

    /// Writes the rest of the text of all units, and answers how much was converted.
    pub(crate) fn finish<K: Sink>(&mut self, out: &mut K) -> Result<Tally, WalkStop>
        ensures pen { self.new.pen ≡ self.old.pen }
        ensures ok { IfOk result
            (λ tally. (what : Written) (units : List NotedGroup) (said : List ℕ) (before : Outlet)
            → Converted what units said before (K.outlet out.old) self.old
            → EndsText (written_target what) units tally said before (K.outlet out.new)) }
        ensures stop { IfErr result
            (λ stop. (what : Written) (units : List NotedGroup) (said : List ℕ) (before : Outlet)
            → Converted what units said before (K.outlet out.old) self.old
            → StopsText (written_target what) units stop said before (K.outlet out.new)) }
        ensures sink { SinkTold (result ≡ Err WalkStop.Write) (K.outlet out.old)
            (K.outlet out.new) }
    {
        gains_then();
        self.pen.target_laws();
        if self.pen.close(&mut self.unwritten, self.tally).is_err() {
            return Err(WalkStop::OutOfMemory);
        }
        match self.flush(out) {
            Ok(()) => Ok(self.tally),
            Err(Failed) => Err(WalkStop::Write),
        }
    }

    /// What isn't written yet of the text of all units, and what closes it.
    pub(crate) fn into_text(self) -> Result<Blob, OutOfMemory>
        ensures { IfOk result
            (λ rest. (what : Written) (units : List NotedGroup) (said : List ℕ)
            (before now : Outlet)
            → (w : Converted what units said before now self)
            → (written_target what).whole_text units ≡ said ++ (w.written ++ rest)) }
    {
        self.pen.target_laws();
        let Progress {
            unwritten,
            tally,
            pen,
        } = self;
        let mut text = unwritten;
        pen.close(&mut text, tally)?;
        Ok(text)
    }
}
