//! Conversion and reports of an input that comes in pieces.
ghost use Rattle.std.specs.Prelude.{◌≡◌, ◌≢◌, ◌+◌, ◌-◌, ◌++◌, [], ℕ, List, length, take, ◌≤◌, ◌<◌, true, Err, None, OnOk};
ghost use Rattle.span_io.specs.Limits.{AreLimits};
ghost use Rattle.span_convert.specs.Intakes.{form_in, scanning_in};
ghost use Rattle.span_convert.specs.Outlooks.{IfDocument, SinkTold};
ghost use Rattle.span_convert.specs.Units as told;
ghost use Rattle.span_convert.specs.private.WalkSteps.{Exceeds};
ghost use Rattle.span_convert.specs.declared.walker.State.TheVariants as states;
ghost use Rattle.span_convert.specs.declared.stop.Stop.TheVariants as stops;

use crate::bad::Bad;
use crate::intake::{Intake, end_input, take_piece};
use crate::laws::{one_outlook, one_verdict};
use crate::progress::{Progress, WalkStop};
use crate::stop::Stop;
use crate::tally::Tally;
use crate::target_fault::TargetFault;
use crate::units::input_limit;
use crate::why::Why;
use crate::written::Written;
use span_io::{Blob, Form, Limits, Refusal, Sink};
use std::alloc::Global;

/// How far a converter has come.
#[derive(Drop)]
enum State {
    Open,
    /// The whole text was written.
    Ended,
    Refused(Refusal),
    Faulted(TargetFault),
    Write,
    OutOfMemory,
}

impl State {
    ghost use Rattle.span_convert.specs.private.States.{bad_in, state_at};
    ghost use Rattle.span_convert.specs.Converters.{stop_in};

    // The stop that was answered, if one was.
    fn stop(&self) -> Option<Stop>
        ensures { result ≡ stop_in self.now }
    {
        match self {
            State::Open | State::Ended => None,
            State::Refused(_) => Some(Stop::Refused),
            State::Faulted(_) => Some(Stop::Faulted),
            State::Write => Some(Stop::Write),
            State::OutOfMemory => Some(Stop::OutOfMemory),
        }
    }

    // Behind a walk that goes no further.
    fn behind(why: WalkStop) -> State
        ensures { result ≡ state_at why }
    {
        match why {
            WalkStop::Refused(refusal) => State::Refused(refusal),
            WalkStop::Faulted(found) => State::Faulted(found),
            WalkStop::Write => State::Write,
            WalkStop::OutOfMemory => State::OutOfMemory,
        }
    }

    // The refusal or fault that is kept; without one, memory was wanted.
    fn into_bad(self) -> Bad
        ensures { result ≡ bad_in self }
    {
        match self {
            State::Refused(refusal) => Bad::Refused(refusal),
            State::Faulted(found) => Bad::Faulted(found),
            State::Open | State::Ended | State::Write | State::OutOfMemory => Bad::OutOfMemory,
        }
    }
}

impl WalkStop {
    ghost use Rattle.span_convert.specs.private.States.{stop_at};

    // The stop that is answered.
    fn stop(&self) -> Stop
        ensures { result ≡ stop_at self.now }
    {
        match self {
            WalkStop::Refused(_) => Stop::Refused,
            WalkStop::Faulted(_) => Stop::Faulted,
            WalkStop::Write => Stop::Write,
            WalkStop::OutOfMemory => Stop::OutOfMemory,
        }
    }
}

// The bytes of a piece that are looked at where there is room for so many, and whether it has others.
fn looked_at(piece: &[u8], room: u64) -> (&[u8], bool)
    ensures looked { take room piece.now ≡ result.0.now }
    ensures long { Exceeds result.1 room piece.now }
    ensures within { length result.0.now ≤ room }
{
    if piece.len() as u64 > room {
        return (&piece[..room as usize], true);
    }
    (piece, false)
}

/// Writes what a target has of an input that is fed in pieces, cut anywhere. Each unit is written as it
/// ends; a document is kept until it ends, or is longer than its limit.
#[derive(Drop)]
pub struct Walker {
    alloc: Global,
    limits: Limits,
    fed: u64,
    held: Blob,
    intake: Intake,
    progress: Progress,
    state: State,
    ghost valid: { AreLimits limits },
    ghost within: { fed ≤ told.input_limit (form_in intake) limits },
    ghost scanned: { (scanning_in intake).limit ≤ limits.unit },
    ghost counted: { state ≡ states.Open → progress.tally.units ≤ fed },
    ghost short: { state ≡ states.Open → length held ≤ fed },
    ghost seen: { ∥ (state ≡ states.Open → (scanning_in intake).seen held) ∥₁ },
}

/// Converts an input to another form.
pub type Converter = Walker;

/// Reports what stands in an input.
pub type Reporter = Walker;

impl Walker {
    ghost use Rattle.span_convert.specs.Converters.{Fed, Feeds, Finishes, IsWhy, KeepsStop, SameStop, Work, has_ended, stop_of, work_of};
    ghost use Rattle.span_convert.specs.private.States.{bad_in};

    /// A converter or reporter that was fed nothing.
    pub fn new(alloc: Global, from: Form, what: Written, limits: &Limits) -> Walker
        requires limits { AreLimits limits.now }
        ensures { Fed result (record { from = from; what = what; limits = limits.now }) [] [] }
    {
        let progress = Progress::new(alloc, what.pen());
        progress.target_laws();
        Walker {
            alloc,
            limits: *limits,
            fed: 0,
            held: Blob::new(alloc),
            intake: Intake::new(from, limits),
            progress,
            state: State::Open,
        }
    }

    /// Takes the next piece of the input.
    pub fn feed<K: Sink>(&mut self, piece: &[u8], out: &mut K) -> Result<(), Stop>
        requires going { has_ended self.old ≢ true }

        // Behind a stop each call answers the same, and calls no sink.
        ensures stopped { SameStop (stop_of self.old) result
            ((self.new ≡ self.old) × (out.new ≡ out.old)) }
        ensures stays { KeepsStop result self.new }
        ensures same { work_of self.new ≡ work_of self.old }

        // Of the bytes so far there is an outlook, and it is carried out behind what was written.
        ensures feeds { (work : Work) (bytes said : List ℕ) → Fed self.old work bytes said
            → Feeds work self.new said (bytes ++ piece.now) result (K.outlet out.old)
            (K.outlet out.new) }

        // While a document is taken no sink is called.
        ensures unwritten { IfDocument (work_of self.old).from (out.new ≡ out.old) }

        // The sink failed where its count rose, and only there. Behind a failed write comes no other, and none
        // is of nothing.
        ensures sink { SinkTold ((stop_of self.old ≡ None) × (result ≡ Err stops.Write))
            (K.outlet out.old) (K.outlet out.new) }
    {
        one_outlook();
        self.progress.target_laws();
        if let Some(stop) = self.state.stop() {
            return Err(stop);
        }
        let room = input_limit(self.intake.form(), &self.limits) - self.fed;
        let (looked, too_long) = looked_at(piece, room);
        match take_piece(
            &mut self.intake,
            &mut self.held,
            &mut self.progress,
            self.alloc,
            looked,
            too_long,
            out,
        ) {
            Ok(()) => {
                self.fed += looked.len() as u64;
                Ok(())
            }
            Err(why) => {
                let stop = why.stop();
                self.state = State::behind(why);
                Err(stop)
            }
        }
    }

    /// Ends the input: the rest of its text is written, and the answer says how much was converted.
    pub fn finish<K: Sink>(&mut self, out: &mut K) -> Result<Tally, Stop>
        requires going { has_ended self.old ≢ true }
        ensures stopped { SameStop (stop_of self.old) result
            ((self.new ≡ self.old) × (out.new ≡ out.old)) }
        ensures stays { KeepsStop result self.new }
        ensures same { work_of self.new ≡ work_of self.old }
        ensures ended { OnOk result (has_ended self.new ≡ true) }

        // The verdict on all bytes is carried out behind what was written.
        ensures finishes { (work : Work) (bytes said : List ℕ) → Fed self.old work bytes said
            → Finishes work self.new said bytes result (K.outlet out.old) (K.outlet out.new) }
        ensures sink { SinkTold ((stop_of self.old ≡ None) × (result ≡ Err stops.Write))
            (K.outlet out.old) (K.outlet out.new) }
    {
        one_verdict();
        if let Some(earlier) = self.state.stop() {
            return Err(earlier);
        }
        match end_input(
            &self.intake,
            &self.held,
            &mut self.progress,
            self.alloc,
            out,
        ) {
            Ok(tally) => {
                self.state = State::Ended;
                Ok(tally)
            }
            Err(why) => {
                let stop = why.stop();
                self.state = State::behind(why);
                Err(stop)
            }
        }
    }

    /// Whether the whole text was written.
    pub fn ended(&self) -> bool
        ensures { result ≡ has_ended self.now }
    {
        matches!(self.state, State::Ended)
    }

    /// The refusal or fault, if one was answered.
    pub fn why(&self) -> Why<'_>
        ensures { IsWhy result self.now }
    {
        match &self.state {
            State::Refused(refusal) => Why::Refusal(refusal),
            State::Faulted(found) => Why::Fault(found),
            _ => Why::Nothing,
        }
    }

    // The refusal or fault, if one was answered; without one, memory was wanted.
    pub(crate) fn into_bad(self) -> Bad
        ensures { result ≡ bad_in self.state }
    {
        self.state.into_bad()
    }
}
