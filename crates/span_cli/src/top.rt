//! The top call.
ghost use Rattle.std.specs.Prelude.{◌≡◌, ◌≢◌, ◌↔◌, IfSome, IsTrue, length};
ghost use Rattle.span_io.specs.Doors.{NoCallInVain};
ghost use Rattle.span_io.specs.Outside.{InputFails, NoReadInVain, NoWriteInVain, Takes, any_number};
ghost use Rattle.span_convert.specs.Outlooks.{SinkTold};
ghost use Rattle.span_cli.specs.Commands.{texts, Spells, OnConversions, OnGauge, OnJob, OnServing, OnSpans, OnLosses, OnHeaders, UnlessServing};
ghost use Rattle.span_cli.specs.Inputs.{ReadsInput, IsReadThrough};
ghost use Rattle.span_cli.specs.private.JobWords.{IfGauge, IsInRange};
ghost use Rattle.span_cli.specs.Jobs.{MayFault, Spans};
ghost use Rattle.span_cli.specs.private.RunSteps.{EndsGauge, EndsRun};
ghost use Rattle.span_cli.specs.Runs.{EndsGaugeRun, WritesRead, WritesSoFar};
ghost use Rattle.span_cli.specs.Lines.{IsRunStatus, Notes, stage_of, stage_line, usage_line};
ghost use Rattle.span_cli.specs.Outcomes.{OnOutcome, OnSameBatches, OnAgreeingDocuments, CarriesOut, WritesLinesOf, WritesLossesOf, WritesTextOf, IsJudgedAt};
ghost use Rattle.span_cli.specs.Servings.{ServesConnections};
ghost use Rattle.span_cli.specs.declared.command.Command.{Command};

use crate::command::read_words;
use crate::ending::Ending;
use crate::gauge::gauge;
use crate::headers::headers;
use crate::input::feed_input;
use crate::job::{Job, Task};
use crate::note::{note_ending, note_usage};
use crate::serve::serve;
use propagation::laws::{contexts_are_normal, headers_read_back, heads_are_sound};
use span_convert::laws::{free_members, no_losses, output_read_back, same_batches};
use span_convert::{Walker, Written};
use span_io::laws::gains_then;
use span_io::{Door, Form, Limits, Sink, Source};
use std::alloc::Global;

/// Runs the command that the words after the program's name spell: it reads the input to its end,
/// writes its canonical text, its report or the lines of its context to the output, and notes a refusal
/// or a fault in one line. Each unit of binary input is written once it was read, and a document at its end. The clauses speak
/// of the source's bytes alone, however it cuts them into reads: binary input may be cut anywhere.
/// What `convert` wrote converts back to the form that was read where it fits as an input, and no second trip loses more.
/// `gauge` reads nothing, and writes the sizes of the gauge. `serve` serves connections of the
/// door, and notes each of which a call was refused.
/// The answer is the exit status: 0 the whole text was written or all connections were served, 2 the words are no command,
/// 3 the input is refused, 4 the target can't hold a unit or a context (in both the text of the units
/// before was written), 5 the input failed (the text of the whole units of binary input before was written) or the door, 6 the
/// output failed, 7 no memory was found.
pub fn run<S: Source, K: Sink, N: Sink, D: Door>(
    alloc: Global,
    words: &[String],
    input: &mut S,
    output: &mut K,
    notes: &mut N,
    door: &mut D,
) -> u8
    // Words that are no command are answered at once: nothing is read, and nothing written but a note.
    ensures usage { (result ≡ 2) ↔ ((command : Command) → ¬ Spells command (texts words.now)) }
    ensures untouched { result ≡ 2
        → (input.new ≡ input.old) × (output.new ≡ output.old) × (door.new ≡ door.old) }
    ensures usage_noted { result ≡ 2 → Notes (N.outlet notes.old) (N.outlet notes.new) usage_line }
    ensures statuses { IsRunStatus result }

    // Of `show`, `check` and `gauge` no run ends with 4, whatever the input tells.
    ensures faults { OnJob (texts words.now) (λ job. result ≡ 4 → MayFault job) }

    // A device is at fault where its count rose, and only there; one that never fails never is. What reads calls no door.
    ensures input_fails { UnlessServing (texts words.now)
        (result ≡ 5 → InputFails (S.inlet input.old) (S.inlet input.new)) }
    ensures input_quiet { result ≢ 5 → (S.inlet input.new).faults ≡ (S.inlet input.old).faults }
    ensures input_answers { UnlessServing (texts words.now)
        (IsTrue (S.inlet input.old).steady → result ≢ 5) }
    ensures output_told { SinkTold (result ≡ 6) (K.outlet output.old) (K.outlet output.new) }
    ensures output_answers { (K.outlet output.old).sure ≡ any_number → result ≢ 6 }
    ensures door_stays { UnlessServing (texts words.now) (door.new ≡ door.old) }

    // No read comes behind a failed one, or behind the end. No write is of nothing, or comes behind a failed one.
    ensures input_in_vain { NoReadInVain (S.inlet input.old) (S.inlet input.new) }
    ensures output_in_vain { NoWriteInVain (K.outlet output.old) (K.outlet output.new) }
    ensures notes_in_vain { NoWriteInVain (N.outlet notes.old) (N.outlet notes.new) }

    // No call of the door comes behind a failed one. It listens once, and each connection is given back before the next one.
    ensures door_in_vain { NoCallInVain (D.doorway door.old) (D.doorway door.new) }

    // At most the limit of the job's input is read, and one piece. After the whole text nothing is left, where any is read.
    ensures reads { OnJob (texts words.now)
        (λ job. ReadsInput job (S.inlet input.old) (S.inlet input.new)) }
    ensures all_read { OnJob (texts words.now)
        (λ job. result ≡ 0 → IsReadThrough job (S.inlet input.old) (S.inlet input.new)) }

    // Whatever the status, only text of the first units of what was read was written, or lines of its context.
    ensures front { OnJob (texts words.now)
        (λ job. WritesRead job (S.inlet input.old) (S.inlet input.new) (K.outlet output.old)
        (K.outlet output.new)) }

    // Where the input failed, of binary input the text of the whole units that were read was written, and else nothing.
    ensures so_far { OnJob (texts words.now) (λ job. result ≡ 5
        → WritesSoFar K.outlet job (S.inlet input.old) (S.inlet input.new) output.old output.new) }

    // Where the input tells its bytes, the outcome of the command's job on them says the status, the output and the note.
    ensures judged { OnJob (texts words.now)
        (λ job. IfSome (S.inlet input.old).left (IsJudgedAt job (stage_of result))) }
    ensures carried { OnJob (texts words.now) (λ job. OnOutcome job (S.inlet input.old).left
        (CarriesOut result (K.outlet output.old) (K.outlet output.new)
        (Notes (N.outlet notes.old) (N.outlet notes.new)))) }
    ensures output_takes { OnJob (texts words.now) (λ job. OnOutcome job (S.inlet input.old).left
        (λ outcome. Takes (K.outlet output.old).sure (length outcome.text) → result ≢ 6)) }

    // So do the outcomes of a conversion or a report on other bytes that hold the same batches of Jaeger, in whichever protocol.
    ensures same { OnSpans (texts words.now)
        (λ from what. OnSameBatches from what (S.inlet input.old).left
        (CarriesOut result (K.outlet output.old) (K.outlet output.new)
        (Notes (N.outlet notes.old) (N.outlet notes.new)))) }

    // So do those on other bytes that differ in members alone that a form in JSON doesn't know.
    ensures free_members { OnSpans (texts words.now)
        (λ from what. OnAgreeingDocuments from what (S.inlet input.old).left
        (CarriesOut result (K.outlet output.old) (K.outlet output.new)
        (Notes (N.outlet notes.old) (N.outlet notes.new)))) }

    // A converted text is read back as the normal form of the trace that was read, which keeps all its spans. Where it fits it
    // converts back to the form that was read, which leaves that normal form as it is.
    ensures there_and_back { OnConversions (texts words.now)
        (λ from to. result ≡ 0 → IfSome (S.inlet input.old).left
        (WritesTextOf from to (K.outlet output.old) (K.outlet output.new))) }

    // Of losses the one line `losses 0` is written exactly where the trace that was read is its own normal form of the target.
    ensures nothing_lost { OnLosses (texts words.now)
        (λ from to. result ≡ 0 → IfSome (S.inlet input.old).left
        (WritesLossesOf from to (K.outlet output.old) (K.outlet output.new))) }

    // Header lines that were written tell the normal form of what was read, and equal lines come of equal normal forms alone.
    ensures read_back { OnHeaders (texts words.now)
        (λ form. result ≡ 0 → IfSome (S.inlet input.old).left
        (WritesLinesOf form (K.outlet output.old) (K.outlet output.new))) }

    // The sizes of the gauge are written whatever the input is, which stays as it was. No status but 0, 6 and 7 is answered.
    ensures gauge { OnGauge (texts words.now)
        (λ spans. EndsGaugeRun spans result input.old input.new
        (K.outlet output.old) (K.outlet output.new) (N.outlet notes.old) (N.outlet notes.new)) }

    // The line of each status but 3 and 4 doesn't hang on the input. After the whole text nothing is noted.
    ensures line { UnlessServing (texts words.now) (result ≢ 3 → result ≢ 4
        → Notes (N.outlet notes.old) (N.outlet notes.new) (stage_line (stage_of result))) }
    ensures silent { UnlessServing (texts words.now) (result ≡ 0 → notes.new ≡ notes.old) }

    // Connections are served one after the other, each as `serve_connection` does, and neither input nor output is called.
    ensures serves { OnServing (texts words.now)
        (λ address to count. ServesConnections address to count result
        (D.doorway door.old) (D.doorway door.new) (N.outlet notes.old) (N.outlet notes.new)) }
    ensures serves_alone { OnServing (texts words.now)
        (λ address to count. (input.new ≡ input.old) × (output.new ≡ output.old)) }
{
    let Some(command) = read_words(words) else {
        note_usage(notes);
        return 2;
    };
    let job = match command.task() {
        Task::Make(job) => job,
        Task::Serve { address, to, count } => {
            return serve(alloc, words[address].as_str(), to, count, notes, door);
        }
    };
    let ending = carry_out(alloc, job, input, output);
    note_ending(notes, &ending);
    same_batches();
    free_members();
    output_read_back();
    no_losses();
    contexts_are_normal();
    heads_are_sound();
    headers_read_back();
    ending.status()
}

// Does a job.
fn carry_out<S: Source, K: Sink>(alloc: Global, job: Job, input: &mut S, output: &mut K) -> Ending
    requires { IsInRange job }
    ensures run { EndsRun K.outlet job result (S.inlet input.old)
        (S.inlet input.new) output.old output.new }
    ensures gauge { IfGauge job
        (λ spans. (input.new ≡ input.old) × EndsGauge K.outlet spans result output.old output.new) }
{
    match job {
        Job::Spans(from, what) => spans(alloc, from, what, input, output),
        Job::HeaderLines(form) => headers(alloc, form, input, output),
        Job::Gauge(spans) => gauge(alloc, spans, output),
    }
}

// Feeds the input to what converts or reports it, and then ends it.
fn spans<S: Source, K: Sink>(
    alloc: Global,
    from: Form,
    what: Written,
    input: &mut S,
    output: &mut K,
) -> Ending
    ensures { EndsRun K.outlet (Spans from what) result (S.inlet input.old)
        (S.inlet input.new) output.old output.new }
{
    gains_then();
    let mut walker = Walker::new(alloc, from, what, &Limits::shipped());
    if let Err(ending) = feed_input(alloc, &mut walker, input, output) {
        return ending;
    }
    match walker.finish(output) {
        Ok(_) => Ending::Whole,
        Err(stop) => Ending::at_stop(alloc, &walker, stop),
    }
}
